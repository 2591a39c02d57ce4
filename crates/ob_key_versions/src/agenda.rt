//! Tickets to look at, the least first.

ghost use Rattle.std.specs.Prelude.{◌≡◌, ℕ, ◌<◌, ◌≤◌, ◌||◌, ◌==◌, true, MatchOption, IfSome, OnOk, OnErr, [], ◌∷◌, length};
ghost use Rattle.ob_key_versions.specs.Agendas.{has_ticket};

use ob_base::Memory;
use std::alloc::Global;
use std::collections::VecDeque;
use std::marker::Model;

/// Tickets, each once, in rising order. There is room for those from 1 to a greatest one, so that
/// adding one of these takes no memory.
#[derive(Drop)]
pub struct Agenda {
    tickets: VecDeque<u64>,
}

impl Model for Agenda {
    ghost use Rattle.std.specs.VecDeque.{deque_capacity};
    ghost use Rattle.ob_key_versions.specs.Agendas.{AgendaModel, RisesBetween};

    ghost Value = { AgendaModel };

    ghost view = { λ a. record { room = deque_capacity a.tickets; tickets = a.tickets.items } };

    ghost invariant = { λ a. RisesBetween 0 (deque_capacity a.tickets) a.tickets.items };
}

impl Agenda {
    /// No tickets.
    pub fn new(alloc: Global) -> Agenda
        ensures { result.tickets ≡ [] }
    {
        Agenda {
            tickets: VecDeque::new(alloc),
        }
    }

    /// Makes room for the tickets from 1 to this one.
    ///
    /// # Errors
    /// Memory was wanting. All is as before, but for the room, which may have grown.
    pub fn make_room(&mut self, greatest: u64) -> Result<(), Memory>
        ensures ok { OnOk result (greatest ≤ self.new.room) }
        ensures room { self.old.room ≤ self.new.room }
        ensures tickets { self.new.tickets ≡ self.old.tickets }
    {
        self.tickets.reserve(greatest as usize)?;
        Ok(())
    }

    /// The ticket is among these from now on.
    pub fn add(&mut self, t: u64)
        requires { (0 < t) × (t ≤ self.old.room) }
        ensures has { (u : ℕ)
            → has_ticket self.new.tickets u ≡ ((t == u) || has_ticket self.old.tickets u) }
        ensures room { self.old.room ≤ self.new.room }
    {
        if let Err(at) = self.tickets.binary_search(&t) {
            let _ = self.tickets.insert(at, t);
        }
    }

    /// Takes the least ticket out.
    pub fn take_least(&mut self) -> Option<u64>
        ensures least { MatchOption result ((self.old.tickets ≡ [])
            × (self.new.tickets ≡ [])) (λ t. self.old.tickets ≡ t ∷ self.new.tickets) }
        ensures above { IfSome result (λ t. (u : ℕ) → has_ticket self.new.tickets u ≡ true
            → t < u) }
        ensures room { self.new.room ≡ self.old.room }
    {
        self.tickets.pop_front()
    }
}
