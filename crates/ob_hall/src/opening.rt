//! Opening a hall, and making its passes.

ghost use Rattle.std.specs.Prelude.{◌≡◌, ◌+◌, ℕ, length, IfOk};
ghost use Rattle.ob_desk.specs.Desk.{Setup, MayOpen, new_desk};
ghost use Rattle.ob_turn.specs.BellCalls as bells;
ghost use Rattle.ob_turn.specs.TurnCalls.{AreSeats};
ghost use Rattle.ob_hall.specs.Passes.{IsNew, opening_of};
ghost use Rattle.ob_hall.specs.Turns.{client_numbers};
ghost use Rattle.ob_hall.specs.Opening.{ArePasses};

use crate::hall::{Beside, Hall, Held, Pass};
use crate::turned::Turned;
use ob_base::Memory;
use ob_desk::Desk;
use ob_turn::{Bell, BellSeat, Turn, TurnSeat};
use std::alloc::Global;
use std::snapshot::Snapshot;
use std::sync::atomic::AtomicU64;

impl Hall {
    // The driver's pass and the clients', behind one another: the last seat is the last client's.
    fn seat_all(
        &self,
        alloc: Global,
        clients: &[u32],
        mut seats: Vec<TurnSeat<Desk, Turned>>,
        mut ear: BellSeat,
    ) -> Result<Vec<Pass>, Memory>
        requires seats { AreSeats self.now.turn (opening_of self.now) (length clients.now + 1)
            seats.items }
        requires ear { bells.IsBellSeat self.now.bell ear
            × bells.IsFirst (length clients.now + 1) ear
            × (bells.seats_of self.now.bell ≡ length clients.now + 1) }
        requires new { IsNew (opening_of self.now)
            × (client_numbers (opening_of self.now) ≡ clients.now) }
        ensures opened { IfOk result (λ passes. ArePasses self.now clients.now passes.items) }
    {
        let mut passes = Vec::new(alloc);
        for k in 0..clients.len() {
            let Some(seat) = seats.pop() else {
                unreachable!()
            };
            let pass = Held {
                seat,
                ear: self.bell.split(&mut ear),
                client: clients[clients.len() - 1 - k],
                last: None,
            };
            passes.insert(0, pass)?;
        }
        let Some(seat) = seats.pop() else {
            unreachable!()
        };
        let driver = Held {
            seat,
            ear,
            client: 0,
            last: None,
        };
        passes.insert(0, driver)?;
        Ok(passes)
    }

    /// A hall round a desk as it is made, with the passes of its callers: the driver's first, then
    /// one for each of the desk's clients, in their order. No call has been made.
    ///
    /// # Errors
    /// Memory was wanting, and the desk is gone.
    pub fn new(alloc: Global, desk: Desk, clients: &[u32]) -> Result<(Hall, Vec<Pass>), Memory>
        requires opens { (setup : Setup) × (epoch : ℕ) × (left : ℕ)
            × MayOpen setup epoch left clients.now
            × (desk ≡ new_desk setup epoch left clients.now) }
        ensures desk { IfOk result (λ r. opening_of r.0 ≡ desk) }
        ensures passes { IfOk result (λ r. ArePasses r.0 clients.now r.1.items) }
    {
        let opened = Snapshot::of(&desk);
        let callers = clients.len() as u32 + 1;
        let (turn, seats) = Turn::new(alloc, desk, callers)?;
        let (bell, ear) = Bell::new(alloc, callers)?;
        let hall = Beside {
            turn,
            bell,
            opened,
            news: AtomicU64::new(0),
            asks: AtomicU64::new(0),
        };
        let passes = hall.seat_all(alloc, clients, seats, ear)?;
        Ok((hall, passes))
    }
}
