//! The bell's calls.

ghost use Rattle.std.specs.Prelude.{◌≡◌, ◌≤◌, true, IfOk};
ghost use Rattle.ob_turn.specs.BellHistory.{latest};
ghost use Rattle.ob_turn.specs.BellCalls.{IsFirst, IsBellSeat, ReadsBell, Raises, Parts, Joins, HasAllParts, seats_of};

use crate::bell::{Add, Bell, BellSeat, Look, Part};
use atomic_table::Table;
use ob_base::Memory;
use std::alloc::Global;

impl Bell {
    /// A bell at 0, and the one seat that may raise it, with so many parts (1 to `2^32 - 1`), each
    /// of which can be split off. It fails only for want of memory.
    pub fn new(alloc: Global, seats: u32) -> Result<(Bell, BellSeat), Memory>
        requires { 1 ≤ seats }
        ensures { IfOk result (λ b. IsBellSeat b.0 b.1 × IsFirst seats b.1
            × (seats_of b.0 ≡ seats)) }
    {
        let (table, seat) = Table::of_words(alloc, &[0], &seats)?;
        Ok((Bell { table }, seat))
    }

    /// The number last raised, 0 before the first raise. Its linearization point is one load: it
    /// waits for nobody and takes no memory.
    pub fn durable(&self, seat: &mut BellSeat) -> u64
        requires own { IsBellSeat self.now seat.old }
        ensures durable_last_raised { ReadsBell seat.old seat.new result }
    {
        self.table.shared.load::<Look>(seat, 0)
    }

    /// Raises the number to an epoch that isn't below the one last raised. Its linearization point
    /// is one addition of the difference: no other seat may raise, so the number read before it
    /// stands until then.
    pub fn raise(&self, seat: &mut BellSeat, epoch: u64)
        requires own { IsBellSeat self.now seat.old }
        requires conductor { seat.old.me.0.raises ≡ true }
        requires rising { latest 0 seat.old.me.0.seen ≤ epoch }
        ensures raised { Raises seat.old seat.new epoch }
    {
        let now = self.durable(seat);
        self.table.shared.fetch_add::<Add>(seat, 0, epoch - now);
    }

    /// Takes one part off a seat that has two or more. The new seat was told what this one was,
    /// and may not raise.
    pub fn split(&self, seat: &mut BellSeat) -> BellSeat
        requires own { IsBellSeat self.now seat.old }
        requires parts { 2 ≤ seat.old.me.0.parts }
        ensures split { Parts seat.old seat.new result }
    {
        self.table.shared.split_seat::<Part>(seat)
    }

    /// Takes in another seat, with all its parts and what it was told. Where either may raise,
    /// the seat then may.
    pub fn join(&self, seat: &mut BellSeat, other: BellSeat)
        requires own { IsBellSeat self.now seat.old × IsBellSeat self.now other }
        ensures joined { Joins seat.old other seat.new }
    {
        self.table.shared.join_seat::<Part>(seat, other)
    }

    /// The number last raised, to the seat that took in all others. It takes no memory.
    pub fn close_with(self, seat: BellSeat) -> u64
        requires own { IsBellSeat self seat }
        requires all { seat.me.0.parts ≡ seats_of self }
        ensures whole { HasAllParts seat result }
    {
        let Bell { table } = self;
        let closed = table.close_with(seat);
        let last = closed.word(0);
        closed.free();
        last
    }
}
