//! Who makes calls by hand between the driver's looks.

use ob_hall::Hall;
use std::sync::Wait;

/// Clients whose calls are made by hand, on the driver's own thread, between its looks.
pub trait Hands {
    ghost use Rattle.std.specs.Prelude.{ℕ};
    ghost use Rattle.ob_hall.specs.Passes.{Hall as AnyHall};

    /// They may make steps at this hall.
    ghost ready: { AnyHall → Self → Type 0 };

    /// One round: each of them made one step. The turns of these steps stand one behind the other,
    /// and behind the first so many; up to the last of them there are so many.
    ghost round: { AnyHall → ℕ → Self → Self → ℕ → Type 0 };

    /// Each one in order makes one step. `turns` says how many turns the caller was told of, and
    /// then how many there are up to the last of these. Answers whether one of them ran.
    fn step_all<R: Wait>(&mut self, rt: &R, hall: &Hall, turns: &mut u64) -> bool
        requires ready { ready hall.now self.old }
        ensures ready { ready hall.now self.new }
        ensures round { round hall.now turns.old self.old self.new turns.new };
}
