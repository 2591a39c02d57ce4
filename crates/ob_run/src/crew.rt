//! The clients of a hall, in threads of their own or by hand.

ghost use Rattle.std.specs.Prelude.{All};
ghost use Rattle.ob_threads.specs.Served.{words};
ghost use Rattle.ob_threads.specs.Starts.{CanStep};
ghost use Rattle.ob_run.specs.Crews.{CrewSteps};

use ob_driver::{Hands, Room};
use ob_hall::Hall;
use ob_session::Runner;
use ob_threads::{Client, Started, step_all};
use std::sync::Wait;

/// Clients that were started, in order. They are joined and never let go.
pub(crate) struct Crew<U: Runner> {
    pub(crate) started: Vec<Started<U>>,
}

/// Clients that are to be started, those that were, and room for their driver.
pub(crate) struct Team<U: Runner> {
    pub(crate) waiting: Vec<Client<U>>,
    pub(crate) crew: Crew<U>,
    pub(crate) room: Room,
}

// Each client that is here makes one step.
fn step_each<U: Runner, R: Wait>(
    rt: &R,
    hall: &Hall,
    started: &mut Vec<Started<U>>,
    turns: &mut u64,
) -> bool
    requires met { All (CanStep (words U.client U.bound U.plan U.fits U.turn) hall.now)
        started.old.items }
    ensures stepped { CrewSteps (words U.client U.bound U.plan U.fits U.turn) hall.now turns.old
        started.old.items started.new.items turns.new }
{
    step_all(rt, hall, started.as_mut_slice(), turns)
}

impl<U: Runner> Hands for Crew<U> {
    ghost use Rattle.std.specs.Prelude.{All};
    ghost use Rattle.ob_threads.specs.Served.{words};
    ghost use Rattle.ob_threads.specs.Starts.{CanStep};
    ghost use Rattle.ob_run.specs.Crews.{CrewSteps};

    ghost ready = { λ hall crew.
        All (CanStep (words U.client U.bound U.plan U.fits U.turn) hall) crew.started.items };

    ghost round = { λ hall n first last m.
        CrewSteps (words U.client U.bound U.plan U.fits U.turn) hall n first.started.items
        last.started.items m };

    fn step_all<R: Wait>(&mut self, rt: &R, hall: &Hall, turns: &mut u64) -> bool {
        step_each(rt, hall, &mut self.started, turns)
    }
}
