//! A round of the clients whose calls are made by hand.

ghost use Rattle.std.specs.Prelude.{◌≡◌, [], ◌∷◌, All};
ghost use Rattle.std.specs.List.{list_any};
ghost use Rattle.ob_threads.specs.Served.{words};
ghost use Rattle.ob_threads.specs.Starts.{Each, CanStep, IsStepped, AreOrdered, ran_here};

use crate::starting::Started;
use ob_hall::{Hall, take_turn};
use ob_session::{Runner, Step};
use std::sync::Wait;

// One step of a client that is here, in a turn of its pass. True where it ran.
fn step<U: Runner, R: Wait>(rt: &R, hall: &Hall, started: &mut Started<U>, turns: &mut u64) -> bool
    requires met { CanStep (words U.client U.bound U.plan U.fits U.turn) hall.now started.old }
    ensures stepped { IsStepped (words U.client U.bound U.plan U.fits U.turn) hall.now started.old
        started.new }
    ensures ordered { AreOrdered turns.old (started.new ∷ []) turns.new }
    ensures ran { result ≡ ran_here started.new }
{
    match started {
        Started::Away { .. } => false,
        Started::Here { client } => {
            matches!(
                take_turn(rt, hall, &mut client.0, &mut client.1, turns),
                Step::Ran
            )
        }
    }
}

/// Each client that is here makes one step, in order, in a turn of its pass; those that are away
/// stay as they are. True where one of these steps ran, and neither waits nor signed off. These
/// turns stand one behind the other, and behind so many as the caller was told of in `turns`; then
/// `turns` says how many there are up to the last of them.
pub fn step_all<U: Runner, R: Wait>(
    rt: &R,
    hall: &Hall,
    started: &mut [Started<U>],
    turns: &mut u64,
) -> bool
    requires met { All (CanStep (words U.client U.bound U.plan U.fits U.turn) hall.now)
        started.old }
    ensures stepped { Each (IsStepped (words U.client U.bound U.plan U.fits U.turn) hall.now)
        started.old started.new }
    ensures ordered { AreOrdered turns.old started.new turns.new }
    ensures ran { result ≡ list_any ran_here started.new }
{
    let mut ran = false;
    for one in started.iter_mut() {
        ran |= step(rt, hall, one, turns);
    }
    ran
}
