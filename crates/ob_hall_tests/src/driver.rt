//! What the driver of a test's hall does beside the clients: one turn, in which it holds the desk
//! or stops it.

ghost use Rattle.ob_hall_tests.specs.Halls.{IsNewDriver, LeavesOpen};

use crate::asking::Clock;
use ob_base::Fault;
use ob_hall::{Driven, Hall, Pass, Turned};
use std::snapshot::Snapshot;
use std::sync::Wait;

/// The fault with which it stops the desk.
pub const FAULT: Fault = Fault::StoreFault { unsure: None };

/// The epoch that it raises.
pub const EPOCH: u64 = 7;

// Waits until a client's call waits, but not for longer than some seconds.
fn until_asked<R: Wait>(rt: &R, hall: &Hall) {
    for _ in 0..1000 {
        if hall.asked() > 0 {
            return;
        }
        hall.rest(rt, 0);
    }
}

/// Waits until a client's call waits, and then stops the desk.
pub fn stop_once_asked<R: Wait>(rt: &R, hall: &Hall, pass: &mut Pass)
    requires { IsNewDriver hall.now pass.old }
    ensures { LeavesOpen hall.now pass.new }
{
    until_asked(rt, hall);
    let mut desk = ob_calls::enter(rt, hall, pass);
    desk.stop(FAULT);
    let stopped = Turned::driver(Driven::Stop { fault: FAULT });
    hall.leave(pass, desk, Snapshot::of(&stopped));
    hall.wake();
}

/// Raises the durable epoch, and holds its turn, in which nothing is called, until a client has
/// made a call meanwhile.
pub fn hold_a_turn<R: Wait>(rt: &R, hall: &Hall, pass: &mut Pass, clock: &Clock)
    requires { IsNewDriver hall.now pass.old }
    ensures { LeavesOpen hall.now pass.new }
{
    hall.raise(pass, EPOCH);
    let desk = ob_calls::enter(rt, hall, pass);
    clock.count(true);
    clock.wait_until(rt, 2);
    clock.count(clock.made() == 2);
    let nothing = Turned::none();
    hall.leave(pass, desk, Snapshot::of(&nothing));
}
