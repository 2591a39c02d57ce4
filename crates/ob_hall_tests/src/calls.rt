//! Clients that make their calls in threads of their own, beside the driver and beside runners.

ghost use Rattle.ob_hall_tests.specs.Halls.{AreStarting, AreDone, MayStart, HasWorked};

use crate::asking::{Clock, follow};
use crate::driver::{hold_a_turn, stop_once_asked};
use crate::halls::{closed, opened};
use crate::insist;
use crate::scripts::{Plan, clients_of, lines_of};
use crate::visitor::Visitor;
use ob_base::Value;
use ob_hall::{Hall, Pass, drive};
use std::process::Abort;
use std::sync::Wait;
use std::thread;
use std::thread::Threads;

#[derive(Drop)]
struct Work {
    plan: Plan,
    /// What clients write.
    value: Value,
    clock: Clock,
}

// What the k-th caller does. The first is the driver; of runners beside clients every second client
// is one.
fn take_part<R: Wait>(rt: &R, hall: &Hall, k: usize, pass: &mut Pass, work: &Work)
    requires { MayStart hall.now k pass.old }
    ensures { HasWorked hall.now k pass.new }
{
    if k == 0 {
        match work.plan {
            Plan::Durable => hold_a_turn(rt, hall, pass, &work.clock),
            Plan::GetWaits | Plan::CommitWaits => stop_once_asked(rt, hall, pass),
            _ => {}
        }
    } else if k % 2 == 1 && matches!(work.plan, Plan::BesideRunners) {
        drive(rt, hall, pass, &mut Visitor::new(pass.client));
    } else {
        let (lines, calls) = lines_of(&work.plan, k);
        let own = ((k - 1) % 64) as u32;
        follow(rt, hall, pass, lines, calls, own, &work.value, &work.clock);
    }
}

// Each caller does its part in a thread of its own.
fn take_parts<R: Threads + Wait + Sync>(rt: &R, hall: &Hall, passes: &mut [Pass], work: &Work)
    requires { AreStarting hall.now 0 passes.old }
    ensures { AreDone hall.now 0 passes.new }
{
    thread::for_each_mut(
        rt,
        passes,
        64,
        &move |k, pass: &mut Pass|
            requires { MayStart hall.now k pass.old }
            ensures { HasWorked hall.entry.now k pass.new }
        { take_part(rt, hall, k, pass, work) },
    );
}

// Whether so many calls were made at a hall, each of them answered as wanted, and there were so
// many transactions.
fn at_hall<R: Threads + Wait + Sync + AllocGlobal + Abort>(
    rt: &R,
    plan: Plan,
    calls: u64,
    txns: u64,
) -> bool {
    let value = Value::new(b"a").expect(rt, "a value");
    let work = Work {
        plan,
        value,
        clock: Clock::new(),
    };
    let (hall, mut passes) = opened(rt, clients_of(&work.plan));
    take_parts(rt, &hall, passes.as_mut_slice(), &work);
    let begun = closed(hall, passes);
    work.clock.made() == calls && work.clock.right() == calls && begun == txns
}

// What is done at each hall, and how many calls and transactions that makes, counted by hand. The
// sixteen clients that don't wait for each other come five times.
const HALLS: &[(Plan, u64, u64)] = &[
    // The driver's turn, the client's call and the turn's end.
    (Plan::Durable, 3, 0),
    (Plan::Alone, 6, 1),
    (Plan::InOrder, 8, 2),
    (Plan::GetWaits, 4, 1),
    (Plan::CommitWaits, 4, 1),
    (Plan::BesideRunners, 3200, 800),
    (Plan::Apart, 32_000, 8000),
    (Plan::Apart, 32_000, 8000),
    (Plan::Apart, 32_000, 8000),
    (Plan::Apart, 32_000, 8000),
    (Plan::Apart, 32_000, 8000),
];

#[test]
fn each_call_is_answered_as_wanted(rt: HostRuntime) {
    for (i, (plan, calls, txns)) in HALLS.iter().enumerate() {
        insist(&rt, at_hall(&rt, *plan, *calls, *txns), i);
    }
}
