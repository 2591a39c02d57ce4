//! Bells that one thread raises and others read.

ghost use Rattle.std.specs.Prelude.{◌≡◌, ◌≤◌, [], true};
ghost use Rattle.std.specs.Thread.{IsSync};
ghost use Rattle.ob_turn.specs.BellCalls.{IsBellSeat};

use crate::insist;
use ob_turn::{Bell, BellSeat};
use std::alloc::Global;
use std::process::Abort;
use std::thread::{Threads, join};

// Raises the bell one by one.
fn raise_to(bell: &Bell, mut seat: BellSeat, top: u64) -> BellSeat
    requires own { IsBellSeat bell.now seat }
    requires conductor { seat.me.0.raises ≡ true }
    requires unraised { seat.me.0.seen ≡ [] }
    ensures own { IsBellSeat bell.now result }
    ensures parts { result.me.0.parts ≡ seat.me.0.parts }
{
    for epoch in 0..top {
        bell.raise(&mut seat, epoch + 1);
    }
    seat
}

// Whether no reading is below the one before it.
fn never_falls(bell: &Bell, mut seat: BellSeat, times: u32) -> (BellSeat, bool)
    requires own { IsBellSeat bell.now seat }
    ensures own { IsBellSeat bell.now result.0 }
    ensures parts { result.0.me.0.parts ≡ seat.me.0.parts }
    ensures never { result.1 ≡ true }
{
    let mut last = 0;
    for _ in 0..times {
        let now = bell.durable(&mut seat);
        if now < last {
            return (seat, false);
        }
        last = now;
    }
    (seat, true)
}

// One thread raises the bell and another reads it: whether it never falls for the reader, what the
// reader is told then, and its seat, once it took in the one that raised.
fn raise_beside<R: Threads + Sync>(
    rt: &R,
    bell: &Bell,
    mut seat: BellSeat,
    top: u64,
) -> (bool, u64, BellSeat)
    requires own { IsBellSeat bell.now seat }
    requires conductor { (seat.me.0.raises ≡ true) × (seat.me.0.parts ≡ 2) }
    requires unraised { seat.me.0.seen ≡ [] }
    ensures own { IsBellSeat bell.now result.2 }
    ensures parts { result.2.me.0.parts ≡ 2 }
{
    let reader = bell.split(&mut seat);
    let (seat, (mut reader, never)) = join(
        rt,
        move || -> BellSeat
            requires { IsBellSeat bell.now seat × (seat.me.0.raises ≡ true)
                × (seat.me.0.seen ≡ []) × (seat.me.0.parts ≡ 1) }
            ensures { IsBellSeat bell.entry.now result × (result.me.0.parts ≡ 1) }
        { raise_to(bell, seat, top) },
        move || -> (BellSeat, bool)
            requires { IsBellSeat bell.now reader × (reader.me.0.parts ≡ 1) }
            ensures { IsBellSeat bell.entry.now result.0 × (result.0.me.0.parts ≡ 1) }
        { never_falls(bell, reader, 500) },
    );
    let told = bell.durable(&mut reader);
    bell.join(&mut reader, seat);
    (never, told, reader)
}

// Whether a bell that is raised beside its reader never falls, and tells the last number at the
// end.
fn rings_well<R: Threads + Sync + Abort>(rt: &R, alloc: Global, top: u64) -> bool {
    let Ok((bell, seat)) = Bell::new(alloc, 2) else {
        panic!(rt; "no memory")
    };
    let (never, told, reader) = raise_beside(rt, &bell, seat, top);
    let last = bell.close_with(reader);
    never && told == top && last == top
}

#[test]
fn a_bell_that_another_thread_raises_never_falls(rt: HostRuntime) {
    insist(&rt, rings_well(&rt, rt.alloc(), 500), 0);
}
