//! Runs by several lanes: whatever their number, a run answers, shows and leaves the same; and they
//! read at once.

ghost use Rattle.std.specs.Prelude.{◌≡◌};
ghost use Rattle.ob_mem.specs.Memory.{disk_of_store};

use crate::playing::{expect, expect_asked, insist, play};
use ob_mem::GateStore;
use ob_top_calls::{CELLS, Noting, are_alike, let_noting_go};
use std::process::Abort;
use std::sync::Wait;
use std::thread::Threads;

const NEW: &str = "\
    format S K 8 2 2 3 2 2 2 2 8 <  -> 0 store of 109 cells/\n\
    crash";

// The same script by 1, 2, 4 and 16 lanes, and by as many as there are where no number is given.
static BY_LANES: [&str; 5] = [
    "run S K --lanes 1 < client 1/begin/put 5 hi/commit/begin/get 5/commit",
    "run S K --lanes 2 < client 1/begin/put 5 hi/commit/begin/get 5/commit",
    "run S K --lanes 4 < client 1/begin/put 5 hi/commit/begin/get 5/commit",
    "run S K --lanes 16 < client 1/begin/put 5 hi/commit/begin/get 5/commit",
    "run S K < client 1/begin/put 5 hi/commit/begin/get 5/commit",
];

// What is answered.
const TOLD: &str = "\
    0 epoch 1/txn 1 client 1 committed/put 5 hi/epoch 2/txn 1 client 1 committed/get 5 = hi/";

// What is asked of the store where one lane reads: of several, any may make a phase's next read.
const ASKED: &str = "opening record batch second lifts refill register next";

// What a run by these lanes leaves.
fn left_by<R: AllocGlobal + Threads + Wait + Sync + Abort>(rt: &R, call: &str) -> Noting
    ensures { (disk_of_store result.store).out ≡ 0 }
{
    let mut store = play(rt, CELLS, &[], NEW);
    expect(rt, &mut store, &[], call, TOLD);
    store
}

// A run leaves the same in each cell as that of one lane, of which all is told that it asks.
fn expect_alike<R: AllocGlobal + Threads + Wait + Sync + Abort>(rt: &R, call: &str) {
    let mut first = left_by(rt, BY_LANES[0]);
    let mut left = left_by(rt, call);
    let alike = are_alike(&mut first.store, &mut left.store, CELLS as u64);
    insist(rt, alike.expect(rt, "the cells"), call);
    expect_asked(rt, &first, ASKED);
    let_noting_go(first);
    let_noting_go(left);
}

#[test]
fn any_number_of_lanes_does_the_same(rt: HostRuntime) {
    for &call in &BY_LANES {
        expect_alike(&rt, call);
    }
}

// The run of a call over a gate, which waits so long for a second lane in each phase: how many
// phases there were in which two lanes were out.
fn phases_of<R: AllocGlobal + Threads + Wait + Sync + Abort>(rt: &R, call: &str) -> u64 {
    let Noting { store, .. } = play(rt, CELLS, &[], NEW);
    let mut store = GateStore::new(store, 10_000_000);
    expect(rt, &mut store, &[], call, TOLD);
    store.phases()
}

#[test]
fn lanes_read_at_once(rt: HostRuntime) {
    for i in 0..3 {
        let wanted = if i == 0 { 0 } else { 6 };
        insist(&rt, phases_of(&rt, BY_LANES[i]) == wanted, BY_LANES[i]);
    }
}
