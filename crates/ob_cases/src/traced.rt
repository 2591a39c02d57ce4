//! What stands in the trace of a call, line by line.

ghost use Rattle.std.specs.Prelude.{◌≡◌};
ghost use Rattle.ob_mem.specs.Memory.{disk_of_store};

use crate::calling::{
    EMPTY, RUNS, ask_for, ask_with, blank, expect, formatted, insist, left_after, new_store,
    replaced,
};
use crate::lines::{AGAIN, FORMATTED, ONE_EPOCH, TWO_EPOCHS};
use ob_mem::{Fail, MemStore};
use ob_top_calls::{Ask, CELLS, let_go};
use std::process::Abort;
use std::sync::Wait;
use std::thread::Threads;

// How many lines and bytes the lists have.
static SIZES: [(&str, usize, usize); 4] = [
    (FORMATTED, 73, 338),
    (ONE_EPOCH, 104, 474),
    (TWO_EPOCHS, 188, 867),
    (AGAIN, 102, 466),
];

#[test]
fn lists_are_as_long(rt: HostRuntime) {
    for &(list, lines, bytes) in &SIZES {
        let count = list.split_terminator('/').count();
        insist(&rt, count == lines && list.len() == bytes, list);
    }
}

// A call over a store, which is let go behind it.
fn expect_over<R: AllocGlobal + Threads + Wait + Sync + Abort>(
    rt: &R,
    mut store: MemStore,
    ask: Ask<'_>,
    wanted: &str,
    list: (&str, usize),
)
    requires { (disk_of_store store).out ≡ 0 }
{
    expect(rt, &mut store, ask, wanted, list);
    let_go(store);
}

// A run over a store that was just formatted, in each way, of which this call fails.
fn play<R: AllocGlobal + Threads + Wait + Sync + Abort>(
    rt: &R,
    fails: &[Fail],
    mut ask: Ask<'_>,
    wanted: &str,
    list: (&str, usize),
) {
    for &words in &RUNS {
        ask.words = words;
        expect_over(rt, formatted(rt, fails), ask, wanted, list);
    }
}

const COMMITTED: &str = "0 epoch 1/txn 1 client 1 committed/";

// Two clients that ask for four keys in an epoch, and what they are told.
const BUSY: &str = "client 1/begin/get 5/get 3/put 1 a/put 7 b/commit/client 2/begin/get 2/commit";

const BUSY_TOLD: &str = "\
    0 epoch 1/txn 1 client 1 committed/get 5 absent/get 3 absent/put 1 a/put 7 b/\
    txn 2 client 2 committed/get 2 absent/";

#[test]
fn an_empty_epoch_looks_like_a_busy_one(rt: HostRuntime) {
    let empty = ask_for(RUNS[0], EMPTY);
    play(&rt, &[], empty, COMMITTED, (ONE_EPOCH, 104));
    let busy = ask_for(RUNS[1], BUSY);
    expect_over(&rt, formatted(&rt, &[]), busy, BUSY_TOLD, (ONE_EPOCH, 104));
}

#[test]
fn two_epochs_are_traced(rt: HostRuntime) {
    let script = "client 1/begin/put 5 hi/commit/begin/get 5/commit";
    let told = "\
        0 epoch 1/txn 1 client 1 committed/put 5 hi/\
        epoch 2/txn 1 client 1 committed/get 5 = hi/";
    let ask = ask_with(RUNS[0], script, &[0, 0, 0, 0, 1]);
    play(&rt, &[], ask, told, (TWO_EPOCHS, 188));
}

// What a run finds of the batches of the epoch that was cut off.
#[derive(Clone, Copy)]
enum Found {
    None,
    First,
    Both,
}

// A run that found so much: its trace, of so many lines, its script, and what it is told.
fn expect_found<R: AllocGlobal + Threads + Wait + Sync + Abort>(
    rt: &R,
    store: &mut MemStore,
    words: &str,
    found: Found,
)
    requires { (disk_of_store store.old).out ≡ 0 }
    ensures { (disk_of_store store.new).out ≡ 0 }
{
    let (from, to, lines) = match found {
        Found::None => ("L 0/R 41/", "W 13/S/W 14/S/L 0/R 41/", 106),
        Found::First => ("", "", 102),
        Found::Both => ("W 15/S/W 16/S/", "", 98),
    };
    let list = replaced(rt, AGAIN, from, to);
    let list = (list.as_str(), lines);
    if let Found::Both = found {
        let told = "0 epoch 1/txn 1 client 1 aborted reads full queued 0 left 0/";
        let get = ask_for(words, "client 1/begin/get 5/commit");
        expect(rt, store, get, told, list);
    } else {
        expect(rt, store, ask_for(words, EMPTY), COMMITTED, list);
    }
}

// A run of one epoch over a store that was just formatted.
fn ran<R: AllocGlobal + Threads + Wait + Sync + Abort>(rt: &R) -> MemStore {
    let mut ran = new_store(rt);
    let ask = ask_for(RUNS[1], EMPTY);
    expect(rt, &mut ran, ask, COMMITTED, (ONE_EPOCH, 104));
    ran
}

// Moments of this run, what the cells get that aren't sure then, and what the next run finds: at
// moment 8 the gate of the first batch's record is written and not synced, at 9 it is, and at 13
// that of the second one's.
static BEHIND: [(usize, Option<u8>, Found); 6] = [
    (8, None, Found::First),
    (8, Some(0), Found::None),
    (8, Some(0xA5), Found::First),
    (9, None, Found::First),
    (9, Some(0), Found::First),
    (13, None, Found::Both),
];

// The run over what a crash left.
fn expect_left<R: AllocGlobal + Threads + Wait + Sync + Abort>(
    rt: &R,
    mut left: MemStore,
    words: &str,
    found: Found,
)
    requires { (disk_of_store left).out ≡ 0 }
{
    expect_found(rt, &mut left, words, found);
    let_go(left);
}

fn expect_behind<R: AllocGlobal + Threads + Wait + Sync + Abort>(rt: &R, ran: &MemStore) {
    for &(moment, filling, found) in &BEHIND {
        for &words in &RUNS {
            expect_left(rt, left_after(rt, ran, moment, filling), words, found);
        }
    }
}

#[test]
fn a_run_behind_a_crash_shows_again_what_was_shown(rt: HostRuntime) {
    let ran = ran(&rt);
    expect_behind(&rt, &ran);
    let_go(ran);
}

// What is found where each byte of the gate is A5 hexadecimal, but for the one in this place.
fn expect_gate<R: AllocGlobal + Threads + Wait + Sync + Abort>(
    rt: &R,
    ran: &MemStore,
    place: usize,
    found: Found,
) {
    let mut gate = [0xA5; 128];
    if place < 128 {
        gate[place] = 0xA4;
    }
    let left = ran.crash(8, &[(14, gate)]).expect(rt, "memory");
    expect_left(rt, left, RUNS[place % 4], found);
}

fn expect_gates<R: AllocGlobal + Threads + Wait + Sync + Abort>(rt: &R, ran: &MemStore) {
    for place in 0..128 {
        expect_gate(rt, ran, place, Found::None);
    }
    expect_gate(rt, ran, 128, Found::First);
}

// The gate of the first batch's record where it isn't sure: it is open where each of its bytes is
// A5 hexadecimal, and only there.
#[test]
fn a_gate_is_open_where_all_its_bytes_say_so(rt: HostRuntime) {
    let ran = ran(&rt);
    expect_gates(&rt, &ran);
    let_go(ran);
}

// Where the script or the store is refused the head alone is read.
#[test]
fn the_head_stands_in_the_trace_of_a_refused_run(rt: HostRuntime) {
    let ask = ask_for(RUNS[0], "begin");
    play(&rt, &[], ask, "2 fault: script line 1/", (ONE_EPOCH, 2));
    let ask = ask_for(RUNS[0], EMPTY);
    let told = "3 fault: not a store/";
    expect_over(&rt, blank(&rt, CELLS, &[]), ask, told, (ONE_EPOCH, 2));
}

// Calls that fail behind a format of 62 writes and 10 syncs, how many lines of an epoch's the trace
// then has, the last of them, and whether the epoch is in doubt. Lane 5 is the first batch's first.
static FAILS: [(Fail, usize, &str, bool); 7] = [
    (Fail::Sync(19), 103, "W 8", true),
    (Fail::Sync(10), 25, "R 16", false),
    (Fail::Write(63), 29, "W 2", false),
    (Fail::Write(66), 43, "W 15", false),
    (Fail::Sync(18), 101, "W 7", false),
    (
        Fail::Read {
            cell: 46,
            writes: 66,
        },
        42,
        "R 57",
        false,
    ),
    (Fail::Lane(5), 34, "S", false),
];

const STORE: &str = "5 fault: store/";

const UNSURE: &str = "5 fault: store, epoch 1 unsure/";

fn expect_fail<R: AllocGlobal + Threads + Wait + Sync + Abort>(
    rt: &R,
    fail: Fail,
    lines: usize,
    last: &str,
    told: &str,
) {
    let line = ONE_EPOCH.split_terminator('/').nth(lines.saturating_sub(1));
    insist(rt, line == Some(last), last);
    play(
        rt,
        &[fail],
        ask_for(RUNS[0], EMPTY),
        told,
        (ONE_EPOCH, lines),
    );
}

#[test]
fn a_trace_tells_of_a_failing_call_what_was_done(rt: HostRuntime) {
    for &(fail, lines, last, unsure) in &FAILS {
        let told = if unsure { UNSURE } else { STORE };
        expect_fail(&rt, fail, lines, last, told);
    }
}
