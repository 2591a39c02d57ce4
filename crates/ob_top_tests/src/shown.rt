//! What calls do to their store, event by event: on new stores, behind crashes, and where they are
//! refused. One lane reads: which of several makes a read isn't fixed.

use crate::playing::{expect, expect_asked, go_on_behind, number_of, parted, play, play_all};
use ob_mem::Fail;
use ob_top_calls::{CELLS, let_noting_go};
use std::process::Abort;
use std::sync::Wait;
use std::thread::Threads;

const FORMATTED: &str = "\
    format S K 8 2 2 3 2 2 2 2 8 <  -> 0 store of 109 cells/\n\
    asked format";

// A run of an empty transaction.
const RUN: &str = "\
    format S K 8 2 2 3 2 2 2 2 8 <  -> 0 store of 109 cells/\n\
    crash\n\
    run S K --lanes 1 < client 1/begin/commit -> 0 epoch 1/txn 1 client 1 committed/\n\
    asked opening record batch second lifts refill register";

const TWO_EPOCHS: &str = "\
    format S K 8 2 2 3 2 2 2 2 8 <  -> 0 store of 109 cells/\n\
    crash\n\
    run S K --lanes 1 < client 1/begin/put 5 hi/commit/begin/get 5/commit/ -> \
    0 epoch 1/txn 1 client 1 committed/put 5 hi/epoch 2/txn 1 client 1 committed/get 5 = hi/\n\
    asked opening record batch second lifts refill register next";

const NEW: &str = "\
    format S K 8 2 2 3 2 2 2 2 8 <  -> 0 store of 109 cells/\n\
    crash";

// The same with a tape of another put's word.
#[test]
fn a_run_does_to_its_store_what_another_implementation_does(rt: HostRuntime) {
    play_all(&rt, &[FORMATTED, RUN, TWO_EPOCHS]);
    let mut store = play(&rt, CELLS, &[], NEW);
    expect(
        &rt,
        &mut store,
        &[0, 0, 0, 0, 1],
        "run S K --lanes 1 < client 1/begin/put 5 hi/commit/begin/get 5/commit/",
        "0 epoch 1/txn 1 client 1 committed/put 5 hi/epoch 2/txn 1 client 1 committed/get 5 = hi/",
    );
    let asked = "opening record batch second lifts refill register leaf";
    expect_asked(&rt, &store, asked);
    let_noting_go(store);
}

// What a run shows that found no record, the first batch's, and both.
const FOUND_NONE: &str = "\
    run S K --lanes 1 < client 1/begin/commit -> 0 epoch 1/txn 1 client 1 committed/\n\
    asked again record batch second lifts refill register";

const FOUND_ONE: &str = "\
    run S K --lanes 1 < client 1/begin/commit -> 0 epoch 1/txn 1 client 1 committed/\n\
    asked again batch second lifts refill register";

const FOUND_BOTH: &str = "\
    run S K --lanes 1 < client 1/begin/get 5/commit/ -> \
    0 epoch 1/txn 1 client 1 aborted reads full queued 0 left 0/\n\
    asked again batch lifts refill register";

// Moments of the run of an empty transaction, what the cells get that aren't sure then, and what
// the next run shows: at moment 8 the gate of the first batch's record is written and not synced,
// at 9 it is, and at 13 that of the second one's.
static BEHIND: [(usize, Option<u8>, &str); 5] = [
    (8, None, FOUND_ONE),
    (8, Some(0), FOUND_NONE),
    (8, Some(0xA5), FOUND_ONE),
    (9, None, FOUND_ONE),
    (13, None, FOUND_BOTH),
];

#[test]
fn a_run_goes_on_behind_a_crash_as_another_implementation_does(rt: HostRuntime) {
    let ran = play(&rt, CELLS, &[], RUN);
    for &(moment, filling, steps) in &BEHIND {
        go_on_behind(&rt, &ran, moment, filling, steps);
    }
    let_noting_go(ran);
}

// Calls that fail, behind a format of 62 writes and 10 syncs: the gate of the first batch's record,
// and its first slot; the first slot of the refill; the register's body and its sync, its gate and
// the sync behind that. What the run of an empty transaction answers then, and what it shows.
const REFUSED: &str = "\
    write 65: 5 fault: store/ -> format opening half\n\
    read 41: 5 fault: store/ -> format opening record batch\n\
    write 68: 5 fault: store/ -> format opening record batch second lifts slot\n\
    write 106: 5 fault: store/ -> format opening record batch second lifts refill body\n\
    sync 18: 5 fault: store/ -> format opening record batch second lifts refill sure\n\
    write 107: 5 fault: store, epoch 1 unsure/ -> \
    format opening record batch second lifts refill gate\n\
    sync 19: 5 fault: store, epoch 1 unsure/ -> \
    format opening record batch second lifts refill register";

// A call that fails; of a cell the reads behind 66 writes.
fn fail_of<R: Abort>(rt: &R, call: &str) -> Fail {
    let (kind, number) = parted(rt, call, " ");
    let number = number_of(rt, number);
    match kind {
        "write" => Fail::Write(number),
        "sync" => Fail::Sync(number),
        _ => Fail::Read {
            cell: number,
            writes: 66,
        },
    }
}

fn expect_refused<R: AllocGlobal + Threads + Wait + Sync + Abort>(rt: &R, row: &str) {
    let (call, row) = parted(rt, row, ": ");
    let (wanted, names) = parted(rt, row, " -> ");
    let mut store = play(rt, CELLS, &[fail_of(rt, call)], FORMATTED);
    let run = "run S K --lanes 1 < client 1/begin/commit";
    expect(rt, &mut store, &[], run, wanted);
    expect_asked(rt, &store, names);
    let_noting_go(store);
}

#[test]
fn a_refused_run_shows_what_its_fault_allows(rt: HostRuntime) {
    for row in REFUSED.lines() {
        expect_refused(&rt, row);
    }
}

// A slot of the first batch is damaged, or one of the lifts: the other reads of its phase are made.
const DAMAGED: &str = "\
    format S K 8 2 2 3 2 2 2 2 8 <  -> 0 store of 109 cells/\n\
    flip 41\n\
    run S K --lanes 1 < client 1/begin/commit -> 4 fault: damaged cell 41 tag/\n\
    asked format opening record batch";

const DAMAGED_LIFT: &str = "\
    format S K 8 2 2 3 2 2 2 2 8 <  -> 0 store of 109 cells/\n\
    flip 49\n\
    run S K --lanes 1 < client 1/begin/commit -> 4 fault: damaged cell 49 tag/\n\
    asked format opening record batch second lifts";

#[test]
fn a_phase_is_read_whole_where_a_cell_is_damaged(rt: HostRuntime) {
    play_all(&rt, &[DAMAGED, DAMAGED_LIFT]);
}
