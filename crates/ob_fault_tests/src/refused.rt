//! Runs of which a call fails: a read, a lane, the output, the input.

use crate::crashes::{expect_next, filling_of};
use crate::playing::{
    ONE_EPOCH, PUT, READS, RUN, STEPS, expect, formatted, insist, insist_at, left_after,
    made_before,
};
use ob_mem::{Fail, MemStore};
use ob_top_calls::{END, NEVER, WIDE, ask_for, call, let_go};
use std::process::Abort;
use std::sync::Wait;
use std::thread::Threads;

// The epochs that a run behind what is left of an epoch that didn't end finds, whatever the cells
// have that aren't sure.
fn expect_not_ended<R: AllocGlobal + Threads + Wait + Sync + Abort>(rt: &R, store: &MemStore) {
    for n in 0..3 {
        let mut left = left_after(rt, store, END, filling_of(n));
        expect_next(rt, &mut left, 1, false);
        let_go(left);
    }
}

// Whether a run has this call failing; then its fault is told, no write or sync comes behind it, so
// many were made before, and the next run finds the epoch not ended.
fn is_told<R: AllocGlobal + Threads + Wait + Sync + Abort>(
    rt: &R,
    words: &str,
    fail: Fail,
    steps: usize,
) -> bool {
    let mut store = formatted(rt, &[fail]);
    let answer = call(rt, &mut store, &ask_for(words, PUT)).expect(rt, "memory");
    let failed = store.faults() > 0;
    let (status, told, made) = if failed {
        (5, "fault: store/", steps)
    } else {
        (0, ONE_EPOCH, STEPS)
    };
    let so = answer.was(status, told) && store.moments() == made.saturating_add(72);
    insist_at(rt, so, made as u64);
    if failed {
        expect_not_ended(rt, &store);
    }
    let_go(store);
    failed
}

// Each read of a run, by these words.
fn expect_reads<R: AllocGlobal + Threads + Wait + Sync + Abort>(rt: &R, words: &str) {
    for place in 0..READS.len() {
        let (cell, (writes, steps)) = (READS[place], made_before(place));
        let fail = Fail::Read { cell, writes };
        insist_at(rt, is_told(rt, words, fail, steps), cell);
    }
}

#[test]
fn each_failing_read_is_told(rt: HostRuntime) {
    expect_reads(&rt, "run S K --lanes 1");
    expect_reads(&rt, "run S K --lanes 4");
}

// The lanes of a run: five of the opening, whose reads come one by one, those of the first batch up
// to this number, and those of the second one and of the lifts up to this; none comes behind them.
fn expect_lanes<R: AllocGlobal + Threads + Wait + Sync + Abort>(
    rt: &R,
    words: &str,
    first: u64,
    all: u64,
) {
    for lane in 0..all.saturating_add(1) {
        let steps = if lane < 5 {
            0
        } else if lane < first {
            9
        } else {
            13
        };
        let failed = is_told(rt, words, Fail::Lane(lane), steps);
        insist_at(rt, failed == (lane < all), lane);
    }
}

#[test]
fn each_lane_that_cannot_be_had_is_told(rt: HostRuntime) {
    expect_lanes(&rt, "run S K --lanes 1", 6, 8);
    expect_lanes(&rt, "run S K --lanes 4", 9, 17);
}

// The read of the input that fails, the write of the output that does, and its room; what is written,
// how many writes and syncs are made, and whether the epoch has ended.
type Ends = (u64, u64, usize, &'static str, usize, bool);

static ENDS: [Ends; 3] = [
    (NEVER, 0, WIDE, "", STEPS, true),
    (NEVER, NEVER, 3, "epo", STEPS, true),
    (0, NEVER, WIDE, "fault: source/", 0, false),
];

// Runs that end so.
fn expect_ends<R: AllocGlobal + Threads + Wait + Sync + Abort>(rt: &R) {
    for &(bad_read, bad_write, room, told, steps, ended) in &ENDS {
        let mut store = formatted(rt, &[]);
        let mut ask = ask_for(RUN, PUT);
        ask.bad_read = bad_read;
        ask.bad_write = bad_write;
        ask.room = room;
        let answer = call(rt, &mut store, &ask).expect(rt, "memory");
        let so = answer.was(7, told) && store.moments() == steps.saturating_add(72);
        insist(rt, so, told);
        expect_next(rt, &mut store, 1 + ended as u64, ended);
        let_go(store);
    }
}

#[test]
fn a_failing_output_or_input_is_told(rt: HostRuntime) {
    expect_ends(&rt);
}

// A run with a script of so many line ends.
fn expect_lines<R: AllocGlobal + Threads + Wait + Sync + Abort>(
    rt: &R,
    lines: usize,
    status: u8,
    told: &str,
) {
    let mut store = formatted(rt, &[]);
    let text = vec![in rt.alloc(); b'\n'; lines].expect(rt, "memory");
    let text = str::from_utf8(&text).ok().expect(rt, "a text");
    expect(rt, &mut store, RUN, text, status, told);
    let_go(store);
}

// A script of as many lines as there may be, and one of a line more.
#[test]
fn a_script_has_so_many_lines(rt: HostRuntime) {
    expect_lines(&rt, 1_048_576, 0, "");
    expect_lines(&rt, 1_048_577, 2, "fault: script line 1048577/");
}
