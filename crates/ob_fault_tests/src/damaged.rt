//! Runs over a store of which cells are damaged: each cell, and two at once.

use crate::playing::{
    ONE_EPOCH, PUT, READS, RUN, STEPS, expect, formatted, insist, insist_at, made_before,
};
use crate::rows::{parted, play};
use ob_top_calls::{CELLS, flip, let_go};
use std::process::Abort;
use std::sync::Wait;
use std::thread::Threads;

// A body under a closed gate, closed gates, and the records that aren't begun: what they hold isn't
// looked at. The two open gates: a register without one is none of a store.
static FREE: [u64; 8] = [1, 2, 7, 8, 13, 14, 15, 16];

static GATES: [u64; 2] = [4, 6];

// The status where a cell is changed, and how many writes and syncs come before.
fn status_of(cell: u64) -> (u8, usize) {
    if GATES.contains(&cell) {
        return (3, 0);
    }
    for place in 0..READS.len() {
        if READS[place] == cell && !FREE.contains(&cell) {
            return (4, made_before(place).1);
        }
    }
    (0, STEPS)
}

// A run of a store of which this cell is changed. Whether it is told of it.
fn is_told<R: AllocGlobal + Threads + Wait + Sync + Abort>(rt: &R, cell: u64) -> bool {
    let fault = format!(in rt.alloc(); "fault: damaged cell {cell} tag/").expect(rt, "memory");
    let (status, steps) = status_of(cell);
    let told = match status {
        0 => ONE_EPOCH,
        3 => "fault: not a store/",
        _ => fault.as_str(),
    };
    let mut store = formatted(rt, &[]);
    insist_at(rt, flip(&mut store, cell).is_ok(), cell);
    expect(rt, &mut store, RUN, PUT, status, told);
    insist_at(rt, store.moments() == steps.saturating_add(73), cell);
    let_go(store);
    status == 4
}

// How many cells are told where they are changed.
fn count_told<R: AllocGlobal + Threads + Wait + Sync + Abort>(rt: &R) -> u64 {
    let mut damaged: u64 = 0;
    for cell in 0..CELLS as u64 {
        damaged = damaged.wrapping_add(is_told(rt, cell) as u64);
    }
    damaged
}

#[test]
fn each_damaged_cell_that_is_read_is_told(rt: HostRuntime) {
    insist(&rt, count_told(&rt) == 33, "cells");
}

// Two cells of one phase, of which the one is damaged, and the other too or its read is refused: which
// is told. Their phase is a batch, of which the order is 41, 46, 56, 42, 47, 57, or the lifts, 49, 50,
// 64, 65.
const BOTH: &str = "\
    new, flip 42, flip 56 -> 4 fault: damaged cell 56 tag/\n\
    new, flip 57, flip 41 -> 4 fault: damaged cell 41 tag/\n\
    new, flip 50, flip 64 -> 4 fault: damaged cell 50 tag/\n\
    read 47, flip 46 -> 4 fault: damaged cell 46 tag/\n\
    read 42, flip 56 -> 4 fault: damaged cell 56 tag/\n\
    read 56, flip 42 -> 5 fault: store/\n\
    read 41, flip 57 -> 5 fault: store/\n\
    read 57, flip 41 -> 4 fault: damaged cell 41 tag/\n\
    read 65, flip 49 -> 4 fault: damaged cell 49 tag/\n\
    read 64, flip 65 -> 5 fault: store/";

// Such runs, by these words.
fn expect_first<R: AllocGlobal + Threads + Wait + Sync + Abort>(rt: &R, words: &str) {
    for row in BOTH.lines() {
        let (found, wanted) = parted(rt, row, " -> ");
        let (_, faults) = play(rt, found, words, PUT, wanted);
        insist(rt, (faults > 0) == found.starts_with("read"), row);
    }
}

#[test]
fn of_two_that_fail_the_first_job_is_told(rt: HostRuntime) {
    expect_first(&rt, "run S K --lanes 1");
    expect_first(&rt, "run S K --lanes 4");
    expect_first(&rt, "run S K --lanes 16");
}
