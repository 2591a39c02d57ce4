//! What each half is asked in a run over a mirror, and what its trace tells.

use crate::playing::{
    Call, Halves, NONE, asked, blank, expect_alone, formatted, insist, let_both_go, run_over,
    text_of,
};
use ob_mem::MemSink;
use ob_top_calls::{CELLS, NEVER, let_noting_go, sink_of};
use std::process::Abort;
use std::sync::Wait;
use std::thread::Threads;

// What follows the lines of the same call of each cell.
fn behind_cells<'a>(text: &'a str, mark: &str) -> Option<&'a str> {
    let mut rest = text;
    for cell in 0..CELLS {
        let Some((line, behind)) = rest.split_once('\n') else {
            return None;
        };
        let number = line.strip_prefix(mark).unwrap_or("");
        if number.parse::<usize>().unwrap_or(CELLS) != cell {
            return None;
        }
        rest = behind;
    }
    Some(rest)
}

// Whether one text has the other one's lines, but for those of it that begin so.
fn has_lines(text: &str, skipped: &str, wanted: &str) -> bool {
    let mut others = wanted.lines();
    for line in text.lines() {
        if !line.starts_with(skipped) && others.next().unwrap_or("") != line {
            return false;
        }
    }
    others.next().is_none()
}

// The first half is asked the same as a store alone, and behind the head what joins both: the
// epoch's register, and each cell.
fn asks_first(first: &str, run: &str) -> bool {
    let join = first
        .strip_prefix("R 0\nR 5\nR 6\nR 7\nR 8\n")
        .unwrap_or("");
    match behind_cells(join, "R ") {
        Some(rest) => run.strip_prefix("R 0\n").unwrap_or("") == rest,
        None => false,
    }
}

// The second one is asked to write each cell and to sync, and then the run's writes and syncs.
fn asks_second(second: &str, run: &str) -> bool {
    match behind_cells(second, "W ").unwrap_or("").strip_prefix("S\n") {
        Some(changes) => changes.lines().count() == 56 && has_lines(run, "R", changes),
        None => false,
    }
}

// Behind its first line a trace has what was asked of the first half, and the leaves.
fn traces_first(trace: &str, first: &str) -> bool {
    match trace.strip_prefix("O M\n") {
        Some(calls) => calls.lines().count() == 216 && has_lines(calls, "L", first),
        None => false,
    }
}

// A run of an empty transaction over one store, and over both with a trace.
const EMPTY_ALONE: Call = Call {
    words: "run S K --lanes 1",
    script: "client 1/begin/commit",
    status: 0,
    told: "epoch 1/txn 1 client 1 committed/",
};

const EMPTY: Call = Call {
    words: "run S K --lanes 1 --mirror F --trace T",
    ..EMPTY_ALONE
};

// A sink for a trace, of which this write fails.
fn sink<R: AllocGlobal + Abort>(rt: &R, bad: u64) -> Option<MemSink> {
    Some(sink_of(rt.alloc(), 4000, bad).expect(rt, "memory"))
}

// Such a run with this trace: both halves behind it.
fn traced<R: AllocGlobal + Threads + Wait + Sync + Abort>(
    rt: &R,
    call: &Call,
    trace: &mut Option<MemSink>,
) -> Halves {
    let first = formatted(rt, NONE);
    let second = blank(rt, CELLS, NONE);
    run_over(rt, first, second, call, trace)
}

// Each half is asked what it has to be, and the trace tells it.
fn expect_events<R: AllocGlobal + Threads + Wait + Sync + Abort>(rt: &R) {
    let mut alone = formatted(rt, NONE);
    expect_alone(rt, &mut alone, &EMPTY_ALONE);
    let mut trace = sink(rt, NEVER);
    let halves = traced(rt, &EMPTY, &mut trace);
    let trace = trace.expect(rt, "the trace");
    let run = asked(rt, &alone);
    let first = asked(rt, &halves.first);
    insist(rt, asks_first(first, run), "the first");
    insist(
        rt,
        asks_second(asked(rt, &halves.second), run),
        "the second",
    );
    insist(
        rt,
        traces_first(text_of(rt, trace.written()), first),
        "the trace",
    );
    let_noting_go(alone);
    let_both_go(halves);
}

#[test]
fn each_half_is_asked_what_is_traced(rt: HostRuntime) {
    expect_events(&rt);
}

// What a run tells whose trace fails.
const CUT: Call = Call {
    status: 7,
    told: "fault: sink/",
    ..EMPTY
};

// The sink of a trace fails at this write: the output's fault is told, once what was begun is done.
fn is_cut<R: AllocGlobal + Threads + Wait + Sync + Abort>(
    rt: &R,
    write: u64,
    reads: usize,
    copies: usize,
) {
    let mut trace = sink(rt, write);
    let halves = traced(rt, &CUT, &mut trace);
    let read = asked(rt, &halves.first).lines().count();
    let copied = asked(rt, &halves.second).lines().count();
    let_both_go(halves);
    assert!(rt; read == reads && copied == copies, "{write}");
}

// At the first line, behind the head's read, in the copy, and behind it.
fn are_cut<R: AllocGlobal + Threads + Wait + Sync + Abort>(rt: &R) {
    is_cut(rt, 0, 0, 0);
    is_cut(rt, 1, 1, 0);
    is_cut(rt, 2, CELLS + 5, CELLS + 1);
    is_cut(rt, 114, CELLS + 5, CELLS + 1);
}

#[test]
fn a_trace_that_fails_stops_the_run_behind_the_join_at_the_latest(rt: HostRuntime) {
    are_cut(&rt);
}
