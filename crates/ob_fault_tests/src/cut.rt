//! Traces that have too little room: what is still done, and what is told.

ghost use Rattle.std.specs.Prelude.{◌≡◌};
ghost use Rattle.ob_mem.specs.Memory.{disk_of_store};

use crate::playing::{expect, formatted, insist_at, left_after};
use ob_mem::MemStore;
use ob_top_calls::{Answer, Ask, END, NEVER, WIDE, ask_for, call, has, has_front, let_go};
use std::process::Abort;
use std::sync::Wait;
use std::thread::Threads;

// The trace of a run of one epoch over a store that was just formatted, as another implementation
// wrote it.
const TRACE: &str = "\
    O/R 0/R 1/R 2/R 3/R 4/R 5/R 6/R 7/R 8/R 17/R 18/R 19/R 20/R 21/R 22/R 23/R 24/R 25/R 26/\
    R 27/R 13/R 14/R 15/R 16/S/W 1/S/W 2/S/W 13/S/W 14/S/L 0/R 41/R 46/R 56/L 0/R 42/R 47/\
    R 57/W 15/S/W 16/S/L 0/R 43/R 39/R 40/R 48/R 44/R 45/R 58/R 54/R 55/L 0/R 49/R 50/R 64/\
    R 65/W 89/W 90/W 91/W 92/W 93/W 99/W 100/W 101/W 102/W 103/W 79/W 80/W 81/W 82/W 83/W 84/\
    W 85/W 86/W 87/W 88/W 74/W 75/W 76/W 77/W 78/W 28/W 29/W 30/W 31/W 32/W 33/W 34/W 35/W 36/\
    W 37/W 38/W 10/W 12/S/W 7/S/W 8/S/";

// How a run under a trace goes: by threads and by hand, with four lanes and with one.
static RUNS: [&str; 4] = [
    "run S K --trace T",
    "run S K --trace T --turns",
    "run S K --lanes 1 --trace T",
    "run S K --turns --trace T --lanes 1",
];

// A script of an empty transaction.
const EMPTY: &str = "client 1/begin/commit";

// How much room a trace of one epoch takes, and from how much on the epoch ends.
const WHOLE: usize = 474;

const ENDED: usize = 246;

// How many writes and syncs a run of one epoch makes whose trace has so much room.
fn steps_of(room: usize) -> usize {
    if room < 6 {
        0
    } else if room < 127 {
        5
    } else if room < 179 {
        9
    } else if room < ENDED {
        13
    } else {
        56
    }
}

/// Whether a call over a store under a trace, for which it asks, has this status, tells this, and
/// shows these lines as far as there is room.
pub fn is_traced<R: AllocGlobal + Threads + Wait + Sync + Abort>(
    rt: &R,
    store: &mut MemStore,
    ask: &Ask<'_>,
    status: u8,
    told: &str,
    lines: &str,
) -> bool
    requires { (disk_of_store store.old).out ≡ 0 }
    ensures { (disk_of_store store.new).out ≡ 0 }
{
    let answer = call(rt, store, ask).expect(rt, "memory");
    let Answer {
        status: ended,
        output,
        trace,
    } = answer;
    let trace = trace.expect(rt, "a trace");
    let room = ask.trace.unwrap_or(0);
    ended == status && has(&output, told) && has_front(&trace, lines, room)
}

// What the next run is told: which epoch has ended tells how the one before went.
fn expect_next<R: AllocGlobal + Threads + Wait + Sync + Abort>(
    rt: &R,
    store: &MemStore,
    ended: bool,
) {
    let mut left = left_after(rt, store, END, None);
    let told = if ended {
        "epoch 2/txn 1 client 1 committed/"
    } else {
        "epoch 1/txn 1 client 1 committed/"
    };
    expect(rt, &mut left, "run S K --turns", EMPTY, 0, told);
    let_go(left);
}

// A run of one epoch whose trace has so much room. What is told where it has all, and where it ends
// behind the epoch.
fn expect_cut<R: AllocGlobal + Threads + Wait + Sync + Abort>(
    rt: &R,
    words: &str,
    script: &str,
    told: (&str, &str),
    room: usize,
) {
    let mut store = formatted(rt, &[]);
    let mut ask = ask_for(words, script);
    ask.trace = Some(room);
    let (status, told) = if room >= WHOLE {
        (0, told.0)
    } else if room >= ENDED {
        (7, told.1)
    } else {
        (7, "fault: sink/")
    };
    let so = is_traced(rt, &mut store, &ask, status, told, TRACE);
    let steps = steps_of(room).saturating_add(72);
    insist_at(rt, so && store.moments() == steps, room as u64);
    expect_next(rt, &store, room >= ENDED);
    let_go(store);
}

// Rooms at which what a run does changes, and those before.
static EDGES: [usize; 11] = [0, 5, 6, 126, 127, 178, 179, 245, 246, 473, 474];

// Runs of one epoch with each room for the trace, each in the next way; at the edges in all ways.
fn expect_all_cut<R: AllocGlobal + Threads + Wait + Sync + Abort>(
    rt: &R,
    script: &str,
    told: (&str, &str),
) {
    for room in 0..WHOLE + 2 {
        for way in 0..4 {
            if way == room % 4 || EDGES.contains(&room) {
                expect_cut(rt, RUNS[way], script, told, room);
            }
        }
    }
}

#[test]
fn a_trace_is_cut_off_where_its_room_ends(rt: HostRuntime) {
    let told = (
        "epoch 1/txn 1 client 1 committed/",
        "epoch 1/txn 1 client 1 committed/fault: sink/",
    );
    expect_all_cut(&rt, EMPTY, told);
}

#[test]
fn a_batch_of_its_own_is_delivered_behind_a_trace_that_ends(rt: HostRuntime) {
    let told = (
        "epoch 1/txn 1 client 1 committed/get 5 absent/",
        "epoch 1/txn 1 client 1 committed/get 5 absent/fault: sink/",
    );
    expect_all_cut(&rt, "client 1/begin/get 5/commit", told);
}

// Reports where the trace ends within the epoch's end: the output's room, which write of it fails, and
// so much as is told of one.
static SHORT: [(usize, u64, &str); 6] = [
    (0, NEVER, ""),
    (1, NEVER, "e"),
    (10, NEVER, "epoch 1/tx"),
    (32, NEVER, "epoch 1/txn 1 client 1 committed"),
    (33, NEVER, "epoch 1/txn 1 client 1 committed/"),
    (WIDE, 0, ""),
];

fn expect_short<R: AllocGlobal + Threads + Wait + Sync + Abort>(rt: &R) {
    for &(room, bad_write, told) in &SHORT {
        let mut store = formatted(rt, &[]);
        let mut ask = ask_for(RUNS[1], EMPTY);
        ask.room = room;
        ask.bad_write = bad_write;
        ask.trace = Some(300);
        let so = is_traced(rt, &mut store, &ask, 7, told, TRACE);
        let_go(store);
        insist_at(rt, so, room as u64);
    }
}

#[test]
fn no_fault_is_told_where_the_output_fails_too(rt: HostRuntime) {
    expect_short(&rt);
}
