//! Runs in a row over one store, each cut off by a crash, and one audit of all that was traced.

ghost use Rattle.std.specs.Prelude.{◌≡◌};
ghost use Rattle.ob_mem.specs.Memory.{disk_of_store};

use crate::audits::expect_audit;
use crate::calling::{EMPTY, RUNS, ask_with, insist, left_after, new_store, text_of};
use crate::lines::FORMATTED;
use ob_mem::MemStore;
use ob_top_calls::{Answer, Ask, ask_for, call, let_go};
use std::mem::replace;
use std::process::Abort;
use std::sync::Wait;
use std::thread::Threads;

// Room for a trace of two epochs, and for what is told of them.
const ROOM: usize = 4000;

fn owned<R: AllocGlobal + Abort>(rt: &R, text: &str) -> String {
    String::from_str(rt.alloc(), text).expect(rt, "memory")
}

// A run's trace.
fn trace_of<R: AllocGlobal + Threads + Wait + Sync + Abort>(
    rt: &R,
    store: &mut MemStore,
    mut ask: Ask<'_>,
) -> String
    requires { (disk_of_store store.old).out ≡ 0 }
    ensures { (disk_of_store store.new).out ≡ 0 }
{
    ask.room = ROOM;
    ask.trace = Some(ROOM);
    let Answer {
        status,
        output,
        trace,
    } = call(rt, store, &ask).expect(rt, "memory");
    let so = status == 0 && output.written().starts_with(b"epoch ");
    insist(rt, so, ask.words);
    owned(rt, text_of(rt, trace.expect(rt, "a trace").written()))
}

// Puts the first so many lines of a trace behind a text: how many of them tell of a write or a
// sync.
fn push_front<R: AllocGlobal + Abort>(
    rt: &R,
    text: &mut String,
    trace: &str,
    many: usize,
) -> usize {
    let mut moments: usize = 0;
    let mut left = many;
    for line in trace.lines() {
        if left == 0 {
            break;
        }
        text.push_str(line).expect(rt, "memory");
        text.push_str("\n").expect(rt, "memory");
        if line.starts_with('W') || line.starts_with('S') {
            moments = moments.saturating_add(1);
        }
        left = left.saturating_sub(1);
    }
    moments
}

// Cuts a run off behind so many lines of its trace, which are put behind a text: what is left,
// where the cells that aren't sure have what they got last, or this byte throughout.
fn cut_off<R: AllocGlobal + Abort>(
    rt: &R,
    store: &MemStore,
    trace: &str,
    many: usize,
    filling: Option<u8>,
    text: &mut String,
) -> MemStore
    ensures { (disk_of_store result).out ≡ 0 }
{
    let moment = push_front(rt, text, trace, many);
    left_after(rt, store, moment, filling)
}

// The next run behind a run that was cut off so: an audit of both. Only where the generation's gate
// was written and not synced, and stayed, the next run begins as no trace may.
fn expect_behind<R: AllocGlobal + Threads + Wait + Sync + Abort>(
    rt: &R,
    ran: &MemStore,
    trace: &str,
    many: usize,
    filling: Option<u8>,
) {
    let mut text = owned(rt, FORMATTED);
    let mut left = cut_off(rt, ran, trace, many, filling, &mut text);
    let next = trace_of(rt, &mut left, ask_for(RUNS[many % 4], EMPTY));
    let_go(left);
    text.push_str(next.as_str()).expect(rt, "memory");
    if many == 29 && filling != Some(0) {
        expect_audit(rt, text.as_str(), "1 breaks line 129 wanted W 1/");
    } else {
        expect_audit(rt, text.as_str(), "0 fits/");
    }
}

// A store behind a run of one epoch, and its trace.
fn ran<R: AllocGlobal + Threads + Wait + Sync + Abort>(rt: &R) -> (MemStore, String) {
    let mut ran = new_store(rt);
    let trace = trace_of(rt, &mut ran, ask_for(RUNS[1], EMPTY));
    insist(rt, ran.moments() == 56, RUNS[1]);
    (ran, trace)
}

// Behind each of the 104 lines of such a run, with each filling.
fn expect_each<R: AllocGlobal + Threads + Wait + Sync + Abort>(
    rt: &R,
    ran: &MemStore,
    trace: &str,
) {
    for many in 1..105 {
        for filling in [None, Some(0), Some(0xA5)] {
            expect_behind(rt, ran, trace, many, filling);
        }
    }
}

#[test]
fn traces_in_a_row_fit_behind_a_crash(rt: HostRuntime) {
    let (ran, trace) = ran(&rt);
    expect_each(&rt, &ran, trace.as_str());
    let_go(ran);
}

// The next number of a row, below this one.
fn drawn(row: &mut u64, below: usize) -> usize {
    *row = row
        .wrapping_mul(6_364_136_223_846_793_005)
        .wrapping_add(1_442_695_040_888_963_407);
    (*row >> 33).checked_rem(below as u64).unwrap_or(0) as usize
}

// Two epochs' script.
const PUT_AND_GET: &str = "client 1/begin/get 3/put 5 hi/commit/begin/get 5/put 3 lo/commit";

// Words of a tape that are drawn.
fn tape_of(row: &mut u64) -> [u64; 16] {
    let mut tape = [0; 16];
    for i in 0..16 {
        tape[i] = drawn(row, 4) as u64;
    }
    tape
}

// A run that is cut off behind a drawn number of its trace's lines; where that is the write of a
// generation's gate, behind the sync that follows.
fn run_on<R: AllocGlobal + Threads + Wait + Sync + Abort>(
    rt: &R,
    store: &mut MemStore,
    ask: Ask<'_>,
    row: &mut u64,
    text: &mut String,
)
    requires { (disk_of_store store.old).out ≡ 0 }
    ensures { (disk_of_store store.new).out ≡ 0 }
{
    let trace = trace_of(rt, store, ask);
    let mut many = drawn(row, trace.lines().count()).saturating_add(1);
    let last = trace.lines().nth(many - 1).unwrap_or("");
    if last == "W 2" || last == "W 4" {
        many = many.saturating_add(1);
    }
    let filling = match drawn(row, 3) {
        0 => None,
        1 => Some(0),
        _ => Some(0xA5),
    };
    let left = cut_off(rt, store, trace.as_str(), many, filling, text);
    let_go(replace(store, left));
}

// Ten such runs, drawn from this number on.
fn expect_ten<R: AllocGlobal + Threads + Wait + Sync + Abort>(rt: &R, first: u64) {
    let mut row = first;
    let mut store = new_store(rt);
    let mut text = owned(rt, FORMATTED);
    for run in 0..10 {
        let tape = tape_of(&mut row);
        let ask = ask_with(RUNS[run % 4], PUT_AND_GET, &tape);
        run_on(rt, &mut store, ask, &mut row, &mut text);
    }
    let_go(store);
    expect_audit(rt, text.as_str(), "0 fits/");
}

#[test]
fn ten_runs_with_crashes_between_fit(rt: HostRuntime) {
    for first in 0..20_u64 {
        expect_ten(&rt, first);
    }
}
