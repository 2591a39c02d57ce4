//! Calls of the top over a store in memory, and what each told; what a crash leaves of a store.

ghost use Rattle.std.specs.Prelude.{◌≡◌};
ghost use Rattle.ob_mem.specs.Memory.{disk_of_store};

use ob_mem::{Fail, MemSink, MemStore};
use ob_top_calls as calls;
use ob_top_calls::{Answer, Ask, CELLS, ask_for};
use std::process::Abort;
use std::sync::Wait;
use std::thread::Threads;

/// Ends the test where this isn't so, and names the case.
pub fn insist<R: Abort>(rt: &R, so: bool, case: &str) {
    assert!(rt; so, "{case}");
}

/// How a run under a trace goes: by hand and by threads, with one lane and with four.
pub static RUNS: [&str; 4] = [
    "run S K --turns --lanes 1 --trace T",
    "run S K --trace T",
    "run S K --trace T --turns",
    "run S K --lanes 1 --trace T",
];

/// The script of an epoch without a key.
pub const EMPTY: &str = "client 1/begin/commit";

// What a sink got, as a text.
fn text_of<R: AllocGlobal + Abort>(rt: &R, sink: &MemSink) -> String {
    let text = str::from_utf8(sink.written()).ok().expect(rt, "a text");
    String::from_str(rt.alloc(), text).expect(rt, "memory")
}

/// Makes a call over a store, with as much room for its trace as for its output, which has this status:
/// what it told, and what it traced.
pub fn call<R: AllocGlobal + Threads + Wait + Sync + Abort>(
    rt: &R,
    store: &mut MemStore,
    mut ask: Ask<'_>,
    status: u8,
) -> (String, String)
    requires { (disk_of_store store.old).out ≡ 0 }
    ensures { (disk_of_store store.new).out ≡ 0 }
{
    ask.trace = Some(ask.room);
    let Answer {
        status: ended,
        output,
        trace,
    } = calls::call(rt, store, &ask).expect(rt, "memory");
    insist(rt, ended == status && store.starved() == 0, ask.words);
    let trace = trace.expect(rt, "a trace");
    (text_of(rt, &output), text_of(rt, &trace))
}

/// A new store of so many cells, of which these calls fail.
pub fn blank<R: AllocGlobal + Abort>(rt: &R, cells: usize, fails: &[Fail]) -> MemStore
    ensures { (disk_of_store result).out ≡ 0 }
{
    calls::blank(rt.alloc(), cells, fails).expect(rt, "memory")
}

/// A store of 8 keys, of which these calls fail, just formatted with this tape, by 62 writes and 10
/// syncs; and the format's trace.
pub fn formatted<R: AllocGlobal + Threads + Wait + Sync + Abort>(
    rt: &R,
    fails: &[Fail],
    tape: &[u64],
) -> (MemStore, String)
    ensures { (disk_of_store result.0).out ≡ 0 }
{
    let mut store = blank(rt, CELLS, fails);
    let mut ask = ask_for("format S K 8 2 2 3 2 2 2 2 8 --trace T", "");
    ask.tape = tape;
    let (_, trace) = call(rt, &mut store, ask, 0);
    insist(rt, trace.as_str().lines().count() == 73, "format");
    (store, trace)
}

// What the cells have that aren't sure, by its number: what they got last, or a byte throughout.
fn filling_of(n: usize) -> Option<u8> {
    match n {
        0 => None,
        1 => Some(0),
        _ => Some(0xA5),
    }
}

/// The filling of zeros.
pub const ZEROS: usize = 1;

/// What a crash at this moment leaves of a store of at most 109 cells, with this of three fillings in
/// the cells that aren't sure: what they got last, zeros, or A5 hexadecimal.
pub fn left_after<R: AllocGlobal + Abort>(
    rt: &R,
    store: &MemStore,
    moment: usize,
    filling: usize,
) -> MemStore
    ensures { (disk_of_store result).out ≡ 0 }
{
    calls::left_after(store, moment, filling_of(filling)).expect(rt, "memory")
}

/// An audit of these lines says this.
pub fn expect_said<R: AllocGlobal + Threads + Wait + Sync + Abort>(
    rt: &R,
    trace: &str,
    wanted: &str,
) {
    let answer = calls::call_alone(rt, &ask_for("audit", trace)).expect(rt, "memory");
    let status = (wanted != "fits/") as u64;
    insist(rt, answer.was(status, wanted), wanted);
}

/// The next number of a row, below this one.
pub fn drawn(row: &mut u64, below: usize) -> usize {
    *row = row
        .wrapping_mul(6_364_136_223_846_793_005)
        .wrapping_add(1_442_695_040_888_963_407);
    (*row >> 33).checked_rem(below as u64).unwrap_or(0) as usize
}

/// How the next run goes, by the next number of a row.
pub fn drawn_run(row: &mut u64) -> &'static str {
    RUNS.get(drawn(row, 4)).copied().unwrap_or(RUNS[0])
}
