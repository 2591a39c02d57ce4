//! Calls of the top over a store in memory, or over none, and what each answers.

ghost use Rattle.std.specs.Prelude.{◌≡◌};
ghost use Rattle.ob_mem.specs.Memory.{disk_of_store};

use crate::lines::FORMATTED;
use ob_mem::{Fail, MemSink, MemStore};
use ob_top_calls as calls;
use ob_top_calls::{Answer, Ask, CELLS, END, KEYS, NEVER, WIDE, has_front, let_go};
use std::process::Abort;
use std::sync::Wait;
use std::thread::Threads;

/// Ends the test where this isn't so, and names the case.
pub fn insist<R: Abort>(rt: &R, so: bool, case: &str) {
    assert!(rt; so, "{case}");
}

/// The format of a store of 8 keys, under a trace.
pub const FORMAT: &str = "format S K 8 2 2 3 2 2 2 2 8 --trace T";

/// How a run under a trace goes: by threads and by hand, with four lanes and with one.
pub static RUNS: [&str; 4] = [
    "run S K --trace T",
    "run S K --trace T --turns",
    "run S K --lanes 1 --trace T",
    "run S K --turns --trace T --lanes 1",
];

/// A script of an empty transaction.
pub const EMPTY: &str = "client 1/begin/commit";

/// These words under the keys, with a script, a tape of zeros and wide room for a trace.
pub fn ask_for<'a>(words: &'a str, script: &'a str) -> Ask<'a> {
    ask_with(words, script, &[])
}

/// The same with a tape.
pub fn ask_with<'a>(words: &'a str, script: &'a str, tape: &'a [u64]) -> Ask<'a> {
    Ask {
        words,
        keys: Some(KEYS),
        script,
        tape,
        bad_read: NEVER,
        bad_write: NEVER,
        room: WIDE,
        trace: Some(WIDE),
    }
}

/// A text with another in each place of a part.
pub fn replaced<R: AllocGlobal + Abort>(rt: &R, text: &str, part: &str, by: &str) -> String {
    text.replace(rt.alloc(), part, by).expect(rt, "memory")
}

/// The text of bytes.
pub fn text_of<'a, R: Abort>(rt: &R, bytes: &'a [u8]) -> &'a str {
    str::from_utf8(bytes).ok().expect(rt, "a text")
}

/// What stands in a line before the first place of a mark, and behind it.
pub fn parted<'a, R: Abort>(rt: &R, line: &'a str, mark: &str) -> (&'a str, &'a str) {
    line.split_once(mark).expect(rt, mark)
}

/// A number in digits.
pub fn number_of<R: Abort>(rt: &R, text: &str) -> u64 {
    text.parse::<u64>().ok().expect(rt, "a number")
}

/// Compares what was told with `STATUS OUTPUT`.
pub fn expect_told<R: Abort>(rt: &R, answer: Answer, wanted: &str) {
    let (status, output) = parted(rt, wanted, " ");
    insist(rt, answer.was(number_of(rt, status), output), wanted);
}

/// Makes a call without a store, and compares what it answers with `STATUS OUTPUT`.
pub fn expect_alone<R: AllocGlobal + Threads + Wait + Sync + Abort>(
    rt: &R,
    ask: &Ask<'_>,
    wanted: &str,
) {
    let answer = calls::call_alone(rt, ask).expect(rt, "memory");
    expect_told(rt, answer, wanted);
}

// Whether a trace has the first so many lines of a list.
fn is_front(trace: &MemSink, list: &str, lines: usize) -> bool {
    let mut ends: usize = 0;
    let mut last = 0;
    for byte in trace.written() {
        last = *byte;
        ends = ends.saturating_add((*byte == b'\n') as usize);
    }
    last == b'\n' && ends == lines && has_front(trace, list, trace.written().len())
}

fn is_traced(trace: &Option<MemSink>, list: (&str, usize)) -> bool {
    match trace {
        Some(trace) => is_front(trace, list.0, list.1),
        None => false,
    }
}

/// Makes a call with room for all of its trace, and compares what it answers with `STATUS OUTPUT`,
/// and what is in the trace with the first so many lines of a list.
pub fn expect<R: AllocGlobal + Threads + Wait + Sync + Abort>(
    rt: &R,
    store: &mut MemStore,
    ask: Ask<'_>,
    wanted: &str,
    list: (&str, usize),
)
    requires { (disk_of_store store.old).out ≡ 0 }
    ensures { (disk_of_store store.new).out ≡ 0 }
{
    let answer = calls::call(rt, store, &ask).expect(rt, "memory");
    insist(rt, is_traced(&answer.trace, list), ask.words);
    expect_told(rt, answer, wanted);
}

/// A store of so many cells, of which these calls fail.
pub fn blank<R: AllocGlobal + Abort>(rt: &R, cells: usize, fails: &[Fail]) -> MemStore
    ensures { (disk_of_store result).out ≡ 0 }
{
    calls::blank(rt.alloc(), cells, fails).expect(rt, "memory")
}

/// A store of 8 keys, of which these calls fail, just formatted under a trace.
pub fn formatted<R: AllocGlobal + Threads + Wait + Sync + Abort>(rt: &R, fails: &[Fail]) -> MemStore
    ensures { (disk_of_store result).out ≡ 0 }
{
    let mut store = blank(rt, CELLS, fails);
    let told = "0 store of 109 cells/";
    expect(rt, &mut store, ask_for(FORMAT, ""), told, (FORMATTED, 73));
    insist(rt, store.moments() == 72, told);
    store
}

/// The same behind a crash that comes behind all calls.
pub fn new_store<R: AllocGlobal + Threads + Wait + Sync + Abort>(rt: &R) -> MemStore
    ensures { (disk_of_store result).out ≡ 0 }
{
    let formatted = formatted(rt, &[]);
    let store = left_after(rt, &formatted, END, None);
    let_go(formatted);
    store
}

/// What a crash at this moment leaves of a store of at most 109 cells: in those that aren't sure
/// what they got last, or this byte throughout.
pub fn left_after<R: AllocGlobal + Abort>(
    rt: &R,
    store: &MemStore,
    moment: usize,
    filling: Option<u8>,
) -> MemStore
    ensures { (disk_of_store result).out ≡ 0 }
{
    calls::left_after(store, moment, filling).expect(rt, "memory")
}
