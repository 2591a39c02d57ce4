//! Calls of the top over stores in memory, one behind the other, compared with what each has to
//! answer and to ask of its store.

ghost use Rattle.std.specs.Prelude.{◌≡◌};
ghost use Rattle.ob_mem.specs.Memory.{disk_of_store};

use crate::events::EVENTS;
use ob_lanes::Lanes;
use ob_mem::Fail;
use ob_top_calls as calls;
use ob_top_calls::{
    Answer, Ask, CELLS, END, Noting, ask_for, flip, has, let_noting_go, noted_after, noted_blank,
};
use std::process::Abort;
use std::sync::Wait;
use std::thread::Threads;

/// Ends the test where this isn't so, and names the case.
pub fn insist<R: Abort>(rt: &R, so: bool, case: &str) {
    assert!(rt; so, "{case}");
}

/// A number in digits.
pub fn number_of<R: Abort>(rt: &R, text: &str) -> u64 {
    text.parse::<u64>().ok().expect(rt, "a number")
}

/// What stands in a line before the first place of a mark, and behind it.
pub fn parted<'a, R: Abort>(rt: &R, line: &'a str, mark: &str) -> (&'a str, &'a str) {
    line.split_once(mark).expect(rt, mark)
}

/// The text of bytes.
pub fn text_of<'a, R: Abort>(rt: &R, bytes: &'a [u8]) -> &'a str {
    str::from_utf8(bytes).ok().expect(rt, "a text")
}

/// Makes a call.
pub fn call_on<R: AllocGlobal + Threads + Wait + Sync + Abort, S: Lanes>(
    rt: &R,
    store: &mut S,
    ask: &Ask<'_>,
) -> Answer
    requires { (S.disk store.old).out ≡ 0 }
    ensures { (S.disk store.new).out ≡ 0 }
{
    calls::call_over(rt, store, ask).expect(rt, "memory")
}

/// Makes a call, `WORDS < SCRIPT`, with a tape of these words and of zeros behind them, and
/// compares what it answers with `STATUS OUTPUT`.
pub fn expect<'a, R: AllocGlobal + Threads + Wait + Sync + Abort, S: Lanes>(
    rt: &R,
    store: &mut S,
    tape: &'a [u64],
    call: &'a str,
    wanted: &str,
)
    requires { (S.disk store.old).out ≡ 0 }
    ensures { (S.disk store.new).out ≡ 0 }
{
    let (words, script) = parted(rt, call, " < ");
    let (status, output) = parted(rt, wanted, " ");
    let mut ask = ask_for(words, script);
    ask.tape = tape;
    let answer = call_on(rt, store, &ask);
    insist(rt, answer.was(number_of(rt, status), output), call);
}

/// Asserts that since it was made, or since its last crash, the store was asked for the events of
/// these names, and for no other.
pub fn expect_asked<R: AllocGlobal + Abort>(rt: &R, store: &Noting, names: &str) {
    let mut wanted = String::new(rt.alloc());
    for line in EVENTS.lines() {
        let (name, events) = parted(rt, line, ": ");
        if names.contains(name) {
            wanted.push_str(events).expect(rt, "memory");
        }
    }
    let asked = has(&store.told, wanted.as_str());
    insist(rt, asked && store.told.faults() == 0, names);
}

// What a crash at this moment leaves of a store of at most 109 cells: in those that aren't sure
// what they got last, or this byte throughout.
fn left_after<R: AllocGlobal + Abort>(
    rt: &R,
    store: &Noting,
    moment: usize,
    filling: Option<u8>,
) -> Noting
    ensures { (disk_of_store result.store).out ≡ 0 }
{
    noted_after(rt.alloc(), store, moment, filling).expect(rt, "memory")
}

// Takes a step.
fn take<R: AllocGlobal + Threads + Wait + Sync + Abort>(rt: &R, store: &mut Noting, step: &str)
    requires { (disk_of_store store.old.store).out ≡ 0 }
    ensures { (disk_of_store store.new.store).out ≡ 0 }
{
    if let Some((call, wanted)) = step.split_once(" -> ") {
        expect(rt, store, &[], call, wanted);
    } else if step == "crash" {
        *store = left_after(rt, store, END, None);
    } else if let Some(cell) = step.strip_prefix("flip ") {
        let flipped = flip(&mut store.store, number_of(rt, cell));
        insist(rt, flipped.is_ok(), step);
    } else {
        expect_asked(rt, store, step.strip_prefix("asked ").expect(rt, "a step"));
    }
}

/// Takes steps, one behind the other, each a line.
///
/// `WORDS < SCRIPT -> STATUS OUTPUT` is a call with a tape of zeros, and what it answers; a `/`
/// stands for the end of a line. `crash` is one behind all calls, which leaves what was written.
/// `flip CELL` changes a bit of a cell. `asked NAMES` says what the store was asked, since it was
/// made or since its last crash.
pub fn go_on<R: AllocGlobal + Threads + Wait + Sync + Abort>(
    rt: &R,
    store: &mut Noting,
    steps: &str,
)
    requires { (disk_of_store store.old.store).out ≡ 0 }
    ensures { (disk_of_store store.new.store).out ≡ 0 }
{
    for step in steps.lines() {
        take(rt, store, step);
    }
    insist(rt, store.store.starved() == 0, steps);
}

/// A new store of so many cells, of which these calls fail, behind these steps.
pub fn play<R: AllocGlobal + Threads + Wait + Sync + Abort>(
    rt: &R,
    cells: usize,
    fails: &[Fail],
    steps: &str,
) -> Noting
    ensures { (disk_of_store result.store).out ≡ 0 }
{
    let mut store = noted_blank(rt.alloc(), cells, fails).expect(rt, "memory");
    go_on(rt, &mut store, steps);
    store
}

/// Plays these lives, each of a store of 8 keys.
pub fn play_all<R: AllocGlobal + Threads + Wait + Sync + Abort>(rt: &R, lives: &[&str]) {
    for steps in lives {
        let_noting_go(play(rt, CELLS, &[], *steps));
    }
}

/// What a crash at this moment leaves takes these steps.
pub fn go_on_behind<R: AllocGlobal + Threads + Wait + Sync + Abort>(
    rt: &R,
    ran: &Noting,
    moment: usize,
    filling: Option<u8>,
    steps: &str,
) {
    let mut left = left_after(rt, ran, moment, filling);
    go_on(rt, &mut left, steps);
    let_noting_go(left);
}
