//! Lives of stores, a step a line, played by each of some numbers of lanes.

ghost use Rattle.std.specs.Prelude.{◌≡◌, IfSome};
ghost use Rattle.ob_mem.specs.Memory.{disk_of_store};

use crate::calling::{
    ask_with, blank, expect_told, insist, left_after, number_of, parted, replaced,
};
use ob_mem::MemStore;
use ob_top_calls as calls;
use ob_top_calls::{END, cell_of, flip, let_go};
use std::mem::replace;
use std::process::Abort;
use std::sync::Wait;
use std::thread::Threads;

// The numbers of a line.
fn numbers_of<R: AllocGlobal + Abort>(rt: &R, line: &str) -> Vec<u64> {
    let mut numbers = Vec::new(rt.alloc());
    for word in line.split_whitespace() {
        let number = number_of(rt, word);
        numbers.push(number).expect(rt, "memory");
    }
    numbers
}

// Asserts that a cell begins with these numbers.
fn expect_begin<R: AllocGlobal + Abort>(rt: &R, store: &mut MemStore, step: &str)
    requires { (disk_of_store store.old).out ≡ 0 }
    ensures { (disk_of_store store.new).out ≡ 0 }
{
    let numbers = numbers_of(rt, step);
    assert!(*rt; 1 < numbers.len() && numbers.len() <= 17);
    let bytes = cell_of(store, numbers[0]).expect(rt, "a cell");
    expect_numbers(rt, &bytes, &numbers[1..]);
}

// Asserts that bytes begin with these numbers, of eight bytes each.
fn expect_numbers<R: Abort>(rt: &R, bytes: &[u8; 128], numbers: &[u64]) {
    let mut rest = bytes.as_slice();
    for number in numbers {
        let eight = number.to_le_bytes();
        rest = rest.strip_prefix(&eight).expect(rt, "this number");
    }
}

// Makes a call, `WORDS < SCRIPT` or `WORDS < SCRIPT < TAPE`, by so many lanes where it is a run.
fn make<R: AllocGlobal + Threads + Wait + Sync + Abort>(
    rt: &R,
    store: &mut MemStore,
    lanes: &str,
    line: &str,
    wanted: &str,
)
    requires { (disk_of_store store.old).out ≡ 0 }
    ensures { (disk_of_store store.new).out ≡ 0 }
{
    let (words, rest) = parted(rt, line, " < ");
    let (script, tape) = rest.split_once(" < ").unwrap_or((rest, ""));
    let words = replaced(rt, words, "run S K", lanes);
    let tape = numbers_of(rt, tape);
    let ask = ask_with(words.as_str(), script, &tape);
    let answer = calls::call(rt, store, &ask).expect(rt, "memory");
    expect_told(rt, answer, wanted);
}

// The store that stands in a store's place behind a step that makes another.
fn made_by<R: AllocGlobal + Abort>(rt: &R, store: &MemStore, step: &str) -> Option<MemStore>
    ensures { IfSome result (λ made. (disk_of_store made).out ≡ 0) }
{
    if let Some(cells) = step.strip_prefix("new ") {
        return Some(blank(rt, number_of(rt, cells) as usize, &[]));
    }
    if let Some(moment) = step.strip_prefix("crash ") {
        let moment = number_of(rt, moment) as usize;
        return Some(left_after(rt, store, moment, None));
    }
    if step == "crash" {
        return Some(left_after(rt, store, END, None));
    }
    None
}

// Takes another step.
fn take<R: AllocGlobal + Threads + Wait + Sync + Abort>(
    rt: &R,
    store: &mut MemStore,
    lanes: &str,
    step: &str,
)
    requires { (disk_of_store store.old).out ≡ 0 }
    ensures { (disk_of_store store.new).out ≡ 0 }
{
    if let Some((line, wanted)) = step.split_once(" -> ") {
        make(rt, store, lanes, line, wanted);
    } else if let Some(cell) = step.strip_prefix("flip ") {
        insist(rt, flip(store, number_of(rt, cell)).is_ok(), step);
    } else {
        expect_begin(rt, store, step.strip_prefix("cell ").expect(rt, "a step"));
    }
}

// Takes steps, one behind the other.
fn go_on<R: AllocGlobal + Threads + Wait + Sync + Abort>(rt: &R, lanes: &str, steps: &str) {
    let mut store = blank(rt, 0, &[]);
    for step in steps.lines() {
        match made_by(rt, &store, step) {
            Some(made) => let_go(replace(&mut store, made)),
            None => take(rt, &mut store, lanes, step),
        }
    }
    insist(rt, store.starved() == 0, steps);
    let_go(store);
}

/// Plays steps, each a line, by one lane and by four.
///
/// `new CELLS` is a store of so many cells. `WORDS < SCRIPT -> STATUS OUTPUT` is a call with a tape
/// of zeros, and what it answers; a `/` stands for the end of a line. Behind the script ` < TAPE`
/// is a tape of these words. `crash` is one behind all calls, which leaves what was written;
/// `crash MOMENT` one behind so many writes and syncs. `flip CELL` changes a bit of a cell.
/// `cell CELL A ..` says that a cell begins with these numbers, of eight bytes each.
pub fn play<R: AllocGlobal + Threads + Wait + Sync + Abort>(rt: &R, steps: &str) {
    go_on(rt, "run S K --lanes 1", steps);
    go_on(rt, "run S K --lanes 4", steps);
}
