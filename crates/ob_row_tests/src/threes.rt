//! Three runs in a row over a store of 8 keys: the first is cut off by a crash, or refused where a
//! call fails; the second is cut off at a moment of its own; the third goes to its end. What all of
//! them traced has to fit an audit, and to be fresh.
//!
//! One case breaks: where a run was cut off behind the write that opens its generation's gate,
//! before the sync, and the next one found that generation. The first write of the run behind it is
//! then told, and that the number's body was wanted.

ghost use Rattle.std.specs.Prelude.{◌≡◌};
ghost use Rattle.ob_mem.specs.Memory.{disk_of_store};

use crate::asking::{
    EMPTY, RUNS, ZEROS, call, drawn, drawn_run, expect_said, formatted, insist, left_after,
};
use crate::freshness::is_fresh;
use ob_mem::{Fail, MemStore};
use ob_top_calls::{END, ask_for, let_go};
use std::process::Abort;
use std::sync::Wait;
use std::thread::Threads;

/// The script of two epochs, of which the second one reads what the first one put.
pub const PUT_AND_GET: &str = "client 1/begin/put 5 hi/commit/begin/get 5/commit";

/// A run that went well, with this script.
#[derive(Drop)]
pub struct Run {
    script: &'static str,
    /// What the format and the runs before it traced.
    pub text: String,
    /// The cell of the number's body that is wanted where that breaks.
    wanted: Option<u64>,
    /// Whether the run before it was refused, so that a crash before its first sync may still take
    /// from that one what wasn't sure.
    refused: bool,
    store: MemStore,
    /// How many writes and syncs the store had before it.
    before: usize,
    /// What it traced.
    pub trace: String,
}

/// Lets a run go: what all of them traced.
pub fn whole_of<R: AllocGlobal + Abort>(rt: &R, run: Run) -> String {
    let Run {
        mut text,
        store,
        trace,
        ..
    } = run;
    let_go(store);
    text.push_str(trace.as_str()).expect(rt, "memory");
    text
}

fn is_step(line: &str) -> bool {
    line.starts_with('W') || line.starts_with('S')
}

/// How many writes and syncs a trace tells of.
fn steps_of(trace: &str) -> usize {
    let mut steps: usize = 0;
    for line in trace.lines() {
        steps = steps.saturating_add(is_step(line) as usize);
    }
    steps
}

// Puts what was traced before the write or sync behind so many behind a text. Answers the cell of the
// generation's body where that ends with the write that opens its gate.
fn push_front<R: AllocGlobal + Abort>(
    rt: &R,
    text: &mut String,
    trace: &str,
    moment: usize,
) -> Option<u64> {
    let mut steps: usize = 0;
    for line in trace.lines() {
        steps = steps.saturating_add(is_step(line) as usize);
        if steps > moment {
            break;
        }
        text.push_str(line).expect(rt, "memory");
        text.push_str("\n").expect(rt, "memory");
    }
    body_of(text.as_str())
}

// The cell of the generation's body where a trace ends with the write that opens its gate.
fn body_of(trace: &str) -> Option<u64> {
    if trace.ends_with("W 1\nS\nW 2\n") {
        Some(1)
    } else if trace.ends_with("W 3\nS\nW 4\n") {
        Some(3)
    } else {
        None
    }
}

// The number of the first line with a write behind so many.
fn write_behind(text: &str, from: usize) -> usize {
    let mut number: usize = 0;
    for line in text.lines() {
        number = number.saturating_add(1);
        if number > from && line.starts_with('W') {
            break;
        }
    }
    number
}

// A run over a store, by these words.
fn run_over<R: AllocGlobal + Threads + Wait + Sync + Abort>(
    rt: &R,
    mut store: MemStore,
    words: &str,
    script: &'static str,
    text: String,
    wanted: Option<u64>,
    refused: bool,
) -> Run
    requires { (disk_of_store store).out ≡ 0 }
{
    let before = store.moments();
    let (_, trace) = call(rt, &mut store, ask_for(words, script), 0);
    let steps = store.moments().saturating_sub(before);
    insist(rt, steps == steps_of(trace.as_str()), words);
    Run {
        script,
        text,
        wanted,
        refused,
        store,
        before,
        trace,
    }
}

/// A run with this script behind a format.
pub fn first_run<R: AllocGlobal + Threads + Wait + Sync + Abort>(
    rt: &R,
    script: &'static str,
) -> Run {
    let (store, text) = formatted(rt, &[], &[]);
    run_over(rt, store, RUNS[0], script, text, None, false)
}

/// How many images a crash of a run may leave: at each moment there are three.
pub fn images_of(run: &Run) -> usize {
    steps_of(run.trace.as_str())
        .saturating_add(1)
        .saturating_mul(3)
}

/// The next run, by these words, behind a crash which left this image.
pub fn behind_crash<R: AllocGlobal + Threads + Wait + Sync + Abort>(
    rt: &R,
    run: &Run,
    image: usize,
    words: &str,
) -> Run {
    let (moment, filling) = (image / 3, image % 3);
    let left = left_after(rt, &run.store, run.before.saturating_add(moment), filling);
    let mut text = String::from_str(rt.alloc(), run.text.as_str()).expect(rt, "memory");
    let body = push_front(rt, &mut text, run.trace.as_str(), moment);
    let wanted = if filling == ZEROS { None } else { body };
    run_over(rt, left, words, run.script, text, wanted, false)
}

// The call that a line of a run's trace tells of, if it tells of one, where so many writes and syncs
// came before.
fn call_of<R: Abort>(rt: &R, line: &str, writes: u64, syncs: u64) -> Option<Fail> {
    let (kind, number) = line.split_once(' ').unwrap_or((line, "0"));
    match kind {
        "W" => Some(Fail::Write(writes)),
        "S" => Some(Fail::Sync(syncs)),
        "R" => {
            let cell = number.parse::<u64>().ok().expect(rt, "a number");
            Some(Fail::Read { cell, writes })
        }
        _ => None,
    }
}

// Each call of a run behind a format, in its order: a write, a sync or a read that may fail, behind the
// format's 62 writes and 10 syncs.
fn calls_of<R: AllocGlobal + Abort>(rt: &R, trace: &str) -> Vec<Fail> {
    let mut calls = Vec::new(rt.alloc());
    let (mut writes, mut syncs): (u64, u64) = (62, 10);
    for line in trace.lines() {
        if let Some(call) = call_of(rt, line, writes, syncs) {
            calls.push(call).expect(rt, "memory");
        }
        writes = writes.saturating_add(line.starts_with('W') as u64);
        syncs = syncs.saturating_add(line.starts_with('S') as u64);
    }
    calls
}

/// The same of a first run with this script.
pub fn calls_behind<R: AllocGlobal + Threads + Wait + Sync + Abort>(
    rt: &R,
    script: &'static str,
) -> Vec<Fail> {
    let Run { store, trace, .. } = first_run(rt, script);
    let_go(store);
    calls_of(rt, trace.as_str())
}

/// The second run, by these words, over the store of a first one of which this call fails: all the
/// store's writes stand that came before, and none is sure that wasn't.
pub fn behind_call<R: AllocGlobal + Threads + Wait + Sync + Abort>(
    rt: &R,
    script: &'static str,
    fail: Fail,
    words: &str,
) -> Run {
    let (mut store, mut text) = formatted(rt, &[fail], &[]);
    let (_, trace) = call(rt, &mut store, ask_for(words, script), 5);
    insist(rt, store.faults() == 1, words);
    // Before a read no write is pending. The same cell could be read again before the next one.
    if let Fail::Read { .. } = fail {
        store = left_after(rt, &store, END, 0);
    }
    text.push_str(trace.as_str()).expect(rt, "memory");
    let wanted = body_of(text.as_str());
    run_over(rt, store, words, script, text, wanted, true)
}

// What was wanted in what a second run and a third one behind it traced, and behind how many lines,
// where that breaks.
fn wanted_at(second: &Run, third: &Run, image: usize) -> Option<(u64, usize)> {
    let lost = second.refused && image == ZEROS;
    if let Some(body) = second.wanted {
        if !lost {
            return Some((body, second.text.as_str().lines().count()));
        }
    }
    match third.wanted {
        Some(body) => Some((body, third.text.as_str().lines().count())),
        None => None,
    }
}

// What all three traced is fresh, and fits but in the one case, where the third run, by these words, is
// behind a crash of the second one that left this image.
fn expect_third<R: AllocGlobal + Threads + Wait + Sync + Abort>(
    rt: &R,
    second: &Run,
    image: usize,
    words: &str,
) {
    let third = behind_crash(rt, second, image, words);
    let wanted = wanted_at(second, &third, image);
    let whole = whole_of(rt, third);
    expect_fit(rt, whole.as_str(), wanted);
}

// A row of traces is fresh, and fits but where this was wanted.
fn expect_fit<R: AllocGlobal + Threads + Wait + Sync + Abort>(
    rt: &R,
    whole: &str,
    wanted: Option<(u64, usize)>,
) {
    insist(rt, is_fresh(rt, whole), whole);
    let Some((body, from)) = wanted else {
        return expect_said(rt, whole, "fits/");
    };
    let line = write_behind(whole, from);
    let said = format!(in rt.alloc(); "breaks line {line} wanted W {body}/").expect(rt, "memory");
    expect_said(rt, whole, said.as_str());
}

/// Tries the third run behind each crash of the second one, at each moment with each filling. How
/// many there are.
pub fn expect_thirds<R: AllocGlobal + Threads + Wait + Sync + Abort>(rt: &R, second: &Run) -> u64 {
    let images = images_of(second);
    for image in 0..images {
        expect_third(rt, second, image, RUNS[0]);
    }
    images as u64
}

// Tries so many of them, which are drawn.
fn expect_drawn<R: AllocGlobal + Threads + Wait + Sync + Abort>(
    rt: &R,
    second: &Run,
    many: usize,
    row: &mut u64,
) {
    for _third in 0..many {
        let image = drawn(row, images_of(second));
        expect_third(rt, second, image, drawn_run(row));
    }
}

// Of the images that a crash of a first run with this script may leave 30 are drawn, and behind each
// ten crashes of a second one.
fn expect_images<R: AllocGlobal + Threads + Wait + Sync + Abort>(
    rt: &R,
    script: &'static str,
    mut row: u64,
) {
    let first = first_run(rt, script);
    for _image in 0..30 {
        let image = drawn(&mut row, images_of(&first));
        let second = behind_crash(rt, &first, image, drawn_run(&mut row));
        expect_drawn(rt, &second, 10, &mut row);
        whole_of(rt, second);
    }
    whole_of(rt, first);
}

#[test]
fn of_three_runs_of_an_epoch_each_shows_what_those_before_did(rt: HostRuntime) {
    expect_images(&rt, EMPTY, 1);
}

#[test]
fn traces_of_three_runs_of_two_epochs_fit(rt: HostRuntime) {
    expect_images(&rt, PUT_AND_GET, 2);
}

// Behind each write, sync and read of a first run that fails, two crashes of the second run.
fn expect_calls<R: AllocGlobal + Threads + Wait + Sync + Abort>(rt: &R) {
    let mut row = 3;
    let calls = calls_behind(rt, PUT_AND_GET);
    for fail in &calls {
        let second = behind_call(rt, PUT_AND_GET, *fail, drawn_run(&mut row));
        expect_drawn(rt, &second, 2, &mut row);
        whole_of(rt, second);
    }
}

#[test]
fn traces_behind_each_failing_call_fit(rt: HostRuntime) {
    expect_calls(&rt);
}
