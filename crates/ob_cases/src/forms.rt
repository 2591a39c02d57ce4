//! Forms of a run, and runs with a hasty beat, over a store that was just formatted.

use crate::calling::{EMPTY, formatted, insist};
use ob_desk::{Beat, Eager, Hasty};
use ob_mem::MemSink;
use ob_top_calls::{NEVER, WIDE, ask_for, call_by, let_go, sink_of};
use std::process::Abort;
use std::sync::Wait;
use std::thread::Threads;

// What is written of a run that goes well, by these words, over a store that was just formatted.
fn told_by<R: AllocGlobal + Threads + Wait + Sync + Abort, B: Beat>(
    rt: &R,
    beat: &mut B,
    words: &str,
    script: &str,
) -> MemSink {
    let mut store = formatted(rt, &[]);
    let mut output = sink_of(rt.alloc(), WIDE, NEVER).expect(rt, "memory");
    let mut trace: Option<MemSink> = None;
    let ask = ask_for(words, script);
    let status = call_by(rt, &mut store, &ask, &mut output, &mut trace, beat);
    insist(rt, status.expect(rt, "memory") == 0, words);
    let_go(store);
    output
}

const FORMS: &str = "\
    run S K\n\
    run S K --turns\n\
    run S K --lanes 1\n\
    run S K --lanes 2\n\
    run S K --lanes 4\n\
    run S K --lanes 16\n\
    run S K --turns --lanes 16\n\
    run S K --lanes 16 --turns\n\
    run S K --lanes=2\n\
    run --lanes 2 S K\n\
    run S --turns K";

const TWO_EPOCHS: &str = "client 1/begin/put 5 hi/commit/begin/get 5/commit";

const TOLD: &[u8] = b"\
    epoch 1\ntxn 1 client 1 committed\nput 5 hi\n\
    epoch 2\ntxn 1 client 1 committed\nget 5 = hi\n";

fn expect_form<R: AllocGlobal + Threads + Wait + Sync + Abort>(rt: &R, form: &str) {
    let told = told_by(rt, &mut Eager, form, TWO_EPOCHS);
    insist(rt, told.written() == TOLD, form);
}

#[test]
fn each_form_of_a_run_is_one(rt: HostRuntime) {
    for form in FORMS.lines() {
        expect_form(&rt, form);
    }
}

const COMMITTED: &[u8] = b"epoch 1\ntxn 1 client 1 committed\n";

const ABORTED: &[u8] = b"epoch 1\ntxn 1 client 1 aborted epoch end\n";

// Whether a run of an empty transaction was too late for its epoch, or else in time.
fn is_late<R: AllocGlobal + Threads + Wait + Sync + Abort>(rt: &R, words: &str) -> bool {
    let told = told_by(rt, &mut Hasty, words, EMPTY);
    let late = told.written() == ABORTED;
    insist(rt, late || told.written() == COMMITTED, words);
    late
}

#[test]
fn a_hasty_beat_ends_epochs_early(rt: HostRuntime) {
    for words in ["run S K --turns --lanes 1", "run S K --turns --lanes 4"] {
        insist(&rt, is_late(&rt, words), words);
    }
    for _ in 0..15 {
        is_late(&rt, "run S K");
    }
}
