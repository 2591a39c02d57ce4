//! Audits of a format's trace and a run's in a row, with a line changed, more or less, and of such
//! as end before they are told.

use crate::calling::{expect_alone, number_of, parted, replaced};
use crate::lines::{FORMATTED, ONE_EPOCH};
use ob_top_calls::ask_for;
use std::process::Abort;
use std::sync::Wait;
use std::thread::Threads;

/// Audits these lines, and compares what is told with `STATUS OUTPUT`.
pub fn expect_audit<R: AllocGlobal + Threads + Wait + Sync + Abort>(
    rt: &R,
    text: &str,
    wanted: &str,
) {
    expect_alone(rt, &ask_for("audit", text), wanted);
}

// What of a format's trace and a run's in a row is changed, what stands there instead, and what is
// told.
const CHANGED: &str = "\
    W 13/ -> W 13/ -> 0 fits/\n\
    R 42/ -> R 41/ -> 1 breaks line 113 wanted slot of bucket 0/\n\
    O/ -> o/ -> 1 breaks line 74 wanted start/\n\
    P 8 -> P 9 -> 1 breaks line 1 wanted start/\n\
    W 13/ ->  -> 1 breaks line 104 wanted W 13/\n\
    L 0/R 42/ -> R 42/ -> 1 breaks line 112 wanted label/\n\
    W 8/S/ -> W 8/S/S/ -> 1 breaks line 178 wanted W 9/";

// Audits a format's trace and a run's with such a change.
fn expect_changed<R: AllocGlobal + Threads + Wait + Sync + Abort>(rt: &R, line: &str) {
    let (from, rest) = parted(rt, line, " -> ");
    let (to, wanted) = parted(rt, rest, " -> ");
    let mut text = replaced(rt, FORMATTED, from, to);
    let run = replaced(rt, ONE_EPOCH, from, to);
    text.push_str(run.as_str()).expect(rt, "memory");
    expect_audit(rt, text.as_str(), wanted);
}

#[test]
fn a_line_that_is_changed_breaks_a_trace(rt: HostRuntime) {
    for line in CHANGED.lines() {
        expect_changed(&rt, line);
    }
}

// The write that fails, of an audit of a trace that begins with an opening, and what is told.
const CUT: &str = "\
    0: 7 \n\
    1: 7 breaks line \n\
    3: 7 breaks line 1 wanted ";

#[test]
fn an_audit_is_told_up_to_a_write_that_fails(rt: HostRuntime) {
    for line in CUT.lines() {
        let (write, wanted) = parted(&rt, line, ": ");
        let mut ask = ask_for("audit", "O/");
        ask.bad_write = number_of(&rt, write);
        expect_alone(&rt, &ask, wanted);
    }
}

#[test]
fn an_audit_ends_where_its_input_fails(rt: HostRuntime) {
    let mut ask = ask_for("audit", FORMATTED);
    ask.bad_read = 1;
    expect_alone(&rt, &ask, "7 fault: source/");
}
