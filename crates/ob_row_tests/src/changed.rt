//! A trace of many clients' epochs of which one line is changed: an audit breaks there or behind it.

ghost use Rattle.std.specs.Prelude.{◌≡◌};
ghost use Rattle.ob_mem.specs.Memory.{disk_of_store};

use crate::asking::{EMPTY, RUNS, blank, call, drawn, expect_said, insist};
use ob_mem::MemStore;
use ob_top_calls::{Answer, Txn, ask_for, call_alone, has, let_go, push_client, push_txn};
use std::process::Abort;
use std::sync::Wait;
use std::thread::Threads;

// A store of 64 keys: its cells, of which the slots are those from this one on.
const CELLS: usize = 2823;

const SLOTS: u64 = 283;

// Room for what is told and traced.
const WIDE: usize = 1_000_000;

// The script of 16 clients, each with twenty transactions over 64 keys.
fn clients<R: AllocGlobal + Abort>(rt: &R) -> String {
    let mut script = String::new(rt.alloc());
    for nth in 0..320_u64 {
        let (client, number) = ((nth / 20).wrapping_add(1), nth % 20);
        if number == 0 {
            push_client(rt.alloc(), &mut script, client).expect(rt, "memory");
        }
        let txn = Txn {
            client,
            number,
            read: client.wrapping_mul(7).wrapping_add(number.wrapping_mul(3)) % 64,
            written: client.wrapping_mul(5).wrapping_add(number) % 64,
            reads_back: false,
        };
        push_txn(rt.alloc(), &mut script, txn).expect(rt, "memory");
    }
    script
}

// Makes a call with wide room, which goes well, and puts its trace behind a text: of how many
// transactions it tells.
fn go_on<R: AllocGlobal + Threads + Wait + Sync + Abort>(
    rt: &R,
    store: &mut MemStore,
    text: &mut String,
    words: &str,
    script: &str,
) -> usize
    requires { (disk_of_store store.old).out ≡ 0 }
    ensures { (disk_of_store store.new).out ≡ 0 }
{
    let mut ask = ask_for(words, script);
    ask.room = WIDE;
    let (output, trace) = call(rt, store, ask, 0);
    text.push_str(trace.as_str()).expect(rt, "memory");
    output.as_str().matches("txn ").count()
}

// The traces of a format, of a run of the clients and of one run behind it.
fn traced<R: AllocGlobal + Threads + Wait + Sync + Abort>(rt: &R) -> String {
    let mut store = blank(rt, CELLS, &[]);
    let mut text = String::new(rt.alloc());
    let script = clients(rt);
    let format = "format S K 64 6 4 6 3 4 8 4 64 --trace T";
    go_on(rt, &mut store, &mut text, format, "");
    let ended = go_on(rt, &mut store, &mut text, RUNS[2], script.as_str());
    go_on(rt, &mut store, &mut text, RUNS[2], EMPTY);
    let_go(store);
    insist(rt, ended == 320, "transactions");
    text
}

// The number of a line's leaf or cell.
fn number_of(line: &str) -> u64 {
    let (_, number) = line.split_once(' ').unwrap_or((line, ""));
    number.parse::<u64>().ok().unwrap_or(0)
}

// A leaf, or a slot that is read.
fn is_hole(line: &str) -> bool {
    line.starts_with('L') || (line.starts_with('R') && number_of(line) >= SLOTS)
}

// What stands in a line's place: another line of the trace, or in two of three cases the same kind
// of line with a number that is near.
fn other_of<R: AllocGlobal + Abort>(rt: &R, lines: &[&str], line: &str, row: &mut u64) -> String {
    let step = drawn(row, 4).saturating_add(1) as u64;
    let near = number_of(line).saturating_add(step);
    let (kind, _) = line.split_once(' ').unwrap_or((line, ""));
    if drawn(row, 3) > 0 && kind != line {
        return format!(in rt.alloc(); "{kind} {near}").expect(rt, "memory");
    }
    let other = lines.get(drawn(row, lines.len())).copied();
    String::from_str(rt.alloc(), other.unwrap_or("")).expect(rt, "memory")
}

// All lines, with this one in one place.
fn with_line<R: AllocGlobal + Abort>(rt: &R, lines: &[&str], place: usize, by: &str) -> String {
    let mut text = String::new(rt.alloc());
    for next in 0..lines.len() {
        let line = if next == place { by } else { lines[next] };
        text.push_str(line).expect(rt, "memory");
        text.push_str("\n").expect(rt, "memory");
    }
    text
}

// The number of the line at which an audit of these lines breaks, or none where all fit.
fn break_of<R: AllocGlobal + Threads + Wait + Sync + Abort>(rt: &R, text: &str) -> Option<usize> {
    let Answer { status, output, .. } = call_alone(rt, &ask_for("audit", text)).expect(
        rt, "memory",
    );
    if status == 0 {
        insist(rt, has(&output, "fits/"), "an audit");
        return None;
    }
    let said = str::from_utf8(output.written()).ok().expect(rt, "a text");
    let rest = said.strip_prefix("breaks line ").expect(rt, "a break");
    let (number, _) = rest.split_once(' ').expect(rt, "what is wanted");
    Some(number.parse::<usize>().ok().expect(rt, "a number"))
}

// Changes a line that is drawn: whether the trace fits all the same.
fn fits_changed<R: AllocGlobal + Threads + Wait + Sync + Abort>(
    rt: &R,
    lines: &[&str],
    row: &mut u64,
) -> bool {
    let place = drawn(row, lines.len());
    let line = lines.get(place).copied().unwrap_or("");
    let by = other_of(rt, lines, line, row);
    let text = with_line(rt, lines, place, by.as_str());
    let same = by.as_str() == line;
    let holes = is_hole(line) && is_hole(by.as_str());
    match break_of(rt, text.as_str()) {
        Some(number) => {
            insist(rt, number > place, line);
            false
        }
        None => {
            insist(rt, same || holes, line);
            !same
        }
    }
}

// How many of 200 changes of a trace leave one that fits.
fn fitting<R: AllocGlobal + Threads + Wait + Sync + Abort>(rt: &R, text: &str) -> usize {
    let mut lines = Vec::new(rt.alloc());
    for line in text.lines() {
        lines.push(line).expect(rt, "memory");
    }
    let (mut row, mut fitting): (u64, usize) = (4, 0);
    for _change in 0..200 {
        fitting = fitting.saturating_add(fits_changed(rt, &lines, &mut row) as usize);
    }
    fitting
}

// The traces fit, and some changes leave them so, and fewer than a hundred.
fn expect_breaks<R: AllocGlobal + Threads + Wait + Sync + Abort>(rt: &R) {
    let text = traced(rt);
    expect_said(rt, text.as_str(), "fits/");
    let fitting = fitting(rt, text.as_str());
    insist(rt, 0 < fitting && fitting < 100, "lines");
}

#[test]
fn a_line_that_is_changed_breaks_no_line_before_it(rt: HostRuntime) {
    expect_breaks(&rt);
}
