//! Tests: at places of traces that are drawn at random just those lines may stand that are wanted.

use crate::recipes::{insist, trace_of};
use ob_audit::line_of;
use ob_base::Params;
use ob_follow::FollowPlain;
use ob_schedule::{Line, Wanted};
use ob_store::Note;
use std::alloc::{AllocError, Global};
use std::process::Abort;

// Traces in which no epoch has ended for sure, so that each bucket lies in its first home. In that
// with a mirror no slot is shown.
static TRACES: [&str; 7] = [
    "1-177",
    "1-73;1-73;74-177",
    "1-111;74-99;W 4;S;W 3;S;W 4;S;L 0;R 41;R 46;R 56;L 0;R 42;R 47;R 57;W 15;S;W 16;S;L 2;R 43;\
     R 39;R 40;R 50",
    "1-111;74-99;W 4;74-99;W 3;S;W 4;S;L 0;R 41;R 46",
    "1-106;74-99;W 4;S;W 3;S;W 4;S;W 13;S;W 14;S;L 3;R 40;R 50;R 71;L 1",
    "1-176;74-83;R 28;74-84",
    "1-73;O M;R 0;5..8;0..108;76-106",
];

// A label, a read or a write of a low number.
fn candidate(i: u64) -> Note {
    let number = i / 3;
    match i % 3 {
        0 => Note::Label(number),
        1 => Note::Read(number),
        _ => Note::Write(number),
    }
}

fn is_read(line: &Line, cell: u64) -> bool {
    match *line {
        Line::Note(Note::Read(read)) => read == cell,
        _ => false,
    }
}

// Whether the cell is a slot of a bucket's first home that none of these lines has read.
fn is_fresh(lines: &[Line], bucket: u32, cell: u64) -> bool {
    let first = 39 + 5 * bucket as u64;
    for line in lines {
        if is_read(line, cell) {
            return false;
        }
    }
    first <= cell && cell < first + 5
}

// Whether the line is one of those that are wanted behind these.
fn is_named(wanted: Wanted, lines: &[Line], note: Note) -> bool {
    match (wanted, note) {
        (Wanted::Label, Note::Label(leaf)) => leaf < 4,
        (Wanted::Slot { bucket }, Note::Read(cell)) => is_fresh(lines, bucket, cell),
        (Wanted::Line(one), note) => one == note,
        (Wanted::LabelOr { cell: _ }, Note::Label(leaf)) => leaf < 4,
        (Wanted::LabelOr { cell }, Note::Write(written)) => written == cell,
        (Wanted::Either { first, second }, Note::Read(cell)) => cell == first || cell == second,
        (Wanted::EitherWrite { gate, body }, Note::Write(cell)) => cell == gate || cell == body,
        _ => false,
    }
}

// A number for what is wanted beside a note, and the numbers that it tells.
fn told(wanted: Wanted) -> (u8, u64, u64) {
    match wanted {
        Wanted::Start => (0, 0, 0),
        Wanted::Label => (1, 0, 0),
        Wanted::End => (2, 0, 0),
        Wanted::Slot { bucket } => (3, u64::from(bucket), 0),
        Wanted::LabelOr { cell } => (4, cell, 0),
        Wanted::Either { first, second } => (5, first, second),
        Wanted::EitherWrite { gate, body } => (6, gate, body),
        Wanted::Line(Note::Label(leaf)) => (7, leaf, 0),
        Wanted::Line(Note::Read(cell)) => (8, cell, 0),
        Wanted::Line(Note::Write(cell)) => (9, cell, 0),
        Wanted::Line(Note::Sync) => (10, 0, 0),
    }
}

// What is wanted in the place of a line behind what is known; nothing where it may stand there.
fn refusal<R: AllocGlobal + Abort>(rt: &R, known: &mut FollowPlain, line: &Line) -> Option<Wanted> {
    known.next(rt.alloc(), line).expect(rt, "memory")
}

// What is known behind these lines, each of which may stand where it does.
fn behind<R: AllocGlobal + Abort>(rt: &R, p: &Params, lines: &[Line]) -> FollowPlain {
    let mut known = FollowPlain::new(rt.alloc(), p).expect(rt, "memory");
    for i in 1..lines.len() {
        let refused = refusal(rt, &mut known, &lines[i]);
        insist(rt, refused.is_none(), "a line of a trace that fits");
    }
    known
}

// Whether a line may stand behind these.
fn may_stand<R: AllocGlobal + Abort>(rt: &R, p: &Params, lines: &[Line], line: &Line) -> bool {
    let mut known = behind(rt, p, lines);
    refusal(rt, &mut known, line).is_none()
}

// Whether a note that isn't wanted is refused for the same as before, and one that is wanted may
// stand there.
fn is_told<R: AllocGlobal + Abort>(
    rt: &R,
    p: &Params,
    lines: &[Line],
    known: &mut FollowPlain,
    wanted: Wanted,
    note: Note,
) -> bool {
    let line = Line::Note(note);
    if is_named(wanted, lines, note) {
        return may_stand(rt, p, lines, &line);
    }
    match refusal(rt, known, &line) {
        Some(again) => told(again) == told(wanted),
        None => false,
    }
}

// Of many notes just those may stand behind these lines that are wanted, and the next line is one
// of them.
fn expect_told<R: AllocGlobal + Abort>(rt: &R, p: &Params, lines: &[Line], next: Option<&Line>) {
    let mut known = behind(rt, p, lines);
    let wanted = refusal(rt, &mut known, &Line::Bad).expect(rt, "a refused line");
    for i in 0..330 {
        let so = is_told(rt, p, lines, &mut known, wanted, candidate(i));
        insist(rt, so, "just what is wanted");
    }
    if let Some(Line::Note(note)) = next {
        insist(rt, is_named(wanted, lines, *note), "the next line");
    }
}

// The lines of a recipe.
fn lines_of(alloc: Global, recipe: &str) -> Result<Vec<Line>, AllocError> {
    let trace = trace_of(alloc, recipe)?;
    let mut lines = Vec::new(alloc);
    for text in trace.lines() {
        lines.push(line_of(text.as_bytes()))?;
    }
    Ok(lines)
}

// The same behind a front of a trace, which is drawn by a number.
fn expect_told_at<R: AllocGlobal + Abort>(rt: &R, p: &Params, number: u64) {
    let recipe = TRACES[(number % 7) as usize];
    let lines = lines_of(rt.alloc(), recipe).expect(rt, "memory");
    assert!(rt; lines.len() > 10);
    let drawn = number.wrapping_mul(11400714819323198485) >> 32;
    let front = 1 + drawn as usize % lines.len();
    expect_told(rt, p, &lines[..front], lines.get(front));
}

// So it is behind each of 90 fronts.
fn expect_all_told<R: AllocGlobal + Abort>(rt: &R) {
    let p = Params::new(8, 2, 2, 3, 2, 2, 2, 2, 8);
    let p = p.ok().expect(rt, "parameters in range");
    for number in 0..90 {
        expect_told_at(rt, &p, number);
    }
}

#[test]
fn just_the_wanted_lines_may_stand(rt: HostRuntime) {
    expect_all_told(&rt);
}
