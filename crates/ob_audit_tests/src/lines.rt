//! Tests: lines are read.

use crate::recipes::insist;
use ob_audit::line_of;
use ob_schedule::Line;
use ob_store::Note;
use std::process::Abort;

// Texts, and the letter and the number of the line that each spells; a `?` where it spells none.
static LINES: [(&str, u8, u64); 27] = [
    ("", b'?', 0),
    ("P 9 2 2 3 2 2 2 2 8", b'?', 0),
    ("P 8 2 2 3 2 2 2 2 08", b'?', 0),
    ("P 8 2 2 3 2 2 2 2 8 ", b'?', 0),
    ("P 8 2 2 3 2 2 2 8", b'?', 0),
    ("W 0\r", b'?', 0),
    ("W 00", b'?', 0),
    ("W", b'?', 0),
    ("W ", b'?', 0),
    ("w 0", b'?', 0),
    ("W +1", b'?', 0),
    ("W 18446744073709551616", b'?', 0),
    ("S ", b'?', 0),
    ("R  1", b'?', 0),
    ("W 18446744073709551615", b'W', 18446744073709551615),
    ("R 7", b'R', 7),
    ("L 0", b'L', 0),
    ("S", b'S', 0),
    ("O", b'O', 0),
    ("O M", b'M', 0),
    ("O  M", b'?', 0),
    ("O M ", b'?', 0),
    ("O MM", b'?', 0),
    ("O ", b'?', 0),
    ("OM", b'?', 0),
    ("M", b'?', 0),
    ("P 8 2 2 3 2 2 2 2 8", b'P', 8),
];

// A line's letter and its number; of a first line the number of keys, and M for that of a run with a
// mirror.
fn spelled(line: Line) -> (u8, u64) {
    match line {
        Line::Start(p) => (b'P', u64::from(p.keys)),
        Line::Open { mirrored: false } => (b'O', 0),
        Line::Open { mirrored: true } => (b'M', 0),
        Line::Note(Note::Label(leaf)) => (b'L', leaf),
        Line::Note(Note::Read(cell)) => (b'R', cell),
        Line::Note(Note::Write(cell)) => (b'W', cell),
        Line::Note(Note::Sync) => (b'S', 0),
        Line::Bad => (b'?', 0),
    }
}

// Each text spells its line.
fn are_read<R: Abort>(rt: &R) {
    for i in 0..LINES.len() {
        let (text, letter, number) = LINES[i];
        let (first, second) = spelled(line_of(text.as_bytes()));
        insist(rt, first == letter && second == number, text);
    }
}

#[test]
fn lines_are_read(rt: HostRuntime) {
    are_read(&rt);
}
