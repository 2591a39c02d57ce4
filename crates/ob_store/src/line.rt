//! The lines of a trace, each handed over in one piece.

ghost use Rattle.std.specs.Prelude.{◌≡◌, ◌≤◌, ◌+◌, ◌++◌, ◌∷◌, [], ℕ, length, take, decimal, OnOk};
ghost use Rattle.arrayvec.specs.ArrayVec.{array_vec_len};
ghost use Rattle.ob_base.specs.Causes.{HasCause};
ghost use Rattle.ob_io.specs.Flows.{appended};
ghost use Rattle.ob_store.specs.Lines.{blank_number, first_line, line_of};

use crate::Note;
use arrayvec::ArrayVec;
use itoa::Buffer;
use ob_base::{Failed, Params};
use ob_io::{Sink, put_all};

/// How a trace begins.
#[derive(Clone, Copy)]
pub enum Start {
    /// With the parameters of a store that is made.
    Format { params: Params },
    /// With a run, over a mirror or over a store alone.
    Run { mirrored: bool },
}

// A line that is put together. The longest is a letter, and nine times a blank and ten digits.
type Line = ArrayVec<u8, 101>;

// Puts bytes behind what the line has.
fn add(line: &mut Line, bytes: &[u8])
    requires room { array_vec_len line.old + length bytes.now ≤ 101 }
    ensures { line.new.items ≡ line.old.items ++ bytes.now }
{
    let _ = line.try_extend_from_slice(bytes);
}

// Puts a letter and a blank, a number and a line feed there.
fn add_numbered(line: &mut Line, head: &[u8; 2], number: u64)
    requires empty { line.old.items ≡ [] }
    ensures { line.new.items ≡ head.now ++ decimal number ++ 10 ∷ [] }
{
    let mut digits = Buffer::new();
    add(line, head);
    add(line, digits.format(number).as_bytes());
    add(line, b"\n");
}

// Puts a blank and a number there.
fn add_blank_number(line: &mut Line, number: u32)
    requires room { array_vec_len line.old + 11 ≤ 101 }
    ensures added { line.new.items ≡ line.old.items ++ blank_number number }
    ensures few { array_vec_len line.new ≤ array_vec_len line.old + 11 }
{
    let mut digits = Buffer::new();
    add(line, b" ");
    add(line, digits.format(number).as_bytes());
}

// Puts `P` and the nine parameters there.
fn add_params(line: &mut Line, p: &Params)
    requires empty { line.old.items ≡ [] }
    ensures { line.new.items ≡ first_line (Start.Format p.now) }
{
    add(line, b"P");
    add_blank_number(line, p.keys);
    add_blank_number(line, p.levels);
    add_blank_number(line, p.real);
    add_blank_number(line, p.dummies);
    add_blank_number(line, p.batches);
    add_blank_number(line, p.places);
    add_blank_number(line, p.writes);
    add_blank_number(line, p.evictions);
    add_blank_number(line, p.room);
    add(line, b"\n");
}

/// Writes the first line of a trace: `P` and the nine parameters, `O` of a run, or `O M` of one
/// with a mirror.
///
/// # Errors
/// The sink failed. A front of the line is written.
pub(crate) fn put_start<S: Sink>(sink: &mut S, start: &Start) -> Result<(), Failed>
    ensures all { OnOk result (S.written sink.new
        ≡ appended (S.written sink.old) (first_line start.now)) }
    ensures front { (n : ℕ) × (n ≤ length (first_line start.now))
        × (S.written sink.new ≡ appended (S.written sink.old) (take n (first_line start.now))) }
    ensures cause { HasCause (S.faults sink.old) (S.faults sink.new) result }
{
    let mut line = Line::new();
    match start {
        Start::Format { params } => add_params(&mut line, params),
        Start::Run { mirrored: false } => add(&mut line, b"O\n"),
        Start::Run { mirrored: true } => add(&mut line, b"O M\n"),
    }
    put_all(sink, line.as_slice())
}

/// Writes the line of a note: `L x`, `R c`, `W c` or `S`.
///
/// # Errors
/// The sink failed. A front of the line is written.
pub(crate) fn put_note<S: Sink>(sink: &mut S, note: Note) -> Result<(), Failed>
    ensures all { OnOk result (S.written sink.new ≡ appended (S.written sink.old) (line_of note)) }
    ensures front { (n : ℕ) × (n ≤ length (line_of note))
        × (S.written sink.new ≡ appended (S.written sink.old) (take n (line_of note))) }
    ensures cause { HasCause (S.faults sink.old) (S.faults sink.new) result }
{
    let mut line = Line::new();
    match note {
        Note::Label(leaf) => add_numbered(&mut line, b"L ", leaf),
        Note::Read(cell) => add_numbered(&mut line, b"R ", cell),
        Note::Write(cell) => add_numbered(&mut line, b"W ", cell),
        Note::Sync => add(&mut line, b"S\n"),
    }
    put_all(sink, line.as_slice())
}
