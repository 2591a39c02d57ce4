//! What an audit answers, as a line of text.

ghost use Rattle.std.specs.Prelude.{◌≡◌, ◌≤◌, ◌++◌, ◌∷◌, [], ℕ, length, take, decimal, codes, OnOk};
ghost use Rattle.ob_base.specs.Causes.{HasCause};
ghost use Rattle.ob_io.specs.Flows.{appended};
ghost use Rattle.ob_audit.specs.Spelling.{note_text};
ghost use Rattle.ob_audit.specs.Verdict.{wanted_text, verdict_text};

use crate::verdict::Audit;
use itoa::Buffer;
use ob_base::Failed;
use ob_io::{Sink, put_all};
use ob_schedule::Wanted;
use ob_store::Note;

// Writes a text and a number.
fn put_number<O: Sink>(before: &[u8], number: u64, output: &mut O) -> Result<(), Failed>
    ensures all { OnOk result (O.written output.new
        ≡ appended (O.written output.old) (before.now ++ decimal number)) }
    ensures front { (n : ℕ) × (n ≤ length (before.now ++ decimal number))
        × (O.written output.new
        ≡ appended (O.written output.old) (take n (before.now ++ decimal number))) }
    ensures cause { HasCause (O.faults output.old) (O.faults output.new) result }
{
    put_all(output, before)?;
    let mut digits = Buffer::new();
    put_all(output, digits.format(number).as_bytes())
}

fn put_note<O: Sink>(note: Note, output: &mut O) -> Result<(), Failed>
    ensures all { OnOk result (O.written output.new
        ≡ appended (O.written output.old) (note_text note)) }
    ensures front { (n : ℕ) × (n ≤ length (note_text note))
        × (O.written output.new ≡ appended (O.written output.old) (take n (note_text note))) }
    ensures cause { HasCause (O.faults output.old) (O.faults output.new) result }
{
    match note {
        Note::Label(leaf) => put_number(b"L ", leaf, output),
        Note::Read(cell) => put_number(b"R ", cell, output),
        Note::Write(cell) => put_number(b"W ", cell, output),
        Note::Sync => put_all(output, b"S"),
    }
}

fn put_two<O: Sink>(
    one: &[u8],
    first: u64,
    or: &[u8],
    second: u64,
    output: &mut O,
) -> Result<(), Failed>
    ensures all { OnOk result (O.written output.new
        ≡ appended (O.written output.old)
        ((one.now ++ decimal first) ++ (or.now ++ decimal second))) }
    ensures front { (n : ℕ)
        × (n ≤ length ((one.now ++ decimal first) ++ (or.now ++ decimal second)))
        × (O.written output.new
        ≡ appended (O.written output.old)
        (take n ((one.now ++ decimal first) ++ (or.now ++ decimal second)))) }
    ensures cause { HasCause (O.faults output.old) (O.faults output.new) result }
{
    put_number(one, first, output)?;
    put_number(or, second, output)
}

fn put_wanted<O: Sink>(wanted: Wanted, output: &mut O) -> Result<(), Failed>
    ensures all { OnOk result (O.written output.new
        ≡ appended (O.written output.old) (wanted_text wanted)) }
    ensures front { (n : ℕ) × (n ≤ length (wanted_text wanted))
        × (O.written output.new ≡ appended (O.written output.old) (take n (wanted_text wanted))) }
    ensures cause { HasCause (O.faults output.old) (O.faults output.new) result }
{
    match wanted {
        Wanted::Start => put_all(output, b"start"),
        Wanted::Label => put_all(output, b"label"),
        Wanted::Slot { bucket } => put_number(b"slot of bucket ", bucket as u64, output),
        Wanted::Line(note) => put_note(note, output),
        Wanted::LabelOr { cell } => put_number(b"label or W ", cell, output),
        Wanted::Either { first, second } => put_two(b"R ", first, b" or R ", second, output),
        Wanted::EitherWrite { gate, body } => put_two(b"W ", gate, b" or W ", body, output),
        Wanted::End => put_all(output, b"end"),
    }
}

fn end_wanted<O: Sink>(wanted: Wanted, output: &mut O) -> Result<(), Failed>
    ensures all { OnOk result (O.written output.new
        ≡ appended (O.written output.old) (wanted_text wanted ++ 10 ∷ [])) }
    ensures front { (n : ℕ) × (n ≤ length (wanted_text wanted ++ 10 ∷ []))
        × (O.written output.new
        ≡ appended (O.written output.old) (take n (wanted_text wanted ++ 10 ∷ []))) }
    ensures cause { HasCause (O.faults output.old) (O.faults output.new) result }
{
    put_wanted(wanted, output)?;
    put_all(output, b"\n")
}

fn put_behind<O: Sink>(wanted: Wanted, output: &mut O) -> Result<(), Failed>
    ensures all { OnOk result (O.written output.new
        ≡ appended (O.written output.old) (codes " wanted " ++ (wanted_text wanted ++ 10 ∷ []))) }
    ensures front { (n : ℕ) × (n ≤ length (codes " wanted " ++ (wanted_text wanted ++ 10 ∷ [])))
        × (O.written output.new
        ≡ appended (O.written output.old)
        (take n (codes " wanted " ++ (wanted_text wanted ++ 10 ∷ [])))) }
    ensures cause { HasCause (O.faults output.old) (O.faults output.new) result }
{
    put_all(output, b" wanted ")?;
    end_wanted(wanted, output)
}

fn put_breaks<O: Sink>(line: u64, wanted: Wanted, output: &mut O) -> Result<(), Failed>
    ensures all { OnOk result (O.written output.new
        ≡ appended (O.written output.old)
        ((codes "breaks line " ++ decimal line) ++
        (codes " wanted " ++ (wanted_text wanted ++ 10 ∷ [])))) }
    ensures front { (n : ℕ)
        × (n ≤ length ((codes "breaks line " ++ decimal line) ++
        (codes " wanted " ++ (wanted_text wanted ++ 10 ∷ []))))
        × (O.written output.new
        ≡ appended (O.written output.old)
        (take n ((codes "breaks line " ++ decimal line) ++
        (codes " wanted " ++ (wanted_text wanted ++ 10 ∷ []))))) }
    ensures cause { HasCause (O.faults output.old) (O.faults output.new) result }
{
    put_number(b"breaks line ", line, output)?;
    put_behind(wanted, output)
}

/// Writes `fits`, or `breaks line N wanted W`, and a line feed.
///
/// # Errors
/// The sink failed. A front of the line is written.
pub fn verdict_text<O: Sink>(audit: &Audit, output: &mut O) -> Result<(), Failed>
    ensures all { OnOk result (O.written output.new
        ≡ appended (O.written output.old) (verdict_text audit.now)) }
    ensures front { (n : ℕ) × (n ≤ length (verdict_text audit.now))
        × (O.written output.new
        ≡ appended (O.written output.old) (take n (verdict_text audit.now))) }
    ensures cause { HasCause (O.faults output.old) (O.faults output.new) result }
{
    match *audit {
        Audit::Fits => put_all(output, b"fits\n"),
        Audit::Breaks {
            line,
            wanted,
            found: _,
        } => put_breaks(line, wanted, output),
    }
}
