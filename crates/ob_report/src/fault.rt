//! The line and the status of a fault.

ghost use Rattle.std.specs.Prelude.{◌≡◌, ◌++◌, Some, codes};
ghost use Rattle.std.specs.Fmt.{decimal};
ghost use Rattle.ob_report.specs.Report.{line_end};
ghost use Rattle.ob_report.specs.Faults.{check_text, field_text, fault_line, fault_status};
ghost use Rattle.ob_base.specs.declared.fault.Fault.TheVariants as Fault;
ghost use Rattle.ob_report.specs.Gathered.{gathered, Gathers};
ghost use Rattle.ob_io.specs.Streams.{outflow};
ghost use Rattle.ob_report.specs.Printed.{Prints};

use crate::page::{Page, hand_over, put_bytes};
use crate::piece::Piece::{Number, Text};
use crate::piece::{put_number, put_pieces};
use ob_base::{Check, Failed, Fault, Field};
use ob_io::Sink;

/// The status of a refusal.
pub fn fault_status(fault: &Fault) -> u8
    ensures { result ≡ fault_status fault.now }
{
    match fault {
        Fault::Usage | Fault::BadScript { .. } | Fault::BadParams { .. } => 2,
        Fault::NotStore => 3,
        Fault::Damaged { .. } => 4,
        Fault::StoreFault { .. } => 5,
        Fault::StashFull { .. } => 6,
        Fault::SourceFault | Fault::SinkFault => 7,
        Fault::Worn { .. } => 8,
        Fault::Memory => 9,
    }
}

fn check_text(check: Check) -> &'static [u8]
    ensures { result.now ≡ check_text check }
{
    match check {
        Check::Tag => b"tag",
        Check::Seal => b"seal",
        Check::Epoch => b"epoch",
        Check::Form => b"form",
    }
}

fn field_text(field: Field) -> &'static [u8]
    ensures { result.now ≡ field_text field }
{
    match field {
        Field::N => b"N",
        Field::L => b"L",
        Field::Z => b"Z",
        Field::S => b"S",
        Field::R => b"R",
        Field::BR => b"BR",
        Field::BW => b"BW",
        Field::E => b"E",
        Field::T => b"T",
        Field::LANES => b"LANES",
        Field::COUNT => b"COUNT",
        Field::KEYS => b"KEYS",
        Field::READS => b"READS",
        Field::WRITES => b"WRITES",
    }
}

fn put_store<S: Sink>(sink: &mut S, page: &mut Page, unsure: Option<u64>) -> Result<(), Failed>
    ensures { Gathers (fault_line (Some (Fault.StoreFault unsure)))
        (gathered S.Sink sink.old page.old.items)
        (gathered S.Sink sink.new page.new.items) result }
{
    match unsure {
        None => put_bytes(sink, page, b"fault: store\n"),
        Some(epoch) => put_number(sink, page, b"fault: store, epoch ", epoch, b" unsure\n"),
    }
}

fn put_damaged<S: Sink>(
    sink: &mut S,
    page: &mut Page,
    cell: u64,
    check: Check,
) -> Result<(), Failed>
    ensures { Gathers
        (codes "fault: damaged cell " ++ decimal cell ++ codes " " ++ check_text check ++ line_end)
        (gathered S.Sink sink.old page.old.items)
        (gathered S.Sink sink.new page.new.items) result }
{
    put_pieces(
        sink,
        page,
        &[
            Text(b"fault: damaged cell "),
            Number(cell),
            Text(b" "),
            Text(check_text(check)),
            Text(b"\n"),
        ],
    )
}

fn put_parameter<S: Sink>(sink: &mut S, page: &mut Page, field: Field) -> Result<(), Failed>
    ensures { Gathers (codes "fault: parameter " ++ field_text field ++ line_end)
        (gathered S.Sink sink.old page.old.items)
        (gathered S.Sink sink.new page.new.items) result }
{
    put_pieces(
        sink,
        page,
        &[
            Text(b"fault: parameter "),
            Text(field_text(field)),
            Text(b"\n"),
        ],
    )
}

fn put_fault<S: Sink>(sink: &mut S, page: &mut Page, fault: &Fault) -> Result<(), Failed>
    ensures { Gathers (fault_line (Some fault.now))
        (gathered S.Sink sink.old page.old.items)
        (gathered S.Sink sink.new page.new.items) result }
{
    match *fault {
        Fault::Usage => put_bytes(sink, page, b"fault: usage\n"),
        Fault::BadScript { line } => put_number(sink, page, b"fault: script line ", line, b"\n"),
        Fault::BadParams { field } => put_parameter(sink, page, field),
        Fault::NotStore => put_bytes(sink, page, b"fault: not a store\n"),
        Fault::Damaged { cell, check, .. } => put_damaged(sink, page, cell, check),
        Fault::StoreFault { unsure } => put_store(sink, page, unsure),
        Fault::StashFull { rows } => put_number(
            sink,
            page,
            b"fault: stash full, ",
            rows,
            b" rows\n",
        ),
        Fault::SourceFault => put_bytes(sink, page, b"fault: source\n"),
        Fault::SinkFault => put_bytes(sink, page, b"fault: sink\n"),
        Fault::Worn { number } => put_number(sink, page, b"fault: worn at ", number, b"\n"),
        Fault::Memory => put_bytes(sink, page, b"fault: memory\n"),
    }
}

/// Writes the line of a refusal, `fault: ..` and a line feed, in one piece.
///
/// # Errors
/// The sink failed. A front of the line is written.
pub fn fault_text<S: Sink>(fault: &Fault, sink: &mut S) -> Result<(), Failed>
    ensures { Prints (fault_line (Some fault.now))
        (outflow S.Sink sink.old)
        (outflow S.Sink sink.new) result }
{
    let mut page = Page::new();
    put_fault(sink, &mut page, fault)?;
    hand_over(sink, &mut page)
}
