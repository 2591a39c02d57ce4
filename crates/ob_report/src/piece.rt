//! Parts of a line.

ghost use Rattle.std.specs.Prelude.{◌++◌};
ghost use Rattle.std.specs.Fmt.{decimal};
ghost use Rattle.ob_report.specs.Gathered.{gathered, Gathers};
ghost use Rattle.ob_report.specs.Pieces.{piece_text, pieces_text};

use crate::page::{Page, put_bytes};
use itoa::Buffer;
use ob_base::Failed;
use ob_io::Sink;

/// A part of a line.
#[derive(Clone, Copy)]
pub enum Piece<'a> {
    /// These bytes.
    Text(&'a [u8]),
    /// The decimal of a number.
    Number(u64),
}

fn put_piece<S: Sink>(sink: &mut S, page: &mut Page, piece: &Piece<'_>) -> Result<(), Failed>
    ensures { Gathers (piece_text piece.now)
        (gathered S.Sink sink.old page.old.items)
        (gathered S.Sink sink.new page.new.items) result }
{
    match *piece {
        Piece::Text(bytes) => put_bytes(sink, page, bytes),
        Piece::Number(n) => {
            let mut digits = Buffer::new();
            put_bytes(sink, page, digits.format(n).as_bytes())
        }
    }
}

/// Gathers a number between two texts.
///
/// # Errors
/// As [`put_pieces`].
pub fn put_number<'t, S: Sink>(
    sink: &mut S,
    page: &mut Page,
    before: &'t [u8],
    number: u64,
    after: &'t [u8],
) -> Result<(), Failed>
    ensures { Gathers (before.now ++ decimal number ++ after.now)
        (gathered S.Sink sink.old page.old.items)
        (gathered S.Sink sink.new page.new.items) result }
{
    put_pieces(
        sink,
        page,
        &[
            Piece::Text(before),
            Piece::Number(number),
            Piece::Text(after),
        ],
    )
}

/// Gathers the text of the pieces, one behind the other.
///
/// # Errors
/// The sink failed. A front of what was held and of their text is written.
pub fn put_pieces<S: Sink>(
    sink: &mut S,
    page: &mut Page,
    pieces: &[Piece<'_>],
) -> Result<(), Failed>
    ensures { Gathers (pieces_text pieces.now)
        (gathered S.Sink sink.old page.old.items)
        (gathered S.Sink sink.new page.new.items) result }
{
    for piece in pieces {
        put_piece(sink, page, piece)?;
    }
    Ok(())
}
