//! The summary of a self-test.

ghost use Rattle.std.specs.Prelude.{◌≡◌};
ghost use Rattle.hex.specs.Hex.{encode_lower};
ghost use Rattle.ob_io.specs.Streams.{outflow};
ghost use Rattle.ob_report.specs.Gathered.{gathered, Gathers};
ghost use Rattle.ob_report.specs.Printed.{Prints};
ghost use Rattle.ob_report.specs.Summaries.{counts_text, summary_text};

use crate::page::{Page, hand_over};
use crate::piece::Piece::{Number, Text};
use crate::piece::put_pieces;
use ob_base::Failed;
use ob_io::Sink;

/// What a self-test came to.
#[derive(Clone, Copy)]
pub struct Summary {
    /// The transactions that it was to make.
    pub count: u32,
    /// The last epoch that was durable.
    pub epochs: u64,
    /// The transactions that committed.
    pub committed: u64,
    /// The keys that are there behind them.
    pub keys: u32,
    /// The digest of these, with their values.
    pub map: [u8; 32],
}

// The bytes as small hexadecimal digits.
fn digits_of(bytes: &[u8; 32]) -> [u8; 64]
    ensures { result ≡ encode_lower bytes.now }
{
    let mut digits = [0; 64];
    let _ = hex::encode_to_slice(bytes, &mut digits);
    digits
}

// Gathers the lines of the numbers.
fn put_counts<S: Sink>(sink: &mut S, page: &mut Page, of: &Summary) -> Result<(), Failed>
    ensures { Gathers (counts_text of.now)
        (gathered S.Sink sink.old page.old.items)
        (gathered S.Sink sink.new page.new.items) result }
{
    put_pieces(
        sink,
        page,
        &[
            Text(b"drill "),
            Number(of.count as u64),
            Text(b"\nepochs "),
            Number(of.epochs),
            Text(b"\ncommitted "),
            Number(of.committed),
            Text(b"\nkeys "),
            Number(of.keys as u64),
            Text(b"\n"),
        ],
    )
}

// Gathers all lines.
fn put_summary<S: Sink>(sink: &mut S, page: &mut Page, of: &Summary) -> Result<(), Failed>
    ensures { Gathers (summary_text of.now)
        (gathered S.Sink sink.old page.old.items)
        (gathered S.Sink sink.new page.new.items) result }
{
    put_counts(sink, page, of)?;
    let digits = digits_of(&of.map);
    put_pieces(sink, page, &[Text(b"map "), Text(&digits), Text(b"\n")])
}

/// Writes the summary of a self-test, in one piece: a line each for `drill`, `epochs`,
/// `committed`, `keys` and `map`, the last with 64 small hexadecimal digits.
///
/// # Errors
/// The sink failed. A front of the lines is written.
pub fn drill_lines<S: Sink>(of: &Summary, sink: &mut S) -> Result<(), Failed>
    ensures { Prints (summary_text of.now)
        (outflow S.Sink sink.old)
        (outflow S.Sink sink.new) result }
{
    let mut page = Page::new();
    put_summary(sink, &mut page, of)?;
    hand_over(sink, &mut page)
}
