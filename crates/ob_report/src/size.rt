//! The line of a new store's size.

ghost use Rattle.ob_io.specs.Streams.{outflow};
ghost use Rattle.ob_report.specs.Printed.{Prints};
ghost use Rattle.ob_report.specs.Sizes.{size_line};

use crate::page::{Page, hand_over};
use crate::piece::put_number;
use ob_base::Failed;
use ob_io::Sink;

/// Writes the line that tells how many cells a new store has, `store of C cells` and a line feed,
/// in one piece.
///
/// # Errors
/// The sink failed. A front of the line is written.
pub fn size_text<S: Sink>(cells: u64, sink: &mut S) -> Result<(), Failed>
    ensures { Prints (size_line cells)
        (outflow S.Sink sink.old)
        (outflow S.Sink sink.new) result }
{
    let mut page = Page::new();
    put_number(sink, &mut page, b"store of ", cells, b" cells\n")?;
    hand_over(sink, &mut page)
}
