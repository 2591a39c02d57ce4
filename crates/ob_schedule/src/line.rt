//! The lines of a trace, and what may be wanted in a line's place.

use ob_base::Params;
use ob_store::Note;

/// A line of a trace.
#[derive(Clone, Copy)]
pub enum Line {
    /// A format begins, with these parameters.
    Start(Params),
    /// A run begins, over a mirror or over a store alone.
    Open { mirrored: bool },
    /// A note of the format or the run.
    Note(Note),
    /// None of these.
    Bad,
}

/// What may stand next, beside the beginning of a run or of a format.
#[derive(Clone, Copy)]
pub enum Wanted {
    /// Nothing: only a run or a format may begin.
    Start,
    /// A label, below the number of leaves.
    Label,
    /// A read of a slot of the bucket's present home that its version hasn't shown.
    Slot { bucket: u32 },
    /// Just this note.
    Line(Note),
    /// A label, or the write of this cell.
    LabelOr { cell: u64 },
    /// The read of one of these cells.
    Either { first: u64, second: u64 },
    /// The write of one of these cells.
    EitherWrite { gate: u64, body: u64 },
    /// The end of the input.
    End,
}
