//! What is wanted of a run, and what a line that stands there changes.

ghost use Rattle.std.specs.Prelude.{◌≡◌, ◌<◌};
ghost use Rattle.ob_schedule.specs.Sides.{other, side_number};

use ob_store::Note;

/// Even numbers lie in the first of two places, odd ones in the second: epochs, generations, homes.
#[derive(Clone, Copy)]
pub enum Side {
    Even,
    Odd,
}

impl Side {
    /// The other side.
    pub fn other(self) -> Side
        ensures { result ≡ other self }
    {
        match self {
            Side::Even => Side::Odd,
            Side::Odd => Side::Even,
        }
    }

    /// 0 or 1.
    pub fn number(self) -> u8
        ensures number { result ≡ side_number self }
        ensures low { result < 2 }
    {
        match self {
            Side::Even => 0,
            Side::Odd => 1,
        }
    }
}

/// A gate of a register, as far as it is known: its closing may have been begun and not been made
/// sure of.
#[derive(Clone, Copy)]
pub enum Gate {
    Open,
    Closed,
    Unsure,
}

/// A register with two places.
#[derive(Clone, Copy)]
pub enum Register {
    Generation,
    Epoch,
}

/// What a line that stands at its place does to what is known of the store.
#[derive(Clone, Copy)]
pub enum Change {
    /// Nothing.
    Keeps,
    /// The store is formatted.
    Formats,
    /// What the run has found, or its end has set, stands for sure.
    Settles,
    /// The register's gate may be closed.
    Doubts(Register),
    /// The register's gate is closed.
    Closes(Register),
    /// The run's generation is set.
    SetsGeneration,
    /// The run's epoch may have ended.
    EndsEpoch,
    /// The batch may be logged.
    MayLog,
    /// The batch is logged.
    Logs,
}

/// What may stand at a place of a run.
#[derive(Clone, Copy)]
pub enum Want {
    /// Just this note.
    Fixed { note: Note, change: Change },
    /// The label of a place of a batch.
    Place { batch: u32, place: u32 },
    /// The label of a batch's first place, or the first cell of its record.
    Record { batch: u32 },
    /// The gate or the body of the register's next place.
    Setting { register: Register },
    /// The first cell of the checkpoint of one of two epochs.
    Checkpoint,
}
