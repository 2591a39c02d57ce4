//! Wants that follow each other.

ghost use Rattle.std.specs.Prelude.{◌≡◌, ◌∷◌, [], drop, MatchOption};
ghost use Rattle.ob_schedule.specs.Runs.{run_wants};

use crate::want::{Change, Want};
use ob_store::Note;

/// Wants that follow each other. Of cells there is at least the first.
#[derive(Clone, Copy)]
pub(crate) enum Run {
    One(Want),
    /// Reads of the cells from the first to the last.
    Reads { first: u64, last: u64 },
    /// Writes of the cells from the first to the last.
    Writes { first: u64, last: u64 },
}

fn kept(note: Note) -> Want
    ensures { result ≡ Want.Fixed note Change.Keeps }
{
    Want::Fixed {
        note,
        change: Change::Keeps,
    }
}

impl Run {
    /// The first of the wants.
    pub(crate) fn first(self) -> Want
        ensures { run_wants self ≡ result ∷ drop 1 (run_wants self) }
    {
        match self {
            Run::One(want) => want,
            Run::Reads { first, last: _ } => kept(Note::Read(first)),
            Run::Writes { first, last: _ } => kept(Note::Write(first)),
        }
    }

    /// The others, if there are any.
    pub(crate) fn rest(self) -> Option<Run>
        ensures { MatchOption result (drop 1 (run_wants self) ≡ [])
            (λ rest. run_wants rest ≡ drop 1 (run_wants self)) }
    {
        match self {
            Run::Reads { first, last } if first < last => Some(Run::Reads {
                first: first + 1,
                last,
            }),
            Run::Writes { first, last } if first < last => Some(Run::Writes {
                first: first + 1,
                last,
            }),
            _ => None,
        }
    }
}
