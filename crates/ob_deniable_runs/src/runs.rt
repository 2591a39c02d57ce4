//! Rows of runs of a store.

ghost use Rattle.ob_deniable_runs.specs.OtherCalls.{CallsAreDeniable};
ghost use Rattle.ob_deniable_runs.specs.RunsDenied.{RunsAreDeniable};

use ob_store::Store;

/// Of a row of runs of a store behind its format, with crashes and returns between them: for any
/// other work of the shape of what they did there is one tape under which that work is a life that
/// draws its words in turn, and fills the same holes with the same, act by act.
pub fn runs_are_deniable<S: Store>()
    ensures { RunsAreDeniable (λ store. S.disk store) }
{}

/// So for any other calls of the same shapes in each of those runs, the refused ones too: batches
/// of as many places, and ends of any writes that an epoch may have. There is a work of these calls
/// that could have been done on another tape, with the same in the same holes.
pub fn calls_are_deniable<S: Store>()
    ensures { CallsAreDeniable (λ store. S.disk store) }
{}
