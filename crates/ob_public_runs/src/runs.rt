//! What is public of a store at each run of a row.

ghost use Rattle.ob_public_runs.specs.RunsPublic.{RunsArePublic};

use ob_store::Store;

/// Of a row of runs behind a format, what is public at each opening is what anyone knows who saw
/// all that was shown before, and the opening: leaves, ends and gates.
pub fn runs_are_public<S: Store>()
    ensures { RunsArePublic (λ store. S.disk store) }
{}
