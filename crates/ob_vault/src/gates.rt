//! What the calls of a ring vault leave of the registers' gates.

ghost use Rattle.ob_serial.specs.VaultKinds.{kind_of};
ghost use Rattle.ob_vault.specs.Gated.{CallsKnowGates, ChainsKnowGates, FoundRunsKnowGenerations, OpenedRunsKnowGates, RefusedCallsLeaveGates, RunsKnowGates};

use ob_serial::Vault;
use ob_store::Store;

/// Behind an opening of what stood the gates of both registers are what the run knows of them.
pub fn opened_runs_know_gates<S: Store>()
    ensures { OpenedRunsKnowGates S.Lane (λ store. S.disk store) }
{}

/// Behind a call that was answered they are so again; and what is known of the generations'
/// register stays.
pub fn calls_know_gates<S: Store>()
    ensures { CallsKnowGates (λ store. S.disk store) }
{}

/// And so behind a chain of calls that were answered.
pub fn chains_know_gates<V: Vault, S: Store>()
    ensures { ChainsKnowGates (kind_of V.Vault) (λ store. S.disk store) }
{}

/// What an opening found of a store that stood knows both gates of the generations' register to be
/// open: that of its own generation, and that of the one before, which the next opening sets.
pub fn found_runs_know_generations()
    ensures { FoundRunsKnowGenerations }
{}

/// So a run over a store that stood knows all gates behind its answered calls, and both of the
/// generations' register to be open.
pub fn runs_know_gates<V: Vault, S: Store>()
    ensures { RunsKnowGates (kind_of V.Vault) (λ store. S.disk store) }
{}

/// A call that was refused where the store stood leaves the gates, in each image that a crash may then
/// leave, as its notes tell. A batch leaves all as they were known; an end those of the generations'
/// register, and those of its own by how many notes of its row weren't shown: as it was, open only if
/// it was, closed, or over the epoch's body.
pub fn refused_calls_leave_gates<S: Store>()
    ensures { RefusedCallsLeaveGates (λ store. S.disk store) }
{}
