//! The calls of a ring vault as calls of a life of its store: so what all its runs show is fresh,
//! over any number of openings, calls and crashes.

ghost use Rattle.ob_serial.specs.VaultKinds.{kind_of};
ghost use Rattle.ob_vault.specs.Acts.{EndsShowLives, FetchesShowLives, OpenedRunsLive, RingCallsLive, RingChainsInLife, StagesAreMoments};
ghost use Rattle.ob_vault.specs.Stages.{OpeningsComeInStages};

use ob_serial::Vault;
use ob_store::Store;

/// Each call of a ring vault, whatever it answers, makes the acts of a life: a fetch appends its
/// record and then shows its batch, an end shows the final lifts and then ends the epoch. One that
/// was refused makes the first of them, and the next may be in flight. New words are the next ones
/// of the tape.
pub fn calls_are_lives<S: Store>()
    ensures { RingCallsLive (λ store. S.disk store) }
{}

/// At each moment of a call, in whichever of its stages, the first of its acts were made, and the
/// next may be in flight: an opening can go on from what a crash leaves then.
pub fn stages_are_moments<S: Store>()
    ensures { StagesAreMoments (λ store. S.disk store) }
{}

/// An opening comes in stages too: up to its first sync a crash leaves what it might have left
/// before; up to the sync behind its generation's gate what was found, and maybe that generation;
/// and no batch is shown again before that is in every image.
pub fn openings_come_in_stages<S: Store>()
    ensures { OpeningsComeInStages (λ store. S.disk store) }
{}

/// Behind an opening the run over it is where the life is.
pub fn openings_are_lives<S: Store>()
    ensures { OpenedRunsLive S.Lane (λ store. S.disk store) }
{}

/// A chain of calls of a ring vault that were answered makes the acts of a life.
pub fn chains_are_lives<V: Vault, S: Store>()
    ensures { RingChainsInLife (kind_of V.Vault) (λ store. S.disk store) }
{}

/// What a call that was answered shows is the public schedule, filled by the words and the slots
/// that the life shows in it.
pub fn calls_show_lives<S: Store>()
    ensures fetches { FetchesShowLives (λ store. S.disk store) }
    ensures ends { EndsShowLives (λ store. S.disk store) }
{}
