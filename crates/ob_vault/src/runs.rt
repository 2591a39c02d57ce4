//! What the calls of a vault over a ring store draw is what a life of the store shows, so it is
//! fresh over all runs; and each run goes on with the life that its store stood for.

ghost use Rattle.ob_serial.specs.VaultKinds.{kind_of};
ghost use Rattle.ob_vault.specs.Shown.{DrawnIsShown};
ghost use Rattle.ob_vault.specs.Joined.{RunsAreOneLife, TapesExist};
ghost use Rattle.ob_vault.specs.Lives.{FormatsBegin, OpeningsGoOn, OpeningsStop, RunsAreLives, RunsGoOn, RunsGoOnAsTold};
ghost use Rattle.ob_vault.specs.Spans.{RowsOfStages, RunsStopInStages};
ghost use Rattle.ob_vault.specs.Staged.{CallsComeInStages, CutRunsAreTold};

use ob_serial::Vault;
use ob_store::Store;

/// What calls draw, one behind the other, makes the acts of a life of the store, and fills the
/// holes with what these show: no word in two holes, over all the runs of the store.
pub fn drawn_is_shown()
    ensures { DrawnIsShown }
{}

/// A format begins a life of its store.
pub fn formats_begin<S: Store>()
    ensures { FormatsBegin (λ store. S.disk store) }
{}

/// An opening goes on with each life that the store's cells stood for, and shows again what that
/// has shown.
pub fn openings_go_on()
    ensures { OpeningsGoOn }
{}

/// One that was refused leaves the store behind the first of its acts.
pub fn openings_stop<S: Store>()
    ensures { OpeningsStop (λ store. S.disk store) }
{}

/// Behind an opening the vault's calls go on with the life, and the store is left where that is.
pub fn runs_go_on<V: Vault, S: Store>()
    ensures { RunsGoOn (kind_of V.Vault) (λ store. S.disk store) }
{}

/// Behind one that was refused the notes tell how far it came: a batch's record isn't made where they
/// are of its body alone, and is where all of its notes were shown; and an end isn't in flight
/// before the write that opens its register's gate.
pub fn runs_go_on_as_told<V: Vault, S: Store>()
    ensures { RunsGoOnAsTold (kind_of V.Vault) (λ store. S.disk store) }
{}

/// So the whole run is a part of one life, from the store as it was to the store as it is left, and
/// all that is shown in that life is fresh.
pub fn runs_are_lives<S: Store>()
    ensures { RunsAreLives (λ store. S.disk store) }
{}

/// Any row of runs over a store that was formatted, each of which begins at an image that a crash
/// left behind the one before, is one life: in all of them no word is shown in two holes, and a
/// hole that is shown again is filled as before.
pub fn runs_are_one_life<S: Store>()
    ensures { RunsAreOneLife (λ store. S.disk store) }
{}

/// Each call of a vault comes in stages, one behind the other, whatever it answers: a batch's
/// record and then its reads, an end's lifts and all else and then its register.
pub fn calls_come_in_stages<V: Vault, S: Store>()
    ensures { CallsComeInStages (kind_of V.Vault) (λ store. S.disk store) }
{}

/// A run that is cut off in a stage of a call goes on with the life as one whose call was refused,
/// from whichever image a crash left at a moment of that stage; of the call that counts which may
/// have been seen by the stage's end.
pub fn runs_stop_in_stages<V: Vault, S: Store>()
    ensures { RunsStopInStages (kind_of V.Vault) (λ store. S.disk store) }
{}

/// So what a run tells of its stages tells of each run that is cut off in one of them, also in its
/// opening, what a row of runs asks for.
pub fn cut_runs_are_told<S: Store>()
    ensures { CutRunsAreTold (λ store. S.disk store) }
{}

/// And a row of runs that are cut off so is one life too.
pub fn rows_of_stages<S: Store>()
    ensures { RowsOfStages (λ store. S.disk store) }
{}

/// For any such row there are words such that the tape of each run gave those of its generation:
/// the generations of its runs rise. So the law on rows of runs isn't empty.
pub fn tapes_exist<S: Store>()
    ensures { TapesExist (λ store. S.disk store) }
{}
