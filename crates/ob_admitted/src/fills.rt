//! What fills the holes of all epochs of a life.

ghost use Rattle.ob_serial.specs.VaultKinds.{kind_of};
ghost use Rattle.ob_vault.specs.Spans.{span};
ghost use Rattle.ob_admitted.specs.Between.{
  OpeningsLeaveHistories,
  RepeatsLeaveHistories,
  RunsLeaveHistories,
};
ghost use Rattle.ob_admitted.specs.Calls.{CallsAreTurns};
ghost use Rattle.ob_admitted.specs.Cuts.{CutOpeningsShowHistories, CutRunsShowHistories};
ghost use Rattle.ob_admitted.specs.Fills.{LivesHaveFills};
ghost use Rattle.ob_admitted.specs.Fronts.{FrontsAreRuns};
ghost use Rattle.ob_admitted.specs.Gates.{
  CallsLeaveGates,
  GatedRunsAreAdmitted,
  StagesLeaveGates,
};
ghost use Rattle.ob_admitted.specs.Lives.{LivesAreAdmitted};
ghost use Rattle.ob_admitted.specs.Notes.{CallsGoByFills};
ghost use Rattle.ob_admitted.specs.OpeningMoments.{CutOpeningsAreShown};
ghost use Rattle.ob_admitted.specs.Openings.{OpeningsAreRuns};
ghost use Rattle.ob_admitted.specs.Parts.{PartsAreRuns};
ghost use Rattle.ob_admitted.specs.Publics.{LivesGoByFills};
ghost use Rattle.ob_admitted.specs.Refused.{RefusedHeadsAreShown, RefusedOpeningsAreShown};
ghost use Rattle.ob_admitted.specs.Repeats.{OpeningsGoByFills};
ghost use Rattle.ob_admitted.specs.Rows.{RowsAreAdmitted};
ghost use Rattle.ob_admitted.specs.Served.{ServedRunsAreShown};
ghost use Rattle.ob_admitted.specs.Stopped.{StoppedRunsAreAdmitted};
ghost use Rattle.ob_admitted.specs.Told.{CallsLeaveAsNoted, NotedRunsAreAdmitted, StagesLeaveAsNoted};
ghost use Rattle.ob_admitted.specs.Walks.{RowsOfRunsAreAdmitted};
ghost use Rattle.ob_admitted.specs.Wholes.{RunsShowHistories};

use ob_serial::Vault;
use ob_store::Store;

/// Each life from a format on, of any number of runs, crashes and repeats, has fills of all epochs
/// as a public history has: in range, with no slot of a version twice, and all that an attempt
/// shows is theirs.
pub fn lives_have_fills()
    ensures { LivesHaveFills }
{}

/// What is public of such a life at the beginning of the epoch that runs, and each bucket's version,
/// is what it is by these fills; so are the leaves that the epoch's batches show.
pub fn lives_go_by_fills()
    ensures { LivesGoByFills }
{}

/// A batch that a call fetched, and an epoch's end, of such a life show the notes that a public
/// history with these fills has, if the call's fills and these are what its acts show.
pub fn calls_go_by_fills()
    ensures { CallsGoByFills }
{}

/// What an opening of such a life repeats is what a public history with these fills shows again,
/// batch by batch.
pub fn openings_go_by_fills()
    ensures { OpeningsGoByFills }
{}

/// The calls of a run over such a life, one behind the other, show turns of a public history with
/// these fills: batches of the epoch that runs, its end, batches of the next one, and so on.
pub fn calls_are_turns()
    ensures { CallsAreTurns }
{}

/// A whole run over such a life, with its opening, the batches that it repeats and the calls that
/// were answered, shows a run of a public history with these fills, by what it found.
pub fn runs_show_histories()
    ensures { RunsShowHistories }
{}

/// What a run of a public history has shown, cut off anywhere, is a run of one by the same that was
/// found, with a mirror where that has one.
pub fn fronts_are_runs()
    ensures { FrontsAreRuns }
{}

/// So does one whose last call was refused: so many notes of what that call would have shown, behind
/// the calls that were answered, are as many of the step that comes next.
pub fn cut_runs_show_histories()
    ensures { CutRunsShowHistories }
{}

/// And what an opening over such a life has shown that stopped, before or within the batches that it
/// repeats, is a run of a public history with these fills, by what it found.
pub fn cut_openings_show_histories()
    ensures { CutOpeningsShowHistories }
{}

/// What a run over such a life leaves to be found, by its acts and those that count of the call that
/// was refused, a run of a public history may leave that has shown the same. Premises: of the refused
/// call a record, or the epoch's end, is found only where the write was shown that opens its gate, and
/// is where the sync behind that was; and gates are found as their writes and syncs leave them.
pub fn runs_leave_histories()
    ensures { RunsLeaveHistories }
{}

/// So does an opening over such a life that stopped before its repeats. Premise: its generation is
/// found just where the sync behind the write was shown that opens its gate.
pub fn openings_leave_histories()
    ensures { OpeningsLeaveHistories }
{}

/// And one that stopped within the batches that it repeats, whose number is as it was.
pub fn repeats_leave_histories()
    ensures { RepeatsLeaveHistories }
{}

/// The lines of a format, of runs of a life behind it without a mirror, and of openings between them
/// that stopped before their first sync, are a public history's, and so they are admitted. Premises:
/// each run shows a run of a history that finds the life where it is, and leaves what the next one
/// finds there, and what each of the openings behind it found.
pub fn rows_are_admitted()
    ensures { RowsAreAdmitted }
{}

/// A run over such a life that served calls, whose last one may have been refused, shows a run of a
/// public history that finds the life where it is, and leaves what the next run finds.
pub fn served_runs_are_shown()
    ensures { ServedRunsAreShown }
{}

/// The lines of a format and of runs of one life behind it, which served calls or stopped in their
/// openings or behind these, and of openings between them that only read, are a public history's, and
/// so they are admitted. Premises: those of the laws above.
pub fn lives_are_admitted()
    ensures { LivesAreAdmitted }
{}

/// A run of a vault that goes on with a life, and showed what its opening, its calls and the one that
/// was refused show, is such a run. Premise: what it leaves to be found is as the notes tell, which
/// the refused call showed.
pub fn parts_are_runs<S: Store>()
    ensures { PartsAreRuns (λ store. S.disk store) }
{}

/// Runs over a formatted store, each of which begins at an image that a crash left behind the one
/// before, and served calls until one was refused or the crash came, are one life, which has fills of
/// all epochs. Where each leaves what it showed, the lines of the format and of these runs are a
/// public history's, and so they are admitted.
pub fn rows_of_runs_are_admitted<S: Store>()
    ensures { RowsOfRunsAreAdmitted (λ store. S.disk store) }
{}

/// An opening that was refused, over an image that stood for the life, is such a run too: it stopped
/// before, within or behind the batches that it repeats. Premise: of the opening of what stood it
/// showed so many notes, and all that the running epoch may show is these fills.
pub fn openings_are_runs()
    ensures { OpeningsAreRuns }
{}

/// What is left of a call that was refused is as its notes tell: a batch's record isn't in the log, and
/// not in flight, where two of its record's notes or more lack, and it is in the log where none does; an
/// end isn't in flight where two of its notes or more lack.
pub fn calls_leave_as_noted<V: Vault, S: Store>()
    ensures { CallsLeaveAsNoted (kind_of V.Vault) (λ store. S.disk store) }
{}

/// And which gates the next run finds behind calls follows from their notes: of the generations'
/// register the one that was open; of the epoch's the one that was known, but behind an end that was
/// refused as closing and opening leave it.
pub fn calls_leave_gates<V: Vault, S: Store>()
    ensures { CallsLeaveGates (kind_of V.Vault) (λ store. S.disk store) }
{}

/// So runs over a formatted store, as above, show a public history where each refused call left what
/// its notes tell. Premise: the gates are found as their writes and syncs leave them.
pub fn noted_runs_are_admitted<S: Store>()
    ensures { NotedRunsAreAdmitted (λ store. S.disk store) }
{}

/// So rows of runs over a formatted store, whose gates are a format's, are admitted, where each run left
/// what its notes tell, and the gates as its calls say.
pub fn gated_runs_are_admitted<S: Store>()
    ensures { GatedRunsAreAdmitted (λ store. S.disk store) }
{}

/// And so it is of a call that was cut off in a stage: by the notes that were shown in that stage.
pub fn stages_leave_as_noted()
    ensures { StagesLeaveAsNoted }
{}

/// And which gates the next run finds behind a call that was cut off in a stage follows from those
/// notes too: behind a batch those that were known, and behind an end as closing and opening leave
/// them.
pub fn stages_leave_gates<V: Vault, S: Store>()
    ensures { StagesLeaveGates (kind_of V.Vault) (λ store. S.disk store) }
{}

/// So rows of runs that were cut off in stages, each left as a crash at a moment of the stage leaves it,
/// are admitted too. Premise: as above.
pub fn noted_stages_are_admitted<S: Store>()
    ensures { NotedRunsAreAdmitted (span (λ store. S.disk store)) }
{}

/// And with no premise on gates: rows of runs over a formatted store, whose gates are a format's, cut
/// off in stages, are admitted, where each run left what its notes tell, and the gates as its calls
/// and its stage say.
pub fn gated_stages_are_admitted<S: Store>()
    ensures { GatedRunsAreAdmitted (span (λ store. S.disk store)) }
{}

/// So are rows in which openings stopped, between two runs that served or one behind the other, where
/// each showed, and left, what its notes tell: its images as they might have been where it came to its
/// reads; else all cells as they were, but those of the generations' register by how many notes lack.
/// But for one case: an opening's last note is the write that opens its generation's gate, and the next
/// run that shows its first sync found that generation.
pub fn stopped_runs_are_admitted<S: Store>()
    ensures { StoppedRunsAreAdmitted (λ store. S.disk store) }
{}

/// And rows of runs that were cut off in stages, with such openings among them.
pub fn stopped_stages_are_admitted<S: Store>()
    ensures { StoppedRunsAreAdmitted (span (λ store. S.disk store)) }
{}

/// What an opening says that was refused, behind the head's read, is what such a row takes of it: which
/// notes it showed, and what it left of cells, gates and the generation. So it is of a run that came to
/// the head at most.
pub fn refused_openings_are_shown<S: Store>()
    ensures openings { RefusedOpeningsAreShown (λ store. S.disk store) }
    ensures heads { RefusedHeadsAreShown (λ store. S.disk store) }
{}

/// And so is an opening that a crash cut off, behind the head's read, whether it would have been
/// answered or refused: at each moment of each of its stages, while it reads, once its first sync was
/// shown, while its generation's gate is closed, the body laid and the gate opened, and while batches
/// are shown again, it has shown what a row takes, and left that; and it is a part of a row.
pub fn cut_openings_are_shown<S: Store>()
    ensures { CutOpeningsAreShown (λ store. S.disk store) }
{}
