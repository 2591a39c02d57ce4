//! Laws of what may stand next.

ghost use Rattle.ob_schedule.specs.Laws.{WantedIsExact, NotesAreScheduled, LineDetermines};
ghost use Rattle.ob_schedule.specs.Phases.{PhasesAreNotes};

/// A line may stand next exactly where it begins a run or a format, or is one of those that are
/// said to be wanted.
pub fn wanted_is_exact()
    ensures { WantedIsExact }
{}

/// What is wanted of a format, a record, a setting, an opening and an end are the public schedule's
/// notes.
pub fn notes_are_scheduled()
    ensures { NotesAreScheduled }
{}

/// What is known behind a line follows from what was known before it.
pub fn line_determines()
    ensures { LineDetermines }
{}

/// The phases of a batch, an opening and an end have the events of their notes.
pub fn phases_are_notes()
    ensures { PhasesAreNotes }
{}
