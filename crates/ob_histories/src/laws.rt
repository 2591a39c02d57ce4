//! Histories and lines that are admitted.

ghost use Rattle.ob_histories.specs.Laws.{
  HistoriesAreAdmitted,
  AdmittedAreHistories,
  FilledAreHistories,
  LabelsAreLeaves,
};

/// The lines of histories, one behind the other, are admitted.
pub fn histories_are_admitted()
    ensures { HistoriesAreAdmitted }
{}

/// Lines that are admitted are the lines of histories, one behind the other: each from its format
/// on, with fills of all epochs, and of each run whether it has a mirror, what it found and how far
/// it came. So lines are admitted exactly where they are histories'.
pub fn admitted_are_histories()
    ensures { AdmittedAreHistories }
{}

/// Lines that are admitted behind one format's, each label and each slot one that these fills
/// have, are those of a history with these fills: there are runs, of each whether it has a mirror,
/// what it found and how far it came.
pub fn filled_are_histories()
    ensures { FilledAreHistories }
{}

/// Lines that are admitted behind one format's have leaves: a place of an epoch shows one leaf,
/// whichever runs show it.
pub fn labels_are_leaves()
    ensures { LabelsAreLeaves }
{}
