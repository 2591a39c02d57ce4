//! Lines and their texts.

ghost use Rattle.ob_histories.specs.Texts.{LinesAreAdmitted};

/// The texts of lines, as whoever shows them writes them, are admitted by an audit exactly where
/// the lines are. Lines that are admitted have labels and cells below 2^64, so they are written, and
/// an audit of their texts, where it looks at them all, answers that they fit, and nothing else.
pub fn lines_are_admitted()
    ensures { LinesAreAdmitted }
{}
