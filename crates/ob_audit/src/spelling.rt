//! A law: lines are read as they are written.

ghost use Rattle.ob_audit.specs.Spelling.{LinesAreTheWriters};

/// The lines that are read are spelled as whoever writes a trace spells them.
pub fn lines_are_the_writers()
    ensures { LinesAreTheWriters }
{}
