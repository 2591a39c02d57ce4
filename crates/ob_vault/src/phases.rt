//! Events of phases, and shapes of calls.

ghost use Rattle.ob_vault.specs.KindLaws.{EventsJoin, ShapesJoin, ShapesAreOfAnswered, AnsweredHaveShapes, AnsweredAreNotRefused};

/// The events of phases are those of the first ones, and then those of the others.
pub fn phases_follow()
    ensures { EventsJoin }
{}

/// Calls that were all answered have a shape each, of which none was refused.
pub fn calls_are_told_by_shape()
    ensures join { ShapesJoin }
    ensures of { ShapesAreOfAnswered }
    ensures each { AnsweredHaveShapes }
    ensures none { AnsweredAreNotRefused }
{}
