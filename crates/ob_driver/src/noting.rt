//! The driver's turn, a call at a time.

ghost use Rattle.std.specs.Prelude.{◌≡◌, ◌++◌, [], ◌∷◌};
ghost use Rattle.ob_turn.specs.History.{IsAt};
ghost use Rattle.ob_turn.specs.TurnCalls.{IsInside};
ghost use Rattle.ob_hall.specs.Turns.{IsTurn};
ghost use Rattle.ob_hall.specs.Noting.{driver_step};
ghost use Rattle.ob_hall.specs.Passes.{IsPassOf, IsOutOfTurn, NotesTurn, LeavesTurn};

use ob_desk::Desk;
use ob_hall::{Driven, Hall, Pass, Turned};
use std::snapshot::Snapshot;

// What is noted of a call.
fn noted(call: Driven) -> Snapshot<Turned>
    ensures { result.value ≡ driver_step call ∷ [] }
{
    let turned = Turned::driver(call);
    Snapshot::of(&turned)
}

/// Notes a call.
pub fn note(hall: &Hall, pass: &mut Pass, call: Driven)
    requires own { IsPassOf hall.now pass.old }
    requires inside { IsInside pass.old.seat }
    ensures noted { NotesTurn pass.old pass.new (driver_step call ∷ []) }
    ensures own { IsPassOf hall.now pass.new }
{
    hall.note(pass, noted(call));
}

/// Ends the turn with a call.
pub fn leave(hall: &Hall, pass: &mut Pass, desk: Desk, call: Driven)
    requires own { IsPassOf hall.now pass.old }
    requires inside { IsInside pass.old.seat }
    requires desk { IsAt IsTurn pass.old.seat.me.0
        (pass.old.seat.me.0.noted ++ (driver_step call ∷ []) ∷ []) desk }
    ensures left { LeavesTurn pass.old pass.new (driver_step call ∷ []) }
    ensures own { IsPassOf hall.now pass.new }
    ensures idle { IsOutOfTurn pass.new }
{
    hall.leave(pass, desk, noted(call));
}
