//! Closing a hall: the desk is given back.

ghost use Rattle.std.specs.Prelude.{All};
ghost use Rattle.ob_hall.specs.Passes.{IsPassOf, IsOutOfTurn};
ghost use Rattle.ob_hall.specs.Closing.{AreAll, IsWholeHistory};

use crate::hall::{Beside, Hall, Held, Pass};
use ob_desk::Desk;

impl Hall {
    /// The desk, to which one whole history leads; and each number that a pass was told is one
    /// that the driver's raised. It takes the passes of all callers, and no memory.
    pub fn close(self, mut passes: Vec<Pass>) -> Desk
        requires own { All (λ p. IsPassOf self p) passes.items }
        requires idle { All (λ p. IsOutOfTurn p) passes.items }
        requires all { AreAll self passes.items }
        ensures whole { IsWholeHistory self passes.items result }
    {
        let Beside { turn, bell, .. } = self;
        let Some(
            Held {
                mut seat,
                mut ear,
                ..
            },
        ) = passes.pop()
        else {
            unreachable!()
        };
        while let Some(other) = passes.pop() {
            let Held {
                seat: its_seat,
                ear: its_ear,
                ..
            } = other;
            turn.join(&mut seat, its_seat);
            bell.join(&mut ear, its_ear);
        }
        passes.destroy_empty();
        bell.close_with(ear);
        turn.close_with(seat)
    }
}
