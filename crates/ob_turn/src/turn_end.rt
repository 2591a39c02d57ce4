//! The end of a turn: the value is given back.

ghost use Rattle.std.specs.Prelude.{◌≡◌, [], ◌∷◌};
ghost use Rattle.ob_turn.specs.TurnCalls.{IsTurnSeat, IsIdle, HaveAll, Whole};

use crate::turn::{Board, Slot, Stepped, Turn, TurnSeat};

impl<E, T: Stepped<E>> Turn<T, E> {
    /// The value at the end, to the seat that took in all others.
    pub fn close_with(self, seat: TurnSeat<T, E>) -> T
        requires own { IsTurnSeat self seat }
        requires idle { IsIdle seat }
        requires all { HaveAll self (seat ∷ []) }
        ensures whole { Whole T.steps self (seat ∷ []) result }
    {
        let Board { table, sleepers: _ } = self;
        let mut closed = table.close_with(seat);
        let slot = closed.take(0);
        closed.free();
        match slot {
            Slot::Rests(value) => value,
            Slot::Leaves(value, _) => value,
            Slot::Noted(_) => unreachable!(),
            Slot::Out => unreachable!(),
        }
    }
}
