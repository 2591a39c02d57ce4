//! The end of a turn, with the seats of all callers.

ghost use Rattle.std.specs.List.{All};
ghost use Rattle.ob_turn.specs.TurnCalls.{IsTurnSeat, IsIdle, HaveAll, Whole};

use crate::turn::{Stepped, Turn, TurnSeat};

/// The value at the end, to which the whole history leads. It takes no memory.
pub fn close<E, T: Stepped<E>>(turn: Turn<T, E>, mut seats: Vec<TurnSeat<T, E>>) -> T
    requires own { All (λ s. IsTurnSeat turn s) seats.items }
    requires idle { All (λ s. IsIdle s) seats.items }
    requires all { HaveAll turn seats.items }
    ensures whole { Whole T.steps turn seats.items result }
{
    let Some(mut seat) = seats.pop() else {
        unreachable!()
    };
    while let Some(other) = seats.pop() {
        turn.join(&mut seat, other);
    }
    turn.close_with(seat)
}
