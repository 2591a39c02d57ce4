//! A turn that is being taken.

ghost use Rattle.std.specs.Prelude.{◌≡◌, ◌++◌, [], ◌∷◌};
ghost use Rattle.ob_turn.specs.History.{IsAt};
ghost use Rattle.ob_turn.specs.TurnCalls.{IsTurnSeat, IsIdle, IsInside, Enters, NotesCall, EndsTurn};

use crate::turn::{Stepped, Turn, TurnSeat};
use std::snapshot::Snapshot;
use std::sync::Wait;

/// A turn that is being taken: the seat, and the value while it is out. It can't be dropped: a
/// turn ends by `Guard::leave`.
pub struct Guard<'s, 't, T: Stepped<E>, E> {
    pub seat: &'s mut TurnSeat<T, E>,
    pub turn: &'t Turn<T, E>,
    pub value: T,
}

impl<'s, 't, E, T: Stepped<E>> Guard<'s, 't, T, E> {
    /// Notes a call of this turn, behind those that are noted. It waits for nobody and takes no
    /// memory, so a turn may have any number of calls, which are one entry of the history.
    pub fn note(&mut self, call: Snapshot<E>)
        requires own { IsTurnSeat self.old.turn.now self.old.seat.now }
        requires inside { IsInside self.old.seat.now }
        ensures noted { NotesCall self.old.seat.now self.new.seat.now call.value }
        ensures own { IsTurnSeat self.new.turn.now self.new.seat.now }
        ensures value { self.new.value ≡ self.old.value }
        ensures seat { self.new.seat.ghost_name ≡ self.old.seat.ghost_name }
    {
        self.turn.note(self.seat, call);
    }

    /// Waits for the seat's turn, as `Turn::take` does.
    pub fn enter<R: Wait>(
        rt: &R,
        turn: &'t Turn<T, E>,
        seat: &'s mut TurnSeat<T, E>,
    ) -> Guard<'s, 't, T, E>
        requires own { IsTurnSeat turn.now seat.old }
        requires idle { IsIdle seat.old }
        ensures seat { result.seat.ghost_name ≡ seat.entry.ghost_name }
        ensures own { IsTurnSeat result.turn.now result.seat.now }
        ensures entered { Enters T.steps seat.old result.seat.now result.value }
    {
        let value = turn.take(rt, seat);
        Guard { seat, turn, value }
    }

    /// Ends the turn with its last call, as `Turn::put` does.
    pub fn leave(guard: Guard<T, E>, last: Snapshot<E>)
        requires own { IsTurnSeat guard.turn.now guard.seat.now }
        requires inside { IsInside guard.seat.now }
        requires value { IsAt T.steps guard.seat.now.me.0
            (guard.seat.now.me.0.noted ++ last.value ∷ []) guard.value }
        ensures left { EndsTurn guard.entry.seat.now guard.exit.0.now last.value }
    {
        let Guard { seat, turn, value } = guard;
        turn.put(seat, value, last);
    }
}
