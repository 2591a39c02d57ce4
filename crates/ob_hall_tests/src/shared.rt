//! What threads share and what they own: turns and bells.

use crate::turns::{Added, Counter};
use ob_turn::{Bell, BellSeat, Stepped, Turn, TurnSeat};

// A turn and a bell side by side, as a session layer holds them: generic in its parts.
struct Beside<A, B> {
    turn: A,
    bell: B,
}

/// Takes what threads may share.
pub fn needs_sync<T: Sync>(_shared: &T) {}

/// Takes what may be sent to a thread.
pub fn needs_send<T: Send>(_sent: &T) {}

fn turns_are_shared<E, T: Stepped<E> + Send>(turn: &Turn<T, E>, seat: &TurnSeat<T, E>) {
    needs_sync(turn);
    needs_send(seat);
}

fn bells_are_shared(bell: &Bell, seat: &BellSeat) {
    needs_sync(bell);
    needs_send(seat);
}

fn both_are_shared(
    both: &Beside<Turn<Counter, Added>, Bell>,
    seats: &Beside<TurnSeat<Counter, Added>, BellSeat>,
) {
    needs_sync(both);
    needs_send(both);
    needs_send(seats);
}
