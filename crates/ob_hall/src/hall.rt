//! A hall and its passes.

ghost use Rattle.std.specs.Prelude.{◌≡◌};

use crate::turned::Turned;
use ob_desk::{Desk, Txn};
use ob_turn::{Bell, BellSeat, Turn, TurnSeat};
use std::snapshot::Snapshot;
use std::sync::atomic::AtomicU64;

/// A turn and a bell side by side, what the turn's value was at the opening, and the words on which
/// callers sleep. It is generic in its parts, so that threads can be proved to share it.
#[derive(Drop)]
pub struct Beside<A, B, C> {
    pub(crate) turn: A,
    pub(crate) bell: B,
    pub(crate) opened: C,
    // Raised by the driver where a call that waits may now be answered.
    pub(crate) news: AtomicU64,
    // Raised by a client whose call waits, or that is done.
    pub(crate) asks: AtomicU64,
}

/// A desk that clients and the driver of epochs have in turns.
pub type Hall = Beside<Turn<Desk, Turned>, Bell, Snapshot<Desk>>;

/// A seat at a turn and one at a bell, with a client's number and its last transaction. It is
/// generic in its parts, so that threads can be proved to own it.
#[derive(Drop)]
pub struct Held<A, B> {
    pub(crate) seat: A,
    pub(crate) ear: B,
    /// Its client's number, 0 of the driver's.
    pub client: u32,
    /// The last transaction that its client began.
    pub last: Option<Txn>,
}

/// A caller's right to call at a hall. The driver's has number 0, a client's has its number.
pub type Pass = Held<TurnSeat<Desk, Turned>, BellSeat>;

impl<A, B> Held<A, B> {
    /// Its client's number, 0 of the driver's.
    pub fn number(&self) -> u32
        ensures { result ≡ self.now.client }
    {
        self.client
    }
}
