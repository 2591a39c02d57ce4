//! What threads share in order.
//!
//! `Turn` is a ticket lock (Mellor-Crummey and Scott, "Algorithms for Scalable Synchronization on
//! Shared-Memory Multiprocessors") round a value, with one history of the turns that were taken.
//! Its callers wait for a ticket at a gate, where few are awake (Dice, "Malthusian Locks").
//! `Bell` is a number that one thread raises and all read. The docs of a call name its
//! linearization point (Herlihy and Wing, "Linearizability: A Correctness Condition for Concurrent
//! Objects"): the one atomic step at which it takes effect. A `Guard` is a turn that is being taken, for
//! callers that like one; and `close` takes the seats of all callers where `Turn::close_with` takes the
//! last one alone.
#![tactic(auto)]

mod bell;
mod bell_calls;
mod closing;
mod guard;
mod sleepers;
mod turn;
mod turn_calls;
mod turn_end;

pub use bell::{Bell, BellSeat, Heard, Rising};
pub use closing::close;
pub use guard::Guard;
pub use turn::{
    Board, Entry, Joined, OneHistory, Opened, Slot, Stage, Stepped, Turn, TurnSeat, View,
};
