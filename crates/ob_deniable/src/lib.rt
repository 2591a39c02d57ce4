//! Whatever other work of the same public shape had been done, the store could have seen just
//! this: the tapes of the one work are exchanged one for one with those of the other. Laws of
//! definitions over lives of a ring store; nothing here runs.
#![tactic(auto)]

mod ranks;
mod works;

pub use ranks::{rankings_move, ties_tell};
pub use works::{lives_are_works, lives_exchange, sampled, seen_is_all, words_exchange};
