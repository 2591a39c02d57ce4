//! Whatever other work of the same public shape had been done over all runs of a store, one tape
//! could have shown just this. Laws over lives of a ring store; nothing here runs.
#![tactic(auto)]

mod runs;
mod tapes;

pub use runs::{calls_are_deniable, runs_are_deniable};
pub use tapes::{sampled, tapes_exchange};
