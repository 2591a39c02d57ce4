//! What other calls would have drawn over all runs of a store: from contents of one life on one
//! other tape, run by run, the very notes and phases of what was done. A law of definitions;
//! nothing here runs.
#![tactic(auto)]

mod runs;

pub use runs::{draws_are_deniable, only_fit_asks_draw};
