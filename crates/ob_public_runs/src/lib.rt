//! What is public of a store at each run of a row is a function of what was seen before, and of
//! its own opening. A law over lives of a ring store; nothing here runs.
#![tactic(auto)]

mod runs;

pub use runs::runs_are_public;
