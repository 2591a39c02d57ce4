//! Over all runs of a store, from its format on: no word is shown in two holes, of labels and of
//! slots together, and what is public is moved on by what anyone sees. Laws of definitions over
//! lives of a ring store; nothing here runs.
#![tactic(auto)]

mod public;
mod words;

pub use public::lives_are_public;
pub use words::{no_word_is_shown_twice, sampled};
