//! What the words ask for, exactly: the program's commands, as a parse by `clap` reads their
//! words.
//!
//! A command more is one line of the program's builder with a table of its words, one variant of
//! [`Request`] with its arm, and its shape and what is read of it in `specs/`.
#![tactic(auto)]

mod commands;
mod request;
mod work;

pub use request::{Request, WordsErr, read_words};
pub use work::{Command, Paths, Work, keys_of, store_wanted, tape_key, work_of};
