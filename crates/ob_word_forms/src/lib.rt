//! Laws of the program's words: each form is read as what it says, and which words are refused.
#![tactic(auto)]

mod laws;

pub use laws::{forms_are_read, others_are_refused};
