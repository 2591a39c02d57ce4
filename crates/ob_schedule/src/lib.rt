//! The public schedule of a ring store: what each step shows, whoever asks for what. And what may stand
//! next in a trace of it: what is known behind some lines, and what each further line does to it. It
//! speaks of no key, no word and no store. What is wanted next stands in a queue, in which reads or
//! writes of cells that follow each other take one place.
#![tactic(auto)]

mod laws;
mod line;
mod run;
mod runs;
mod want;

pub use laws::{line_determines, notes_are_scheduled, phases_are_notes, wanted_is_exact};
pub use line::{Line, Wanted};
pub use runs::Runs;
pub use want::{Change, Gate, Register, Side, Want};
