//! A read batch of a ring store: its words drawn, its record kept in the log, its slots planned,
//! read, shown and settled, and its keys answered.
#![tactic(auto)]

mod answering;
mod beginning;
mod drawing;
mod fetching;
mod run;

pub use drawing::{draw_front, front};
pub use fetching::fetch;
pub use run::Run;
