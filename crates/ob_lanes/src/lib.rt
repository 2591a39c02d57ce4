//! Jobs read by several lanes at once: each claims the next one and opens its cell, lanes are made
//! for it, and all taken back.
#![tactic(auto)]

mod hand;
mod job_reading;
mod lanes;
mod readers;
mod reading;
mod round;
mod window;

pub use hand::{Hand, Outcome, SealedJobs, Slot};
pub use job_reading::read_jobs;
pub use lanes::Lanes;
pub use readers::Readers;
pub use reading::{open_cell, read_hands, read_hands_in_turn, read_slot};
