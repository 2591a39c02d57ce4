//! What decides a label and a slot, and what doesn't: two planners of one table pick the same
//! indexes, and words of buckets decide no label. Laws of definitions, and the planner's calls as
//! these speak of them; the program runs nothing of it.
#![tactic(auto)]

mod calls;
mod draws;
mod formats;
mod rings;
mod samples;

pub use calls::{apply_writes, forget_written, plan_fetch, plan_lifts, refill, settle};
pub use draws::draws_are_blind;
pub use formats::formats_are_alike;
pub use rings::rings_pick_alike;
pub use samples::sampled;
