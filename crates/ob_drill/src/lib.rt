//! The map that a vault holds, read back: how many keys there are, and a digest of all of them.
#![tactic(auto)]

mod batch;
mod map;
mod rows;

pub use map::{MapDigest, read_map};
