//! The keys that an epoch is to read: queued in order, in flight, and the values delivered.
#![tactic(auto)]

mod bases;
mod key_list;
mod queue;

pub use queue::Queue;
