//! All that the planner keeps between epochs.

use crate::book::Book;
use crate::stash::Stash;

/// All that the planner keeps from one epoch to the next, with what it keeps of the buckets as a
/// type parameter.
#[derive(Drop)]
pub struct Tables<M> {
    pub book: Book,
    pub metas: M,
    pub stash: Stash,
    /// How many paths were evicted, modulo the number of leaves.
    pub counter: u64,
}
