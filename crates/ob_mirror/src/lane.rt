//! A lane of each half.

ghost use Rattle.ob_mirror.specs.Telling.{LaneTells};

use crate::log::Log;
use ob_store::Store;

/// A lane of the second half, which is asked where the first half failed.
#[derive(Drop)]
pub struct SecondLane<M> {
    /// The lane.
    pub lane: M,
    /// How many reads failed of both halves.
    pub failed: u64,
    /// The reads of both, whichever half served them.
    pub reads: Log,
}

/// A lane of each half.
#[derive(Drop)]
pub struct MirrorLane<A: Store, B: Store> {
    /// The first half's.
    pub first: A::Lane,
    /// The second half's.
    pub second: SecondLane<B::Lane>,
    pub ghost tells: { ∥ LaneTells second.reads.events (A.lane_seen first)
        (B.lane_seen second.lane) (A.lane_faults first) ∥₁ },
}
