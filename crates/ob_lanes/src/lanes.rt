//! A store whose lanes read at once.

ghost use Rattle.std.specs.Prelude.{◌≡◌, ◌<◌, ◌≤◌, ℕ, length};
ghost use denote.Param.Send.{IsSync};
ghost use Rattle.ob_lanes.specs.Hands.{IsPlaceRead, IsPlaceReady, hand_at};

use crate::{Hand, SealedJobs};
use ob_claims::{Claims, Round};
use ob_store::Store;
use std::thread::Threads;

/// A store whose lanes can be sent to threads.
///
/// A concrete store's `read_parts` is `read_hands(rt, self, hands, claims, round, asked)`: whether
/// the store may be shared and its lanes be sent can be seen only where both are known.
pub trait Lanes: Store {
    /// Each hand claims places of the round, one after another, reads the job at each, and opens
    /// its cell, whatever became of the others, until none is left or its part is full; in a
    /// thread of its own where one can be started. Where no hand is nothing is read.
    fn read_parts<R: Threads + Sync>(
        &self,
        rt: &R,
        hands: &mut [Option<Hand<Self::Lane>>],
        claims: &Claims,
        round: &Round,
        asked: &SealedJobs,
    )
        requires sync { IsSync R.row }
        requires few { length hands.old ≤ 16 }
        requires ready { (i : ℕ) → i < length hands.old
            → IsPlaceReady claims.now round.now (hand_at hands.old i) }
        requires jobs { round.now.count ≡ length asked.now.jobs.now }
        ensures many { length hands.new ≡ length hands.old }
        ensures each { (i : ℕ) → i < length hands.old
            → IsPlaceRead (Self.disk self.now) Self.lane_seen Self.lane_faults claims.now round.now
            asked.now (hand_at hands.old i) (hand_at hands.new i) };
}
