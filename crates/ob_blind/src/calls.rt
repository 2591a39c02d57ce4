//! The planner's calls are those that the law of two rings speaks of.

ghost use Rattle.std.specs.Prelude.{◌≡◌, ◌≤◌, ◌<◌, ◌*◌, ℕ, IfSome, length, None, replicate, slice_index_or};
ghost use Rattle.ob_base.specs.Planned.{job_at, most_jobs};
ghost use Rattle.ob_base.specs.Tree.{buckets, width};
ghost use Rattle.ob_ring.specs.Fetching.{places_of};
ghost use Rattle.ob_ring.specs.Ring.{AreListedWithin, IsListed};
ghost use Rattle.ob_ring.specs.Writing.{write_at, writes_of};
ghost use Rattle.ob_blind.specs.Rings.{AreLiftsPlanned, AreWritesMade, ChangesRows, IsFetchPlanned, IsRefillDone};

use ob_base::{Damaged, Jobs, Key, StashFull, Write};
use ob_ring::{Index, Ring, Steps};
use std::sync::ledger::Ledger;

/// Plans a read batch.
pub fn plan_fetch(
    ring: &mut Ring,
    asks: &[Option<Key>],
    words: &[u64],
    first: (u64, u64),
    jobs: &mut Jobs,
)
    requires asks { length asks.now ≡ ring.old.p.places }
    requires keys { (i : ℕ) → IfSome (slice_index_or asks.now i None) (λ k. k < ring.old.p.keys) }
    requires words { length words.now ≡ ring.old.p.places }
    requires jobs { (jobs.old.room ≡ most_jobs ring.old.p)
        × (jobs.old.place_room ≡ ring.old.p.places) }
    ensures { IsFetchPlanned (record { old = ring.old; new = ring.new }) jobs.new
        (places_of ring.old.p asks.now words.now first (length asks.now)) }
{
    ring.plan_fetch(asks, words, first, jobs);
}

/// Plans the final lifts.
pub fn plan_lifts(ring: &mut Ring, jobs: &mut Jobs)
    requires jobs { (jobs.old.room ≡ most_jobs ring.old.p)
        × (jobs.old.place_room ≡ ring.old.p.places) }
    ensures { AreLiftsPlanned (record { old = ring.old; new = ring.new }) jobs.new }
{
    ring.plan_lifts(jobs);
}

/// Puts what the jobs read into the stash.
pub fn settle(ring: &mut Ring, jobs: &Jobs) -> Result<(), Damaged>
    requires { (i : ℕ) → IfSome (job_at jobs.now.jobs i).key (λ k. k < ring.old.p.keys) }
    ensures { ChangesRows (record { old = ring.old; new = ring.new }) }
{
    ring.settle(jobs)
}

/// Makes an epoch's writes.
pub fn apply_writes(ring: &mut Ring, writes: &[Write], words: &[u64], first: (u64, u64))
    requires keys { (i : ℕ) → i < length writes.now → (write_at writes.now i).key < ring.old.p.keys }
    requires words { length writes.now ≤ length words.now }
    ensures { AreWritesMade (record { old = ring.old; new = ring.new })
        (writes_of ring.old.p writes.now words.now first (length writes.now)) }
{
    ring.apply_writes(writes, words, first);
}

/// Fills the lifted buckets anew.
pub fn refill<C: Ledger>(
    ring: &mut Ring,
    index: &mut Index,
    words: &[u64],
    first: (u64, u64),
    steps: &mut Steps<C>,
) -> Result<(), StashFull>
    requires listed { IsListed ring.old }
    requires words { length words.now ≡ length ring.old.metas.order * width ring.old.p }
    requires index { index.old ≡ replicate (buckets ring.old.p) 0 }
    ensures { IsRefillDone (record { old = ring.old; new = ring.new }) result }
{
    ring.refill_indexed(index, words, first, steps)
}

/// The rows that were written leave the stash.
pub fn forget_written(ring: &mut Ring)
    requires { AreListedWithin ring.old }
    ensures { ChangesRows (record { old = ring.old; new = ring.new }) }
{
    ring.forget_written();
}
