//! The final lifts of an epoch.

ghost use Rattle.std.specs.Prelude.{◌≡◌, ◌≤◌, ◌+◌, ◌%◌, ◌^◌, ℕ, IfErr, OnOk};
ghost use Rattle.ob_base.specs.Planned.{most_jobs};
ghost use Rattle.ob_store.specs.Images.{Same, Passes};
ghost use Rattle.ob_store.specs.Calls.{Serves, IsStoreFault, Keeps};
ghost use Rattle.ob_tables.specs.Buckets.{Buckets};
ghost use Rattle.ob_ring.specs.FlatTable.{FlatTable, FinalLifts, after};
ghost use Rattle.ob_ring.specs.Picked.{SameSeals};
ghost use Rattle.ob_ring.specs.Ring.{IsListed, StandsFor};
ghost use Rattle.ob_recover.specs.Repeats.{BatchTells, IsRepeatFault, RowsJoin};
ghost use Rattle.ob_fetch.specs.Fetches.{RunsAt};
ghost use Rattle.ob_stand.specs.Stands.{RingStanding, Stands};
ghost use Rattle.ob_end.specs.Lifts.{IsUndamaged, LiftsAnswer, lift_cells, lift_notes, lifts_picked};

use ob_base::{Fault, Jobs};
use ob_cells::Crew;
use ob_lanes::Lanes;
use ob_recover::read_jobs;
use ob_ring::Ring;
use ob_seal::Sealer;
use ob_store::Watch;
use std::thread::Threads;

/// Reads out the buckets of the paths that are evicted next, those that aren't lifted yet: plans
/// them, reads them, shows the reads, and settles what was read. It takes no memory.
///
/// # Errors
/// The store failed, and its count of faults rose; or what is damaged first: in the order planned,
/// the first slot whose tag or seal is wrong, or, where none is, the first row that holds another
/// key, or a length above 64.
pub fn read_lifts<S: Lanes, R: Threads + Sync, W: Watch>(
    rt: &R,
    store: &mut S,
    crew: &mut Crew<S::Lane>,
    sealer: &Sealer,
    jobs: &mut Jobs,
    ring: &mut Ring,
    watch: &mut W,
) -> Result<(), Fault>
    requires stands { (t : FlatTable) × StandsFor ring.old t }
    requires jobs { (jobs.old.room ≡ most_jobs ring.old.p)
        × (jobs.old.place_room ≡ ring.old.p.places) }
    requires crew { most_jobs ring.old.p ≤ crew.old.jobs }
    ensures serves { Serves IsStoreFault (S.disk store.old) (S.disk store.new) result }
    ensures faults { IfErr result IsRepeatFault }
    ensures keeps { Keeps (S.disk store.old) (S.disk store.new) }
    ensures passes { Passes Same (S.disk store.old) (S.disk store.new) }
    ensures crew { crew.new ≡ crew.old }
    ensures rooms { (jobs.new.room ≡ jobs.old.room) × (jobs.new.place_room ≡ jobs.old.place_room) }
    ensures kept { ring.new
        ≡ record ring.old {
          metas = ring.new.metas;
          stash = ring.new.stash;
          counter =
              (ring.old.counter + ring.old.p.evictions) % 2 ^ ring.old.p.levels;
        } }
    ensures room { ring.new.stash.room ≡ ring.old.stash.room }
    ensures seals { SameSeals (record ring.old.metas { order = ring.new.metas.order })
        ring.new.metas }
    ensures listed { IsListed ring.new }
    ensures table { (t : FlatTable) → StandsFor ring.old t
        → StandsFor ring.new (after ring.old.p t FinalLifts) }
    // Whatever the store tells, the rows are of the keys that the table's lifts pick.
    ensures joins { (t : FlatTable) → StandsFor ring.old t
        → OnOk result (RowsJoin (lifts_picked ring.old.p t) ring.old.stash.rows
        ring.new.stash.rows) }
    // Where the buckets lie as these were sealed, the jobs are those of their slots.
    ensures value { (start : Buckets) (t : FlatTable) → SameSeals start ring.old.metas
        → StandsFor ring.old t → (S.disk store.old).tells
        → LiftsAnswer sealer.now.keys ring.old.p start.versions (S.disk store.old).cells t
        ring.old.stash.rows ring.new.stash.rows result }
    // Where the store stands, and the planner is behind its records' batches, nothing is damaged.
    ensures sound { (s : RingStanding) (epoch generation left : ℕ) → (S.disk store.old).tells
        → Stands sealer.now.keys ring.old.p s (S.disk store.old).cells
        → RunsAt sealer.now.keys ring.old.p epoch generation left ring.old s
        (S.disk store.old).cells → IsUndamaged result }
    ensures told { (start : Buckets) (t : FlatTable) → SameSeals start ring.old.metas
        → StandsFor ring.old t
        → BatchTells crew.old.lanes (lift_cells ring.old.p start.versions t)
        (lift_notes ring.old.p start.versions t) (S.disk store.old).seen (S.disk store.new).seen
        (W.trace watch.old) (W.trace watch.new) result }
{
    ring.plan_lifts(jobs);
    match read_jobs(rt, store, crew, sealer, jobs, watch) {
        Ok(()) => {}
        Err(fault) => return Err(fault),
    }
    match ring.settle(jobs) {
        Ok(()) => Ok(()),
        Err(damaged) => Err(Fault::from(damaged)),
    }
}
