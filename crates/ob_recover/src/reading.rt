//! Reading a read batch.

ghost use Rattle.std.specs.Prelude.{◌≡◌, ◌<◌, ◌≤◌, ℕ, List, [], length, IfErr, IfSome, OnOk, Some, None, slice_index_or};
ghost use Rattle.ob_base.specs.Planned.{most_jobs, job_at};
ghost use Rattle.ob_store.specs.Images.{Same, Passes};
ghost use Rattle.ob_store.specs.Calls.{Serves, IsStoreFault, Keeps};
ghost use Rattle.ob_tables.specs.Kept.{entry_at};
ghost use Rattle.ob_cells.specs.Jobs.{AreFilled, cells_of};
ghost use Rattle.ob_tables.specs.Buckets.{Buckets};
ghost use Rattle.ob_ring.specs.Fetching.{after_labels};
ghost use Rattle.ob_ring.specs.FlatTable.{FlatTable, Batch, after};
ghost use Rattle.ob_ring.specs.Picked.{SameSeals, batch_picked};
ghost use Rattle.ob_ring.specs.Ring.{IsBatch, StandsFor};
ghost use Rattle.ob_recover.specs.Fits.{IsPlannerFit};
ghost use Rattle.ob_recover.specs.Shows.{ArePlaced, placed_notes};
ghost use Rattle.ob_recover.specs.Repeats.{record_places, asked_of_record, record_of, repeated_notes, batch_cells, BatchAnswers, BatchTells, IsRepeatFault, JobsAnswer, HaveKeysOf, RowsJoin};

use crate::showing::show_jobs;
use ob_base::{Fault, Jobs, Key};
use ob_cells::{Crew, JobsErr, run_jobs};
use ob_lanes::Lanes;
use ob_ring::Ring;
use ob_seal::Sealer;
use ob_store::Watch;
use std::thread::Threads;

/// Reads planned jobs, and shows them once they were read, also where one failed: those before the
/// first place, and before each place's reads its label.
///
/// # Errors
/// The store failed, and its count of faults rose; or the first job, in the order planned, whose
/// cell's tag or seal is wrong.
pub fn read_jobs<S: Lanes, R: Threads + Sync, W: Watch>(
    rt: &R,
    store: &mut S,
    crew: &mut Crew<S::Lane>,
    sealer: &Sealer,
    jobs: &mut Jobs,
    watch: &mut W,
) -> Result<(), Fault>
    requires few { length jobs.old.jobs ≤ crew.old.jobs }
    requires placed { ArePlaced jobs.old }
    ensures serves { Serves IsStoreFault (S.disk store.old) (S.disk store.new) result }
    ensures value { (S.disk store.old).tells
        → JobsAnswer sealer.now.keys (S.disk store.old).cells jobs.old.jobs jobs.new.jobs result }
    ensures faults { IfErr result IsRepeatFault }
    ensures rest { jobs.new ≡ record jobs.old { jobs = jobs.new.jobs } }
    ensures keys { HaveKeysOf jobs.old.jobs jobs.new.jobs }
    ensures filled { OnOk result ((plain : ℕ → List ℕ)
        × AreFilled jobs.old.jobs jobs.new.jobs plain) }
    ensures crew { crew.new ≡ crew.old }
    ensures keeps { Keeps (S.disk store.old) (S.disk store.new) }
    ensures passes { Passes Same (S.disk store.old) (S.disk store.new) }
    ensures told { BatchTells crew.old.lanes (cells_of jobs.old.jobs)
        (placed_notes jobs.old (length jobs.old.places)) (S.disk store.old).seen
        (S.disk store.new).seen (W.trace watch.old) (W.trace watch.new) result }
{
    match run_jobs(rt, store, crew, sealer, jobs) {
        Ok(()) => {
            show_jobs(jobs, watch);
            Ok(())
        }
        Err(JobsErr::NotBegun(fault)) => Err(fault),
        Err(JobsErr::Job(fault)) => {
            show_jobs(jobs, watch);
            Err(fault)
        }
    }
}

// Plans a batch with these words, the first of which has this place in that generation's tape.
fn plan(
    ring: &mut Ring,
    asks: &[Option<Key>],
    words: &[u64],
    generation: u64,
    first: u64,
    jobs: &mut Jobs,
)
    requires asks { length asks.now ≡ ring.old.p.places }
    requires words { length words.now ≡ ring.old.p.places }
    requires keys_low { (i k : ℕ) → slice_index_or asks.now i None ≡ Some k → k < ring.old.p.keys }
    requires jobs { (jobs.old.room ≡ most_jobs ring.old.p)
        × (jobs.old.place_room ≡ ring.old.p.places) }
    ensures kept { ring.new ≡ record ring.old { book = ring.new.book; metas = ring.new.metas } }
    ensures rooms { (jobs.new.room ≡ jobs.old.room) × (jobs.new.place_room ≡ jobs.old.place_room) }
    ensures entries { (batch number k : ℕ)
        → entry_at ring.new.book k
        ≡ after_labels (λ i. entry_at ring.old.book i) (record_places ring.old.p
        (record_of batch number generation first asks.now words.now)) k }
    ensures seals { SameSeals (record ring.old.metas { order = [] }) ring.new.metas }
    ensures keys { (t : FlatTable) → StandsFor ring.old t → (i : ℕ)
        → IfSome (job_at jobs.new.jobs i).key (λ k. k < ring.old.p.keys) }
    ensures planned { (batch number : ℕ) (t : FlatTable) → StandsFor ring.old t
        → IsBatch ring.old ring.new jobs.new (record_places ring.old.p
        (record_of batch number generation first asks.now words.now)) t }
{
    ring.plan_fetch(asks, words, (generation, first), jobs);
}

/// Plans a batch with these words, the first of which has this place in that generation's tape;
/// reads it; shows it; and settles what was read. It takes no memory.
///
/// # Errors
/// The store failed, and its count of faults rose; or what is damaged first: in the order planned,
/// the first slot whose tag or seal is wrong, or, where none is, the first row that holds another
/// key, or a length above 64.
pub fn read_batch<S: Lanes, R: Threads + Sync, W: Watch>(
    rt: &R,
    store: &mut S,
    crew: &mut Crew<S::Lane>,
    sealer: &Sealer,
    jobs: &mut Jobs,
    ring: &mut Ring,
    asks: &[Option<Key>],
    words: &[u64],
    generation: u64,
    first: u64,
    watch: &mut W,
) -> Result<(), Fault>
    requires asks { length asks.now ≡ ring.old.p.places }
    requires words { length words.now ≡ ring.old.p.places }
    requires keys_low { (i k : ℕ) → slice_index_or asks.now i None ≡ Some k → k < ring.old.p.keys }
    requires stands { (t : FlatTable) × StandsFor ring.old t }
    requires jobs { (jobs.old.room ≡ most_jobs ring.old.p)
        × (jobs.old.place_room ≡ ring.old.p.places) }
    requires crew { most_jobs ring.old.p ≤ crew.old.jobs }
    ensures serves { Serves IsStoreFault (S.disk store.old) (S.disk store.new) result }
    ensures faults { IfErr result IsRepeatFault }
    ensures keeps { Keeps (S.disk store.old) (S.disk store.new) }
    ensures passes { Passes Same (S.disk store.old) (S.disk store.new) }
    ensures crew { crew.new ≡ crew.old }
    ensures rooms { (jobs.new.room ≡ jobs.old.room) × (jobs.new.place_room ≡ jobs.old.place_room) }
    ensures kept { ring.new
        ≡ record ring.old { book = ring.new.book; metas = ring.new.metas; stash = ring.new.stash } }
    ensures room { ring.new.stash.room ≡ ring.old.stash.room }
    ensures entries { (batch number k : ℕ)
        → entry_at ring.new.book k
        ≡ after_labels (λ i. entry_at ring.old.book i) (record_places ring.old.p
        (record_of batch number generation first asks.now words.now)) k }
    ensures seals { SameSeals (record ring.old.metas { order = [] }) ring.new.metas }
    ensures table { (batch number : ℕ) (t : FlatTable) → StandsFor ring.old t
        → StandsFor ring.new (after ring.old.p t (Batch (asked_of_record ring.old.p
        (record_of batch number generation first asks.now words.now)))) }
    // Where the buckets lie as these were sealed, the jobs are those of their slots.
    ensures value { (batch number : ℕ) (start : Buckets) (t : FlatTable)
        → SameSeals start ring.old.metas → StandsFor ring.old t → (S.disk store.old).tells
        → BatchAnswers sealer.now.keys ring.old.p start.versions (S.disk store.old).cells t
        (record_of batch number generation first asks.now words.now) ring.old.stash.rows
        ring.new.stash.rows result }
    // Whatever the store tells, the stash has the rows of jobs that were read.
    ensures joins { (batch number : ℕ) (t : FlatTable) → StandsFor ring.old t
        → OnOk result (RowsJoin (batch_picked ring.old.p t (asked_of_record ring.old.p
        (record_of batch number generation first asks.now words.now))) ring.old.stash.rows
        ring.new.stash.rows) }
    // So a planner that fits goes on fitting.
    ensures fit { IsPlannerFit ring.old → OnOk result (IsPlannerFit ring.new) }
    ensures told { (batch number : ℕ) (start : Buckets) (t : FlatTable)
        → SameSeals start ring.old.metas → StandsFor ring.old t
        → BatchTells crew.old.lanes (batch_cells ring.old.p start.versions t
        (asked_of_record ring.old.p (record_of batch number generation first asks.now words.now)))
        (repeated_notes ring.old.p start.versions t (asked_of_record ring.old.p
        (record_of batch number generation first asks.now words.now)))
        (S.disk store.old).seen (S.disk store.new).seen (W.trace watch.old) (W.trace watch.new)
        result }
{
    plan(ring, asks, words, generation, first, jobs);
    match read_jobs(rt, store, crew, sealer, jobs, watch) {
        Ok(()) => {}
        Err(fault) => return Err(fault),
    }
    match ring.settle(jobs) {
        Ok(()) => {
            ring.tables();
            Ok(())
        }
        Err(damaged) => Err(Fault::from(damaged)),
    }
}
