//! Repeating the read batches of the log.

ghost use Rattle.std.specs.Prelude.{◌≡◌, ◌≤◌, ℕ, [], IfErr, OnOk};
ghost use Rattle.ob_base.specs.Planned.{most_jobs};
ghost use Rattle.ob_store.specs.Images.{Same, Passes};
ghost use Rattle.ob_store.specs.Calls.{Serves, IsStoreFault, Keeps};
ghost use Rattle.ob_tables.specs.Kept.{entry_at};
ghost use Rattle.ob_log.specs.Logs.{RecordFits};
ghost use Rattle.ob_tables.specs.Buckets.{Buckets};
ghost use Rattle.ob_ring.specs.Fetching.{after_labels};
ghost use Rattle.ob_ring.specs.FlatTable.{FlatTable, Batch, after};
ghost use Rattle.ob_ring.specs.Picked.{SameSeals, batch_picked};
ghost use Rattle.ob_ring.specs.Ring.{StandsFor};
ghost use Rattle.ob_recover.specs.Fits.{IsPlannerFit};
ghost use Rattle.ob_recover.specs.Repeats.{record_places, asked_of_record, repeated_notes, batch_cells, BatchAnswers, BatchTells, IsRepeatFault, RowsJoin};

use crate::reading::read_batch;
use ob_base::{Fault, Jobs};
use ob_cells::Crew;
use ob_lanes::Lanes;
use ob_log::Record;
use ob_ring::Ring;
use ob_seal::Sealer;
use ob_store::Watch;
use std::thread::Threads;

/// Repeats the batch of a record: plans it with the record's words under their ids, reads it, shows
/// it, and settles what was read.
pub fn repeat_batch<S: Lanes, R: Threads + Sync, W: Watch>(
    rt: &R,
    store: &mut S,
    crew: &mut Crew<S::Lane>,
    sealer: &Sealer,
    jobs: &mut Jobs,
    ring: &mut Ring,
    logged: &Record,
    watch: &mut W,
) -> Result<(), Fault>
    requires fits { (b : ℕ) × RecordFits ring.old.p b logged.now }
    requires stands { (t : FlatTable) × StandsFor ring.old t }
    requires jobs { (jobs.old.room ≡ most_jobs ring.old.p)
        × (jobs.old.place_room ≡ ring.old.p.places) }
    requires crew { most_jobs ring.old.p ≤ crew.old.jobs }
    ensures serves { Serves IsStoreFault (S.disk store.old) (S.disk store.new) result }
    ensures faults { IfErr result IsRepeatFault }
    ensures keeps { Keeps (S.disk store.old) (S.disk store.new) }
    ensures passes { Passes Same (S.disk store.old) (S.disk store.new) }
    ensures crew { crew.new ≡ crew.old }
    ensures rooms { (jobs.new.room ≡ jobs.old.room) × (jobs.new.place_room ≡ jobs.old.place_room) }
    ensures kept { ring.new
        ≡ record ring.old { book = ring.new.book; metas = ring.new.metas; stash = ring.new.stash } }
    ensures room { ring.new.stash.room ≡ ring.old.stash.room }
    ensures entries { (k : ℕ)
        → entry_at ring.new.book k
        ≡ after_labels (λ i. entry_at ring.old.book i) (record_places ring.old.p logged.now) k }
    ensures seals { SameSeals (record ring.old.metas { order = [] }) ring.new.metas }
    ensures table { (t : FlatTable) → StandsFor ring.old t
        → StandsFor ring.new (after ring.old.p t (Batch (asked_of_record ring.old.p logged.now))) }
    // Where the buckets lie as these were sealed, the jobs are those of their slots.
    ensures value { (start : Buckets) (t : FlatTable) → SameSeals start ring.old.metas
        → StandsFor ring.old t → (S.disk store.old).tells
        → BatchAnswers sealer.now.keys ring.old.p start.versions (S.disk store.old).cells t
        logged.now ring.old.stash.rows ring.new.stash.rows result }
    // Whatever the store tells, the stash has the rows of jobs that were read.
    ensures joins { (t : FlatTable) → StandsFor ring.old t
        → OnOk result (RowsJoin (batch_picked ring.old.p t (asked_of_record ring.old.p logged.now))
        ring.old.stash.rows ring.new.stash.rows) }
    ensures fit { IsPlannerFit ring.old → OnOk result (IsPlannerFit ring.new) }
    ensures told { (start : Buckets) (t : FlatTable) → SameSeals start ring.old.metas
        → StandsFor ring.old t
        → BatchTells crew.old.lanes
        (batch_cells ring.old.p start.versions t (asked_of_record ring.old.p logged.now))
        (repeated_notes ring.old.p start.versions t (asked_of_record ring.old.p logged.now))
        (S.disk store.old).seen (S.disk store.new).seen (W.trace watch.old) (W.trace watch.new)
        result }
{
    let asks = logged.asks();
    let words = logged.words();
    let (generation, first) = (logged.generation(), logged.first());
    read_batch(
        rt, store, crew, sealer, jobs, ring, asks, words, generation, first, watch,
    )
}
