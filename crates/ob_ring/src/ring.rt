//! The planner of Ring ORAM.

ghost use Rattle.std.specs.Prelude.{◌≡◌, ℕ, ◌+◌, ◌*◌, ◌%◌, ◌^◌, ◌<◌, ◌≤◌, [], length, IfSome, IfOk, MatchResult, None, Some, slice_index, slice_index_or, filter, replicate};
ghost use Rattle.std.specs.FinMap as finite;
ghost use Rattle.ob_base.specs.Planned.{most_jobs, job_at};
ghost use Rattle.ob_tables.specs.Buckets.{is_lifted, new_buckets, version_at};
ghost use Rattle.ob_schedule.specs.Paths.{by_falling_level};
ghost use Rattle.ob_ring.specs.FlatTable.{FlatTable, Refill, Writes as WritesStep, after, stash_size};
ghost use Rattle.ob_ring.specs.Picked.{SameSeals};
ghost use Rattle.ob_ring.specs.Fetching.{places_of, after_labels};
ghost use Rattle.ob_ring.specs.Ring.{IsRing, StandsFor, IsBatch, IsLifting, IsListed, AreListedWithin, empty_table};
ghost use Rattle.ob_base.specs.Tree.{buckets, width};
ghost use Rattle.ob_ring.specs.Filling.{AreSealedAnew, HasJustStashRows};
ghost use Rattle.ob_ring.specs.Passing.{none_taken, row_keys, steps_among};
ghost use Rattle.ob_ring.specs.Plain.{key_of_index, index_with, plain_for, without_buckets};
ghost use Rattle.ob_ring.specs.Settling.{first_fault, rows_after};
ghost use Rattle.ob_ring.specs.Writing.{write_at, writes_of, leaf_writes, entries_after, values_after};
ghost use Rattle.ob_tables.specs.Kept.{entry_at};

use crate::batch::plan_places;
use crate::index::Index;
use crate::lifts::{lift_paths, list_lifted};
use crate::pass::{judge, put_rows, seal_all};
use crate::plain::{forget_buckets, key_in, plain_for};
use crate::settle::settle_jobs;
use crate::steps::Steps;
use crate::writes::write_all;
use ob_base::{Damaged, Jobs, Key, Memory, Params, StashFull, Write};
use ob_tables::{Book, Metas, Stash, Tables};
use std::alloc::Global;
use std::marker::Model;
use std::sync::ledger::Ledger;

/// The planner of Ring ORAM ("Constants Count: Practical Improvements to Oblivious RAM"): it plans
/// what is read of the buckets, settles what was read, applies writes and fills buckets anew. It
/// touches no store. Contracts see its parameters and its tables.
#[derive(Drop)]
pub struct Ring {
    params: Params,
    tables: Tables<Metas>,
}

impl Model for Ring {
    ghost use Rattle.std.specs.Coded.{codes};
    ghost use Rattle.ob_tables.specs.Kept.{held_code};
    ghost use Rattle.ob_ring.specs.Ring.{Kept, IsRing};

    ghost Value = { Kept };

    ghost coded = { Prim.hlevel (codes, held_code) };

    ghost view = { λ r. record { p = r.params; book = r.tables.book; metas = r.tables.metas; stash = r.tables.stash; counter = r.tables.counter } };

    ghost invariant = { λ r. IsRing (record { p = r.params; book = r.tables.book; metas = r.tables.metas; stash = r.tables.stash; counter = r.tables.counter }) };
}

impl Ring {
    /// A ring without keys, over buckets of which no version was written.
    ///
    /// # Errors
    /// Memory was wanting.
    pub fn empty(alloc: Global, p: &Params) -> Result<Ring, Memory>
        ensures empty { IfOk result (λ r. r
            ≡ record {
              p = p.now;
              book = replicate p.now.keys None;
              metas = new_buckets p.now;
              stash
                  = record { rows = finite.empty; room = p.now.keys };
              counter = 0;
            }) }
        ensures table { IfOk result (λ r. StandsFor r empty_table) }
    {
        Ok(Ring {
            params: *p,
            tables: Tables {
                book: Book::new(alloc, p.keys)?,
                metas: Metas::new(alloc, p)?,
                stash: Stash::new(alloc, p.keys as usize)?,
                counter: 0,
            },
        })
    }

    /// The ring of these tables, which obey the rules of an epoch's end.
    pub fn of_tables(p: &Params, tables: Tables<Metas>) -> Ring
        requires { IsRing (record {
          p = p.now;
          book = tables.book;
          metas = tables.metas;
          stash =
              tables.stash;
          counter = tables.counter;
        }) }
        ensures { result
            ≡ record {
              p = p.now;
              book = tables.book;
              metas = tables.metas;
              stash = tables.stash;
              counter = tables.counter;
            } }
    {
        Ring { params: *p, tables }
    }

    /// The tables, which obey the ring's rules.
    pub fn tables(&self) -> &Tables<Metas>
        ensures book { result.now.book ≡ self.now.book }
        ensures metas { result.now.metas ≡ self.now.metas }
        ensures stash { result.now.stash ≡ self.now.stash }
        ensures counter { result.now.counter ≡ self.now.counter }
        ensures rules { IsRing self.now }
    {
        &self.tables
    }

    /// Plans a read batch: for each place what it asks for, or none for a pad, and its word;
    /// `first` is the id of the first word, the others' follow. The jobs are those of the slots to
    /// be read.
    pub fn plan_fetch(
        &mut self,
        asks: &[Option<Key>],
        words: &[u64],
        first: (u64, u64),
        jobs: &mut Jobs,
    )
        requires asks { length asks.now ≡ self.old.p.places }
        requires keys { (i : ℕ)
            → IfSome (slice_index_or asks.now i None) (λ k. k < self.old.p.keys) }
        requires words { length words.now ≡ self.old.p.places }
        requires jobs { (jobs.old.room ≡ most_jobs self.old.p)
            × (jobs.old.place_room ≡ self.old.p.places) }
        ensures kept { self.new ≡ record self.old { book = self.new.book; metas = self.new.metas } }
        ensures rooms { (jobs.new.room ≡ jobs.old.room)
            × (jobs.new.place_room ≡ jobs.old.place_room) }
        ensures labels { (k : ℕ)
            → entry_at self.new.book k
            ≡ after_labels (λ i. entry_at self.old.book i)
            (places_of self.old.p asks.now words.now first (length asks.now)) k }
        ensures seals { SameSeals (record self.old.metas { order = [] }) self.new.metas }
        ensures keys { (t : FlatTable) → StandsFor self.old t → (i : ℕ)
            → IfSome (job_at jobs.new.jobs i).key (λ k. k < self.old.p.keys) }
        ensures planned { (t : FlatTable) → StandsFor self.old t
            → IsBatch self.old self.new jobs.new
            (places_of self.old.p asks.now words.now first (length asks.now)) t }
    {
        jobs.clear();
        self.tables.metas.clear_order();
        plan_places(
            &self.params,
            &mut self.tables.book,
            &mut self.tables.metas,
            asks,
            words,
            first,
            jobs,
        );
    }

    /// Plans the lifts at an epoch's end: the buckets of the paths that are evicted next are read
    /// out, those that aren't lifted yet.
    pub fn plan_lifts(&mut self, jobs: &mut Jobs)
        requires jobs { (jobs.old.room ≡ most_jobs self.old.p)
            × (jobs.old.place_room ≡ self.old.p.places) }
        ensures kept { self.new
            ≡ record self.old {
              metas = self.new.metas;
              counter =
                  (self.old.counter + self.old.p.evictions) % 2 ^ self.old.p.levels;
            } }
        ensures rooms { (jobs.new.room ≡ jobs.old.room)
            × (jobs.new.place_room ≡ jobs.old.place_room) }
        ensures places { jobs.new.places ≡ [] }
        ensures seals { SameSeals (record self.old.metas { order = self.new.metas.order })
            self.new.metas }
        ensures listed { IsListed self.new }
        ensures keys { (t : FlatTable) → StandsFor self.old t → (i : ℕ)
            → IfSome (job_at jobs.new.jobs i).key (λ k. k < self.old.p.keys) }
        ensures planned { (t : FlatTable) → StandsFor self.old t
            → IsLifting self.old self.new jobs.new t }
    {
        jobs.clear();
        lift_paths(
            &self.params,
            &mut self.tables.metas,
            self.tables.counter,
            jobs,
        );
        self.tables.counter = next_counter(&self.params, self.tables.counter);
        list_lifted(&self.params, &mut self.tables.metas);
    }

    /// Puts what the jobs of the last plan read into the stash.
    ///
    /// # Errors
    /// The first slot that should hold a key's row and holds another key or a length above 64.
    pub fn settle(&mut self, jobs: &Jobs) -> Result<(), Damaged>
        requires keys { (i : ℕ) → IfSome (job_at jobs.now.jobs i).key (λ k. k < self.old.p.keys) }
        ensures kept { self.new ≡ record self.old { stash = self.new.stash } }
        ensures room { self.new.stash.room ≡ self.old.stash.room }
        ensures settled { MatchResult result (λ _. (first_fault jobs.now.jobs ≡ None)
            × (self.new.stash.rows
            ≡ rows_after self.old.stash.rows jobs.now.jobs)) (λ d. first_fault jobs.now.jobs
            ≡ Some d) }
    {
        settle_jobs(&self.params, &mut self.tables.stash, jobs.jobs())
    }

    /// Makes an epoch's writes, after the final lifts: the i-th takes the i-th word, whose id is
    /// that number after `first`. A put sets the key's row in the stash, a del forgets the key.
    pub fn apply_writes(&mut self, writes: &[Write], words: &[u64], first: (u64, u64))
        requires keys { (i : ℕ) → i < length writes.now
            → (write_at writes.now i).key < self.old.p.keys }
        requires words { length writes.now ≤ length words.now }
        ensures kept { self.new
            ≡ record self.old {
              book = self.new.book;
              metas = self.new.metas;
              stash =
                  self.new.stash;
            } }
        ensures room { self.new.stash.room ≡ self.old.stash.room }
        ensures entries { (k : ℕ)
            → entry_at self.new.book k
            ≡ entries_after (λ i. entry_at self.old.book i)
            (writes_of self.old.p writes.now words.now first (length writes.now)) k }
        ensures values { self.new.stash.rows
            ≡ values_after self.old.stash.rows
            (writes_of self.old.p writes.now words.now first (length writes.now)) }
        ensures seals { SameSeals self.old.metas self.new.metas }
        ensures lifted { self.new.metas.lifted ≡ self.old.metas.lifted }
        ensures listed { IsListed self.old → IsListed self.new }
        ensures applied { (t : FlatTable) → StandsFor self.old t
            → StandsFor self.new (after self.old.p t
            (WritesStep (leaf_writes
            (writes_of self.old.p writes.now words.now first (length writes.now))))) }
    {
        write_all(
            &self.params,
            &mut self.tables.book,
            &mut self.tables.metas,
            &mut self.tables.stash,
            writes,
            words,
            first,
        );
    }

    /// Fills the listed buckets anew: each takes the first keys of the stash, in rising order,
    /// whose paths go through it and that none below it took, as many as it has real indexes. Each
    /// bucket takes as many words as it has slots; its slots are sealed with the numbers from
    /// `first` on, those of the buckets before it first. The stash has a row of just the keys that
    /// lie in no bucket, and these rows stay at hand until `forget_written`. It goes through the
    /// rows once, and takes no memory: all counts of `index` are 0, and are 0 again behind it. A
    /// step is a bucket of a row's path that is asked whether it has an index left, or a row that
    /// is put.
    ///
    /// # Errors
    /// More rows are left than the stash may keep. Then the ring serves no more.
    pub fn refill_indexed<C: Ledger>(
        &mut self,
        index: &mut Index,
        words: &[u64],
        first: (u64, u64),
        steps: &mut Steps<C>,
    ) -> Result<(), StashFull>
        requires listed { IsListed self.old }
        requires words { length words.now ≡ length self.old.metas.order * width self.old.p }
        requires index { index.old ≡ replicate (buckets self.old.p) 0 }
        ensures kept { self.new ≡ record self.old { metas = self.new.metas } }
        ensures order { self.new.metas.order ≡ self.old.metas.order }
        ensures within { AreListedWithin self.new }
        ensures anew { AreSealedAnew self.old.p self.old.metas self.new.metas words.now first
            (length self.old.metas.order) }
        ensures refilled { (t : FlatTable) → StandsFor self.old t
            → HasJustStashRows t self.old.stash.rows
            → StandsFor self.new (after self.old.p t Refill) }
        ensures rows { (t : FlatTable) → StandsFor self.old t
            → HasJustStashRows t self.old.stash.rows
            → MatchResult result (λ _. stash_size self.old.p (after self.old.p t Refill)
            ≤ self.old.p.room) (λ full. (full.rows
            ≡ stash_size self.old.p (after self.old.p t Refill)) × (self.old.p.room < full.rows)) }
        ensures index { index.new ≡ index.old }
        // Whatever the stash has, also over a store that lies.
        ensures cost { steps.new
            ≤ steps.old + finite.len self.old.stash.rows * (self.old.p.levels + 2) }
        ensures exact { (t : FlatTable) → StandsFor self.old t
            → HasJustStashRows t self.old.stash.rows
            → steps.new
            ≡ steps.old + steps_among self.old.p t none_taken (row_keys self.old.stash.rows) }
    {
        let put = put_rows(
            &self.params,
            &self.tables.book,
            &mut self.tables.metas,
            &self.tables.stash,
            index,
            steps,
        );
        seal_all(&self.params, &mut self.tables.metas, index, words, first);
        self.tables.metas.clear_lifted();
        judge(self.tables.stash.len() - put, self.params.room)
    }

    /// After the final lifts: the lifted buckets, in the order in which they are filled. After they
    /// were filled the same, until the next plan.
    pub fn to_refill(&self) -> &[u32]
        ensures { result.now ≡ self.now.metas.order }
    {
        self.tables.metas.order()
    }

    /// The plain bytes of a slot of a bucket that was filled: key, length and value of the row that
    /// lies there, as far as the stash still has it.
    pub fn plain_of(&self, bucket: u32, slot: u8) -> [u8; 96]
        requires bucket { bucket < buckets self.now.p }
        ensures { result
            ≡ plain_for self.now.stash.rows
            (key_of_index (version_at self.now.metas.versions bucket)
            (index_with (version_at self.now.metas.versions bucket) slot)) }
    {
        let key = key_in(self.tables.metas.get(bucket), slot);
        plain_for(&self.tables.stash, key)
    }

    /// After the filled buckets were written: their rows leave the stash, which then holds the rows
    /// that lie in no bucket.
    pub fn forget_written(&mut self)
        requires within { AreListedWithin self.old }
        ensures kept { self.new ≡ record self.old { stash = self.new.stash } }
        ensures room { self.new.stash.room ≡ self.old.stash.room }
        ensures rows { self.new.stash.rows
            ≡ without_buckets self.old.stash.rows self.old.metas.versions self.old.metas.order }
    {
        forget_buckets(&self.params, &self.tables.metas, &mut self.tables.stash);
    }
}

// How many paths were evicted after an epoch more, modulo the number of leaves.
#[tactic(auto, using(ob_base::proofs::TreeLaws::one_shifted))]
fn next_counter(p: &Params, counter: u64) -> u64
    requires { counter < 2 ^ p.now.levels }
    ensures next { result ≡ (counter + p.now.evictions) % 2 ^ p.now.levels }
    ensures low { result < 2 ^ p.now.levels }
{
    (counter + p.evictions as u64) % (1 << p.levels)
}
