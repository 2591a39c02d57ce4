//! What the end of an epoch makes before anything is written.

ghost use Rattle.std.specs.Prelude.{◌≡◌, ◌<◌, ◌≤◌, ◌^◌, ℕ, List, length, replicate, IfErr, OnOk, Some};
ghost use Rattle.ob_base.specs.Planned.{most_jobs};
ghost use Rattle.ob_base.specs.Tree.{buckets};
ghost use Rattle.ob_tables.specs.Buckets.{Buckets};
ghost use Rattle.ob_end.specs.Lifts.{IsUndamaged, lift_cells, lift_notes};
ghost use Rattle.ob_fetch.specs.Fetches.{RunIsAt, words_since};
ghost use Rattle.ob_ring.specs.FlatTable.{FlatTable};
ghost use Rattle.ob_ring.specs.Picked.{SameSeals};
ghost use Rattle.ob_ring.specs.Ring.{StandsFor};
ghost use Rattle.ob_ring.specs.Writing.{write_at};
ghost use Rattle.ob_stand.specs.Stands.{RingStanding};
ghost use Rattle.ob_store.specs.Calls.{IsStoreFault, Keeps, Serves};
ghost use Rattle.ob_store.specs.Images.{Passes, Same};
ghost use Rattle.ob_end.specs.EndRuns.{IsEndMade, IsEndReady, IsMakeFault, MakeAnswers, MakeDamage, MakeDraws, MakeTells, end_writes};

use crate::lifting::read_lifts;
use crate::renewing::renew;
use ob_base::{Fault, NUMBER_LIMIT, Write};
use ob_cells::Crew;
use ob_fetch::Run;
use ob_lanes::Lanes;
use ob_ring::Index;
use ob_seal::Tape;
use ob_store::Watch;
use std::marker::Brand;
use std::sync::ledger::Blank;
use std::thread::Threads;

/// Reads the final lifts, makes the epoch's writes, and fills the lifted buckets anew.
pub fn make_end<S: Lanes, R: Threads + Sync, T: Tape, W: Watch>(
    rt: &R,
    store: &mut S,
    tape: &mut T,
    crew: &mut Crew<S::Lane>,
    run: &mut Run,
    index: &mut Index,
    writes: &[Write],
    watch: &mut W,
) -> Result<(), Fault>
    requires index { index.old ≡ replicate (buckets run.old.params) 0 }
    requires ready { IsEndReady run.old }
    requires crew { most_jobs run.old.params ≤ crew.old.jobs }
    requires drawn { run.old.drawn ≡ length (T.drawn tape.old) }
    requires small { run.old.drawn ≤ 2 ^ 62 }
    requires few { length writes.now ≤ run.old.params.writes }
    requires keys { (i : ℕ) → i < length writes.now
        → (write_at writes.now i).key < run.old.params.keys }
    requires short { (i : ℕ) (value : List ℕ) → i < length writes.now
        → (write_at writes.now i).value ≡ Some value → length value ≤ 64 }
    ensures serves { Serves IsStoreFault (S.disk store.old) (S.disk store.new) result }
    ensures faults { IfErr result IsMakeFault }
    ensures keeps { Keeps (S.disk store.old) (S.disk store.new) }
    ensures passes { Passes Same (S.disk store.old) (S.disk store.new) }
    ensures crew { crew.new ≡ crew.old }
    ensures index { index.new ≡ index.old }
    ensures generation { T.present tape.new ≡ T.present tape.old }
    ensures drawn { run.new.drawn ≡ length (T.drawn tape.new) }
    ensures kept { run.new
        ≡ record run.old {
          drawn = run.new.drawn;
          ring = run.new.ring;
          jobs = run.new.jobs;
          words = run.new.words;
        } }
    ensures rooms { (run.new.jobs.room ≡ run.old.jobs.room)
        × (run.new.jobs.place_room ≡ run.old.jobs.place_room) }
    ensures words { length run.new.words.items ≡ length run.old.words.items }
    ensures answers { (t : FlatTable) → StandsFor run.old.ring t
        → MakeAnswers run.old.params t run.old.epoch run.old.drawn run.old.sealer.next
        (end_writes run.old.params writes.now (words_since (T.drawn tape.old) (T.drawn tape.new))
        run.old.sealer.generation run.old.drawn) result }
    ensures draws { (t : FlatTable) → StandsFor run.old.ring t
        → MakeDraws run.old.params t run.old.epoch run.old.drawn (T.drawn tape.old)
        (T.drawn tape.new) result }
    ensures made { OnOk result (IsEndMade run.old.sealer.keys (S.disk store.old) writes.now
        (words_since (T.drawn tape.old) (T.drawn tape.new)) run.old.sealer.generation run.old.drawn
        run.old.sealer.next run.old.ring run.new.ring) }
    ensures damage { (start : Buckets) (t : FlatTable) → SameSeals start run.old.ring.metas
        → StandsFor run.old.ring t → (S.disk store.old).tells
        → MakeDamage run.old.sealer.keys run.old.params start.versions (S.disk store.old).cells t
        result }
    ensures undamaged { (s : RingStanding) → RunIsAt run.old s (S.disk store.old)
        → IsUndamaged result }
    ensures told { (start : Buckets) (t : FlatTable) → SameSeals start run.old.ring.metas
        → StandsFor run.old.ring t
        → MakeTells crew.old.lanes (lift_cells run.old.params start.versions t)
        (lift_notes run.old.params start.versions t) (S.disk store.old).seen
        (S.disk store.new).seen (W.trace watch.old) (W.trace watch.new) result }
{
    if run.epoch + 1 >= NUMBER_LIMIT {
        return Err(Fault::Worn {
            number: NUMBER_LIMIT,
        });
    }
    match read_lifts(
        rt,
        store,
        crew,
        &run.sealer,
        &mut run.jobs,
        &mut run.ring,
        watch,
    ) {
        Ok(()) => {}
        Err(fault) => return Err(fault),
    }
    run.ring.tables();
    // The steps of the refill are bounded, and nobody reads how many it takes.
    renew::<T, Brand>(
        tape,
        &mut run.ring,
        index,
        &mut run.words,
        &run.params,
        &run.sealer,
        &mut run.drawn,
        writes,
        Blank::new(1),
    )
}
