//! Fetching a read batch.

ghost use Rattle.std.specs.Prelude.{◌≡◌, ◌↔◌, ◌<◌, ◌≤◌, ◌+◌, ◌%◌, ◌^◌, ℕ, suc, false, true, List, [], ◌∷◌, ◌++◌, length, OnOk, OnErr, IfErr};
ghost use Rattle.ob_base.specs.Layout.{log_cell, record_cells};
ghost use Rattle.ob_tables.specs.Buckets.{Buckets};
ghost use Rattle.ob_cells.specs.Writes.{Seals, WritesWithin};
ghost use Rattle.ob_tables.specs.Content.{Content};
ghost use Rattle.ob_log.specs.Appends.{append_notes};
ghost use Rattle.ob_log.specs.Logs.{BatchRecord};
ghost use Rattle.ob_pads.specs.Lives.{Answers};
ghost use Rattle.ob_pads.specs.Seals.{CellsAreSealed, answer_of_fetch};
ghost use Rattle.ob_recover.specs.Repeats.{asked_of_record, batch_cells, repeated_notes};
ghost use Rattle.ob_ring.specs.FlatTable.{FlatTable};
ghost use Rattle.ob_ring.specs.Picked.{SameSeals};
ghost use Rattle.ob_ring.specs.Ring.{StandsFor};
ghost use Rattle.ob_recover.specs.Known.{PlansFrom, fills_of, public_of_kept};
ghost use Rattle.ob_schedule.specs.Phases.{batch_phases};
ghost use Rattle.ob_schedule.specs.Schedule.{batch_notes};
ghost use Rattle.ob_serial.specs.Vaults.{AreBelow, AreDistinct};
ghost use Rattle.ob_store.specs.Calls.{IsStoreFault, Serves};
ghost use Rattle.ob_store.specs.Images.{IsSynced};
ghost use Rattle.ob_store.specs.Lines.{Shows};
ghost use Rattle.ob_store.specs.declared.watch.Note.{Note};
ghost use Rattle.ob_fetch.specs.Fetches.{FetchAnswers, FetchCounts, FetchDoes, FetchDraws, FetchKeeps, FetchOfStanding, FetchShows, FetchWears, IsFetchRefusal, IsOpenIfShown, MayGoOn, MovesPlanner, values_asked, next_batch, record_next, words_since};

use crate::answering::answer_all;
use crate::beginning::{begin_batch, is_worn};
use crate::drawing::front;
use crate::run::Run;
use ob_base::{Fault, Key, NUMBER_LIMIT, Value};
use ob_cells::Crew;
use ob_lanes::Lanes;
use ob_recover::read_batch;
use ob_seal::Tape;
use ob_store::Watch;
use std::thread::Threads;

/// Fetches the next batch of the epoch that runs: draws a word for each place, keeps the batch's
/// record in the log, plans the batch, reads its slots and shows them, and gives each place the
/// value of its key, or none for a pad and for a key that is absent. One batch less is left. It
/// takes no memory.
///
/// Until the body of the batch's record is synced a crash leaves what stood; until the record is
/// open, that, or that with the record; and from then on that with the record.
///
/// # Errors
/// Worn with `2^62` exactly where fewer words than the batch has places, or fewer seals than its
/// record has cells, are left below that: then nothing was done. Else the store failed, and its
/// count of faults rose; or what is damaged first of the batch: in the order planned, the first
/// slot whose tag or seal is wrong, or, where none is, the first row that holds another key, or a
/// length above 64. After any of them the run is spent.
pub fn fetch<S: Lanes, R: Threads + Sync, T: Tape, W: Watch>(
    rt: &R,
    store: &mut S,
    tape: &mut T,
    crew: &mut Crew<S::Lane>,
    run: &mut Run,
    asks: &[Option<Key>],
    out: &mut [Option<Value>],
    watch: &mut W,
) -> Result<(), Fault>
    requires goes_on { MayGoOn (S.disk store.old) (T.present tape.old) (T.drawn tape.old) crew.old
        run.old }
    requires some_left { 0 < run.old.left }
    requires whole { length asks.now ≡ run.old.params.places }
    requires room { length out.old ≡ run.old.params.places }
    requires keys { AreBelow run.old.params.keys asks.now }
    requires distinct { AreDistinct asks.now }
    ensures serves { Serves IsStoreFault (S.disk store.old) (S.disk store.new) result }
    ensures faults { IfErr result IsFetchRefusal }
    // It is worn exactly where numbers are, and then nothing was done.
    ensures wears { FetchWears run.old run.new store.old store.new tape.old tape.new watch.old
        watch.new result }
    // It draws a word for each place, and no other, unless numbers are worn.
    ensures draws { FetchDraws run.old.params.places (T.drawn tape.old) (T.drawn tape.new) result }
    ensures generation { T.present tape.new ≡ T.present tape.old }
    ensures drawn { run.new.drawn ≡ length (T.drawn tape.new) }
    ensures keeps { FetchKeeps run.old run.new result }
    ensures seals { Seals (record_cells run.old.params) run.old.sealer run.new.sealer result }
    // Each cell that has changed is a gate, or is sealed with a number of its own, taken meanwhile.
    ensures sealed { (S.disk store.old).tells
        → OnOk result (CellsAreSealed run.old.sealer run.new.sealer (S.disk store.old).cells
        (S.disk store.new).cells) }
    // It is an act of the store's life.
    ensures act { (S.disk store.new).tells
        → Answers (S.disk store.old) (S.disk store.new) run.old.sealer run.new.sealer
        (answer_of_fetch out.new result) }
    ensures counts { FetchCounts run.old run.new out.old out.new result }
    ensures goes_on { OnOk result (MayGoOn (S.disk store.new) (T.present tape.new)
        (T.drawn tape.new) crew.new run.new) }
    ensures crew { crew.new ≡ crew.old }
    ensures moves { OnOk result (MovesPlanner run.old.params (record_next run.old asks.now
        (words_since (T.drawn tape.old) (T.drawn tape.new))) run.old.ring run.new.ring) }
    ensures answers { OnOk result (out.new ≡ values_asked run.new.ring.stash.rows asks.now) }
    ensures within { WritesWithin (log_cell run.old.params (suc run.old.epoch % 2)
        (next_batch run.old) 0) (record_cells run.old.params + 1) (S.disk store.old)
        (S.disk store.new) }
    ensures durable { (S.disk store.old).tells → OnOk result (IsSynced (S.disk store.new)) }
    // Where the buckets lie as these were sealed, it reads the slots of the table's batch.
    ensures value { (start : Buckets) (t : FlatTable) → SameSeals start run.old.ring.metas
        → StandsFor run.old.ring t → (S.disk store.old).tells
        → FetchAnswers run.old.sealer.keys run.old.params start.versions (S.disk store.new).cells t
        (record_next run.old asks.now (words_since (T.drawn tape.old) (T.drawn tape.new)))
        run.old.ring.stash.rows run.new.ring.stash.rows result }
    ensures does { (start : Buckets) (t : FlatTable) → SameSeals start run.old.ring.metas
        → StandsFor run.old.ring t
        → FetchDoes S.disk crew.old.lanes run.old.sealer.keys run.old.params (suc run.old.epoch)
        (record_next run.old asks.now (words_since (T.drawn tape.old) (T.drawn tape.new)))
        (batch_cells run.old.params start.versions t (asked_of_record run.old.params
        (record_next run.old asks.now (words_since (T.drawn tape.old) (T.drawn tape.new)))))
        (repeated_notes run.old.params start.versions t (asked_of_record run.old.params
        (record_next run.old asks.now (words_since (T.drawn tape.old) (T.drawn tape.new)))))
        store.old store.new (W.trace watch.old) (W.trace watch.new) result }
    // It shows the schedule's batch of what the store knows of the epoch, whose reads are dealt to
    // the crew's lanes, and refused what its answer says of it. Where the store failed no image
    // has the record with its body alone shown, and each has it with all of its notes shown.
    ensures scheduled { (notes : List Note) × Shows notes (W.trace watch.old) (W.trace watch.new)
        × IsOpenIfShown S.disk run.old.sealer.keys run.old.params (suc run.old.epoch)
        (record_next run.old asks.now (words_since (T.drawn tape.old) (T.drawn tape.new))) notes
        store.old store.new result
        × ((c : Content) (rs : List BatchRecord)
        → PlansFrom run.old.params run.old.sealer.generation run.old.gates run.old.ring c rs
        → length rs ≡ next_batch run.old
        → FetchShows crew.old.lanes (append_notes run.old.params (suc run.old.epoch)
        (next_batch run.old)) (batch_phases run.old.params
        (public_of_kept run.old.params c rs run.old.epoch run.old.gates)
        (fills_of run.old.params c (rs ++ record_next run.old asks.now
        (words_since (T.drawn tape.old) (T.drawn tape.new)) ∷ [])) (length rs))
        (batch_notes run.old.params
        (public_of_kept run.old.params c rs run.old.epoch run.old.gates)
        (fills_of run.old.params c (rs ++ record_next run.old asks.now
        (words_since (T.drawn tape.old) (T.drawn tape.new)) ∷ [])) (length rs)) notes
        (S.disk store.old).seen (S.disk store.new).seen result) }
    // Behind it the planner is one record further.
    ensures onward { (c : Content) (rs : List BatchRecord)
        → PlansFrom run.old.params run.old.sealer.generation run.old.gates run.old.ring c rs
        → length rs ≡ next_batch run.old
        → OnOk result (PlansFrom run.new.params run.new.sealer.generation run.new.gates
        run.new.ring c (rs ++ record_next run.old asks.now
        (words_since (T.drawn tape.old) (T.drawn tape.new)) ∷ [])) }
    // Where the store stood, the answers are the map's, and it stands with the record; a crash
    // leaves what stood until the record's body is synced, from when its slots are read on what
    // stood with the record, and between these one of the two.
    ensures standing { FetchOfStanding S.disk run.old run.new store.old store.new
        (record_next run.old asks.now (words_since (T.drawn tape.old) (T.drawn tape.new)))
        asks.now out.new result }
{
    run.spent = true;
    if is_worn(run) {
        return Err(Fault::Worn {
            number: NUMBER_LIMIT,
        });
    }
    let first = run.drawn;
    run.drawn += run.params.places as u64;
    match begin_batch(
        store,
        tape,
        &mut run.sealer,
        &mut run.words,
        &run.params,
        run.epoch + 1,
        run.params.batches - run.left,
        first,
        asks,
        watch,
    ) {
        Ok(()) => {}
        Err(fault) => return Err(fault),
    }
    match read_batch(
        rt,
        store,
        crew,
        &run.sealer,
        &mut run.jobs,
        &mut run.ring,
        asks,
        front(&run.words, run.params.places as usize),
        run.sealer.next().0,
        first,
        watch,
    ) {
        Ok(()) => {}
        Err(fault) => return Err(fault),
    }
    answer_all(&run.ring.tables().stash, asks, out);
    run.left -= 1;
    run.spent = false;
    Ok(())
}
