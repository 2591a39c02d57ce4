//! The beginning of a read batch: its words, and its record in the log.

ghost use Rattle.std.specs.Prelude.{◌≡◌, ◌⊎◌, ◌<◌, ◌≤◌, ◌+◌, ◌%◌, ◌^◌, ℕ, List, [], ◌∷◌, ◌++◌, MatchBool, Some, None, length, take, slice_index_or, OnOk, IfErr};
ghost use Rattle.ob_base.specs.Layout.{log_cell, record_cells};
ghost use Rattle.ob_base.specs.declared.fault.Fault.TheVariants as fault;
ghost use Rattle.ob_cells.specs.Writes.{Seals, WritesWithin};
ghost use Rattle.ob_log.specs.Appends.{AppendStages, HoldsOneOf, HoldsRecord, append_notes, record_for};
ghost use Rattle.ob_log.specs.Logs.{BatchRecord, OpenRecords, RecordObeys};
ghost use Rattle.ob_pads.specs.Seals.{CellsAreSealed};
ghost use Rattle.ob_store.specs.Calls.{IsStoreFault, Serves};
ghost use Rattle.ob_store.specs.Disk.{Image};
ghost use Rattle.ob_store.specs.Images.{IsSynced, LeavesOnly};
ghost use Rattle.ob_store.specs.Told.{Does};
ghost use Rattle.ob_fetch.specs.Fetches.{DrawsWords, IsWornForBatch, words_since};

use crate::drawing::{draw_front, front};
use crate::run::Run;
use ob_base::{Fault, Key, NUMBER_LIMIT, Params, record_cells};
use ob_log::append;
use ob_seal::{Sealer, Tape};
use ob_store::{Store, Watch};

/// Whether so many words or seals aren't left.
pub fn is_worn(run: &Run) -> bool
    requires drawn { run.now.drawn ≤ 2 ^ 62 }
    ensures { MatchBool result (IsWornForBatch run.now)
        ((run.now.drawn + run.now.params.places ≤ 2 ^ 62)
        × (run.now.sealer.next + record_cells run.now.params ≤ 2 ^ 62)) }
{
    let (_, next) = run.sealer.next();
    let places = run.params.places as u64;
    NUMBER_LIMIT - run.drawn < places || NUMBER_LIMIT - next < record_cells(&run.params)
}

/// Draws the words of a batch, and keeps its record in the log.
pub fn begin_batch<S: Store, T: Tape, W: Watch>(
    store: &mut S,
    tape: &mut T,
    sealer: &mut Sealer,
    words: &mut Vec<u64>,
    p: &Params,
    epoch: u64,
    batch: u32,
    first: u64,
    asks: &[Option<Key>],
    watch: &mut W,
) -> Result<(), Fault>
    requires none_out { (S.disk store.old).out ≡ 0 }
    requires batch { batch < p.now.batches }
    requires epoch { epoch ≤ 2 ^ 62 }
    requires generation { sealer.old.generation < 2 ^ 62 }
    requires first { first ≡ length (T.drawn tape.old) }
    requires words_left { first + p.now.places ≤ 2 ^ 62 }
    requires seals_left { sealer.old.next + record_cells p.now ≤ 2 ^ 62 }
    requires room { p.now.places ≤ length words.old.items }
    requires asks { length asks.now ≡ p.now.places }
    requires keys_low { (i k : ℕ) → slice_index_or asks.now i None ≡ Some k → k < p.now.keys }
    requires keys_apart { (i j k : ℕ) → slice_index_or asks.now i None ≡ Some k
        → slice_index_or asks.now j None ≡ Some k → i ≡ j }
    ensures serves { Serves IsStoreFault (S.disk store.old) (S.disk store.new) result }
    ensures faults { IfErr result (λ f. f ≡ fault.StoreFault None) }
    ensures room { length words.new.items ≡ length words.old.items }
    ensures draws { DrawsWords p.now.places (T.drawn tape.old) (T.drawn tape.new) }
    ensures words { take p.now.places words.new.items
        ≡ words_since (T.drawn tape.old) (T.drawn tape.new) }
    ensures same { T.present tape.new ≡ T.present tape.old }
    ensures seals { Seals (record_cells p.now) sealer.old sealer.new result }
    ensures obeys { RecordObeys p.now batch (record_for sealer.old batch first asks.now
        (words_since (T.drawn tape.old) (T.drawn tape.new))) }
    ensures written { (S.disk store.old).tells
        → OnOk result (HoldsRecord sealer.old.keys p.now epoch batch (record_for sealer.old batch
        first asks.now (words_since (T.drawn tape.old) (T.drawn tape.new)))
        (S.disk store.new).cells) }
    ensures within { WritesWithin (log_cell p.now (epoch % 2) batch 0) (record_cells p.now + 1)
        (S.disk store.old) (S.disk store.new) }
    ensures durable { (S.disk store.old).tells → OnOk result (IsSynced (S.disk store.new)) }
    ensures sealed { (S.disk store.old).tells → OnOk result (CellsAreSealed sealer.old sealer.new
        (S.disk store.old).cells (S.disk store.new).cells) }
    ensures open { (rs : List BatchRecord) → (S.disk store.old).tells → length rs ≡ batch
        → OpenRecords sealer.old.keys p.now epoch rs (S.disk store.old).cells
        → OnOk result ((c : Image) → (S.disk store.new).may_leave c
        → OpenRecords sealer.old.keys p.now epoch (rs ++ record_for sealer.old batch first asks.now
        (words_since (T.drawn tape.old) (T.drawn tape.new)) ∷ []) c) }
    ensures images { (rs : List BatchRecord) → (S.disk store.old).tells
        → IsSynced (S.disk store.old) → length rs ≡ batch
        → OpenRecords sealer.old.keys p.now epoch rs (S.disk store.old).cells
        → LeavesOnly (S.disk store.old) (S.disk store.new) (HoldsOneOf sealer.old.keys p.now epoch
        rs (record_for sealer.old batch first asks.now
        (words_since (T.drawn tape.old) (T.drawn tape.new)))) }
    ensures stages { AppendStages S.disk sealer.old.keys p.now epoch batch (record_for sealer.old
        batch first asks.now (words_since (T.drawn tape.old) (T.drawn tape.new))) store.old
        store.new (W.trace watch.old) (W.trace watch.new) result }
    ensures does { Does (append_notes p.now epoch batch) (S.disk store.old).seen
        (S.disk store.new).seen (W.trace watch.old) (W.trace watch.new) result }
{
    let places = p.places as usize;
    draw_front(tape, words, places);
    let words = front(words, places);
    append(store, sealer, p, epoch, batch, first, asks, words, watch)
}
