//! Appending a record to the log.

ghost use Rattle.std.specs.Prelude.{◌≡◌, ◌↔◌, ◌<◌, ◌≤◌, ◌+◌, ◌%◌, ◌^◌, ℕ, List, [], ◌∷◌, ◌++◌, Some, None, length, slice_index_or, OnOk, IfErr};
ghost use Rattle.ob_base.specs.Layout.{record_cells, log_cell};
ghost use Rattle.ob_store.specs.Disk.{Image};
ghost use Rattle.ob_store.specs.declared.watch.Note.{Note};
ghost use Rattle.ob_store.specs.Images.{IsSynced, LeavesOnly};
ghost use Rattle.ob_store.specs.Calls.{Serves, IsFailed, IsStoreFault};
ghost use Rattle.ob_store.specs.Runs.{write_notes};
ghost use Rattle.ob_store.specs.Told.{Does};
ghost use Rattle.ob_cells.specs.Writes.{Seals, WritesWithin, WritesRun};
ghost use Rattle.ob_log.specs.Logs.{BatchRecord, OpenRecords};
ghost use Rattle.ob_log.specs.Appends.{record_for, append_notes, HoldsRecord, HoldsOneOf, AppendStages, IsAppendFault, IsWornOut};

use crate::spelling::record_bytes as bytes_of;
use ob_base::{Failed, Fault, Key, NUMBER_LIMIT, Params, log_cell, log_gate, record_cells};
use ob_cells::{Cut, Pieces, write_sealed};
use ob_seal::Sealer;
use ob_store::{Note, Store, Watch, sync_noted};
use ob_twin::{open_gate, write_out};

// Writes a run of sealed cells, and makes sure of it.
fn write_sure<S: Store, P: Pieces, W: Watch>(
    store: &mut S,
    sealer: &mut Sealer,
    base: u64,
    many: u64,
    pieces: &P,
    watch: &mut W,
) -> Result<(), Failed>
    requires none_out { (S.disk store.old).out ≡ 0 }
    requires fits { base + many < 2 ^ 64 }
    requires room { sealer.old.next + many ≤ 2 ^ 62 }
    ensures serves { Serves IsFailed (S.disk store.old) (S.disk store.new) result }
    ensures run { WritesRun base many (P.plain pieces.now) sealer.old sealer.new (S.disk store.old)
        (S.disk store.new) result }
    ensures durable { (S.disk store.old).tells → OnOk result (IsSynced (S.disk store.new)) }
    ensures does { Does (write_notes base many ++ Note.Sync ∷ []) (S.disk store.old).seen
        (S.disk store.new).seen (W.trace watch.old) (W.trace watch.new) result }
{
    write_sealed(store, sealer, base, many, pieces, watch)?;
    sync_noted(store, watch)
}

/// Keeps the record of a batch of an epoch in the log: what its places ask for, their words, and
/// the place of the first word in the tape of the sealer's generation. The body is written and
/// synced, then its gate opened and synced; each write is shown whatever it answered, a sync where
/// it succeeds. It takes no memory.
///
/// Until the body is synced a crash leaves the open records that were there; from then on these, or
/// these and this one; and once it went well, these and this one.
///
/// # Errors
/// Worn with `2^62` exactly where fewer seal numbers are left below that than the body has cells,
/// and then nothing was done; else the store failed, and its count of faults rose.
pub fn append<S: Store, W: Watch>(
    store: &mut S,
    sealer: &mut Sealer,
    p: &Params,
    epoch: u64,
    batch: u32,
    first: u64,
    asks: &[Option<Key>],
    words: &[u64],
    watch: &mut W,
) -> Result<(), Fault>
    requires none_out { (S.disk store.old).out ≡ 0 }
    requires batch { batch < p.now.batches }
    requires asks { length asks.now ≡ p.now.places }
    requires words { length words.now ≡ p.now.places }
    requires keys_low { (i k : ℕ) → slice_index_or asks.now i None ≡ Some k → k < p.now.keys }
    requires keys_apart { (i j k : ℕ) → slice_index_or asks.now i None ≡ Some k
        → slice_index_or asks.now j None ≡ Some k → i ≡ j }
    requires epoch { epoch ≤ 2 ^ 62 }
    ensures serves { Serves IsStoreFault (S.disk store.old) (S.disk store.new) result }
    ensures faults { IfErr result IsAppendFault }
    ensures worn { IsWornOut result ↔ (2 ^ 62 < sealer.old.next + record_cells p.now) }
    ensures idle { IsWornOut result → (store.new ≡ store.old) × (sealer.new ≡ sealer.old)
        × (watch.new ≡ watch.old) }
    ensures written { (S.disk store.old).tells
        → OnOk result (HoldsRecord sealer.old.keys p.now epoch batch
        (record_for sealer.old batch first asks.now words.now) (S.disk store.new).cells) }
    ensures within { WritesWithin (log_cell p.now (epoch % 2) batch 0) (record_cells p.now + 1)
        (S.disk store.old) (S.disk store.new) }
    ensures seals { Seals (record_cells p.now) sealer.old sealer.new result }
    ensures durable { (S.disk store.old).tells → OnOk result (IsSynced (S.disk store.new)) }
    ensures open_has_acknowledged { (rs : List BatchRecord) → (S.disk store.old).tells
        → length rs ≡ batch → OpenRecords sealer.old.keys p.now epoch rs (S.disk store.old).cells
        → OnOk result ((c : Image) → (S.disk store.new).may_leave c
        → OpenRecords sealer.old.keys p.now epoch
        (rs ++ record_for sealer.old batch first asks.now words.now ∷ []) c) }
    ensures open_prefix { (rs : List BatchRecord) → (S.disk store.old).tells
        → IsSynced (S.disk store.old) → length rs ≡ batch
        → OpenRecords sealer.old.keys p.now epoch rs (S.disk store.old).cells
        → LeavesOnly (S.disk store.old) (S.disk store.new)
        (HoldsOneOf sealer.old.keys p.now epoch rs
        (record_for sealer.old batch first asks.now words.now)) }
    // No image has the record before the write that opens its gate was shown.
    ensures stages { AppendStages S.disk sealer.old.keys p.now epoch batch
        (record_for sealer.old batch first asks.now words.now) store.old store.new
        (W.trace watch.old) (W.trace watch.new) result }
    ensures does { Does (append_notes p.now epoch batch) (S.disk store.old).seen
        (S.disk store.new).seen (W.trace watch.old) (W.trace watch.new) result }
{
    let many = record_cells(p);
    if NUMBER_LIMIT - sealer.next().1 < many {
        return Err(Fault::Worn {
            number: NUMBER_LIMIT,
        });
    }
    let area = (epoch % 2) as u8;
    let base = log_cell(p, area, batch, 0);
    let bytes = bytes_of(epoch, batch, first, asks, words);
    let body = Cut {
        bytes: bytes.as_slice(),
    };
    match write_sure(store, sealer, base, many, &body, watch) {
        Ok(()) => {}
        Err(Failed) => return Err(Fault::StoreFault { unsure: None }),
    }
    match write_out(store, log_gate(p, area, batch), &open_gate(), watch) {
        Ok(()) => Ok(()),
        Err(Failed) => Err(Fault::StoreFault { unsure: None }),
    }
}
