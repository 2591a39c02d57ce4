//! All that an end writes before the epoch's register is set.

ghost use Rattle.std.specs.Prelude.{◌≡◌, ◌<◌, ◌≤◌, ◌+◌, ◌*◌, ◌^◌, ℕ, suc, length, IfErr, OnOk};
ghost use Rattle.ob_base.specs.Layout.{checkpoint_cells};
ghost use Rattle.ob_cells.specs.Writes.{Seals};
ghost use Rattle.ob_tables.specs.Content.{Obeys};
ghost use Rattle.ob_pads.specs.Seals.{CellsAreSealed};
ghost use Rattle.ob_ring.specs.Ring.{AreListedWithin};
ghost use Rattle.ob_stand.specs.Ends.{RingEnd};
ghost use Rattle.ob_stand.specs.Stands.{RingStanding};
ghost use Rattle.ob_store.specs.Calls.{IsStoreFault, Serves};
ghost use Rattle.ob_store.specs.Images.{IsSynced, Passes};
ghost use Rattle.ob_store.specs.Told.{Does};
ghost use Rattle.ob_end.specs.EndWrites.{AreSealedFrom, IsEndOfRing, IsOfStore, SameFirst, WritesEnd, all_seals, content_left, end_write_notes, rows_left};

use crate::filling::write_buckets;
use crate::shutting::shut_gates;
use ob_base::{Failed, Fault, Params};
use ob_cells::Bench;
use ob_check::Sheet;
use ob_ring::Ring;
use ob_seal::Sealer;
use ob_store::{Store, Watch, sync_noted};
use std::thread::Threads;

/// Writes the listed buckets, which were filled anew, where they then lie: in their order, the
/// slots of each ascending, under the next seals. Their rows leave the stash. Then the checkpoint
/// of the epoch that ends, under the seals behind; then the gates of the log of the epoch after it,
/// closed, in ascending order; then a sync. It takes no memory.
///
/// At each moment no cell has changed that an image is read from in which the epoch before stands.
///
/// # Errors
/// The store failed, and its count of faults rose. Some of the first seals were made.
pub fn write_end<R: Threads + Sync, S: Store, W: Watch>(
    rt: &R,
    store: &mut S,
    sealer: &mut Sealer,
    p: &Params,
    epoch: u64,
    ring: &mut Ring,
    sheet: &mut Sheet,
    bench: &mut Bench,
    watch: &mut W,
) -> Result<(), Fault>
    requires none_out { (S.disk store.old).out ≡ 0 }
    requires params { p.now ≡ ring.old.p }
    requires epoch { epoch < 2 ^ 62 }
    requires generation { sealer.old.generation < 2 ^ 62 }
    requires within { AreListedWithin ring.old }
    requires room { sealer.old.next + all_seals ring.old ≤ 2 ^ 62 }
    requires sealed { AreSealedFrom ring.old sealer.old.generation sealer.old.next }
    requires obeys { Obeys ring.old.p (content_left ring.old) }
    requires sheet { length sheet.old ≡ 96 * checkpoint_cells ring.old.p }
    ensures serves { Serves IsStoreFault (S.disk store.old) (S.disk store.new) result }
    ensures faults { IfErr result IsOfStore }
    ensures kept { ring.new ≡ record ring.old { stash = ring.new.stash } }
    ensures room { ring.new.stash.room ≡ ring.old.stash.room }
    ensures rows { OnOk result (ring.new.stash.rows ≡ rows_left ring.old) }
    ensures sheet { length sheet.new ≡ length sheet.old }
    ensures seals { Seals (all_seals ring.old) sealer.old sealer.new result }
    // Each end of an epoch that stands and that the ring makes is written, but for the register.
    ensures writes { (s : RingStanding) (end : RingEnd) → epoch ≡ suc s.epoch
        → IsEndOfRing s end sealer.old.generation ring.old
        → WritesEnd sealer.old.keys ring.old.p s end (S.disk store.old) (S.disk store.new) result }
    // Neither the head nor a register is written.
    ensures first { (S.disk store.old).tells
        → SameFirst (S.disk store.new).cells (S.disk store.old).cells }
    ensures moments { Passes SameFirst (S.disk store.old) (S.disk store.new) }
    // Each cell that has changed is a gate, or is sealed with a number of its own, taken meanwhile.
    ensures sealed { (S.disk store.old).tells → OnOk result (CellsAreSealed sealer.old sealer.new
        (S.disk store.old).cells (S.disk store.new).cells) }
    ensures durable { (S.disk store.old).tells → OnOk result (IsSynced (S.disk store.new)) }
    ensures does { Does (end_write_notes ring.old epoch) (S.disk store.old).seen
        (S.disk store.new).seen (W.trace watch.old) (W.trace watch.new) result }
{
    match write_buckets(rt, store, sealer, p, ring, bench, watch) {
        Ok(()) => {}
        Err(Failed) => return Err(Fault::StoreFault { unsure: None }),
    }
    ring.forget_written();
    match ob_check::write(
        rt,
        store,
        sealer,
        p,
        epoch,
        ring.tables(),
        sheet,
        bench,
        watch,
    ) {
        Ok(()) => {}
        Err(fault) => return Err(fault),
    }
    let area = ((epoch + 1) % 2) as u8;
    match shut_gates(store, p, area, watch) {
        Ok(()) => {}
        Err(Failed) => return Err(Fault::StoreFault { unsure: None }),
    }
    match sync_noted(store, watch) {
        Ok(()) => Ok(()),
        Err(Failed) => Err(Fault::StoreFault { unsure: None }),
    }
}
