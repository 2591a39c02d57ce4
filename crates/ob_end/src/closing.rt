//! The end of an epoch, once its tables are made: what it writes, and the epoch's register.

ghost use Rattle.std.specs.Prelude.{◌≡◌, ◌<◌, ◌≤◌, ◌+◌, ◌*◌, ◌^◌, ℕ, suc, length, IfErr, OnOk};
ghost use Rattle.ob_base.specs.Layout.{checkpoint_cells};
ghost use Rattle.ob_cells.specs.Writes.{Seals};
ghost use Rattle.ob_tables.specs.Content.{Obeys};
ghost use Rattle.ob_end.specs.EndWrites.{AreSealedFrom, IsEndOfRing, all_seals, content_left, end_write_notes, rows_left};
ghost use Rattle.ob_pads.specs.Seals.{CellsAreSealed};
ghost use Rattle.ob_ring.specs.Ring.{AreListedWithin};
ghost use Rattle.ob_stand.specs.Ends.{RingEnd};
ghost use Rattle.ob_stand.specs.Stands.{RingStanding, Stands};
ghost use Rattle.ob_store.specs.Calls.{Serves};
ghost use Rattle.ob_store.specs.Images.{IsSynced, Passes};
ghost use Rattle.ob_twin.specs.declared.twin.Twin.TheVariants.{EPOCH};
ghost use Rattle.ob_twin.specs.Clear.{InClearBy};
ghost use Rattle.ob_twin.specs.Keyed.{tagging};
ghost use Rattle.ob_twin.specs.Opening.{GatesAre, gates_set, is_closed_first};
ghost use Rattle.ob_twin.specs.Refused.{IsSetFault};
ghost use Rattle.ob_twin.specs.Register.{place_of};
ghost use Rattle.ob_end.specs.Closings.{CloseDoes, IfWritten, SameGeneration};
ghost use Rattle.ob_end.specs.Stages.{Closes};
ghost use Rattle.ob_end.specs.Stops.{CloseStops};

use crate::writing::write_end;
use ob_base::Params;
use ob_cells::Bench;
use ob_check::Sheet;
use ob_ring::Ring;
use ob_seal::Sealer;
use ob_store::{Store, Watch};
use ob_twin::{Gates, SetErr, Twin};
use std::thread::Threads;

/// Writes what the end of an epoch writes, and then sets the epoch's register to it. It takes no
/// memory.
///
/// At each moment a crash leaves the epoch that stood, or, from the write on that opens the
/// register's gate, that or the one that ends; and once it is done the one that ends.
///
/// # Errors
/// The store failed, and its count of faults rose. Before: each image that a crash may leave is at
/// the epoch that stood. Unsure: each is at one of the two.
pub fn close_epoch<R: Threads + Sync, S: Store, W: Watch>(
    rt: &R,
    store: &mut S,
    sealer: &mut Sealer,
    gates: &mut Gates,
    p: &Params,
    epoch: u64,
    ring: &mut Ring,
    sheet: &mut Sheet,
    bench: &mut Bench,
    watch: &mut W,
) -> Result<(), SetErr>
    requires none_out { (S.disk store.old).out ≡ 0 }
    requires params { p.now ≡ ring.old.p }
    requires epoch { epoch < 2 ^ 62 }
    requires generation { sealer.old.generation < 2 ^ 62 }
    requires within { AreListedWithin ring.old }
    requires room { sealer.old.next + all_seals ring.old ≤ 2 ^ 62 }
    requires sealed { AreSealedFrom ring.old sealer.old.generation sealer.old.next }
    requires obeys { Obeys ring.old.p (content_left ring.old) }
    requires sheet { length sheet.old ≡ 96 * checkpoint_cells ring.old.p }
    requires told { (S.disk store.old).tells → GatesAre gates.old.epoch 5 (S.disk store.old).cells }
    ensures serves { Serves (IsSetFault EPOCH epoch) (S.disk store.old) (S.disk store.new) result }
    ensures faults { IfErr result (IsSetFault EPOCH epoch) }
    ensures gates { gates.new ≡ gates_set EPOCH epoch gates.old result }
    ensures tell { (S.disk store.old).tells
        → OnOk result (GatesAre gates.new.epoch 5 (S.disk store.new).cells) }
    ensures kept { ring.new ≡ record ring.old { stash = ring.new.stash } }
    ensures room { ring.new.stash.room ≡ ring.old.stash.room }
    ensures rows { IfWritten (ring.new.stash.rows ≡ rows_left ring.old) result }
    ensures sheet { length sheet.new ≡ length sheet.old }
    ensures seals { Seals (all_seals ring.old) sealer.old sealer.new result }
    ensures durable { (S.disk store.old).tells → OnOk result (IsSynced (S.disk store.new)) }
    // Each cell that has changed behind the registers is a gate, or is sealed with a number of its
    // own, taken meanwhile.
    ensures sealed { (S.disk store.old).tells → IfWritten (CellsAreSealed sealer.old sealer.new
        (S.disk store.old).cells (S.disk store.new).cells) result }
    // Each byte that it leaves in the clear is of a gate or of a number's body.
    ensures clear { (S.disk store.new).tells → InClearBy (tagging sealer.old.keys)
        (S.disk store.new).seen (S.disk store.old).cells (S.disk store.new).cells result }
    // Neither the head nor the register of generations is written.
    ensures moments { Passes SameGeneration (S.disk store.old) (S.disk store.new) }
    // Of each epoch that stands and each end of it that the ring makes: the writes, and then the
    // register, which leaves its gates by how many notes lack at a moment.
    ensures closes { (s : RingStanding) (end : RingEnd) → epoch ≡ suc s.epoch
        → (S.disk store.old).tells → IsSynced (S.disk store.old)
        → Stands sealer.old.keys ring.old.p s (S.disk store.old).cells
        → IsEndOfRing s end sealer.old.generation ring.old
        → Closes S.disk (end_write_notes ring.old epoch) sealer.old.keys ring.old.p s end
        (is_closed_first gates.old.epoch (place_of epoch)) store.old store.new result }
    ensures does { CloseDoes (end_write_notes ring.old epoch)
        (is_closed_first gates.old.epoch (place_of epoch)) epoch (S.disk store.old).seen
        (S.disk store.new).seen (W.trace watch.old) (W.trace watch.new) result }
    // Refused, it leaves the register's gates by how many of its notes weren't shown.
    ensures stops { CloseStops sealer.old.keys (end_write_notes ring.old epoch)
        (is_closed_first gates.old.epoch (place_of epoch)) epoch (S.disk store.old)
        (S.disk store.new) (W.trace watch.old) (W.trace watch.new) result }
{
    match write_end(rt, store, sealer, p, epoch, ring, sheet, bench, watch) {
        Ok(()) => {}
        Err(fault) => return Err(SetErr::Before(fault)),
    }
    Twin::EPOCH.set(store, sealer, gates, epoch, watch)
}
