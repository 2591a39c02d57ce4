//! The rows of an epoch, written.

ghost use Rattle.std.specs.Prelude.{◌≡◌, ◌<◌, ◌≤◌, ◌+◌, ◌^◌, ℕ, length, OnOk, OnErr, IfErr};
ghost use Rattle.ob_base.specs.declared.params.Params.{Params};
ghost use Rattle.ob_store.specs.Images.{IsSynced, LeavesOnly, Passes};
ghost use Rattle.ob_store.specs.Calls.{Serves, Holds};
ghost use Rattle.ob_cells.specs.Runs.{IsFurther};
ghost use Rattle.ob_flat.specs.Rows.{row_cells};
ghost use Rattle.ob_twin.specs.declared.twin.Twin.TheVariants.{EPOCH};
ghost use Rattle.ob_twin.specs.Clear.{InClearBy};
ghost use Rattle.ob_twin.specs.Keyed.{tagging};
ghost use Rattle.ob_twin.specs.Register.{place_of};
ghost use Rattle.ob_twin.specs.Opening.{GatesAre, with_mark};
ghost use Rattle.ob_twin.specs.Refused.{IsSetFault, IsBefore};
ghost use Rattle.ob_serial.specs.Vaults.{Standing};
ghost use Rattle.ob_flat.specs.Places.{area_of};
ghost use Rattle.ob_flat.specs.Ends.{EndsFrom, StandsAtOne, EndTells, IfUnsure};
ghost use Rattle.ob_flat.specs.Standing.{StandsFlat};
ghost use Rattle.ob_flat.specs.Calls.{SameOffEpoch};

use crate::places::area_of;
use crate::writing::write_rows;
use ob_base::{Failed, Fault, Value};
use ob_seal::Sealer;
use ob_store::{Store, Watch, sync_noted};
use ob_twin::{Gates, SetErr, Twin};

/// Writes the rows of an epoch, makes sure of them, and sets the epoch's number.
pub fn write_epoch<S: Store, W: Watch>(
    store: &mut S,
    sealer: &mut Sealer,
    gates: &mut Gates,
    epoch: u64,
    values: &[Option<Value>],
    watch: &mut W,
) -> Result<(), SetErr>
    requires none_out { (S.disk store.old).out ≡ 0 }
    requires small { epoch < 2 ^ 62 }
    requires few { length values.now ≤ 65536 }
    requires room { sealer.old.next + length values.now ≤ 2 ^ 62 }
    requires generation { sealer.old.generation < 2 ^ 62 }
    requires told { (S.disk store.old).tells → GatesAre gates.old.epoch 5 (S.disk store.old).cells }
    ensures serves { Serves (IsSetFault EPOCH epoch) (S.disk store.old) (S.disk store.new) result }
    ensures faults { IfErr result (IsSetFault EPOCH epoch) }
    ensures tell { (S.disk store.old).tells
        → OnOk result (GatesAre gates.new.epoch 5 (S.disk store.new).cells) }
    ensures gates { OnOk result (gates.new.epoch ≡ with_mark gates.old.epoch (place_of epoch)) }
    ensures gates_err { OnErr result (gates.new ≡ gates.old) }
    ensures durable { (S.disk store.old).tells → OnOk result (IsSynced (S.disk store.new)) }
    ensures written { (S.disk store.old).tells
        → OnOk result (Holds (area_of (length values.now) epoch)
        (row_cells sealer.old.keys (area_of (length values.now) epoch) sealer.old.generation
        sealer.old.next values.now) (S.disk store.new).cells) }
    ensures sealed { OnOk result (sealer.new
        ≡ record sealer.old { next = sealer.old.next + length values.now }) }
    ensures some_sealed { IsFurther (length values.now) sealer.old sealer.new }
    // So it is where it is unsure.
    ensures written_unsure { IfErr result (IfUnsure ((S.disk store.old).tells
        → Holds (area_of (length values.now) epoch)
        (row_cells sealer.old.keys (area_of (length values.now) epoch) sealer.old.generation
        sealer.old.next values.now) (S.disk store.new).cells)) }
    ensures sealed_unsure { IfErr result (IfUnsure (sealer.new
        ≡ record sealer.old { next = sealer.old.next + length values.now })) }
    // No cell changes but those of the epoch's register and of its rows, nor in what a crash
    // leaves.
    ensures rest { (S.disk store.old).tells
        → SameOffEpoch (length values.now) epoch (S.disk store.new).cells
        (S.disk store.old).cells }
    ensures passes { Passes (SameOffEpoch (length values.now) epoch) (S.disk store.old)
        (S.disk store.new) }
    // Each byte that it leaves in the clear is of a gate or of a number's body.
    ensures clear { (S.disk store.new).tells → InClearBy (tagging sealer.old.keys)
        (S.disk store.new).seen (S.disk store.old).cells (S.disk store.new).cells result }
    // Where the store stood for an epoch, it stands for the next one,
    ensures done { (p : Params) (g : ℕ) (now next : Standing)
        → EndsFrom sealer.old.keys p g (S.disk store.old) epoch values.now now next
        → OnOk result (StandsFlat sealer.old.keys p g (S.disk store.new).cells next) }
    // and a crash at any moment leaves one of the two,
    ensures old_or_new { (p : Params) (g : ℕ) (now next : Standing)
        → EndsFrom sealer.old.keys p g (S.disk store.old) epoch values.now now next
        → LeavesOnly (S.disk store.old) (S.disk store.new)
        (StandsAtOne sealer.old.keys p g now next) }
    // or the old one where it was refused before the last write.
    ensures before { (p : Params) (g : ℕ) (now next : Standing)
        → EndsFrom sealer.old.keys p g (S.disk store.old) epoch values.now now next
        → IsBefore result
        → LeavesOnly (S.disk store.old) (S.disk store.new)
        (λ c. StandsFlat sealer.old.keys p g c now) }
    // Unsure only where the write was made that opens the gate.
    ensures does { EndTells (length values.now) gates.old.epoch epoch (S.disk store.old).seen
        (S.disk store.new).seen (W.trace watch.old) (W.trace watch.new) result }
{
    let base = area_of(values.len() as u64, epoch);
    match write_rows(store, sealer, base, values, watch) {
        Ok(()) => {}
        Err(Failed) => return Err(SetErr::Before(Fault::StoreFault { unsure: None })),
    }
    match sync_noted(store, watch) {
        Ok(()) => {}
        Err(Failed) => return Err(SetErr::Before(Fault::StoreFault { unsure: None })),
    }
    Twin::EPOCH.set(store, sealer, gates, epoch, watch)
}
