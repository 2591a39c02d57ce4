//! Making an empty plain store.

ghost use Rattle.std.specs.Prelude.{◌≡◌, ◌<◌, ◌≤◌, ◌+◌, ◌^◌, ℕ, ◌++◌, true, OnOk, IfErr, replicate, None};
ghost use Rattle.std.specs.FinMap as finite;
ghost use Rattle.ob_base.specs.declared.fault.Fault.TheVariants as fault;
ghost use Rattle.ob_store.specs.Disk.{Image};
ghost use Rattle.ob_store.specs.Images.{IsSynced, Passes, LeavesOnly};
ghost use Rattle.ob_store.specs.Calls.{Serves, IsFailed, IsStoreFault, Holds};
ghost use Rattle.ob_store.specs.Told.{Does};
ghost use Rattle.ob_flat.specs.Rows.{row_cells};
ghost use Rattle.ob_twin.specs.Keyed.{tagging};
ghost use Rattle.ob_twin.specs.Register.{StandsAt};
ghost use Rattle.ob_twin.specs.Reading.{NoneOpen};
ghost use Rattle.ob_twin.specs.Orders.{set_notes};
ghost use Rattle.ob_start.specs.Laying.{SameHead};
ghost use Rattle.ob_flat.specs.Heads.{head_cell};
ghost use Rattle.ob_flat.specs.Formats.{FormatLeaves};
ghost use Rattle.ob_flat.specs.Standing.{StandsFlat};
ghost use Rattle.ob_flat.specs.Orders.{format_notes, rows_notes};

use crate::heads::VERSION;
use crate::writing::write_blanks;
use ob_base::{BODY_CELL, Failed, Fault, Params};
use ob_seal::{Keys, Sealer};
use ob_start::{head_cell, lay_registers, set_first};
use ob_store::{Store, Watch, sync_noted, write_through};
use ob_twin::Twin;

// Writes the rows of an empty map, and sets the epoch to 0.
fn lay_rows<S: Store, W: Watch>(
    store: &mut S,
    sealer: &mut Sealer,
    keys: u64,
    watch: &mut W,
) -> Result<(), Failed>
    requires none_out { (S.disk store.old).out ≡ 0 }
    requires few { keys ≤ 65536 }
    requires room { sealer.old.next + keys ≤ 2 ^ 62 }
    requires closed { (S.disk store.old).tells → NoneOpen 5 (S.disk store.old).cells }
    ensures serves { Serves IsFailed (S.disk store.old) (S.disk store.new) result }
    ensures epoch { (S.disk store.old).tells
        → OnOk result (StandsAt (tagging sealer.old.keys) 5 (S.disk store.new).cells 0) }
    ensures rows { (S.disk store.old).tells
        → OnOk result (Holds 9
        (row_cells sealer.old.keys 9 sealer.old.generation sealer.old.next (replicate keys None))
        (S.disk store.new).cells) }
    ensures same_keys { sealer.new.keys ≡ sealer.old.keys }
    ensures low { (S.disk store.old).tells → (k : ℕ) → k < 5
        → (S.disk store.new).cells k ≡ (S.disk store.old).cells k }
    ensures passes { Passes SameHead (S.disk store.old) (S.disk store.new) }
    ensures durable { (S.disk store.old).tells → OnOk result (IsSynced (S.disk store.new)) }
    ensures does { Does (rows_notes 9 keys ++ set_notes true 5 0) (S.disk store.old).seen
        (S.disk store.new).seen (W.trace watch.old) (W.trace watch.new) result }
{
    write_blanks(store, sealer, BODY_CELL, keys, watch)?;
    sync_noted(store, watch)?;
    set_first(Twin::EPOCH, store, sealer, 0, watch)
}

// The whole order.
fn lay<S: Store, W: Watch>(
    store: &mut S,
    sealer: &mut Sealer,
    params: &Params,
    watch: &mut W,
) -> Result<(), Failed>
    requires none_out { (S.disk store.old).out ≡ 0 }
    requires generation { sealer.old.generation ≡ 1 }
    requires none_sealed { sealer.old.next ≡ 0 }
    ensures serves { Serves IsFailed (S.disk store.old) (S.disk store.new) result }
    ensures stands { (S.disk store.old).tells
        → OnOk result (StandsFlat sealer.old.keys params.now 1 (S.disk store.new).cells
        (record { epoch = 0; content = finite.empty })) }
    ensures head { (S.disk store.old).tells
        → OnOk result ((S.disk store.new).cells 0 ≡ head_cell sealer.old.keys params.now) }
    ensures rows { (S.disk store.old).tells
        → OnOk result (Holds 9 (row_cells sealer.old.keys 9 1 0 (replicate params.now.keys None))
        (S.disk store.new).cells) }
    ensures crash { (S.disk store.old).tells
        → LeavesOnly (S.disk store.old) (S.disk store.new)
        (FormatLeaves sealer.old.keys params.now.keys (S.disk store.old)) }
    ensures durable { (S.disk store.old).tells → OnOk result (IsSynced (S.disk store.new)) }
    ensures does { Does (format_notes params.now.keys) (S.disk store.old).seen
        (S.disk store.new).seen (W.trace watch.old) (W.trace watch.new) result }
{
    lay_registers(store, sealer, &[], watch)?;
    lay_rows(store, sealer, params.keys as u64, watch)?;
    write_through(store, 0, &head_cell(sealer, VERSION, params), watch)
}

/// Makes a store of an empty map at epoch 0 and generation 1: no head, then every gate closed, then
/// the generation, the rows, the epoch, and the head last, each made sure of before the next. It
/// takes no memory.
///
/// # Errors
/// The store failed, and its count of faults rose. What it stands for is not told: format it again.
pub fn format<S: Store, W: Watch>(
    store: &mut S,
    keys: &Keys,
    params: &Params,
    watch: &mut W,
) -> Result<(), Fault>
    requires none_out { (S.disk store.old).out ≡ 0 }
    ensures serves { Serves IsStoreFault (S.disk store.old) (S.disk store.new) result }
    ensures faults { IfErr result (λ refused. refused ≡ fault.StoreFault None) }
    ensures stands { (S.disk store.old).tells
        → OnOk result (StandsFlat keys.now params.now 1 (S.disk store.new).cells
        (record { epoch = 0; content = finite.empty })) }
    // The bytes that it writes into the head and into each row.
    ensures head { (S.disk store.old).tells
        → OnOk result ((S.disk store.new).cells 0 ≡ head_cell keys.now params.now) }
    ensures rows { (S.disk store.old).tells
        → OnOk result (Holds 9 (row_cells keys.now 9 1 0 (replicate params.now.keys None))
        (S.disk store.new).cells) }
    ensures durable { (S.disk store.old).tells → OnOk result (IsSynced (S.disk store.new)) }
    ensures images { (S.disk store.old).tells
        → OnOk result ((c : Image) → (S.disk store.new).may_leave c
        → StandsFlat keys.now params.now 1 c (record { epoch = 0; content = finite.empty })) }
    // A crash at any moment leaves a torn head, no store, or all but the head.
    ensures crash { (S.disk store.old).tells
        → LeavesOnly (S.disk store.old) (S.disk store.new)
        (FormatLeaves keys.now params.now.keys (S.disk store.old)) }
    ensures does { Does (format_notes params.now.keys) (S.disk store.old).seen
        (S.disk store.new).seen (W.trace watch.old) (W.trace watch.new) result }
{
    match lay(store, &mut Sealer::new(keys, 1), params, watch) {
        Ok(()) => Ok(()),
        Err(Failed) => Err(Fault::StoreFault { unsure: None }),
    }
}
