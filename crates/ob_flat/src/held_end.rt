//! The end of an epoch of a plain vault.

ghost use Rattle.std.specs.Prelude.{◌≡◌, ◌⊎◌, ◌<◌, ◌≤◌, ◌+◌, ◌^◌, MatchBool, ℕ, suc, List, length, not, is_ok, IfErr, false, if◌then◌else◌};
ghost use Rattle.ob_base.specs.declared.params.Params.{Params};
ghost use Rattle.ob_store.specs.declared.watch.Note.{Note};
ghost use Rattle.ob_store.specs.Images.{IsSynced, Passes, LeavesOnly};
ghost use Rattle.ob_store.specs.Calls.{Serves};
ghost use Rattle.ob_store.specs.Lines.{Shows};
ghost use Rattle.ob_pads.specs.Seals.{ClearBy};
ghost use Rattle.ob_serial.specs.Vaults.{Standing};
ghost use Rattle.ob_serial.specs.VaultViews.{end_answer, IsEndFault, IsStoreEnd};
ghost use Rattle.ob_flat.specs.Calls.{EndDoes, KnowsNext, SameOffEpoch};
ghost use Rattle.ob_flat.specs.Ends.{EndsFrom, EndsIn, end_err_of};

use crate::ends::write_epoch;
use crate::held::Held;
use ob_base::{Fault, NUMBER_LIMIT, Value};
use ob_seal::Sealer;
use ob_serial::EndErr;
use ob_store::{Store, Watch};
use ob_twin::SetErr;

fn end_err(refused: SetErr) -> EndErr
    ensures { result ≡ end_err_of refused }
{
    match refused {
        SetErr::Before(fault) => EndErr::Before(fault),
        SetErr::Unsure(fault) => EndErr::Unsure(fault),
    }
}

// Whether there is no such epoch, or so many seals aren't left.
fn is_worn(epoch: u64, sealer: &Sealer, keys: u64) -> bool
    requires few { keys ≤ 65536 }
    ensures { MatchBool result ((2 ^ 62 ≤ epoch)
        ⊎ (2 ^ 62 < sealer.now.next + keys)) ((epoch < 2 ^ 62)
        × (sealer.now.next + keys ≤ 2 ^ 62)) }
{
    if epoch >= NUMBER_LIMIT {
        return true;
    }
    let (_, next) = sealer.next();
    next + keys > NUMBER_LIMIT
}

/// Ends an epoch with these values.
pub fn end_held<'a, S: Store, W: Watch>(
    held: &mut Held<'a, S>,
    values: &[Option<Value>],
    watch: &mut W,
) -> Result<(), EndErr>
    requires serves { held.old.spent ≡ false }
    requires few { length values.now ≤ 65536 }
    ensures same_reference { held.new.store.ghost_name ≡ held.old.store.ghost_name }
    ensures epoch { held.new.epoch ≡ (if is_ok result then suc held.old.epoch else held.old.epoch) }
    ensures spent { held.new.spent ≡ not (is_ok result) }
    ensures knows { KnowsNext held.old.gates.epoch held.old.epoch (end_answer result)
        held.new.gates.epoch held.new.epoch }
    ensures same_keys { held.new.sealer.keys ≡ held.old.sealer.keys }
    ensures same_generation { held.new.sealer.generation ≡ held.old.sealer.generation }
    ensures serves { Serves IsStoreEnd (S.disk held.old.store.now) (S.disk held.new.store.now)
        result }
    ensures faults { IfErr result (IsEndFault (held.old.epoch + 1)) }
    ensures rest { (S.disk held.old.store.now).tells
        → SameOffEpoch (length values.now) (suc held.old.epoch) (S.disk held.new.store.now).cells
        (S.disk held.old.store.now).cells }
    ensures passes { Passes (SameOffEpoch (length values.now) (suc held.old.epoch))
        (S.disk held.old.store.now) (S.disk held.new.store.now) }
    ensures clear { (S.disk held.new.store.now).tells → ClearBy (end_answer result)
        held.old.sealer.keys (S.disk held.new.store.now).seen (S.disk held.old.store.now).cells
        (S.disk held.new.store.now).cells }
    ensures images { (p : Params) (g : ℕ) (now next : Standing)
        → EndsFrom held.old.sealer.keys p g (S.disk held.old.store.now) (suc held.old.epoch)
        values.now now next
        → EndsIn held.old.sealer.keys p g (S.disk held.old.store.now) (S.disk held.new.store.now)
        now next (end_answer result) }
    ensures called { (p : Params) → length values.now ≡ p.keys → (notes : List Note)
        × Shows notes (W.trace watch.old) (W.trace watch.new)
        × EndDoes p held.old.gates.epoch held.old.epoch values.now
        (record { store = held.old.store.now; sealing = held.old.sealer })
        (record { store = held.new.store.now; sealing = held.new.sealer })
        (S.disk held.old.store.now) (S.disk held.new.store.now) notes (end_answer result) }
{
    let epoch = held.epoch + 1;
    held.spent = true;
    if is_worn(epoch, &held.sealer, values.len() as u64) {
        return Err(EndErr::Before(Fault::Worn {
            number: NUMBER_LIMIT,
        }));
    }
    match write_epoch(
        held.store,
        &mut held.sealer,
        &mut held.gates,
        epoch,
        values,
        watch,
    ) {
        Ok(()) => {}
        Err(refused) => return Err(end_err(refused)),
    }
    held.epoch = epoch;
    held.spent = false;
    Ok(())
}
