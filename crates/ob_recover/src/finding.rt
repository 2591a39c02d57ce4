//! Finding what a ring store holds.

ghost use Rattle.std.specs.Prelude.{◌≡◌, ◌*◌, length, IfOk, IfErr};
ghost use Rattle.ob_base.specs.Layout.{checkpoint_cells};
ghost use Rattle.ob_store.specs.Images.{Same, Passes};
ghost use Rattle.ob_start.specs.Registers.{HaveOpen};
ghost use Rattle.ob_store.specs.Calls.{Serves, IsStoreFault, Keeps};
ghost use Rattle.ob_stand.specs.Stands.{RingStanding, Stands};
ghost use Rattle.ob_recover.specs.Finds.{IsFindOf, IsFindFault, ObeysFound, FindsStanding, FindDoes};

use crate::found::Found;
use ob_base::{Fault, Params};
use ob_check::Sheet;
use ob_seal::{Keys, Sealer};
use ob_start::read_registers;
use ob_store::{Store, Watch};
use ob_twin::Gates;
use std::alloc::Global;

// Finds it, with a sealer of the keys.
fn find_with<S: Store, W: Watch>(
    alloc: Global,
    store: &mut S,
    sealer: &Sealer,
    p: &Params,
    sheet: &mut Sheet,
    watch: &mut W,
) -> Result<Found, Fault>
    requires sheet { length sheet.old ≡ 96 * checkpoint_cells p.now }
    ensures serves { Serves IsStoreFault (S.disk store.old) (S.disk store.new) result }
    ensures value { (S.disk store.old).tells
        → IsFindOf sealer.now.keys p.now (S.disk store.old).cells result }
    ensures faults { IfErr result IsFindFault }
    ensures obeys { IfOk result (ObeysFound p.now) }
    // Whatever the store tells, each register has a gate that is known to be open.
    ensures some { IfOk result (λ found. HaveOpen found.gates) }
    // Where the store stands, this is what it stands for.
    ensures stands { (s : RingStanding) → (S.disk store.old).tells
        → Stands sealer.now.keys p.now s (S.disk store.old).cells → FindsStanding s result }
    ensures keeps { Keeps (S.disk store.old) (S.disk store.new) }
    ensures passes { Passes Same (S.disk store.old) (S.disk store.new) }
    ensures does { FindDoes sealer.now.keys p.now (S.disk store.old) (S.disk store.new)
        (W.trace watch.old) (W.trace watch.new) result }
    ensures sheet { length sheet.new ≡ length sheet.old }
{
    let mut known = Gates::new();
    let numbers = match read_registers(store, sealer, &mut known, watch) {
        Ok(numbers) => numbers,
        Err(fault) => return Err(fault),
    };
    let tables = match ob_check::read(alloc, store, sealer, p, numbers.epoch, sheet, watch) {
        Ok(tables) => tables,
        Err(fault) => return Err(fault),
    };
    let records = match ob_log::read_open(alloc, store, sealer, p, numbers.epoch + 1, watch) {
        Ok(records) => records,
        Err(fault) => return Err(fault),
    };
    Ok(Found {
        generation: numbers.generation,
        epoch: numbers.epoch,
        gates: known,
        tables,
        records,
    })
}

/// Finds what a store of these parameters holds, as `head` gave them, from cell 1 on: reads both
/// registers, the checkpoint of the epoch that counts, and the whole log area of the epoch after
/// it. Nothing is written, and no image that a crash may leave changes. The sheet is written over.
///
/// # Errors
/// Memory was wanting, behind some of the reads; or the store failed, and its count of faults rose;
/// or, in this order, it is no store exactly where a register has no open gate; the first body
/// under an open gate that breaks a rule is damaged, in the order of cells; or what breaks a rule
/// first in the checkpoint's cells; or in the bodies of the log before its first closed gate.
pub fn find<S: Store, W: Watch>(
    alloc: Global,
    store: &mut S,
    keys: &Keys,
    p: &Params,
    sheet: &mut Sheet,
    watch: &mut W,
) -> Result<Found, Fault>
    requires sheet { length sheet.old ≡ 96 * checkpoint_cells p.now }
    ensures serves { Serves IsStoreFault (S.disk store.old) (S.disk store.new) result }
    ensures value { (S.disk store.old).tells
        → IsFindOf keys.now p.now (S.disk store.old).cells result }
    ensures faults { IfErr result IsFindFault }
    ensures obeys { IfOk result (ObeysFound p.now) }
    // Whatever the store tells, each register has a gate that is known to be open.
    ensures some { IfOk result (λ found. HaveOpen found.gates) }
    // Where the store stands, this is what it stands for.
    ensures stands { (s : RingStanding) → (S.disk store.old).tells
        → Stands keys.now p.now s (S.disk store.old).cells → FindsStanding s result }
    ensures keeps { Keeps (S.disk store.old) (S.disk store.new) }
    ensures passes { Passes Same (S.disk store.old) (S.disk store.new) }
    ensures does { FindDoes keys.now p.now (S.disk store.old) (S.disk store.new) (W.trace watch.old)
        (W.trace watch.new) result }
    ensures sheet { length sheet.new ≡ length sheet.old }
{
    find_with(alloc, store, &Sealer::new(keys, 0), p, sheet, watch)
}
