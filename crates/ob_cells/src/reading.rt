//! Reading a run of sealed cells.

ghost use Rattle.std.specs.Prelude.{◌≡◌, ◌<◌, ◌≤◌, ◌+◌, ◌*◌, ◌^◌, ◌/◌, ◌%◌, [], ◌∷◌, length, OnOk, OnErr, IfErr};
ghost use Rattle.ob_base.specs.Causes.{Rose};
ghost use Rattle.ob_store.specs.declared.watch.Note.TheVariants as note;
ghost use Rattle.ob_store.specs.Images.{Same, Passes};
ghost use Rattle.ob_store.specs.Calls.{Serves, IsStoreFault, Keeps};
ghost use Rattle.ob_store.specs.Told.{Tells};
ghost use Rattle.ob_cells.specs.Orders.{IsRunFault};
ghost use Rattle.ob_cells.specs.Reads.{IsNextRead, ReadsRun};

use crate::{Identity, put};
use ob_base::{Failed, Fault};
use ob_seal::{Opened, Sealer};
use ob_store::{Store, Watch, read_noted};

/// Reads a sealed cell through a lane, whose seal may be an expected one. The read is shown,
/// whatever it answered.
///
/// # Errors
/// The store failed, and the lane's count of faults rose; or the cell is damaged: in its tag (check
/// Tag, with both tags), or else in its seal (check Seal, with both identities).
pub fn read_next<S: Store, W: Watch>(
    store: &S,
    lane: &mut S::Lane,
    sealer: &Sealer,
    cell: u64,
    expected: Option<(u64, u64)>,
    watch: &mut W,
) -> Result<Opened, Fault>
    ensures value { (S.disk store.now).tells
        → IsNextRead sealer.now.keys cell expected ((S.disk store.now).cells cell) result }
    ensures faults { IfErr result (IsRunFault cell 1) }
    ensures later { S.lane_faults lane.old ≤ S.lane_faults lane.new }
    ensures cause { IfErr result (λ fault. IsStoreFault fault
        → Rose (S.lane_faults lane.old) (S.lane_faults lane.new)) }
    ensures told { Tells (note.Read cell ∷ []) (note.Read cell ∷ []) (S.lane_seen lane.old)
        (S.lane_seen lane.new) (W.trace watch.old) (W.trace watch.new) }
{
    let mut bytes = [0; 128];
    match read_noted(store, lane, cell, &mut bytes, watch) {
        Ok(()) => {}
        Err(Failed) => return Err(Fault::StoreFault { unsure: None }),
    }
    match sealer.unseal(cell, expected, &bytes) {
        Ok(opened) => Ok(opened),
        Err(damaged) => Err(Fault::from(damaged)),
    }
}

// Reads a run of sealed cells through a lane, up to the first that breaks a rule.
fn read_run<S: Store, W: Watch>(
    store: &S,
    lane: &mut S::Lane,
    sealer: &Sealer,
    base: u64,
    plain: &mut [u8],
    watch: &mut W,
) -> Result<Identity, Fault>
    requires some { 0 < length plain.old }
    requires whole { length plain.old % 96 ≡ 0 }
    requires fits { base + length plain.old / 96 < 2 ^ 64 }
    ensures run { ReadsRun sealer.now.keys base (length plain.old / 96) (S.disk store.now) plain.new
        (S.lane_seen lane.old) (S.lane_seen lane.new) (W.trace watch.old) (W.trace watch.new)
        result }
    ensures later { S.lane_faults lane.old ≤ S.lane_faults lane.new }
    ensures cause { IfErr result (λ fault. IsStoreFault fault
        → Rose (S.lane_faults lane.old) (S.lane_faults lane.new)) }
{
    let opened = match read_next(store, lane, sealer, base, None, watch) {
        Ok(opened) => opened,
        Err(fault) => return Err(fault),
    };
    put(plain, 0, &opened.plain);
    let first = Identity {
        generation: opened.generation,
        number: opened.number,
    };
    for i in 1..plain.len() / 96 {
        let expected = Some(first.seal_at(i as u64));
        let opened = match read_next(store, lane, sealer, base + i as u64, expected, watch) {
            Ok(opened) => opened,
            Err(fault) => return Err(fault),
        };
        put(plain, 96 * i, &opened.plain);
    }
    Ok(first)
}

/// Reads sealed cells from a cell on, in rising order, up to the first that breaks a rule, as many
/// as `plain` has 96 bytes: the first cell's identity, and their plain bytes one behind the other.
/// Each cell has the seal behind that of the cell before it. Each read is shown, whatever it
/// answered.
///
/// # Errors
/// The store failed, and its count of faults rose; or the first cell that breaks a rule: in its tag
/// (check Tag, with both tags), then, from the second cell on, in its seal (check Seal, with both
/// identities). What `plain` has is not told.
pub fn read_sealed<S: Store, W: Watch>(
    store: &mut S,
    sealer: &Sealer,
    base: u64,
    plain: &mut [u8],
    watch: &mut W,
) -> Result<Identity, Fault>
    requires some { 0 < length plain.old }
    requires whole { length plain.old % 96 ≡ 0 }
    requires fits { base + length plain.old / 96 < 2 ^ 64 }
    ensures serves { Serves IsStoreFault (S.disk store.old) (S.disk store.new) result }
    ensures run { ReadsRun sealer.now.keys base (length plain.old / 96) (S.disk store.old) plain.new
        (S.disk store.old).seen (S.disk store.new).seen (W.trace watch.old) (W.trace watch.new)
        result }
    ensures keeps { Keeps (S.disk store.old) (S.disk store.new) }
    ensures passes { Passes Same (S.disk store.old) (S.disk store.new) }
{
    let mut lane = match store.lane() {
        Ok(lane) => lane,
        Err(Failed) => return Err(Fault::StoreFault { unsure: None }),
    };
    let outcome = read_run(store, &mut lane, sealer, base, plain, watch);
    store.absorb(lane);
    outcome
}
