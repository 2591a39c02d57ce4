//! Reading the rows of a plain store.

ghost use Rattle.std.specs.Prelude.{◌≡◌, ◌<◌, ◌≤◌, ◌+◌, ◌^◌, [], ◌∷◌, length, IfErr};
ghost use Rattle.ob_base.specs.Causes.{Rose};
ghost use Rattle.ob_store.specs.declared.watch.Note.TheVariants as note;
ghost use Rattle.ob_store.specs.Images.{Same, Passes};
ghost use Rattle.ob_store.specs.Calls.{Serves, IsStoreFault, Keeps};
ghost use Rattle.ob_store.specs.Told.{Tells, Does};
ghost use Rattle.ob_cells.specs.Orders.{read_notes};
ghost use Rattle.ob_cells.specs.Reads.{IsCellFault};
ghost use Rattle.ob_flat.specs.Reads.{IsOneRowRead, AreRowsRead};

use crate::row::{Row, value_in};
use ob_base::{Failed, Fault, Value};
use ob_cells::read_next;
use ob_seal::Sealer;
use ob_store::{Store, Watch};

// Reads the row in a cell, whose seal may be an expected one.
fn read_row<S: Store, W: Watch>(
    store: &S,
    lane: &mut S::Lane,
    sealer: &Sealer,
    cell: u64,
    expected: Option<(u64, u64)>,
    watch: &mut W,
) -> Result<Row, Fault>
    ensures value { (S.disk store.now).tells
        → IsOneRowRead sealer.now.keys cell expected ((S.disk store.now).cells cell) result }
    ensures faults { IfErr result IsCellFault }
    ensures later { S.lane_faults lane.old ≤ S.lane_faults lane.new }
    ensures cause { IfErr result (λ fault. IsStoreFault fault
        → Rose (S.lane_faults lane.old) (S.lane_faults lane.new)) }
    ensures told { Tells (note.Read cell ∷ []) (note.Read cell ∷ []) (S.lane_seen lane.old)
        (S.lane_seen lane.new) (W.trace watch.old) (W.trace watch.new) }
{
    let opened = match read_next(store, lane, sealer, cell, expected, watch) {
        Ok(opened) => opened,
        Err(fault) => return Err(fault),
    };
    match value_in(cell, &opened.plain) {
        Ok(value) => Ok(Row {
            generation: opened.generation,
            number: opened.number,
            value,
        }),
        Err(damaged) => Err(Fault::from(damaged)),
    }
}

// Reads the rows from a cell on through a lane, in rising order, up to the first that breaks a
// rule.
fn read_each<S: Store, W: Watch>(
    store: &S,
    lane: &mut S::Lane,
    sealer: &Sealer,
    base: u64,
    values: &mut [Option<Value>],
    watch: &mut W,
) -> Result<(), Fault>
    requires fits { base + length values.old < 2 ^ 64 }
    ensures value { (S.disk store.now).tells
        → AreRowsRead sealer.now.keys base (S.disk store.now).cells values.new result }
    ensures faults { IfErr result IsCellFault }
    ensures later { S.lane_faults lane.old ≤ S.lane_faults lane.new }
    ensures cause { IfErr result (λ fault. IsStoreFault fault
        → Rose (S.lane_faults lane.old) (S.lane_faults lane.new)) }
    ensures does { Does (read_notes base (length values.old)) (S.lane_seen lane.old)
        (S.lane_seen lane.new) (W.trace watch.old) (W.trace watch.new) result }
{
    let mut expected = None;
    for i in 0..values.len() {
        let row = match read_row(store, lane, sealer, base + i as u64, expected, watch) {
            Ok(row) => row,
            Err(fault) => return Err(fault),
        };
        values[i] = row.value;
        expected = Some((row.generation, row.number.wrapping_add(1)));
    }
    Ok(())
}

// Reads the rows from a cell on, in rising order, up to the first that breaks a rule.
fn read_rows<S: Store, W: Watch>(
    store: &mut S,
    sealer: &Sealer,
    base: u64,
    values: &mut [Option<Value>],
    watch: &mut W,
) -> Result<(), Fault>
    requires fits { base + length values.old < 2 ^ 64 }
    ensures serves { Serves IsStoreFault (S.disk store.old) (S.disk store.new) result }
    ensures value { (S.disk store.old).tells
        → AreRowsRead sealer.now.keys base (S.disk store.old).cells values.new result }
    ensures faults { IfErr result IsCellFault }
    ensures keeps { Keeps (S.disk store.old) (S.disk store.new) }
    ensures passes { Passes Same (S.disk store.old) (S.disk store.new) }
    ensures does { Does (read_notes base (length values.old)) (S.disk store.old).seen
        (S.disk store.new).seen (W.trace watch.old) (W.trace watch.new) result }
{
    let mut lane = match store.lane() {
        Ok(lane) => lane,
        Err(Failed) => return Err(Fault::StoreFault { unsure: None }),
    };
    let outcome = read_each(store, &mut lane, sealer, base, values, watch);
    store.absorb(lane);
    outcome
}

/// Reads the rows from a cell on, in rising order, up to the first that breaks a rule: in its tag,
/// then in its seal, which is the one behind the row before it, then in its presence, then in its
/// length. There are as many as `values` has places.
///
/// # Errors
/// The store failed, and its count of faults rose; or a row is damaged, and the first one is told.
pub fn read_values<S: Store, W: Watch>(
    store: &mut S,
    sealer: &Sealer,
    base: u64,
    values: &mut Vec<Option<Value>>,
    watch: &mut W,
) -> Result<(), Fault>
    requires fits { base + length values.old.items < 2 ^ 64 }
    ensures serves { Serves IsStoreFault (S.disk store.old) (S.disk store.new) result }
    ensures value { (S.disk store.old).tells
        → AreRowsRead sealer.now.keys base (S.disk store.old).cells values.new.items result }
    ensures whole { length values.new.items ≡ length values.old.items }
    ensures faults { IfErr result IsCellFault }
    ensures keeps { Keeps (S.disk store.old) (S.disk store.new) }
    ensures passes { Passes Same (S.disk store.old) (S.disk store.new) }
    ensures does { Does (read_notes base (length values.old.items)) (S.disk store.old).seen
        (S.disk store.new).seen (W.trace watch.old) (W.trace watch.new) result }
{
    read_rows(store, sealer, base, values, watch)
}
