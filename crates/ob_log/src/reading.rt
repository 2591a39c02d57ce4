//! Reading a log area.

ghost use Rattle.std.specs.Prelude.{◌≡◌, ◌≢◌, ◌<◌, ◌≤◌, ◌+◌, ◌*◌, ◌%◌, ◌^◌, [], Ok, Err, OnOk, IfErr, IfOk, List, length, replicate, vec_capacity, MatchResult};
ghost use Rattle.ob_base.specs.declared.fault.Fault.TheVariants as fault;
ghost use Rattle.ob_base.specs.Layout.{record_cells, log_cell};
ghost use Rattle.ob_store.specs.Images.{Same, Passes};
ghost use Rattle.ob_store.specs.Calls.{Serves, IsStoreFault, Keeps};
ghost use Rattle.ob_store.specs.Told.{Does};
ghost use Rattle.ob_cells.specs.Orders.{reads_of};
ghost use Rattle.ob_log.specs.Logs.{BatchRecord, OpenRecords, RecordsFit};
ghost use Rattle.ob_log.specs.Reads.{AreAccepted, AreRecordsRead, AreReadBack, IsRecordReadFault, area_notes};

use crate::opening::open_records;
use crate::record::{Record, Records};
use ob_base::{Failed, Fault, Params, log_cell, record_cells};
use ob_cells::read_cells;
use ob_seal::Sealer;
use ob_store::{Store, Watch};
use std::alloc::{AllocError, Global};

// Room for the cells of a log area.
fn blank_cells(alloc: Global, p: &Params) -> Result<Vec<[u8; 128]>, AllocError>
    ensures { IfOk result (λ cells. length cells.items ≡ p.now.batches * (record_cells p.now + 1)) }
{
    let many = p.batches as usize * (record_cells(p) as usize + 1);
    let mut cells = Vec::with_capacity(alloc, many)?;
    for _i in 0..many {
        cells.push([0; 128])?;
    }
    Ok(cells)
}

// Reads the cells of an epoch's area, and the open records among them.
fn read_area<S: Store, W: Watch>(
    store: &mut S,
    sealer: &Sealer,
    p: &Params,
    epoch: u64,
    cells: &mut [[u8; 128]],
    mut list: Vec<Record>,
    watch: &mut W,
) -> Result<Records, Fault>
    requires area { length cells.old ≡ p.now.batches * (record_cells p.now + 1) }
    requires none { list.items ≡ [] }
    requires capacity { p.now.batches ≤ vec_capacity list }
    ensures serves { Serves IsStoreFault (S.disk store.old) (S.disk store.new) result }
    ensures faults { IfErr result IsRecordReadFault }
    ensures value { (S.disk store.old).tells
        → AreRecordsRead sealer.now.keys p.now epoch (S.disk store.old).cells result }
    ensures fit { IfOk result (RecordsFit p.now) }
    ensures keeps { Keeps (S.disk store.old) (S.disk store.new) }
    ensures passes { Passes Same (S.disk store.old) (S.disk store.new) }
    ensures does { Does (area_notes p.now epoch) (S.disk store.old).seen (S.disk store.new).seen
        (W.trace watch.old) (W.trace watch.new) (reads_of result) }
    ensures no_memory { IfErr result (λ told. told ≢ fault.Memory) }
{
    let base = log_cell(p, (epoch % 2) as u8, 0, 0);
    match read_cells(store, base, cells, watch) {
        Ok(()) => {}
        Err(Failed) => return Err(Fault::StoreFault { unsure: None }),
    }
    let mut room = [0; 864];
    match open_records(sealer, p, epoch, base, cells, &mut room, &mut list) {
        Ok(()) => Ok(Records { list }),
        Err(damaged) => Err(Fault::from(damaged)),
    }
}

/// Reads the open records of an epoch: those before the first closed gate of its log area. All
/// cells of the area are read, in rising order, before any is tested; each read is shown, whatever
/// it answered. A body behind the first closed gate isn't looked at.
///
/// # Errors
/// Memory was wanting, and nothing was read; or the store failed, and its count of faults rose; or
/// the first body under an open gate that is no record is damaged: the first of its cells that
/// breaks a rule, in its tag (check Tag), then, from the second on, in its seal, which is the one
/// behind the cell's before it (check Seal); or else, of its plain bytes, the epoch (check Epoch,
/// at the first cell), then the first number in the order of the bytes that breaks its rule (check
/// Form, at the cell that has the number's first byte, with the number and the least that obeys).
pub fn read_open<S: Store, W: Watch>(
    alloc: Global,
    store: &mut S,
    sealer: &Sealer,
    p: &Params,
    epoch: u64,
    watch: &mut W,
) -> Result<Records, Fault>
    ensures serves { Serves IsStoreFault (S.disk store.old) (S.disk store.new) result }
    ensures faults { IfErr result IsRecordReadFault }
    ensures value { (S.disk store.old).tells
        → AreRecordsRead sealer.now.keys p.now epoch (S.disk store.old).cells result }
    ensures as_written { (rs : List BatchRecord) → (S.disk store.old).tells
        → OpenRecords sealer.now.keys p.now epoch rs (S.disk store.old).cells
        → AreReadBack rs result }
    ensures accepted { (rs : List BatchRecord) → (S.disk store.old).tells
        → AreAccepted sealer.now.keys p.now epoch rs (S.disk store.old).cells
        → AreReadBack rs result }
    ensures memory { result ≡ Err fault.Memory → (store.new ≡ store.old) × (watch.new ≡ watch.old) }
    ensures fit { IfOk result (RecordsFit p.now) }
    ensures keeps { Keeps (S.disk store.old) (S.disk store.new) }
    ensures passes { Passes Same (S.disk store.old) (S.disk store.new) }
    ensures does { Does (area_notes p.now epoch) (S.disk store.old).seen (S.disk store.new).seen
        (W.trace watch.old) (W.trace watch.new) (reads_of result) }
{
    let list = match Vec::with_capacity(alloc, p.batches as usize) {
        Ok(list) => list,
        Err(_) => return Err(Fault::Memory),
    };
    let mut cells = match blank_cells(alloc, p) {
        Ok(cells) => cells,
        Err(_) => return Err(Fault::Memory),
    };
    read_area(store, sealer, p, epoch, cells.as_mut_slice(), list, watch)
}
