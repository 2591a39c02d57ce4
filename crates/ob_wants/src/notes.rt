//! What a run shows next, as notes that change nothing.

ghost use Rattle.std.specs.Prelude.{◌≡◌, ◌+◌, ◌<◌, ◌≤◌, ◌^◌, ◌++◌, ◌∷◌, [], List, true, map, IfOk, OnOk};
ghost use Rattle.ob_base.specs.declared.params.Params.{Params};
ghost use Rattle.ob_base.specs.Tree.{below, width, buckets};
ghost use Rattle.ob_base.specs.Layout.{slot_cell, check_cell, log_cell, log_gate, record_cells, log_cells, LogArea};
ghost use Rattle.ob_store.specs.declared.watch.Note.{Note};
ghost use Rattle.ob_store.specs.declared.watch.Note.TheVariants.{Sync};
ghost use Rattle.ob_schedule.specs.Schedule.{writes_of, reads_of, check_cells, log_gates, bucket_writes, region_cells, copy_notes, set_twin, format_notes, gate_cell, body_cell};
ghost use Rattle.ob_schedule.specs.Sides.{side_number, register_region};
ghost use Rattle.ob_schedule.specs.Wants.{kept, format_front};

use crate::standing::cell_at;
use ob_base::{
    EPOCH_CELL, GENERATION_CELL, Params, buckets, check_cell, checkpoint_cells, log_cell,
    record_cells, ring_cells,
};
use ob_schedule::{Change, Register, Runs, Side, Want};
use ob_store::Note;
use std::alloc::AllocError;

/// A cell of a checkpoint, wherever it would lie.
#[tactic(auto, using(ob_base::proofs::Bounds::cells_le, ob_schedule::proofs::Determined::some_checks))]
pub fn check_at(p: &Params, side: Side, i: u32) -> u64
    ensures cell { result ≡ check_cell p.now (side_number side) i }
    ensures few { result < 2 ^ 40 }
{
    check_cell(p, side.number(), 0) + i as u64
}

/// A cell of a batch's record, wherever it would lie.
#[tactic(auto, using(ob_base::proofs::Bounds::cells_le, crate::proofs::Cells::record_far))]
pub fn record_at(p: &Params, side: Side, batch: u32, part: u32) -> u64
    ensures cell { result ≡ log_cell p.now (side_number side) batch part }
    ensures few { result < 2 ^ 40 }
{
    log_cell(p, side.number(), 0, 0) + (batch as u64 * (record_cells(p) + 1) + part as u64)
}

/// The gate of a batch's record, wherever it would lie.
pub(crate) fn gate_at(p: &Params, side: Side, batch: u32) -> u64
    ensures { result ≡ log_gate p.now (side_number side) batch }
{
    record_at(p, side, batch, record_cells(p) as u32)
}

/// The want of a note that changes nothing.
pub(crate) fn kept(note: Note) -> Want
    ensures { result ≡ Want.Fixed note Change.Keeps }
{
    Want::Fixed {
        note,
        change: Change::Keeps,
    }
}

/// Puts the reads of a checkpoint's cells behind the list.
#[tactic(auto, using(ob_base::proofs::Bounds::cells_le))]
pub(crate) fn push_check_reads(p: &Params, side: Side, wants: &mut Runs) -> Result<(), AllocError>
    ensures { OnOk result (wants.new
        ≡ wants.old ++ kept (reads_of (check_cells p.now (side_number side)))) }
{
    wants.push_reads(check_at(p, side, 0), checkpoint_cells(p))
}

/// Puts the writes of a checkpoint's cells behind the list.
#[tactic(auto, using(ob_base::proofs::Bounds::cells_le))]
pub(crate) fn push_check_writes(p: &Params, side: Side, wants: &mut Runs) -> Result<(), AllocError>
    ensures { OnOk result (wants.new
        ≡ wants.old ++ kept (writes_of (check_cells p.now (side_number side)))) }
{
    wants.push_writes(check_at(p, side, 0), checkpoint_cells(p))
}

/// Puts the writes of a log area's gates behind the list.
pub(crate) fn push_gates(p: &Params, side: Side, wants: &mut Runs) -> Result<(), AllocError>
    ensures { OnOk result (wants.new
        ≡ wants.old ++ kept (writes_of (log_gates p.now (side_number side)))) }
{
    for batch in 0..p.batches {
        wants.push(kept(Note::Write(gate_at(p, side, batch))))?;
    }
    Ok(())
}

/// Puts the writes of a record's body behind the list.
#[tactic(auto, using(ob_base::proofs::Bounds::record_cells_le))]
pub(crate) fn push_body(
    p: &Params,
    side: Side,
    batch: u32,
    wants: &mut Runs,
) -> Result<(), AllocError>
    ensures { OnOk result (wants.new
        ≡ wants.old ++ kept (writes_of
        (map (log_cell p.now (side_number side) batch) (below (record_cells p.now))))) }
{
    wants.push_writes(record_at(p, side, batch, 0), record_cells(p))
}

// The cells of a log area.
#[tactic(auto, unfolding(ob_base::specs::Layout::log_cells), using(ob_base::proofs::Bounds::log_cells_le))]
fn area_len(p: &Params) -> u64
    ensures cells { result ≡ log_cells p.now }
    ensures few { result ≤ 160 }
{
    p.batches as u64 * (record_cells(p) + 1)
}

/// Puts the reads of a log area behind the list.
pub(crate) fn push_log_reads(p: &Params, side: Side, wants: &mut Runs) -> Result<(), AllocError>
    ensures { OnOk result (wants.new
        ≡ wants.old ++ kept (reads_of (region_cells p.now (LogArea (side_number side))))) }
{
    wants.push_reads(record_at(p, side, 0, 0), area_len(p))
}

/// Puts what a run with a mirror reads behind the head behind the list: the epoch's register, and
/// then each cell of the store.
#[tactic(auto, using(ob_base::proofs::Bounds::cells_le))]
pub(crate) fn push_copy(p: &Params, wants: &mut Runs) -> Result<(), AllocError>
    ensures { OnOk result (wants.new ≡ wants.old ++ kept (copy_notes p.now)) }
{
    wants.push_reads(EPOCH_CELL, 4)?;
    wants.push_reads(0, ring_cells(p))
}

/// Puts the writes of a bucket's slots in a home behind the list.
pub(crate) fn push_bucket(
    p: &Params,
    home: Side,
    bucket: u32,
    wants: &mut Runs,
) -> Result<(), AllocError>
    ensures { OnOk result (wants.new
        ≡ wants.old ++ kept (writes_of
        (map (slot_cell p.now (side_number home) bucket) (below (width p.now))))) }
{
    let width = (p.real + p.dummies) as u64;
    wants.push_writes(cell_at(p, home, bucket, 0), width)
}

/// Puts the writes of the first home's buckets behind the list.
pub(crate) fn push_homes(p: &Params, wants: &mut Runs) -> Result<(), AllocError>
    ensures { OnOk result (wants.new
        ≡ wants.old ++ kept (bucket_writes p.now (λ u. 0) (below (buckets p.now)))) }
{
    let width = (p.real + p.dummies) as u64;
    wants.push_writes(cell_at(p, Side::Even, 0, 0), buckets(p) as u64 * width)
}

/// Puts these notes behind the list, each of which changes nothing.
pub(crate) fn push_kept(notes: &[Note], wants: &mut Runs) -> Result<(), AllocError>
    ensures { OnOk result (wants.new ≡ wants.old ++ kept notes.now) }
{
    for note in notes {
        wants.push(kept(*note))?;
    }
    Ok(())
}

/// The body of a register's place; its gate is the cell behind.
pub fn body_of(register: Register, side: Side) -> u64
    ensures body { (p : Params)
        → result ≡ body_cell p (register_region register) (side_number side) }
    ensures gate { (p : Params)
        → result + 1 ≡ gate_cell p (register_region register) (side_number side) }
    ensures few { result < 9 }
{
    let first = match register {
        Register::Generation => GENERATION_CELL,
        Register::Epoch => EPOCH_CELL,
    };
    first + 2 * side.number() as u64
}

/// The writes and syncs that set a register, whose gate may be open, at one of its places.
pub(crate) fn set_notes(register: Register, side: Side) -> [Note; 6]
    ensures { (p : Params)
        → result ≡ set_twin p (register_region register) (side_number side) true }
{
    let body = body_of(register, side);
    [
        Note::Write(body + 1),
        Note::Sync,
        Note::Write(body),
        Note::Sync,
        Note::Write(body + 1),
        Note::Sync,
    ]
}

// Puts the first notes of a format behind the list.
fn push_front(p: &Params, wants: &mut Runs) -> Result<(), AllocError>
    ensures { OnOk result (wants.new ≡ wants.old ++ kept (format_front p.now)) }
{
    push_kept(&FIRST_NOTES, wants)?;
    push_gates(p, Side::Even, wants)?;
    push_gates(p, Side::Odd, wants)?;
    push_kept(&SET_GENERATION, wants)
}

// The first writes of a format: the head, and the registers' gates.
const FIRST_NOTES: [Note; 6] = [
    Note::Write(0),
    Note::Sync,
    Note::Write(2),
    Note::Write(4),
    Note::Write(6),
    Note::Write(8),
];

// Behind the log areas' gates a format sets the generation's second place.
const SET_GENERATION: [Note; 7] = [
    Note::Sync,
    Note::Write(GENERATION_CELL + 3),
    Note::Sync,
    Note::Write(GENERATION_CELL + 2),
    Note::Sync,
    Note::Write(GENERATION_CELL + 3),
    Note::Sync,
];

// Behind the checkpoint it sets the epoch's first place, and writes the head.
const SET_EPOCH: [Note; 8] = [
    Note::Sync,
    Note::Write(EPOCH_CELL + 1),
    Note::Sync,
    Note::Write(EPOCH_CELL),
    Note::Sync,
    Note::Write(EPOCH_CELL + 1),
    Note::Sync,
    Note::Write(0),
];

/// Puts the notes of a format behind the list, but for the last sync.
pub(crate) fn push_format(p: &Params, wants: &mut Runs) -> Result<(), AllocError>
    ensures { OnOk result ((notes : List Note) × (notes ++ Sync ∷ [] ≡ format_notes p.now)
        × (wants.new ≡ wants.old ++ kept notes)) }
{
    push_front(p, wants)?;
    push_homes(p, wants)?;
    push_check_writes(p, Side::Even, wants)?;
    push_kept(&SET_EPOCH, wants)
}
