//! The cells of a ring store: registers, slots, checkpoints and log, by their formulas.

ghost use Rattle.std.specs.Prelude.{◌≡◌, ◌+◌, ◌^◌, ◌<◌, ◌≤◌};
ghost use Rattle.ob_base.specs.Tree.{buckets, width};
ghost use Rattle.ob_base.specs.Layout.{record_cells, checkpoint_len, checkpoint_cells, meta_len, log_cells, home_cells, ring_cells, log_cell, log_gate, check_cell, slot_cell, RegionsApart, RegionsWithin, AddressesLie, AddressesApart};

use crate::params::Params;
use crate::tree;

/// The first cell of the register of the generation, behind the head.
pub const GENERATION_CELL: u64 = 1;

/// The first cell of the register of the epoch, behind the four of the generation's.
pub const EPOCH_CELL: u64 = 5;

/// The first cell behind the head and both registers: the ring store's log, the plain store's rows.
pub const BODY_CELL: u64 = 9;

/// The body cells of a batch's record.
#[tactic(auto, unfolding(crate::specs::Layout::record_cells))]
pub fn record_cells(p: &Params) -> u64
    ensures cells { result ≡ record_cells p.now }
    ensures few { result ≤ 9 }
{
    (20 + 13 * p.places as u64).div_ceil(96)
}

/// The bytes of a bucket in a checkpoint.
pub fn meta_len(p: &Params) -> u64
    ensures len { result ≡ meta_len p.now }
    ensures few { result ≤ 177 }
{
    17 + 4 * p.real as u64 + 2 * width(p)
}

/// The bytes of a checkpoint.
#[tactic(auto, unfolding(crate::specs::Layout::checkpoint_len))]
pub fn checkpoint_len(p: &Params) -> u64
    ensures len { result ≡ checkpoint_len p.now }
    ensures few { result < 2 ^ 25 }
{
    16 + 21 * p.keys as u64 + tree::buckets(p) as u64 * meta_len(p) + 4 + 69 * p.room as u64
}

/// The cells of a checkpoint.
#[tactic(auto, unfolding(crate::specs::Layout::checkpoint_cells))]
pub fn checkpoint_cells(p: &Params) -> u64
    ensures cells { result ≡ checkpoint_cells p.now }
    ensures few { result < 2 ^ 18 }
{
    checkpoint_len(p).div_ceil(96)
}

// The slots of a bucket.
fn width(p: &Params) -> u64
    ensures slots { result ≡ width p.now }
    ensures few { result ≤ 48 }
{
    (p.real + p.dummies) as u64
}

// The cells of a log area.
#[tactic(auto, unfolding(crate::specs::Layout::log_cells))]
fn log_cells(p: &Params) -> u64
    ensures cells { result ≡ log_cells p.now }
    ensures few { result ≤ 160 }
{
    p.batches as u64 * (record_cells(p) + 1)
}

// The cells of a home.
#[tactic(auto, unfolding(crate::specs::Layout::home_cells))]
fn home_cells(p: &Params) -> u64
    ensures cells { result ≡ home_cells p.now }
    ensures few { result < 2 ^ 23 }
{
    tree::buckets(p) as u64 * width(p)
}

/// How many cells a ring store has: the head, two registers, and two log areas, two checkpoint
/// areas and two homes. The plain store, which lays no tree, has a count of its own.
pub fn ring_cells(p: &Params) -> u64
    ensures cells { result ≡ ring_cells p.now }
    ensures few { result < 2 ^ 24 }
{
    BODY_CELL + 2 * log_cells(p) + 2 * checkpoint_cells(p) + 2 * home_cells(p)
}

/// The cell of a part of a batch's record in log area 0 or 1: the body's cells are the first
/// parts, the gate is the last.
pub fn log_cell(p: &Params, area: u8, batch: u32, part: u64) -> u64
    requires area { area < 2 }
    requires batch { batch < p.now.batches }
    requires part { part < record_cells p.now + 1 }
    ensures cell { result ≡ log_cell p.now area batch part }
    ensures within { result < ring_cells p.now }
{
    BODY_CELL + area as u64 * log_cells(p) + (batch as u64 * (record_cells(p) + 1) + part)
}

/// The gate of a batch's record in log area 0 or 1: the cell behind the record's body.
pub fn log_gate(p: &Params, area: u8, batch: u32) -> u64
    requires area { area < 2 }
    requires batch { batch < p.now.batches }
    ensures cell { result ≡ log_gate p.now area batch }
    ensures within { result < ring_cells p.now }
{
    log_cell(p, area, batch, record_cells(p))
}

/// The cell of checkpoint area 0 or 1 with this number.
pub fn check_cell(p: &Params, area: u8, i: u64) -> u64
    requires area { area < 2 }
    requires i { i < checkpoint_cells p.now }
    ensures cell { result ≡ check_cell p.now area i }
    ensures within { result < ring_cells p.now }
{
    BODY_CELL + 2 * log_cells(p) + area as u64 * checkpoint_cells(p) + i
}

/// The cell of a physical slot of a bucket in home 0 or 1.
pub fn slot_cell(p: &Params, home: u8, bucket: u32, slot: u8) -> u64
    requires home { home < 2 }
    requires bucket { bucket < buckets p.now }
    requires slot { slot < width p.now }
    ensures cell { result ≡ slot_cell p.now home bucket slot }
    ensures within { result < ring_cells p.now }
{
    BODY_CELL
        + 2 * log_cells(p)
        + 2 * checkpoint_cells(p)
        + home as u64 * home_cells(p)
        + (bucket as u64 * width(p) + slot as u64)
}

/// No cell lies in two regions.
pub fn regions_apart()
    ensures { RegionsApart }
{}

/// Each region lies in the store.
pub fn regions_within()
    ensures { RegionsWithin }
{}

/// Each address lies in its region.
pub fn addresses_lie()
    ensures { AddressesLie }
{}

/// Two different addresses have different cells.
pub fn addresses_apart()
    ensures { AddressesApart }
{}
