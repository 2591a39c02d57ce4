//! The open records of a log area, judged.

ghost use Rattle.std.specs.Prelude.{◌≡◌, ◌<◌, ◌≤◌, ◌+◌, ◌*◌, ◌%◌, ◌^◌, length, Some, None, MatchResult, MatchBool, ◌≢◌, slice_index_or, take, drop, vec_capacity, [], ◌∷◌, ◌++◌};
ghost use Rattle.ob_base.specs.Layout.{record_cells, log_cell};
ghost use Rattle.ob_store.specs.Disk.{Image};
ghost use Rattle.ob_store.specs.Calls.{Holds};
ghost use Rattle.ob_twin.specs.Bodies.{open_gate};
ghost use Rattle.ob_log.specs.Places.{plain_damage, record_in};
ghost use Rattle.ob_log.specs.Reads.{IsBodyRead, AreAccepted, IsFirstBroken};

use crate::places::read_places;
use crate::record::{Asks, Record, Words};
use ob_base::{Damaged, Params, record_cells, u32_at, u64_at};
use ob_cells::{Identity, bad_epoch, bad_number, open_sealed};
use ob_seal::Sealer;
use ob_twin::is_open;

// The record that plain bytes tell, where they break no rule.
fn read_plain(
    p: &Params,
    epoch: u64,
    batch: u32,
    cell: u64,
    first: &Identity,
    bytes: &[u8],
) -> Result<Record, Damaged>
    requires room { 20 + 13 * p.now.places ≤ length bytes.now }
    requires fits { cell + 9 < 2 ^ 64 }
    ensures { MatchResult result
        (λ r. (plain_damage p.now epoch batch cell bytes.now ≡ None)
        × (r ≡ record_in p.now batch first.now.generation first.now.number bytes.now))
        (λ damaged. plain_damage p.now epoch batch cell bytes.now ≡ Some damaged) }
{
    let kept = u64_at(bytes, 0);
    if kept != epoch {
        return Err(bad_epoch(cell, kept, epoch));
    }
    let number = u32_at(bytes, 8);
    if number != batch {
        return Err(bad_number(cell, number as u64, batch as u64));
    }
    let mut asks = Asks::new();
    let mut words = Words::new();
    match read_places(p, cell, bytes, &mut asks, &mut words) {
        Ok(()) => Ok(Record {
            batch,
            generation: first.generation,
            number: first.number,
            first: u64_at(bytes, 12),
            asks,
            words,
        }),
        Err(damaged) => Err(damaged),
    }
}

// The record in body cells; `plain` takes their plain bytes.
fn read_into(
    sealer: &Sealer,
    p: &Params,
    epoch: u64,
    batch: u32,
    cell: u64,
    cells: &[[u8; 128]],
    plain: &mut [u8],
) -> Result<Record, Damaged>
    requires body { length cells.now ≡ record_cells p.now }
    requires room { length plain.old ≡ 96 * record_cells p.now }
    requires fits { cell + 10 < 2 ^ 64 }
    ensures { IsBodyRead sealer.now.keys p.now epoch batch cell (λ i. slice_index_or cells.now i [])
        result }
{
    let first = match open_sealed(sealer, cell, cells, plain) {
        Ok(first) => first,
        Err(damaged) => return Err(damaged),
    };
    read_plain(p, epoch, batch, cell, &first, plain)
}

// The record in body cells, over room for the plain bytes of the longest.
fn read_body(
    sealer: &Sealer,
    p: &Params,
    epoch: u64,
    batch: u32,
    cell: u64,
    cells: &[[u8; 128]],
    room: &mut [u8],
) -> Result<Record, Damaged>
    requires body { length cells.now ≡ record_cells p.now }
    requires room { 864 ≤ length room.old }
    requires fits { cell + 10 < 2 ^ 64 }
    ensures value { IsBodyRead sealer.now.keys p.now epoch batch cell
        (λ i. slice_index_or cells.now i []) result }
    ensures room { length room.new ≡ length room.old }
{
    let most = 96 * cells.len();
    read_into(sealer, p, epoch, batch, cell, cells, &mut room[..most])
}

// How many cells of the area lie before a batch's.
fn place_of(p: &Params, batch: u32) -> usize
    requires { batch < p.now.batches }
    ensures place { result ≡ batch * (record_cells p.now + 1) }
    ensures within { result + (record_cells p.now + 1) ≤ p.now.batches * (record_cells p.now + 1) }
    ensures few { result < 160 }
{
    batch as usize * (record_cells(p) as usize + 1)
}

// The cells of a batch's body, among those of the area.
fn body_of<'a>(p: &Params, cells: &'a [[u8; 128]], batch: u32) -> &'a [[u8; 128]]
    requires batch { batch < p.now.batches }
    requires area { length cells.now ≡ p.now.batches * (record_cells p.now + 1) }
    ensures cells { result.now
        ≡ take (record_cells p.now) (drop (batch * (record_cells p.now + 1)) cells.now) }
    ensures many { length result.now ≡ record_cells p.now }
{
    let at = place_of(p, batch);
    &cells[at..at + record_cells(p) as usize]
}

// Whether a batch's gate is open, among the cells of the area.
fn is_shown(p: &Params, cells: &[[u8; 128]], batch: u32) -> bool
    requires batch { batch < p.now.batches }
    requires area { length cells.now ≡ p.now.batches * (record_cells p.now + 1) }
    ensures { MatchBool result
        (slice_index_or cells.now (batch * (record_cells p.now + 1) + record_cells p.now) []
        ≡ open_gate)
        (slice_index_or cells.now (batch * (record_cells p.now + 1) + record_cells p.now) [] ≢
        open_gate) }
{
    is_open(&cells[place_of(p, batch) + record_cells(p) as usize])
}

// Puts a record behind the others, where there is room.
fn keep(records: &mut Vec<Record>, last: Record)
    requires { length records.old.items < vec_capacity records.old }
    ensures items { records.new.items ≡ records.old.items ++ last ∷ [] }
    ensures capacity { vec_capacity records.old ≤ vec_capacity records.new }
{
    let _ = records.push(last);
}

/// The open records among the cells of an area, from its first cell on: those before the first
/// closed gate. There is room for as many as an epoch has batches.
pub fn open_records(
    sealer: &Sealer,
    p: &Params,
    epoch: u64,
    base: u64,
    cells: &[[u8; 128]],
    room: &mut [u8],
    records: &mut Vec<Record>,
) -> Result<(), Damaged>
    requires base { base ≡ log_cell p.now (epoch % 2) 0 0 }
    requires area { length cells.now ≡ p.now.batches * (record_cells p.now + 1) }
    requires fits { base < 2 ^ 24 }
    requires room { 864 ≤ length room.old }
    requires none { records.old.items ≡ [] }
    requires capacity { p.now.batches ≤ vec_capacity records.old }
    ensures { (image : Image) → Holds base cells.now image
        → MatchResult result (λ _. AreAccepted sealer.now.keys p.now epoch records.new.items image)
        (IsFirstBroken sealer.now.keys p.now epoch image) }
{
    for batch in 0..p.batches {
        if !is_shown(p, cells, batch) {
            return Ok(());
        }
        let cell = base + place_of(p, batch) as u64;
        match read_body(
            sealer,
            p,
            epoch,
            batch,
            cell,
            body_of(p, cells, batch),
            room,
        ) {
            Ok(record) => keep(records, record),
            Err(damaged) => return Err(damaged),
        }
    }
    Ok(())
}
