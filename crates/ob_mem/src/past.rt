//! Cells with the writes and syncs that made them.

ghost use Rattle.std.specs.Prelude.{◌≡◌, ◌<◌, ◌≤◌, length, is_ok, IfOk, OnOk, IsTrue, Contains, take, ◌↔◌, ◌⊎◌, slice_set, true, List, [], ℕ, replicate, if◌then◌else◌};
ghost use Rattle.ob_mem.specs.declared.call.Call.TheVariants.{Wrote, Synced};
ghost use Rattle.ob_mem.specs.Replay.{Past, replay, sure, zeros, cell_of, now_of, with_call, moment_at, after_call, IsLeft, IsCell, MayLeave};

use crate::Call;
use ob_bare::blank;
use std::alloc::{AllocError, Global};
use std::marker::Model;

/// Cells, with each write and sync that made them.
#[derive(Drop)]
pub struct History {
    first: Vec<[u8; 128]>,
    calls: Vec<Call>,
    cells: Vec<[u8; 128]>,
}

impl Model for History {
    ghost use Rattle.std.specs.Prelude.{◌≡◌};
    ghost use Rattle.ob_mem.specs.Replay.{Past, replay, sure};

    ghost Value = { Past };

    ghost view = { λ h. record { first = h.first.items; calls = h.calls.items } };

    ghost invariant = { λ h. h.cells.items ≡ (replay h.calls.items (sure h.first.items)).cells };
}

impl History {
    /// Cells of zeros, all of them sure.
    pub fn new(alloc: Global, size: usize) -> Result<History, AllocError>
        ensures { IfOk result (λ h. h ≡ record { first = replicate size zeros; calls = [] }) }
    {
        let first = blank(alloc, size)?;
        let cells = blank(alloc, size)?;
        Ok(History {
            first,
            calls: Vec::new(alloc),
            cells,
        })
    }

    /// How many cells there are.
    pub fn size(&self) -> usize
        ensures { result ≡ length self.now.first }
    {
        self.first.len()
    }

    /// How many calls it has behind it.
    pub fn moments(&self) -> usize
        ensures { result ≡ length self.now.calls }
    {
        self.calls.len()
    }

    /// What a cell got last, or zeros past the end.
    pub fn get(&self, cell: u64) -> [u8; 128]
        ensures { result ≡ cell_of (now_of self.now).cells cell }
    {
        if cell < self.cells.len() as u64 {
            self.cells[cell as usize]
        } else {
            [0; 128]
        }
    }

    /// Keeps a write, and does it where there is such a cell.
    pub fn write(&mut self, cell: u64, bytes: &[u8; 128]) -> Result<(), AllocError>
        ensures { self.new
            ≡ (if is_ok result then with_call self.old (Wrote cell bytes.now) else self.old) }
    {
        self.calls.push(Call::Wrote(cell, *bytes))?;
        if cell < self.cells.len() as u64 {
            self.cells[cell as usize] = *bytes;
        }
        Ok(())
    }

    /// Keeps a sync, and whether it succeeded.
    pub fn sync(&mut self, done: bool) -> Result<(), AllocError>
        ensures { self.new ≡ (if is_ok result then with_call self.old (Synced done) else self.old) }
    {
        self.calls.push(Call::Synced(done))?;
        Ok(())
    }

    /// A history that begins with what a crash after so many of the calls leaves: the given bytes
    /// in each cell that wasn't sure then, the last ones where several are given, else what it got
    /// last.
    pub fn crash(
        &self,
        alloc: Global,
        moment: usize,
        fillings: &[(u64, [u8; 128])],
    ) -> Result<History, AllocError>
        ensures calls { IfOk result (λ h. h.calls ≡ []) }
        ensures size { IfOk result (λ h. length h.first ≡ length self.now.first) }
        ensures left { IfOk result
            (λ h. IsLeft (moment_at self.now moment) fillings.now (cell_of h.first)) }
        ensures possible { IfOk result
            (λ h. MayLeave (moment_at self.now moment) (cell_of h.first)) }
    {
        let cells = left_after(alloc, &self.first, &self.calls, moment, fillings)?;
        let first = Vec::from_slice(alloc, &cells)?;
        Ok(History {
            first,
            calls: Vec::new(alloc),
            cells,
        })
    }
}

// What each cell got last, and the cells that were written since the last sync that succeeded.
#[derive(Drop)]
struct Held {
    cells: Vec<[u8; 128]>,
    unsure: Vec<u64>,
}

// What a crash after so many of the calls leaves.
fn left_after(
    alloc: Global,
    first: &[[u8; 128]],
    calls: &[Call],
    moment: usize,
    fillings: &[(u64, [u8; 128])],
) -> Result<Vec<[u8; 128]>, AllocError>
    ensures size { IfOk result (λ v. length v.items ≡ length first.now) }
    ensures left { IfOk result
        (λ v. IsLeft (replay (take moment calls.now) (sure first.now)) fillings.now
        (cell_of v.items)) }
    ensures possible { IfOk result
        (λ v. MayLeave (replay (take moment calls.now) (sure first.now)) (cell_of v.items)) }
{
    let kept = moment.min(calls.len());
    let mut held = held_after(alloc, first, &calls[..kept])?;
    fill(&mut held.cells, &held.unsure, fillings);
    let Held { cells, unsure: _ } = held;
    Ok(cells)
}

fn held_after(alloc: Global, first: &[[u8; 128]], calls: &[Call]) -> Result<Held, AllocError>
    ensures size { IfOk result (λ h. length h.cells.items ≡ length first.now) }
    ensures cells { IfOk result (λ h. h.cells.items ≡ (replay calls.now (sure first.now)).cells) }
    ensures unsure { IfOk result (λ h. h.unsure.items
        ≡ (replay calls.now (sure first.now)).unsure) }
{
    let mut held = Held {
        cells: Vec::from_slice(alloc, first)?,
        unsure: Vec::new(alloc),
    };
    for call in calls {
        apply(&mut held, call)?;
    }
    Ok(held)
}

fn apply(held: &mut Held, call: &Call) -> Result<(), AllocError>
    ensures cells { OnOk result (held.new.cells.items
        ≡ (after_call call.now
        (record { cells = held.old.cells.items; unsure = held.old.unsure.items })).cells) }
    ensures unsure { OnOk result (held.new.unsure.items
        ≡ (after_call call.now
        (record { cells = held.old.cells.items; unsure = held.old.unsure.items })).unsure) }
{
    match *call {
        Call::Wrote(cell, bytes) => {
            held.unsure.push(cell)?;
            put(&mut held.cells, cell, &bytes);
        }
        Call::Synced(true) => held.unsure.clear(),
        Call::Synced(false) => {}
    }
    Ok(())
}

// Writes a cell, where there is such a cell.
fn put(cells: &mut Vec<[u8; 128]>, cell: u64, bytes: &[u8; 128])
    ensures { cells.new.items ≡ slice_set cells.old.items cell bytes.now }
{
    if cell < cells.len() as u64 {
        cells[cell as usize] = *bytes;
    }
}

fn is_among(cells: &[u64], cell: u64) -> bool
    ensures { IsTrue result ↔ Contains cells.now cell }
{
    cells.contains(&cell)
}

// Puts bytes into a cell, where it isn't sure.
fn fill_one(cells: &mut Vec<[u8; 128]>, unsure: &[u64], cell: u64, bytes: &[u8; 128])
    ensures cases { (Contains unsure.now cell
        × (cells.new.items ≡ slice_set cells.old.items cell bytes.now))
        ⊎ ((Contains unsure.now cell → ⊥) × (cells.new.items ≡ cells.old.items)) }
    ensures size { length cells.new.items ≡ length cells.old.items }
    ensures whole { IsCell bytes.now }
{
    if is_among(unsure, cell) {
        put(cells, cell, bytes);
    }
}

// Puts the given bytes into the cells that aren't sure.
fn fill(cells: &mut Vec<[u8; 128]>, unsure: &[u64], fillings: &[(u64, [u8; 128])])
    ensures size { length cells.new.items ≡ length cells.old.items }
    ensures left { IsLeft (record { cells = cells.old.items; unsure = unsure.now }) fillings.now
        (cell_of cells.new.items) }
    ensures possible { MayLeave (record { cells = cells.old.items; unsure = unsure.now })
        (cell_of cells.new.items) }
{
    for (cell, bytes) in fillings {
        fill_one(cells, unsure, *cell, bytes);
    }
}
