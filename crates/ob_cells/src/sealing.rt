//! Cells of a run sealed side by side.

ghost use Rattle.std.specs.Prelude.{◌≡◌, ◌<◌, ◌≤◌, ◌+◌, ◌-◌, ◌*◌, ◌^◌, length};
ghost use denote.Param.Send.{IsSync};
ghost use Rattle.ob_cells.specs.Windows.{AreRowsSealedAs, CanSealRows, IsRowSealed, IsSlotSealed};

use crate::cell_run::CellRun;
use crate::pieces::Pieces;
use crate::window::Row;
use ob_seal::{SealRun, Sealer};
use std::thread::{Threads, join_mut};

// How many cells a row has.
const ROW: u64 = 48;

// How many rows the calling thread could seal in the time in which it starts the others and does
// what else it has to.
const LESS: usize = 3;

// A run, a sealer of the generation that its cells are sealed in, and what starts threads to seal
// them, so many at most, the calling one among them.
#[derive(Drop)]
pub(crate) struct Task<'a, R, P> {
    pub(crate) rt: &'a R,
    pub(crate) sealer: &'a Sealer,
    pub(crate) run: &'a CellRun<'a, P>,
    pub(crate) threads: usize,
}

// Where a part of a run begins: at which of its cells, and the number that this is sealed under.
#[derive(Clone, Copy)]
pub(crate) struct Start {
    pub(crate) cell: u64,
    pub(crate) number: u64,
}

// The cell of a piece, under the next number.
fn seal_piece<P: Pieces>(seals: &mut SealRun, cell: u64, pieces: &P, i: u64) -> [u8; 128]
    requires { seals.old.next < 2 ^ 62 }
    ensures slot { IsSlotSealed seals.old.keys cell seals.old.generation seals.old.next
        (P.plain pieces.now i) result }
    ensures next { seals.new ≡ record seals.old { next = seals.old.next + 1 } }
{
    seals.seal(cell, &pieces.piece(i))
}

// Seals a run's cells from one on, as far as it and the row go, under the numbers from its own on.
fn seal_row<P: Pieces>(sealer: &Sealer, run: &CellRun<'_, P>, start: Start, row: &mut Row)
    requires within { start.cell < run.now.many }
    requires fits { run.now.base + run.now.many < 2 ^ 64 }
    requires room { start.number + (run.now.many - start.cell) ≤ 2 ^ 62 }
    ensures { IsRowSealed sealer.now.keys run.now.base sealer.now.generation start.number
        (P.plain run.now.pieces.now) run.now.many start.cell row.new }
{
    let few = (run.many - start.cell).min(ROW) as usize;
    let mut seals = sealer.run_from(start.number);
    for j in 0..few {
        let i = start.cell + j as u64;
        row[j] = seal_piece(&mut seals, run.base + i, run.pieces, i);
    }
}

// Where the part behind so many rows begins.
fn behind(start: Start, rows: usize) -> Start
    requires cell { start.cell + 48 * rows < 2 ^ 64 }
    requires number { start.number + 48 * rows < 2 ^ 64 }
    ensures cell { result.cell ≡ start.cell + 48 * rows }
    ensures number { result.number ≡ start.number + 48 * rows }
{
    let cells = ROW * rows as u64;
    Start {
        cell: start.cell + cells,
        number: start.number + cells,
    }
}

// Seals a run's cells from one on, as far as it and the rows go, by the calling thread alone.
fn seal_in_turn<R, P: Pieces>(task: &Task<'_, R, P>, start: Start, rows: &mut [Row])
    requires can { CanSealRows task.now.run.now.base task.now.run.now.many start.cell start.number
        rows.old }
    ensures { AreRowsSealedAs task.now.sealer.now.keys task.now.run.now.base
        task.now.sealer.now.generation start.number (P.plain task.now.run.now.pieces.now)
        task.now.run.now.many start.cell rows.old rows.new }
{
    for k in 0..rows.len() {
        seal_row(task.sealer, task.run, behind(start, k), &mut rows[k]);
    }
}

// How many of the rows another thread than the calling one seals, of so many threads.
fn share_of(rows: usize, threads: usize) -> usize
    requires rows { 1 ≤ rows }
    requires threads { 1 ≤ threads }
    ensures { result < rows }
{
    (rows.saturating_add(LESS) / threads).min(rows - 1)
}

// The same by so many threads as the task says: the calling one starts the others, then does what
// else there is to do, and then seals its own share.
#[cycle(threads)]
pub(crate) fn seal_rows<R: Threads + Sync, P: Pieces + Sync, F: FnMut() -> A, A>(
    task: &Task<'_, R, P>,
    start: Start,
    rows: &mut [Row],
    meanwhile: &mut F,
) -> A
    requires can { CanSealRows task.now.run.now.base task.now.run.now.many start.cell start.number
        rows.old }
    requires meanwhile { F.pre meanwhile.old }
    ensures sealed { AreRowsSealedAs task.now.sealer.now.keys task.now.run.now.base
        task.now.sealer.now.generation start.number (P.plain task.now.run.now.pieces.now)
        task.now.run.now.many start.cell rows.old rows.new }
    ensures done { F.step meanwhile.old result meanwhile.new }
{
    if task.threads < 2 || rows.is_empty() {
        let done = meanwhile();
        seal_in_turn(task, start, rows);
        return done;
    }
    let few = share_of(rows.len(), task.threads);
    let next = behind(start, few);
    let (apart, rest) = rows.split_at_mut(few);
    let fewer = Task {
        threads: task.threads - 1,
        ..*task
    };
    seal_apart(&fewer, start, next, apart, rest, meanwhile)
}

// Some rows in a thread of their own, and the others by so many threads as the task says: the
// calling one starts them all, one behind the other, so that none waits until another one runs.
#[cycle(threads)]
fn seal_apart<R: Threads + Sync, P: Pieces + Sync, F: FnMut() -> A, A>(
    task: &Task<'_, R, P>,
    start: Start,
    next: Start,
    apart: &mut [Row],
    rest: &mut [Row],
    meanwhile: &mut F,
) -> A
    requires apart { CanSealRows task.now.run.now.base task.now.run.now.many start.cell start.number
        apart.old }
    requires rest { CanSealRows task.now.run.now.base task.now.run.now.many next.cell next.number
        rest.old }
    requires meanwhile { F.pre meanwhile.old }
    ensures apart { AreRowsSealedAs task.now.sealer.now.keys task.now.run.now.base
        task.now.sealer.now.generation start.number (P.plain task.now.run.now.pieces.now)
        task.now.run.now.many start.cell apart.old apart.new }
    ensures rest { AreRowsSealedAs task.now.sealer.now.keys task.now.run.now.base
        task.now.sealer.now.generation next.number (P.plain task.now.run.now.pieces.now)
        task.now.run.now.many next.cell rest.old rest.new }
    ensures done { F.step meanwhile.old result meanwhile.new }
{
    let mut there = ||
        requires { CanSealRows task.now.run.now.base task.now.run.now.many start.cell start.number
            apart.now }
        ensures { AreRowsSealedAs task.entry.now.sealer.now.keys task.entry.now.run.now.base
            task.entry.now.sealer.now.generation start.number
            (P.plain task.entry.now.run.now.pieces.now) task.entry.now.run.now.many start.cell
            apart.entry.now apart.exit.now }
    { seal_in_turn(task, start, apart) };
    let mut here = || -> A
        requires { IsSync R.row × IsSync P.row
            × (CanSealRows task.now.run.now.base task.now.run.now.many next.cell next.number
            rest.now × F.pre meanwhile.now) }
        ensures { AreRowsSealedAs task.entry.now.sealer.now.keys task.entry.now.run.now.base
            task.entry.now.sealer.now.generation next.number
            (P.plain task.entry.now.run.now.pieces.now) task.entry.now.run.now.many next.cell
            rest.entry.now rest.exit.now
            × F.step meanwhile.entry.now result meanwhile.exit.now }
    { seal_rows(task, next, rest, meanwhile) };
    join_mut(task.rt, &mut there, &mut here).1
}
