//! Writing a run of cells that several threads seal.

ghost use Rattle.std.specs.Prelude.{◌≡◌, ◌⊎◌, ◌<◌, ◌≤◌, ◌+◌, ◌*◌, ◌^◌, ℕ, List, [], length, slice_index_or, IfOk};
ghost use Rattle.ob_store.specs.Calls.{Serves, IsFailed};
ghost use Rattle.ob_store.specs.Runs.{write_notes};
ghost use Rattle.ob_store.specs.Told.{Does};
ghost use Rattle.ob_cells.specs.Writes.{WritesRun};
ghost use Rattle.ob_cells.specs.Windows.{AreRowsSealed, CanSealFrom, IsMate, IsSlotSealed, few_from};

use crate::cell_run::CellRun;
use crate::pieces::Pieces;
use crate::ready::write_ready;
use crate::sealing::{Start, Task, seal_rows};
use crate::window::{Bench, Row, threads_for};
use ob_base::Failed;
use ob_seal::Sealer;
use ob_store::{Store, Watch};
use std::thread::Threads;

// Rows in which a run's cells from one on were sealed.
#[derive(Drop)]
struct Window<'a> {
    at: u64,
    rows: &'a [Row],
}

// How many of so many rows so many cells take up.
fn rows_for(many: u64, rows: usize) -> usize
    ensures few { result ≤ rows }
    ensures within { 48 * result < many + 48 }
    ensures all { (result ≡ rows) ⊎ (many ≤ 48 * result) }
{
    many.div_ceil(48).min(rows as u64) as usize
}

// How many of a run's cells from one on are written while those behind them are sealed.
fn few_from<P>(run: &CellRun<'_, P>, at: u64) -> u64
    requires { at ≤ run.now.many }
    ensures { result ≡ few_from run.now.many at }
{
    (run.many - at).min(1536)
}

// Seals a run's cells from one on, as far as it and the rows go; the calling thread does what else
// there is to do before its own share of them.
fn seal_from<R: Threads + Sync, P: Pieces + Sync, F: FnMut() -> A, A>(
    task: &Task<'_, R, P>,
    start: Start,
    rows: &mut [Row],
    meanwhile: &mut F,
) -> A
    requires threads { 1 ≤ task.now.threads }
    requires can { CanSealFrom task.now.run.now.base task.now.run.now.many start.cell start.number }
    requires meanwhile { F.pre meanwhile.old }
    ensures many { length rows.new ≡ length rows.old }
    ensures sealed { AreRowsSealed task.now.sealer.now.keys task.now.run.now.base
        task.now.sealer.now.generation start.number (P.plain task.now.run.now.pieces.now)
        task.now.run.now.many start.cell rows.new }
    ensures done { F.step meanwhile.old result meanwhile.new }
{
    let few = rows_for(task.run.many - start.cell, rows.len());
    let by_few = Task {
        threads: threads_for(task.threads, few.saturating_mul(48)),
        ..*task
    };
    seal_rows(&by_few, start, &mut rows[..few], meanwhile)
}

// Writes so many cells from a cell on, which were sealed in a row under the next numbers.
fn write_row<S: Store, W: Watch>(
    store: &mut S,
    sealer: &mut Sealer,
    base: u64,
    few: usize,
    row: &Row,
    watch: &mut W,
) -> Result<(), Failed>
    requires none_out { (S.disk store.old).out ≡ 0 }
    requires fits { base + few < 2 ^ 64 }
    requires room { sealer.old.next + few ≤ 2 ^ 62 }
    requires low { few ≤ 48 }
    ensures serves { Serves IsFailed (S.disk store.old) (S.disk store.new) result }
    ensures run { (plain : ℕ → List ℕ) → ((j : ℕ) → j < few → IsSlotSealed sealer.old.keys
        (base + j) sealer.old.generation (sealer.old.next + j) (plain j)
        (slice_index_or row.now j [])) → WritesRun base few plain sealer.old sealer.new
        (S.disk store.old) (S.disk store.new) result }
    ensures does { Does (write_notes base few) (S.disk store.old).seen (S.disk store.new).seen
        (W.trace watch.old) (W.trace watch.new) result }
{
    write_ready(store, sealer, base, &row[..few], watch)
}

// Writes the cells of a window of 1,536, or those that a run still has, which were sealed under the
// next numbers, in rising order, and takes a number for each.
fn write_rows<S: Store, P: Pieces, W: Watch>(
    store: &mut S,
    sealer: &mut Sealer,
    run: &CellRun<'_, P>,
    window: &Window<'_>,
    watch: &mut W,
) -> Result<(), Failed>
    requires none_out { (S.disk store.old).out ≡ 0 }
    requires can { CanSealFrom run.now.base run.now.many window.now.at sealer.old.next }
    requires whole { length window.now.rows.now ≡ 32 }
    requires ready { AreRowsSealed sealer.old.keys run.now.base sealer.old.generation
        sealer.old.next (P.plain run.now.pieces.now) run.now.many window.now.at
        window.now.rows.now }
    ensures serves { Serves IsFailed (S.disk store.old) (S.disk store.new) result }
    ensures run { WritesRun (run.now.base + window.now.at) (few_from run.now.many window.now.at)
        (λ j. P.plain run.now.pieces.now (window.now.at + j)) sealer.old sealer.new
        (S.disk store.old) (S.disk store.new) result }
    ensures does { Does (write_notes (run.now.base + window.now.at)
        (few_from run.now.many window.now.at)) (S.disk store.old).seen (S.disk store.new).seen
        (W.trace watch.old) (W.trace watch.new) result }
{
    let many = few_from(run, window.at);
    for k in 0..rows_for(many, window.rows.len()) {
        let behind = 48 * k as u64;
        let few = (many - behind).min(48) as usize;
        let cell = run.base + window.at + behind;
        write_row(store, sealer, cell, few, &window.rows[k], watch)?;
    }
    Ok(())
}

// Writes the cells of a window of 1,536, or those that a run still has; meanwhile those behind them
// are sealed in other rows. Which of the run's cells is the first of these.
fn write_and_seal<R: Threads + Sync, S: Store, P: Pieces + Sync, W: Watch>(
    store: &mut S,
    sealer: &mut Sealer,
    task: &Task<'_, R, P>,
    window: &Window<'_>,
    free: &mut [Row],
    watch: &mut W,
) -> Result<u64, Failed>
    requires none_out { (S.disk store.old).out ≡ 0 }
    requires can { CanSealFrom task.now.run.now.base task.now.run.now.many window.now.at
        sealer.old.next }
    requires mate { IsMate task.now.sealer.now sealer.old }
    requires threads { 1 ≤ task.now.threads }
    requires whole { length window.now.rows.now ≡ 32 }
    requires ready { AreRowsSealed sealer.old.keys task.now.run.now.base sealer.old.generation
        sealer.old.next (P.plain task.now.run.now.pieces.now) task.now.run.now.many window.now.at
        window.now.rows.now }
    ensures serves { Serves IsFailed (S.disk store.old) (S.disk store.new) result }
    ensures run { WritesRun (task.now.run.now.base + window.now.at)
        (few_from task.now.run.now.many window.now.at)
        (λ j. P.plain task.now.run.now.pieces.now (window.now.at + j)) sealer.old sealer.new
        (S.disk store.old) (S.disk store.new) result }
    ensures does { Does (write_notes (task.now.run.now.base + window.now.at)
        (few_from task.now.run.now.many window.now.at)) (S.disk store.old).seen
        (S.disk store.new).seen (W.trace watch.old) (W.trace watch.new) result }
    ensures next { IfOk result (λ next. next
        ≡ window.now.at + few_from task.now.run.now.many window.now.at) }
    ensures many { length free.new ≡ length free.old }
    ensures sealed { AreRowsSealed sealer.old.keys task.now.run.now.base sealer.old.generation
        (sealer.old.next + few_from task.now.run.now.many window.now.at)
        (P.plain task.now.run.now.pieces.now) task.now.run.now.many
        (window.now.at + few_from task.now.run.now.many window.now.at) free.new }
{
    let (_, number) = sealer.next();
    let few = few_from(task.run, window.at);
    let next = Start {
        cell: window.at + few,
        number: number + few,
    };
    let run = task.run;
    let mut write = || -> Result<(), Failed>
        requires { ((S.disk store.now).out ≡ 0) × (CanSealFrom run.now.base run.now.many
            window.now.at sealer.now.next × ((length window.now.rows.now ≡ 32)
            × AreRowsSealed sealer.now.keys run.now.base sealer.now.generation sealer.now.next
            (P.plain run.now.pieces.now) run.now.many window.now.at window.now.rows.now)) }
        ensures serves { Serves IsFailed (S.disk store.entry.now) (S.disk store.exit.now) result }
        ensures run { WritesRun (run.entry.now.base + window.entry.now.at)
            (few_from run.entry.now.many window.entry.now.at)
            (λ j. P.plain run.entry.now.pieces.now (window.entry.now.at + j)) sealer.entry.now
            sealer.exit.now (S.disk store.entry.now) (S.disk store.exit.now) result }
        ensures does { Does (write_notes (run.entry.now.base + window.entry.now.at)
            (few_from run.entry.now.many window.entry.now.at)) (S.disk store.entry.now).seen
            (S.disk store.exit.now).seen (W.trace watch.entry.now) (W.trace watch.exit.now)
            result }
    { write_rows(store, sealer, run, window, watch) };
    seal_from(task, next, free, &mut write)?;
    Ok(next.cell)
}

// Writes a whole run by two windows, in turn: while the cells in one are written those behind them
// are sealed in the other.
fn write_by_turns<R: Threads + Sync, S: Store, P: Pieces + Sync, W: Watch>(
    store: &mut S,
    sealer: &mut Sealer,
    task: &Task<'_, R, P>,
    one: &mut [Row],
    other: &mut [Row],
    watch: &mut W,
) -> Result<(), Failed>
    requires none_out { (S.disk store.old).out ≡ 0 }
    requires can { CanSealFrom task.now.run.now.base task.now.run.now.many 0 sealer.old.next }
    requires mate { IsMate task.now.sealer.now sealer.old }
    requires threads { 1 ≤ task.now.threads }
    requires one { length one.old ≡ 32 }
    requires other { length other.old ≡ 32 }
    ensures serves { Serves IsFailed (S.disk store.old) (S.disk store.new) result }
    ensures run { WritesRun task.now.run.now.base task.now.run.now.many
        (P.plain task.now.run.now.pieces.now) sealer.old sealer.new (S.disk store.old)
        (S.disk store.new) result }
    ensures does { Does (write_notes task.now.run.now.base task.now.run.now.many)
        (S.disk store.old).seen (S.disk store.new).seen (W.trace watch.old) (W.trace watch.new)
        result }
    ensures one { length one.new ≡ 32 }
    ensures other { length other.new ≡ 32 }
{
    let (_, number) = sealer.next();
    let first = Start { cell: 0, number };
    seal_from(task, first, one, &mut || ());
    let mut at = 0;
    while at < task.run.many {
        at = write_and_seal(store, sealer, task, &Window { at, rows: one }, other, watch)?;
        at = write_and_seal(store, sealer, task, &Window { at, rows: other }, one, watch)?;
    }
    Ok(())
}

/// Writes a run of cells, in rising order, under the next seals, and makes not sure of them. The
/// bench's threads seal them, in windows, each while the one before it is written. A crash at any
/// moment of it changes no other cell. Each write is shown, whatever it answered. It takes no
/// memory.
///
/// # Errors
/// The store failed, and its count of faults rose. Some of the first cells were sealed.
pub fn write_long<R: Threads + Sync, S: Store, P: Pieces + Sync, W: Watch>(
    rt: &R,
    store: &mut S,
    sealer: &mut Sealer,
    bench: &mut Bench,
    run: &CellRun<'_, P>,
    watch: &mut W,
) -> Result<(), Failed>
    requires none_out { (S.disk store.old).out ≡ 0 }
    requires fits { run.now.base + run.now.many < 2 ^ 64 }
    requires room { sealer.old.next + run.now.many ≤ 2 ^ 62 }
    ensures serves { Serves IsFailed (S.disk store.old) (S.disk store.new) result }
    ensures run { WritesRun run.now.base run.now.many (P.plain run.now.pieces.now) sealer.old
        sealer.new (S.disk store.old) (S.disk store.new) result }
    ensures does { Does (write_notes run.now.base run.now.many) (S.disk store.old).seen
        (S.disk store.new).seen (W.trace watch.old) (W.trace watch.new) result }
{
    let (generation, _) = sealer.next();
    let mate = Sealer::new(&sealer.keys(), generation);
    let task = Task {
        rt,
        sealer: &mate,
        run,
        threads: bench.threads,
    };
    let one = bench.rows.as_mut_slice();
    let other = bench.other_rows.as_mut_slice();
    write_by_turns(store, sealer, &task, one, other, watch)
}
