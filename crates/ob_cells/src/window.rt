//! Room for cells that are sealed before they are written.

ghost use Rattle.std.specs.Prelude.{◌≡◌, ◌≤◌, vec_len, IfOk};

use ob_base::Memory;
use std::alloc::Global;

/// The sealed slots of a bucket, or 48 sealed cells of a run that follow each other.
pub type Row = [[u8; 128]; 48];

/// Where cells are sealed before they are written: rows for two windows of a run, of 1,536 cells
/// each, or for the slots of 32 buckets, and how many threads seal at most, from 1 to 16.
#[derive(Drop)]
pub struct Bench {
    /// Room for a window of a run, or for the slots of 32 buckets.
    pub rows: Vec<Row>,
    /// Room for another window of a run.
    pub other_rows: Vec<Row>,
    /// How many threads seal at most.
    pub threads: usize,
    ghost whole: { vec_len rows ≡ 32 },
    ghost other_whole: { vec_len other_rows ≡ 32 },
    ghost some: { 1 ≤ threads },
    ghost few: { threads ≤ 16 },
}

impl Bench {
    /// A bench for so many threads, from 1 to 16.
    ///
    /// # Errors
    /// Memory was wanting.
    pub fn new(alloc: Global, threads: usize) -> Result<Bench, Memory>
        requires { (1 ≤ threads) × (threads ≤ 16) }
        ensures { IfOk result (λ bench. bench.threads ≡ threads) }
    {
        Ok(Bench {
            rows: vec![in alloc; [[0; 128]; 48]; 32]?,
            other_rows: vec![in alloc; [[0; 128]; 48]; 32]?,
            threads,
        })
    }
}

// A thread is started for so many cells: to start one takes as long as to seal 30 to 150.
const CELLS_A_THREAD: usize = 128;

/// How many of so many threads seal so many cells: at most one for 128 cells, but at least one.
pub fn threads_for(threads: usize, cells: usize) -> usize
    requires { 1 ≤ threads }
    ensures { 1 ≤ result }
{
    threads.min(cells / CELLS_A_THREAD).max(1)
}
