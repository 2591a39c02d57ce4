//! A store in memory that tells its cells alone.

ghost use Rattle.std.specs.Prelude.{◌≡◌, ◌≤◌, ◌↔◌, [], None, IfOk, IsErr, IsOk, OnOk, OnErr, ℕ, length, slice_set};
ghost use Rattle.ob_base.specs.Causes.{Rose};
ghost use Rattle.ob_store.specs.Disk.{bare};
ghost use Rattle.ob_bare.specs.Cells.{cell_of, zeros};

use crate::cells::blank;
use ob_base::{Failed, Memory};
use ob_claims::{Claims, Round};
use ob_lanes::{Hand, Lanes, SealedJobs, read_hands, read_hands_in_turn};
use ob_store::Store;
use std::alloc::Global;
use std::thread::Threads;

// To start a thread takes the time of so many jobs: reads wait for nothing here.
const JOBS_A_THREAD: usize = 32;

/// A store in memory that keeps no record: it tells what a read gives, and no more. It fails
/// exactly at a write past its end.
#[derive(Drop)]
pub struct BareStore {
    cells: Vec<[u8; 128]>,
    faults: u64,
}

/// A lane of a store that keeps no record.
#[derive(Clone, Copy, Debug, PartialEq, Eq)]
pub struct BareLane;

impl BareStore {
    /// So many cells of zeros.
    ///
    /// # Errors
    /// There was no memory for the cells.
    pub fn new(alloc: Global, cells: usize) -> Result<BareStore, Memory>
        ensures size { IfOk result (λ s. length s.cells.items ≡ cells) }
        ensures blank { IfOk result (λ s. (k : ℕ) → cell_of s.cells.items k ≡ zeros) }
        ensures faults { IfOk result (λ s. s.faults ≡ 0) }
    {
        Ok(BareStore {
            cells: blank(alloc, cells)?,
            faults: 0,
        })
    }
}

impl Store for BareStore {
    type Lane = BareLane;

    ghost disk = { λ b. bare (cell_of b.cells.items) b.faults };

    ghost lane_faults = { λ _. 0 };

    ghost lane_seen = { λ _. None };

    ghost counts_now = { λ _ t c le left. absurd left };

    ghost only_now = { λ _ c left. absurd left };

    ghost includes_reads = { λ _ tells leaves. absurd leaves };

    fn lane(&mut self) -> Result<BareLane, Failed>
        ensures same { self.new ≡ self.old }
        ensures ok { IsOk result }
    {
        Ok(BareLane)
    }

    fn read(&self, _lane: &mut BareLane, cell: u64, out: &mut [u8; 128]) -> Result<(), Failed>
        ensures bytes { out.new ≡ cell_of self.now.cells.items cell }
        ensures ok { IsOk result }
    {
        if cell < self.cells.len() as u64 {
            *out = self.cells[cell as usize];
        } else {
            *out = [0; 128];
        }
        Ok(())
    }

    fn absorb(&mut self, _lane: BareLane)
        ensures { self.new ≡ self.old }
    {}

    fn write(&mut self, cell: u64, bytes: &[u8; 128]) -> Result<(), Failed>
        ensures fails { IsErr result ↔ (length self.old.cells.items ≤ cell) }
        ensures cells { self.new.cells.items ≡ slice_set self.old.cells.items cell bytes.now }
        ensures counts { OnErr result (Rose self.old.faults self.new.faults) }
        ensures later { self.old.faults ≤ self.new.faults }
        ensures none { OnOk result (self.new.faults ≡ self.old.faults) }
    {
        if cell >= self.cells.len() as u64 {
            self.faults = self.faults.saturating_add(1);
            return Err(Failed);
        }
        self.cells[cell as usize] = *bytes;
        Ok(())
    }

    fn sync(&mut self) -> Result<(), Failed>
        ensures same { self.new ≡ self.old }
        ensures ok { IsOk result }
    {
        Ok(())
    }
}

impl Lanes for BareStore {
    fn read_parts<R: Threads + Sync>(
        &self,
        rt: &R,
        hands: &mut [Option<Hand<BareLane>>],
        claims: &Claims,
        round: &Round,
        asked: &SealedJobs,
    ) {
        if asked.jobs.len() / JOBS_A_THREAD < hands.len() {
            read_hands_in_turn(self, hands, claims, round, asked);
        } else {
            read_hands(rt, self, hands, claims, round, asked);
        }
    }
}
