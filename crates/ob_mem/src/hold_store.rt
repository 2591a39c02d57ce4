//! A store in memory whose first write of one cell waits until it is let go.

ghost use Rattle.std.specs.Prelude.{◌≡◌};
ghost use Rattle.ob_mem.specs.Heard.{told};
ghost use Rattle.ob_mem.specs.Memory.{disk_of_store};
ghost use Rattle.ob_mem.specs.Laws.{counts_now, only_now, includes_reads};

use crate::log::MemLane;
use crate::mem_store::MemStore;
use ob_base::Failed;
use ob_claims::{Claims, Round};
use ob_lanes::{Hand, Lanes, SealedJobs, read_hands};
use ob_store::Store;
use std::sync::atomic::AtomicBool;
use std::sync::atomic::Ordering::SeqCst;
use std::thread::{self, Threads};

/// A store in memory that tells when the first write of a cell is reached, and makes it only when
/// it is let go; where in so many turns it isn't, that write fails.
#[derive(Drop)]
pub struct HoldStore<'h> {
    store: MemStore,
    cell: u64,
    turns: u64,
    held: bool,
    reached: &'h AtomicBool,
    release: &'h AtomicBool,
}

impl<'h> HoldStore<'h> {
    /// Over a store in memory, whose first write of this cell is held.
    pub fn new(
        store: MemStore,
        cell: u64,
        turns: u64,
        reached: &'h AtomicBool,
        release: &'h AtomicBool,
    ) -> HoldStore<'h>
        ensures store { result.store ≡ store }
    {
        HoldStore {
            store,
            cell,
            turns,
            held: false,
            reached,
            release,
        }
    }
}

// Tells that it is reached, and whether it is let go within so many turns.
fn is_let_go(turns: u64, reached: &AtomicBool, release: &AtomicBool) -> bool {
    reached.store(true, SeqCst);
    for _ in 0..turns {
        if release.load(SeqCst) {
            return true;
        }
        thread::yield_now();
    }
    false
}

impl<'h> Store for HoldStore<'h> {
    type Lane = MemLane;

    ghost disk = { λ m. disk_of_store m.store };

    ghost lane_faults = { λ lane. lane.faults };

    ghost lane_seen = { λ lane. told lane.starved lane.events.items };

    ghost counts_now = { λ m t c le left. counts_now m.store.past t c le left };

    ghost only_now = { λ m c left. only_now m.store.past c left };

    ghost includes_reads = { λ m tells leaves. includes_reads m.store.past };

    fn lane(&mut self) -> Result<MemLane, Failed> {
        self.store.lane()
    }

    fn read(&self, lane: &mut MemLane, cell: u64, out: &mut [u8; 128]) -> Result<(), Failed> {
        self.store.read(lane, cell, out)
    }

    fn absorb(&mut self, lane: MemLane) {
        self.store.absorb(lane);
    }

    fn write(&mut self, cell: u64, bytes: &[u8; 128]) -> Result<(), Failed> {
        let holds = cell == self.cell && !self.held;
        self.held = self.held || holds;
        let passed = !holds || is_let_go(self.turns, self.reached, self.release);
        let written = self.store.write(cell, bytes);
        if passed {
            return written;
        }
        self.store.fail();
        Err(Failed)
    }

    fn sync(&mut self) -> Result<(), Failed> {
        self.store.sync()
    }
}

impl<'h> Lanes for HoldStore<'h> {
    fn read_parts<R: Threads + Sync>(
        &self,
        rt: &R,
        hands: &mut [Option<Hand<MemLane>>],
        claims: &Claims,
        round: &Round,
        asked: &SealedJobs,
    ) {
        read_hands(rt, self, hands, claims, round, asked);
    }
}
