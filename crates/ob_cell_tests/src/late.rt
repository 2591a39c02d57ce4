//! A store in memory, of which the reads of one cell wait until the others of a batch were made.

ghost use Rattle.std.specs.Prelude.{◌≡◌, ◌≤◌, ℕ, OnOk};
ghost use Rattle.ob_base.specs.Causes.{HasCause};
ghost use Rattle.ob_mem.specs.Heard.{told};
ghost use Rattle.ob_mem.specs.Memory.{disk_of_store};
ghost use Rattle.ob_mem.specs.Laws.{counts_now, only_now, includes_reads};

use ob_base::Failed;
use ob_claims::{Claims, Round};
use ob_lanes::{Hand, Lanes, SealedJobs, read_hands};
use ob_mem::{MemLane, MemStore};
use ob_store::Store;
use std::sync::atomic::AtomicU64;
use std::sync::atomic::Ordering::SeqCst;
use std::thread::{self, Threads};

// A read that waits looks so often whether the others were made.
const TURNS: u64 = 10_000_000;

/// A store in memory that makes the reads of one cell only once so many others were made; where
/// these aren't at so many looks, it fails. It tells what the store in it tells.
#[derive(Drop)]
pub struct LateStore {
    store: MemStore,
    cell: u64,
    others: u64,
    made: AtomicU64,
    beside: u64,
}

/// A lane, how many reads it made, and whether one of them waited.
#[derive(Drop)]
pub struct LateLane {
    lane: MemLane,
    reads: u64,
    waited: bool,
}

impl LateStore {
    /// Over a store in memory, of which this cell is read behind so many others.
    pub fn new(store: MemStore, cell: u64, others: u64) -> LateStore
        ensures { result.store ≡ store }
    {
        LateStore {
            store,
            cell,
            others,
            made: AtomicU64::new(0),
            beside: 0,
        }
    }

    /// How many reads were made that don't wait.
    pub fn made(&self) -> u64 {
        self.made.load(SeqCst)
    }

    /// How many reads the last lane made that had to wait, with that one.
    pub fn beside(&self) -> u64 {
        self.beside
    }

    /// How often the store in it has failed.
    pub fn faults(&self) -> u64 {
        self.store.faults()
    }

    // Whether so many others were made, at the latest at so many looks.
    fn is_passed(&self, waits: bool) -> bool {
        if !waits {
            return true;
        }
        for _ in 0..TURNS {
            if self.made.load(SeqCst) >= self.others {
                return true;
            }
            thread::yield_now();
        }
        false
    }

    // Counts a read that doesn't wait.
    fn note(&self, waits: bool) {
        if !waits {
            self.made.fetch_add(1, SeqCst);
        }
    }
}

// What a read answers that was let through, or was not.
fn judge(lane: &mut MemLane, passed: bool, read: Result<(), Failed>) -> Result<(), Failed>
    ensures events { lane.new.events ≡ lane.old.events }
    ensures starved { lane.new.starved ≡ lane.old.starved }
    ensures later { lane.old.faults ≤ lane.new.faults }
    ensures same { OnOk result (read ≡ result) }
    ensures cause { (before : ℕ) → HasCause before lane.old.faults read
        → HasCause before lane.new.faults result }
{
    if passed {
        return read;
    }
    lane.faults = lane.faults.saturating_add(1);
    Err(Failed)
}

impl Store for LateStore {
    type Lane = LateLane;

    ghost disk = { λ m. disk_of_store m.store };

    ghost lane_faults = { λ lane. lane.lane.faults };

    ghost lane_seen = { λ lane. told lane.lane.starved lane.lane.events.items };

    ghost counts_now = { λ m t c le left. counts_now m.store.past t c le left };

    ghost only_now = { λ m c left. only_now m.store.past c left };

    ghost includes_reads = { λ m tells leaves. includes_reads m.store.past };

    fn lane(&mut self) -> Result<LateLane, Failed> {
        let lane = self.store.lane()?;
        Ok(LateLane {
            lane,
            reads: 0,
            waited: false,
        })
    }

    fn read(&self, lane: &mut LateLane, cell: u64, out: &mut [u8; 128]) -> Result<(), Failed> {
        let waits = cell == self.cell;
        lane.reads = lane.reads.saturating_add(1);
        lane.waited = lane.waited || waits;
        let passed = self.is_passed(waits);
        let read = self.store.read(&mut lane.lane, cell, out);
        self.note(waits);
        judge(&mut lane.lane, passed, read)
    }

    fn absorb(&mut self, lane: LateLane) {
        let LateLane {
            lane,
            reads,
            waited,
        } = lane;
        self.beside = if waited { reads } else { self.beside };
        self.store.absorb(lane);
    }

    fn write(&mut self, cell: u64, bytes: &[u8; 128]) -> Result<(), Failed> {
        self.store.write(cell, bytes)
    }

    fn sync(&mut self) -> Result<(), Failed> {
        self.store.sync()
    }
}

impl Lanes for LateStore {
    fn read_parts<R: Threads + Sync>(
        &self,
        rt: &R,
        hands: &mut [Option<Hand<LateLane>>],
        claims: &Claims,
        round: &Round,
        asked: &SealedJobs,
    ) {
        read_hands(rt, self, hands, claims, round, asked);
    }
}
