//! A store in memory that serves a batch only to lanes that read at once.

ghost use Rattle.std.specs.Prelude.{◌≡◌, ◌≤◌, ℕ, OnOk};
ghost use Rattle.ob_base.specs.Causes.{HasCause};
ghost use Rattle.ob_mem.specs.Heard.{told};
ghost use Rattle.ob_mem.specs.Memory.{disk_of_store};
ghost use Rattle.ob_mem.specs.Laws.{counts_now, only_now, includes_reads};

use crate::gate::Gate;
use crate::log::MemLane;
use crate::mem_store::MemStore;
use ob_base::Failed;
use ob_claims::{Claims, Round};
use ob_lanes::{Hand, Lanes, SealedJobs, read_hands};
use ob_store::Store;
use std::thread::Threads;

/// A store in memory whose lanes have to read at once. A phase is the time while two or more lanes
/// are out: its first read waits until a second one has begun, and fails where in so many turns
/// none has. It tells what the store in it tells.
#[derive(Drop)]
pub struct GateStore {
    store: MemStore,
    gate: Gate,
}

impl GateStore {
    /// Over a store in memory.
    pub fn new(store: MemStore, turns: u64) -> GateStore
        ensures store { result.store ≡ store }
        ensures phases { result.gate.phases ≡ 0 }
    {
        GateStore {
            store,
            gate: Gate::new(turns),
        }
    }

    /// How many phases have begun.
    pub fn phases(&self) -> u64
        ensures { result ≡ self.now.gate.phases }
    {
        self.gate.phases
    }
}

// What a read answers that passed the gate, or did not.
fn judge(lane: &mut MemLane, passed: bool, read: Result<(), Failed>) -> Result<(), Failed>
    ensures events { lane.new.events ≡ lane.old.events }
    ensures starved { lane.new.starved ≡ lane.old.starved }
    ensures later { lane.old.faults ≤ lane.new.faults }
    ensures same { OnOk result (read ≡ result) }
    ensures cause { (before : ℕ) → HasCause before lane.old.faults read
        → HasCause before lane.new.faults result }
{
    if passed {
        return read;
    }
    lane.faults = lane.faults.saturating_add(1);
    Err(Failed)
}

impl Store for GateStore {
    type Lane = MemLane;

    ghost disk = { λ m. disk_of_store m.store };

    ghost lane_faults = { λ lane. lane.faults };

    ghost lane_seen = { λ lane. told lane.starved lane.events.items };

    ghost counts_now = { λ m t c le left. counts_now m.store.past t c le left };

    ghost only_now = { λ m c left. only_now m.store.past c left };

    ghost includes_reads = { λ m tells leaves. includes_reads m.store.past };

    fn lane(&mut self) -> Result<MemLane, Failed> {
        let lane = self.store.lane()?;
        self.gate.lend();
        Ok(lane)
    }

    fn read(&self, lane: &mut MemLane, cell: u64, out: &mut [u8; 128]) -> Result<(), Failed> {
        let passed = self.gate.pass();
        let read = self.store.read(lane, cell, out);
        judge(lane, passed, read)
    }

    fn absorb(&mut self, lane: MemLane) {
        self.gate.absorb();
        self.store.absorb(lane);
    }

    fn write(&mut self, cell: u64, bytes: &[u8; 128]) -> Result<(), Failed> {
        self.store.write(cell, bytes)
    }

    fn sync(&mut self) -> Result<(), Failed> {
        self.store.sync()
    }
}

impl Lanes for GateStore {
    fn read_parts<R: Threads + Sync>(
        &self,
        rt: &R,
        hands: &mut [Option<Hand<MemLane>>],
        claims: &Claims,
        round: &Round,
        asked: &SealedJobs,
    ) {
        read_hands(rt, self, hands, claims, round, asked);
    }
}
