//! A store in memory that remembers what it was asked.

ghost use Rattle.std.specs.Prelude.{◌≡◌};
ghost use Rattle.ob_mem.specs.Heard.{told};
ghost use Rattle.ob_mem.specs.Memory.{disk_of_store};
ghost use Rattle.ob_mem.specs.Laws.{counts_now, only_now, includes_reads};

use ob_base::Failed;
use ob_claims::{Claims, Round};
use ob_lanes::{Hand, Lanes, SealedJobs, read_hands};
use ob_mem::{MemLane, MemStore};
use ob_store::{Event, Store};
use std::alloc::Global;
use std::thread::Threads;

/// A store in memory of ten cells at most, and the calls that it was asked for, a lane's reads where
/// it was given back: `R1` and `W1` of cell 1, and `S.`.
#[derive(Drop)]
pub struct Spy {
    pub store: MemStore,
    pub heard: Vec<u8>,
}

impl Spy {
    /// Over a store in memory.
    pub fn new(alloc: Global, store: MemStore) -> Spy
        ensures { result.store ≡ store }
    {
        Spy {
            store,
            heard: Vec::new(alloc),
        }
    }
}

/// Lets one go. What a drop takes is proved in each function that has one, so tests call this.
pub fn let_go(_spy: Spy) {}

// The digit of a cell.
fn digit(cell: u64) -> u8 {
    b'0' + (cell % 10) as u8
}

// Puts calls behind those that were heard.
fn note(heard: &mut Vec<u8>, events: &[Event]) {
    for i in 0..events.len() {
        let call = match events[i] {
            Event::Read(cell) => [b'R', digit(cell)],
            Event::Write(cell) => [b'W', digit(cell)],
            Event::Sync => [b'S', b'.'],
        };
        let _kept: bool = heard.extend_from_slice(&call).is_ok();
    }
}

impl Store for Spy {
    type Lane = MemLane;

    ghost disk = { λ m. disk_of_store m.store };

    ghost lane_faults = { λ lane. lane.faults };

    ghost lane_seen = { λ lane. told lane.starved lane.events.items };

    ghost counts_now = { λ m t c le left. counts_now m.store.past t c le left };

    ghost only_now = { λ m c left. only_now m.store.past c left };

    ghost includes_reads = { λ m tells leaves. includes_reads m.store.past };

    fn lane(&mut self) -> Result<MemLane, Failed> {
        self.store.lane()
    }

    fn read(&self, lane: &mut MemLane, cell: u64, out: &mut [u8; 128]) -> Result<(), Failed> {
        self.store.read(lane, cell, out)
    }

    fn absorb(&mut self, lane: MemLane) {
        note(&mut self.heard, &lane.events);
        self.store.absorb(lane);
    }

    fn write(&mut self, cell: u64, bytes: &[u8; 128]) -> Result<(), Failed> {
        note(&mut self.heard, &[Event::Write(cell)]);
        self.store.write(cell, bytes)
    }

    fn sync(&mut self) -> Result<(), Failed> {
        note(&mut self.heard, &[Event::Sync]);
        self.store.sync()
    }
}

impl Lanes for Spy {
    fn read_parts<R: Threads + Sync>(
        &self,
        rt: &R,
        hands: &mut [Option<Hand<MemLane>>],
        claims: &Claims,
        round: &Round,
        asked: &SealedJobs,
    ) {
        read_hands(rt, self, hands, claims, round, asked);
    }
}
