//! A store in memory that tells what it is asked.

ghost use Rattle.std.specs.Prelude.{◌≡◌, ◌≤◌, ◌+◌, ◌-◌, ◌∷◌, [], OnOk, OnErr, IfOk};
ghost use Rattle.ob_base.specs.Causes.{HasCause};
ghost use Rattle.ob_store.specs.declared.event.Event.{Event};
ghost use Rattle.ob_store.specs.Images.{SameBut, Tears, Shrinks, Elapses, IsSynced};
ghost use Rattle.ob_store.specs.Calls.{GoesOn, Serves, IsFailed, Keeps, Notes, NotesLane, TellsOn, IsFreshLane, AddsFaults};
ghost use Rattle.ob_mem.specs.Heard.{told};
ghost use Rattle.ob_mem.specs.Memory.{disk_of_store};
ghost use Rattle.ob_mem.specs.Laws.{counts_now, only_now, includes_reads};

use crate::calls::{NEVER, sink_of};
use crate::stores;
use ob_base::{Failed, Memory};
use ob_claims::{Claims, Round};
use ob_lanes::{Hand, Lanes, SealedJobs, read_hands};
use ob_mem::{Fail, MemLane, MemSink, MemStore};
use ob_store::{Event, Note, SinkWatch, Store, Watch};
use std::alloc::Global;
use std::thread::Threads;

// What the lines of a store's calls take at most.
const ROOM: usize = 4000;

/// A store in memory, and the lines of the calls on it: a lane's reads where it was absorbed.
#[derive(Drop)]
pub struct Noting {
    pub store: MemStore,
    pub told: MemSink,
}

// Writes the lines of calls.
fn tell(told: &mut MemSink, events: &[Event]) {
    let mut watch = SinkWatch::new(told);
    for event in events {
        watch.note(match event {
            Event::Read(cell) => Note::Read(*cell),
            Event::Write(cell) => Note::Write(*cell),
            Event::Sync => Note::Sync,
        });
    }
}

/// What is asked of this store from now on.
///
/// # Errors
/// Memory was wanting.
pub fn noted(alloc: Global, store: MemStore) -> Result<Noting, Memory>
    ensures { IfOk result (λ made. made.store ≡ store) }
{
    match sink_of(alloc, ROOM, NEVER) {
        Ok(told) => Ok(Noting { store, told }),
        Err(Memory) => Err(Memory),
    }
}

/// What is asked of a new store of so many cells, of which these calls fail.
///
/// # Errors
/// Memory was wanting.
pub fn noted_blank(alloc: Global, cells: usize, fails: &[Fail]) -> Result<Noting, Memory>
    ensures { IfOk result (λ made. (disk_of_store made.store).out ≡ 0) }
{
    match stores::blank(alloc, cells, fails) {
        Ok(store) => noted(alloc, store),
        Err(Memory) => Err(Memory),
    }
}

/// What is asked of what a crash at this moment leaves of a store of at most 109 cells: in those
/// that aren't sure what they got last, or this byte throughout.
///
/// # Errors
/// Memory was wanting.
pub fn noted_after(
    alloc: Global,
    noting: &Noting,
    moment: usize,
    filling: Option<u8>,
) -> Result<Noting, Memory>
    ensures { IfOk result (λ left. (disk_of_store left.store).out ≡ 0) }
{
    match stores::left_after(&noting.store, moment, filling) {
        Ok(store) => noted(alloc, store),
        Err(Memory) => Err(Memory),
    }
}

/// Lets such a store go. What a drop takes is proved in each function that has one, so tests call this.
pub fn let_noting_go(_noting: Noting) {}

impl Store for Noting {
    type Lane = MemLane;

    ghost disk = { λ m. disk_of_store m.store };

    ghost lane_faults = { λ lane. lane.faults };

    ghost lane_seen = { λ lane. told lane.starved lane.events.items };

    ghost counts_now = { λ m t c le left. counts_now m.store.past t c le left };

    ghost only_now = { λ m c left. only_now m.store.past c left };

    ghost includes_reads = { λ m tells leaves. includes_reads m.store.past };

    fn lane(&mut self) -> Result<MemLane, Failed> {
        self.store.lane()
    }

    fn read(&self, lane: &mut MemLane, cell: u64, out: &mut [u8; 128]) -> Result<(), Failed> {
        self.store.read(lane, cell, out)
    }

    fn absorb(&mut self, lane: MemLane) {
        tell(&mut self.told, &lane.events);
        self.store.absorb(lane);
    }

    fn write(&mut self, cell: u64, bytes: &[u8; 128]) -> Result<(), Failed> {
        tell(&mut self.told, &[Event::Write(cell)]);
        self.store.write(cell, bytes)
    }

    fn sync(&mut self) -> Result<(), Failed> {
        tell(&mut self.told, &[Event::Sync]);
        self.store.sync()
    }
}

impl Lanes for Noting {
    fn read_parts<R: Threads + Sync>(
        &self,
        rt: &R,
        hands: &mut [Option<Hand<MemLane>>],
        claims: &Claims,
        round: &Round,
        asked: &SealedJobs,
    ) {
        read_hands(rt, self, hands, claims, round, asked);
    }
}
