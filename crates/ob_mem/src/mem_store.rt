//! A store in memory that crashes and fails as planned.

ghost use Rattle.std.specs.Prelude.{◌≡◌, ◌≤◌, ◌<◌, ◌+◌, ◌-◌, ◌∷◌, [], ◌⊎◌, ◌^◌, min, length, OnOk, OnErr, IfOk, IsErr, IsTrue, ◌↔◌, ℕ, Contains, Some, is_ok};
ghost use Rattle.ob_base.specs.Causes.{Rose, HasCause};
ghost use Rattle.ob_store.specs.declared.event.Event.{Event};
ghost use Rattle.ob_store.specs.Images.{SameBut, Tears, Shrinks, Elapses, IsSynced};
ghost use Rattle.ob_store.specs.Calls.{GoesOn, Serves, IsFailed, Keeps, Notes, NotesLane, TellsOn, IsFreshLane, AddsFaults};
ghost use Rattle.ob_mem.specs.declared.call.Call.TheVariants.{Wrote, Synced};
ghost use Rattle.ob_mem.specs.Plan.{next_call, FailsExactly};
ghost use Rattle.ob_mem.specs.Replay.{disk_of, with_call, zeros, moment_at, IsLeft, MayLeave};
ghost use Rattle.ob_mem.specs.Heard.{told, heard_events};
ghost use Rattle.ob_mem.specs.Memory.{disk_of_store};
ghost use Rattle.ob_mem.specs.Laws.{counts_now, only_now, includes_reads};

use crate::fail::{Counts, Fail};
use crate::log::{Log, MemLane};
use crate::past::History;
use ob_base::{Failed, Memory};
use ob_claims::{Claims, Round};
use ob_lanes::{Hand, Lanes, SealedJobs, read_hands};
use ob_store::{Event, Store};
use std::alloc::Global;
use std::thread::Threads;

/// A store in memory. It keeps each write and sync, so that a crash may leave all that the disk
/// model allows, and nothing else. The calls that were named at its making fail, and writes past
/// its end; any other call fails only where there is no memory to keep it, which `starved` tells.
#[derive(Drop)]
pub struct MemStore {
    alloc: Global,
    past: History,
    log: Log,
    fails: Vec<Fail>,
    made: Counts,
    faults: u64,
}

impl MemStore {
    /// So many cells of zeros, all of them sure. The calls that `fails` names will fail.
    ///
    /// # Errors
    /// There was no memory for the cells.
    pub fn new(alloc: Global, cells: usize, fails: Vec<Fail>) -> Result<MemStore, Memory>
        ensures blank { IfOk result (λ s. (k : ℕ) → (disk_of_store s).cells k ≡ zeros) }
        ensures sure { IfOk result (λ s. IsSynced (disk_of_store s)) }
        ensures seen { IfOk result (λ s. (disk_of_store s).seen ≡ Some []) }
        ensures out { IfOk result (λ s. (disk_of_store s).out ≡ 0) }
        ensures faults { IfOk result (λ s. (disk_of_store s).faults ≡ 0) }
        ensures size { IfOk result (λ s. length s.past.first ≡ cells) }
        ensures fails { IfOk result (λ s. s.fails ≡ fails) }
        ensures made { IfOk result (λ s. s.made ≡ record { writes = 0; syncs = 0; lanes = 0 }) }
        ensures starved { IfOk result (λ s. s.log.starved ≡ 0) }
    {
        Ok(MemStore {
            alloc,
            past: History::new(alloc, cells)?,
            log: Log::new(alloc),
            fails,
            made: Counts {
                writes: 0,
                syncs: 0,
                lanes: 0,
            },
            faults: 0,
        })
    }

    /// What a crash after so many of the writes and syncs leaves: in each cell that wasn't sure
    /// then the given bytes, the last ones where several are given, else what it got last. No call
    /// of this store is planned to fail.
    ///
    /// # Errors
    /// There was no memory for the cells.
    pub fn crash(&self, moment: usize, bytes: &[(u64, [u8; 128])]) -> Result<MemStore, Memory>
        ensures left { IfOk result
            (λ s. IsLeft (moment_at self.now.past moment) bytes.now (disk_of_store s).cells) }
        ensures possible { IfOk result
            (λ s. MayLeave (moment_at self.now.past moment) (disk_of_store s).cells) }
        ensures sure { IfOk result (λ s. IsSynced (disk_of_store s)) }
        ensures seen { IfOk result (λ s. (disk_of_store s).seen ≡ Some []) }
        ensures out { IfOk result (λ s. (disk_of_store s).out ≡ 0) }
        ensures faults { IfOk result (λ s. (disk_of_store s).faults ≡ 0) }
        ensures size { IfOk result (λ s. length s.past.first ≡ length self.now.past.first) }
        ensures fails { IfOk result (λ s. s.fails.items ≡ []) }
        ensures made { IfOk result (λ s. s.made ≡ record { writes = 0; syncs = 0; lanes = 0 }) }
        ensures starved { IfOk result (λ s. s.log.starved ≡ 0) }
    {
        Ok(MemStore {
            alloc: self.alloc,
            past: self.past.crash(self.alloc, moment, bytes)?,
            log: Log::new(self.alloc),
            fails: Vec::new(self.alloc),
            made: Counts {
                writes: 0,
                syncs: 0,
                lanes: 0,
            },
            faults: 0,
        })
    }

    /// How many writes and syncs it has behind it: a crash at this moment comes behind all of them.
    pub fn moments(&self) -> usize
        ensures { result ≡ length self.now.past.calls }
    {
        self.past.moments()
    }

    /// How often there was no memory to keep a call.
    pub fn starved(&self) -> u64
        ensures { result ≡ self.now.log.starved }
    {
        self.log.starved
    }

    /// How often it has failed.
    pub fn faults(&self) -> u64
        ensures { result ≡ (disk_of_store self.now).faults }
    {
        self.faults
    }

    // It has failed once more.
    pub(crate) fn fail(&mut self)
        ensures made { self.new
            ≡ record self.old { faults = min (self.old.faults + 1) (2 ^ 64 - 1) } }
        ensures later { self.old.faults ≤ self.new.faults }
        ensures rose { Rose self.old.faults self.new.faults }
    {
        self.faults = self.faults.saturating_add(1);
    }
}

fn is_named(fails: &[Fail], call: Fail) -> bool
    ensures { IsTrue result ↔ Contains fails.now call }
{
    fails.contains(&call)
}

impl Store for MemStore {
    type Lane = MemLane;

    ghost disk = { λ m. disk_of m.past (told m.log.starved (heard_events m.log.heard.items)) m.log.out m.faults };

    ghost lane_faults = { λ lane. lane.faults };

    ghost lane_seen = { λ lane. told lane.starved lane.events.items };

    ghost counts_now = { λ m t c le left. counts_now m.past t c le left };

    ghost only_now = { λ m c left. only_now m.past c left };

    ghost includes_reads = { λ m tells leaves. includes_reads m.past };

    fn lane(&mut self) -> Result<MemLane, Failed>
        ensures goes { GoesOn (disk_of_store self.old) (disk_of_store self.new) }
        ensures fresh { IfOk result (λ lane. lane.faults ≡ 0) }
        ensures fresh_seen { IfOk result
            (λ lane. IsFreshLane (disk_of_store self.old).seen
            (told lane.starved lane.events.items)) }
        ensures keeps { Keeps (disk_of_store self.old) (disk_of_store self.new) }
        ensures crash { Shrinks (disk_of_store self.old) (disk_of_store self.new) }
        ensures time { Elapses (disk_of_store self.old) (disk_of_store self.new) }
        ensures seen { Notes [] (disk_of_store self.old).seen (disk_of_store self.new).seen }
        ensures out { OnOk result ((disk_of_store self.new).out
            ≤ (disk_of_store self.old).out + 1) }
        ensures out_err { OnErr result ((disk_of_store self.new).out
            ≤ (disk_of_store self.old).out) }
        ensures cause { HasCause (disk_of_store self.old).faults (disk_of_store self.new).faults
            result }
        // Which calls fail.
        ensures fails { FailsExactly (Contains self.old.fails.items (Fail.Lane self.old.made.lanes))
            self.old.log.starved self.new.log.starved result }
        ensures made { self.new.made
            ≡ record self.old.made { lanes = next_call self.old.made.lanes } }
        ensures stays { (self.new.past ≡ self.old.past) × (self.new.fails ≡ self.old.fails) }
    {
        let lane = self.made.lanes;
        self.made.lanes = lane.saturating_add(1);
        if is_named(&self.fails, Fail::Lane(lane)) {
            self.faults = self.faults.saturating_add(1);
            return Err(Failed);
        }
        if !self.log.lend() {
            self.faults = self.faults.saturating_add(1);
            return Err(Failed);
        }
        Ok(MemLane::new(self.alloc))
    }

    fn read(&self, lane: &mut MemLane, cell: u64, out: &mut [u8; 128]) -> Result<(), Failed>
        ensures bytes { (disk_of_store self.now).tells
            → OnOk result (out.new ≡ (disk_of_store self.now).cells cell) }
        ensures seen { Notes (Event.Read cell ∷ []) (told lane.old.starved lane.old.events.items)
            (told lane.new.starved lane.new.events.items) }
        ensures tells { TellsOn (told lane.old.starved lane.old.events.items)
            (told lane.new.starved lane.new.events.items) lane.old.faults lane.new.faults }
        ensures cause { HasCause lane.old.faults lane.new.faults result }
        // Which calls fail.
        ensures fails { FailsExactly
            (Contains self.now.fails.items (Fail.Read cell self.now.made.writes)) lane.old.starved
            lane.new.starved result }
    {
        let writes = self.made.writes;
        if !lane.note(Event::Read(cell)) {
            return Err(Failed);
        }
        if is_named(&self.fails, Fail::Read { cell, writes }) {
            lane.faults = lane.faults.saturating_add(1);
            return Err(Failed);
        }
        *out = self.past.get(cell);
        Ok(())
    }

    fn absorb(&mut self, lane: MemLane)
        ensures goes { GoesOn (disk_of_store self.old) (disk_of_store self.new) }
        ensures keeps { Keeps (disk_of_store self.old) (disk_of_store self.new) }
        ensures crash { Shrinks (disk_of_store self.old) (disk_of_store self.new) }
        ensures time { Elapses (disk_of_store self.old) (disk_of_store self.new) }
        ensures seen { NotesLane (told lane.starved lane.events.items) (disk_of_store self.old).seen
            (disk_of_store self.new).seen }
        ensures out { (disk_of_store self.new).out ≤ (disk_of_store self.old).out - 1 }
        ensures faults { AddsFaults lane.faults (disk_of_store self.old).faults
            (disk_of_store self.new).faults }
        // A lane that is out is taken back without memory.
        ensures starved { 0 < self.old.log.out
            → self.new.log.starved ≡ min (self.old.log.starved + lane.starved) (2 ^ 64 - 1) }
        ensures stays { (self.new.past ≡ self.old.past) × (self.new.made ≡ self.old.made)
            × (self.new.fails ≡ self.old.fails) }
    {
        let MemLane {
            events,
            faults,
            starved,
        } = lane;
        self.faults = self.faults.saturating_add(faults);
        if !self.log.take(events, starved) {
            self.faults = self.faults.saturating_add(1);
        }
    }

    fn write(&mut self, cell: u64, bytes: &[u8; 128]) -> Result<(), Failed>
        requires { (disk_of_store self.old).out ≡ 0 }
        ensures serves { Serves IsFailed (disk_of_store self.old) (disk_of_store self.new) result }
        ensures written { (disk_of_store self.old).tells
            → OnOk result ((disk_of_store self.new).cells cell ≡ bytes.now) }
        ensures rest { (disk_of_store self.old).tells
            → SameBut cell (disk_of_store self.new).cells (disk_of_store self.old).cells }
        ensures crash { Tears cell (disk_of_store self.old) (disk_of_store self.new) }
        ensures time { Elapses (disk_of_store self.old) (disk_of_store self.new) }
        ensures seen { Notes (Event.Write cell ∷ []) (disk_of_store self.old).seen
            (disk_of_store self.new).seen }
        // Which calls fail. A write counts, whatever it answers, unless memory was wanting.
        ensures fails { FailsExactly
            (Contains self.old.fails.items (Fail.Write self.old.made.writes)
            ⊎ (length self.old.past.first
            ≤ cell)) self.old.log.starved self.new.log.starved result }
        ensures counts { (self.new.past ≡ with_call self.old.past (Wrote cell bytes.now))
            ⊎ Rose self.old.log.starved self.new.log.starved }
        ensures made { self.new.made
            ≡ record self.old.made { writes = next_call self.old.made.writes } }
        ensures stays { self.new.fails ≡ self.old.fails }
    {
        let write = self.made.writes;
        self.made.writes = write.saturating_add(1);
        if !self.log.note(Event::Write(cell)) {
            self.faults = self.faults.saturating_add(1);
            return Err(Failed);
        }
        match self.past.write(cell, bytes) {
            Ok(()) => {}
            Err(_) => {
                self.log.starve();
                self.faults = self.faults.saturating_add(1);
                return Err(Failed);
            }
        }
        if is_named(&self.fails, Fail::Write(write)) {
            self.faults = self.faults.saturating_add(1);
            return Err(Failed);
        }
        if cell >= self.past.size() as u64 {
            self.faults = self.faults.saturating_add(1);
            return Err(Failed);
        }
        Ok(())
    }

    fn sync(&mut self) -> Result<(), Failed>
        requires { (disk_of_store self.old).out ≡ 0 }
        ensures serves { Serves IsFailed (disk_of_store self.old) (disk_of_store self.new) result }
        ensures durable { (disk_of_store self.old).tells
            → OnOk result (IsSynced (disk_of_store self.new)) }
        ensures keeps { Keeps (disk_of_store self.old) (disk_of_store self.new) }
        ensures crash { Shrinks (disk_of_store self.old) (disk_of_store self.new) }
        ensures time { Elapses (disk_of_store self.old) (disk_of_store self.new) }
        ensures seen { Notes (Event.Sync ∷ []) (disk_of_store self.old).seen
            (disk_of_store self.new).seen }
        // Which calls fail. A sync that fails makes nothing sure.
        ensures fails { FailsExactly (Contains self.old.fails.items (Fail.Sync self.old.made.syncs))
            self.old.log.starved self.new.log.starved result }
        ensures counts { (self.new.past ≡ with_call self.old.past (Synced (is_ok result)))
            ⊎ Rose self.old.log.starved self.new.log.starved }
        ensures made { self.new.made
            ≡ record self.old.made { syncs = next_call self.old.made.syncs } }
        ensures stays { self.new.fails ≡ self.old.fails }
    {
        let sync = self.made.syncs;
        self.made.syncs = sync.saturating_add(1);
        if !self.log.note(Event::Sync) {
            self.faults = self.faults.saturating_add(1);
            return Err(Failed);
        }
        let fails = is_named(&self.fails, Fail::Sync(sync));
        match self.past.sync(!fails) {
            Ok(()) => {}
            Err(_) => {
                self.log.starve();
                self.faults = self.faults.saturating_add(1);
                return Err(Failed);
            }
        }
        if fails {
            self.faults = self.faults.saturating_add(1);
            return Err(Failed);
        }
        Ok(())
    }
}

impl Lanes for MemStore {
    fn read_parts<R: Threads + Sync>(
        &self,
        rt: &R,
        hands: &mut [Option<Hand<MemLane>>],
        claims: &Claims,
        round: &Round,
        asked: &SealedJobs,
    ) {
        read_hands(rt, self, hands, claims, round, asked);
    }
}
