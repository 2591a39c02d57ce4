//! What a store in memory was asked.

ghost use Rattle.std.specs.Prelude.{◌≡◌, ◌≤◌, ◌<◌, ◌+◌, ◌-◌, ◌^◌, ◌∷◌, ◌++◌, [], ℕ, List, Option, min, vec_len, vec_capacity, true, false};
ghost use Rattle.ob_base.specs.Causes.{Rose};
ghost use Rattle.ob_store.specs.declared.event.Event.{Event};
ghost use Rattle.ob_store.specs.Calls.{Notes, NotesLane, TellsOn};
ghost use Rattle.ob_mem.specs.Heard.{told};

use ob_store::Event;
use std::alloc::Global;

/// A call of the store itself, or all reads of a lane.
#[derive(Drop)]
pub enum Heard {
    Call(Event),
    Lane(Vec<Event>),
}

// Both counts together, up to the last value of a `u64`.
fn sum_of(lost: u64, more: u64) -> u64
    ensures sum { result ≡ min (lost + more) (2 ^ 64 - 1) }
    ensures none { more ≡ 0 → result ≡ lost }
    ensures some { 0 < more → 0 < result }
{
    lost.saturating_add(more)
}

/// The reads of a lane.
#[derive(Drop)]
pub struct MemLane {
    pub events: Vec<Event>,
    pub faults: u64,
    pub starved: u64,
    pub ghost counted: { starved ≤ faults },
}

impl MemLane {
    /// A lane that has read nothing.
    pub fn new(alloc: Global) -> MemLane
        ensures events { result.events.items ≡ [] }
        ensures faults { result.faults ≡ 0 }
        ensures starved { result.starved ≡ 0 }
    {
        MemLane {
            events: Vec::new(alloc),
            faults: 0,
            starved: 0,
        }
    }

    /// Keeps a read. Whether there was memory for it.
    pub fn note(&mut self, event: Event) -> bool
        ensures notes { Notes (event ∷ []) (told self.old.starved self.old.events.items)
            (told self.new.starved self.new.events.items) }
        ensures tells { TellsOn (told self.old.starved self.old.events.items)
            (told self.new.starved self.new.events.items) self.old.faults self.new.faults }
        ensures later { self.old.faults ≤ self.new.faults }
        ensures kept { result ≡ true → self.new.faults ≡ self.old.faults }
        ensures lost { result ≡ false → Rose self.old.faults self.new.faults }
        ensures fed { result ≡ true → self.new.starved ≡ self.old.starved }
        ensures starved { result ≡ false → Rose self.old.starved self.new.starved }
    {
        if let Ok(()) = self.events.push(event) {
            return true;
        }
        self.starved = self.starved.saturating_add(1);
        self.faults = self.faults.saturating_add(1);
        false
    }
}

/// The calls on a store that were kept, and how many were not.
#[derive(Drop)]
pub struct Log {
    pub heard: Vec<Heard>,
    pub out: usize,
    pub starved: u64,
    ghost room: { 0 < out → vec_len heard + out ≤ vec_capacity heard },
}

impl Log {
    ghost use Rattle.ob_mem.specs.Heard.{heard_events};

    /// A log of no calls.
    pub fn new(alloc: Global) -> Log
        ensures heard { result.heard.items ≡ [] }
        ensures out { result.out ≡ 0 }
        ensures starved { result.starved ≡ 0 }
    {
        Log {
            heard: Vec::new(alloc),
            out: 0,
            starved: 0,
        }
    }

    /// Keeps a call of the store itself. Whether there was memory for it.
    pub fn note(&mut self, event: Event) -> bool
        requires { self.old.out ≡ 0 }
        ensures notes { Notes (event ∷ [])
            (told self.old.starved (heard_events self.old.heard.items))
            (told self.new.starved (heard_events self.new.heard.items)) }
        ensures tells { (l m : ℕ) → (result ≡ false → Rose l m)
            → TellsOn (told self.old.starved (heard_events self.old.heard.items))
            (told self.new.starved (heard_events self.new.heard.items)) l m }
        ensures out { self.new.out ≡ 0 }
        ensures kept { result ≡ true → self.new.starved ≡ self.old.starved }
        ensures lost { result ≡ false → Rose self.old.starved self.new.starved }
    {
        if let Ok(()) = self.heard.push(Heard::Call(event)) {
            return true;
        }
        self.starved = self.starved.saturating_add(1);
        false
    }

    /// Counts a call that was not kept elsewhere for want of memory.
    pub fn starve(&mut self)
        ensures notes { (events : List Event) (seen : Option (List Event))
            → Notes events seen (told self.new.starved (heard_events self.new.heard.items)) }
        ensures tells { (l m : ℕ) (seen : Option (List Event)) → Rose l m
            → TellsOn seen (told self.new.starved (heard_events self.new.heard.items)) l m }
        ensures out { self.new.out ≡ self.old.out }
        ensures starved { Rose self.old.starved self.new.starved }
    {
        self.starved = self.starved.saturating_add(1);
    }

    /// Makes room for the reads of one lane more. Whether there was memory for it.
    pub fn lend(&mut self) -> bool
        ensures notes { Notes [] (told self.old.starved (heard_events self.old.heard.items))
            (told self.new.starved (heard_events self.new.heard.items)) }
        ensures tells { (l m : ℕ) → (result ≡ false → Rose l m)
            → TellsOn (told self.old.starved (heard_events self.old.heard.items))
            (told self.new.starved (heard_events self.new.heard.items)) l m }
        ensures out { result ≡ true → self.new.out ≡ self.old.out + 1 }
        ensures out_err { result ≡ false → self.new.out ≡ self.old.out }
        ensures kept { result ≡ true → self.new.starved ≡ self.old.starved }
        ensures lost { result ≡ false → Rose self.old.starved self.new.starved }
    {
        if let Some(out) = self.out.checked_add(1) {
            if let Ok(()) = self.heard.reserve(out) {
                self.out = out;
                return true;
            }
        }
        self.starved = self.starved.saturating_add(1);
        false
    }

    /// Keeps the reads of a lane, for which there is room. Whether a lane was out.
    pub fn take(&mut self, events: Vec<Event>, starved: u64) -> bool
        ensures notes { NotesLane (told starved events.items)
            (told self.old.starved (heard_events self.old.heard.items))
            (told self.new.starved (heard_events self.new.heard.items)) }
        ensures tells { (l m : ℕ) → (result ≡ false → Rose l m) → (0 < starved → Rose l m)
            → TellsOn (told self.old.starved (heard_events self.old.heard.items))
            (told self.new.starved (heard_events self.new.heard.items)) l m }
        ensures out { self.new.out ≡ self.old.out - 1 }
        ensures kept { result ≡ true
            → self.new.starved ≡ min (self.old.starved + starved) (2 ^ 64 - 1) }
        ensures lost { result ≡ false → self.old.out ≡ 0 }
    {
        if self.out == 0 {
            self.starved = self.starved.saturating_add(1);
            return false;
        }
        self.out -= 1;
        self.starved = sum_of(self.starved, starved);
        self.heard.push_reserved(Heard::Lane(events));
        true
    }
}
