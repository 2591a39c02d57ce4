//! A gate that a read passes only beside a second one.

ghost use Rattle.std.specs.Prelude.{◌≡◌, ◌+◌, ◌-◌, ◌^◌, min, if◌then◌else◌, ◌==◌};

use std::sync::atomic::AtomicBool;
use std::sync::atomic::Ordering::SeqCst;
use std::thread;

/// How many lanes are out, how often two came to be out, and whether a first and a second read have
/// begun since.
#[derive(Drop)]
pub struct Gate {
    first: AtomicBool,
    second: AtomicBool,
    turns: u64,
    out: u64,
    pub phases: u64,
}

impl Gate {
    /// A gate at which a read waits for so many turns.
    pub fn new(turns: u64) -> Gate
        ensures { result.phases ≡ 0 }
    {
        Gate {
            first: AtomicBool::new(false),
            second: AtomicBool::new(false),
            turns,
            out: 0,
            phases: 0,
        }
    }

    /// A lane more is out. With the second one a phase begins.
    pub fn lend(&mut self)
        ensures out { self.new.out ≡ min (self.old.out + 1) (2 ^ 64 - 1) }
        ensures phases { self.new.phases
            ≡ (if self.new.out == 2 then min (self.old.phases + 1) (2 ^ 64 - 1)
            else self.old.phases) }
    {
        self.out = self.out.saturating_add(1);
        if self.out == 2 {
            self.phases = self.phases.saturating_add(1);
            self.first.store(false, SeqCst);
            self.second.store(false, SeqCst);
        }
    }

    /// A lane is back.
    pub fn absorb(&mut self)
        ensures out { self.new.out ≡ self.old.out - 1 }
        ensures phases { self.new.phases ≡ self.old.phases }
    {
        self.out = self.out.saturating_sub(1);
    }

    /// Whether a second read of the phase has begun, at the latest after so many turns. Where fewer
    /// than two lanes are out no read waits.
    pub fn pass(&self) -> bool {
        if self.out < 2 || self.first.swap(true, SeqCst) {
            self.second.store(true, SeqCst);
            return true;
        }
        for _ in 0..self.turns {
            if self.second.load(SeqCst) {
                return true;
            }
            thread::yield_now();
        }
        false
    }
}
