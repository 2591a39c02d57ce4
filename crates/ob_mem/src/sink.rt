//! A sink in memory.

ghost use Rattle.std.specs.Prelude.{◌≡◌, ◌≤◌, ◌<◌, ◌-◌, ◌+◌, ◌↔◌, ◌⊎◌, ◌++◌, [], ℕ, length, take, min, vec_len, vec_capacity, Contains, IfOk, IsErr, Some};
ghost use Rattle.ob_base.specs.Causes.{HasCause};
ghost use Rattle.ob_io.specs.Flows.{count_of};
ghost use Rattle.ob_mem.specs.Plan.{next_call};

use ob_base::{Failed, Memory};
use ob_io::Sink;
use std::alloc::Global;

/// A sink that keeps what is written to it in memory, up to its room. The calls that were named at
/// its making fail, and those for which no room is left, and no other.
#[derive(Drop)]
pub struct MemSink {
    bytes: Vec<u8>,
    room: usize,
    fails: Vec<u64>,
    calls: u64,
    faults: u64,
    ghost within: { vec_len bytes ≤ room },
    ghost reserved: { room ≤ vec_capacity bytes },
}

impl MemSink {
    /// A sink with room for so many bytes. Of its writes, counted from 0, those that `fails` has
    /// fail.
    ///
    /// # Errors
    /// There was no memory for the room.
    pub fn new(alloc: Global, room: usize, fails: Vec<u64>) -> Result<MemSink, Memory>
        ensures written { IfOk result (λ s. s.bytes.items ≡ []) }
        ensures room { IfOk result (λ s. s.room ≡ room) }
        ensures fails { IfOk result (λ s. s.fails ≡ fails) }
        ensures calls { IfOk result (λ s. s.calls ≡ 0) }
        ensures faults { IfOk result (λ s. s.faults ≡ 0) }
    {
        Ok(MemSink {
            bytes: Vec::with_capacity(alloc, room)?,
            room,
            fails,
            calls: 0,
            faults: 0,
        })
    }

    /// What is written.
    pub fn written(&self) -> &[u8]
        ensures { result.now ≡ self.now.bytes.items }
    {
        &self.bytes
    }

    /// How often it has failed.
    pub fn faults(&self) -> u64
        ensures { result ≡ self.now.faults }
    {
        self.faults
    }
}

impl Sink for MemSink {
    ghost written = { λ s. Some s.bytes.items };

    ghost faults = { λ s. s.faults };

    fn write(&mut self, bytes: &[u8]) -> Result<usize, Failed>
        requires { 0 < length bytes.now }
        ensures some { IfOk result (λ n. (0 < n) × (n ≤ length bytes.now)) }
        ensures written { self.new.bytes.items
            ≡ self.old.bytes.items ++ take (count_of result) bytes.now }
        ensures cause { HasCause self.old.faults self.new.faults result }
        // It takes as much as there is room for, and fails at the named calls and where no room is
        // left.
        ensures whole { IfOk result (λ n. n
            ≡ min (length bytes.now) (self.old.room - length self.old.bytes.items)) }
        ensures fails { IsErr result ↔ (Contains self.old.fails.items self.old.calls
            ⊎ (length self.old.bytes.items ≡ self.old.room)) }
        ensures room { self.new.room ≡ self.old.room }
        ensures fails_kept { self.new.fails ≡ self.old.fails }
        ensures calls { self.new.calls ≡ next_call self.old.calls }
    {
        let call = self.calls;
        self.calls = call.saturating_add(1);
        if self.fails.contains(&call) {
            self.faults = self.faults.saturating_add(1);
            return Err(Failed);
        }
        let n = bytes.len().min(self.room - self.bytes.len());
        if n == 0 {
            self.faults = self.faults.saturating_add(1);
            return Err(Failed);
        }
        self.bytes.extend_from_slice(&bytes[..n]).unwrap();
        Ok(n)
    }
}
