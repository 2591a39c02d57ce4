//! A source in memory.

ghost use Rattle.std.specs.Prelude.{◌≡◌, ◌≤◌, ◌<◌, ◌-◌, ◌+◌, ◌↔◌, ℕ, length, take, drop, min, vec_len, Contains, IfOk, OnErr, IsErr, Some, ◌++◌, []};
ghost use Rattle.ob_base.specs.Causes.{HasCause};
ghost use Rattle.ob_io.specs.Flows.{prepended, IsAtEnd};
ghost use Rattle.ob_mem.specs.Plan.{next_call};

use ob_base::Failed;
use ob_io::Source;

/// Bytes in memory as a source. The calls that were named at its making fail, and no other.
#[derive(Drop)]
pub struct MemSource {
    bytes: Vec<u8>,
    at: usize,
    fails: Vec<u64>,
    calls: u64,
    faults: u64,
    ghost within: { at ≤ vec_len bytes },
}

impl MemSource {
    /// A source of these bytes. Of its reads, counted from 0, those that `fails` has fail.
    pub fn new(bytes: Vec<u8>, fails: Vec<u64>) -> MemSource
        ensures left { drop result.at result.bytes.items ≡ bytes.items }
        ensures fails { result.fails ≡ fails }
        ensures calls { result.calls ≡ 0 }
        ensures faults { result.faults ≡ 0 }
    {
        MemSource {
            bytes,
            at: 0,
            fails,
            calls: 0,
            faults: 0,
        }
    }

    /// What is left.
    pub fn left(&self) -> &[u8]
        ensures { result.now ≡ drop self.now.at self.now.bytes.items }
    {
        &self.bytes[self.at..]
    }

    /// How often it has failed.
    pub fn faults(&self) -> u64
        ensures { result ≡ self.now.faults }
    {
        self.faults
    }
}

impl Source for MemSource {
    ghost left = { λ s. Some (drop s.at s.bytes.items) };

    ghost faults = { λ s. s.faults };

    fn read(&mut self, out: &mut [u8]) -> Result<usize, Failed>
        ensures within { IfOk result (λ n. n ≤ length out.old) }
        ensures bytes { IfOk result (λ n. drop self.old.at self.old.bytes.items
            ≡ take n out.new ++ drop self.new.at self.new.bytes.items) }
        ensures end { IfOk result (λ n. n ≡ 0 → 0 < length out.old
            → drop self.old.at self.old.bytes.items ≡ []) }
        ensures kept { OnErr result (drop self.new.at self.new.bytes.items
            ≡ drop self.old.at self.old.bytes.items) }
        ensures cause { HasCause self.old.faults self.new.faults result }
        // It takes as much as there is room for, and fails at the named calls alone.
        ensures whole { IfOk result (λ n. n
            ≡ min (length out.old) (length (drop self.old.at self.old.bytes.items))) }
        ensures fails { IsErr result ↔ Contains self.old.fails.items self.old.calls }
        ensures fails_kept { self.new.fails ≡ self.old.fails }
        ensures calls { self.new.calls ≡ next_call self.old.calls }
    {
        let call = self.calls;
        self.calls = call.saturating_add(1);
        if self.fails.contains(&call) {
            self.faults = self.faults.saturating_add(1);
            return Err(Failed);
        }
        let n = out.len().min(self.bytes.len() - self.at);
        out[..n].copy_from_slice(&self.bytes[self.at..self.at + n]);
        self.at += n;
        Ok(n)
    }
}
