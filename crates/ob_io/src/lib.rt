//! Bytes that come in, and bytes that go out, by objects that count their faults.
#![tactic(auto)]

mod copy;

ghost use Rattle.std.specs.Prelude.{◌≡◌, ◌<◌, ◌≤◌, ℕ, List, Option, length, take, IfOk, OnErr};
ghost use Rattle.ob_base.specs.Causes.{HasCause};
ghost use Rattle.ob_io.specs.Flows.{appended, prepended, count_of, IsAtEnd};

pub use copy::{put_all, read_all};
use ob_base::Failed;

/// Bytes that come in.
pub trait Source {
    /// What is left, where the source tells.
    ghost left: { Self → Option (List ℕ) };

    /// How often it has failed.
    ghost faults: { Self → ℕ };

    /// Takes a part of what is left into the front of `out`, and answers how many bytes that is.
    /// None, where `out` has room, is the end.
    ///
    /// # Errors
    /// The source failed, and its count of faults rose. Nothing was taken.
    fn read(&mut self, out: &mut [u8]) -> Result<usize, Failed>
        ensures within { IfOk result (λ n. n ≤ length out.old) }
        ensures bytes { IfOk result (λ n. left self.old
            ≡ prepended (take n out.new) (left self.new)) }
        ensures end { IfOk result (λ n. n ≡ 0 → 0 < length out.old → IsAtEnd (left self.old)) }
        ensures kept { OnErr result (left self.new ≡ left self.old) }
        ensures cause { HasCause (faults self.old) (faults self.new) result };
}

/// Bytes that go out.
pub trait Sink {
    /// What is written, where the sink tells.
    ghost written: { Self → Option (List ℕ) };

    /// How often it has failed.
    ghost faults: { Self → ℕ };

    /// Writes a byte or more from the front of a piece that isn't empty, and answers how many.
    ///
    /// # Errors
    /// The sink failed, and its count of faults rose. Nothing was written.
    fn write(&mut self, bytes: &[u8]) -> Result<usize, Failed>
        requires { 0 < length bytes.now }
        ensures some { IfOk result (λ n. (0 < n) × (n ≤ length bytes.now)) }
        ensures written { written self.new
            ≡ appended (written self.old) (take (count_of result) bytes.now) }
        ensures cause { HasCause (faults self.old) (faults self.new) result };
}

/// Why a source wasn't read to its end.
#[derive(Clone, Copy)]
pub enum ReadErr {
    /// Memory was wanting.
    Memory,
    /// The source failed.
    Failed,
}
