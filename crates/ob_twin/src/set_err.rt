//! Why a set was refused.

use ob_base::Fault;

/// Why a set was refused: before the write that opens the gate, or there or at the sync after it.
#[derive(Clone, Copy)]
pub enum SetErr {
    /// The old number counts.
    Before(Fault),
    /// The old number counts, or the new one.
    Unsure(Fault),
}
