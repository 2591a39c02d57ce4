//! What an audit answers.

use ob_schedule::{Line, Wanted};

/// What an audit answers.
#[derive(Clone, Copy)]
pub enum Audit {
    /// Each line may stand where it stands.
    Fits,
    /// The first line that may not, counted from 1, what was wanted there, and what stands there.
    Breaks {
        line: u64,
        wanted: Wanted,
        found: Line,
    },
}
