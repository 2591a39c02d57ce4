//! How a transaction stands in the order.

/// How a transaction stands.
#[derive(Clone, Copy)]
pub enum Fate {
    /// It isn't aborted.
    Going,
    /// It was aborted in a call of its own, or at a stop.
    Ended,
    /// It was aborted because it had read a version of this ticket, which was aborted before it
    /// in the same call.
    Fell { on: u64 },
}
