//! What a store in memory keeps of a write or a sync.

/// What a store in memory keeps of a write or a sync.
#[derive(Clone, Copy)]
pub enum Call {
    /// The cell, and the bytes that it got.
    Wrote(u64, [u8; 128]),
    /// Whether it succeeded.
    Synced(bool),
}
