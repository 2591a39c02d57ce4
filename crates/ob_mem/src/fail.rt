//! Calls that are to fail.

/// A call that is to fail.
#[derive(Clone, Copy, Debug, PartialEq, Eq)]
pub enum Fail {
    /// The write of this number, from 0.
    Write(u64),
    /// The sync of this number, from 0.
    Sync(u64),
    /// The making of a lane of this number, from 0.
    Lane(u64),
    /// Each read of the cell while so many writes were made.
    Read { cell: u64, writes: u64 },
}

/// How many writes, syncs and lanes were asked for, up to the last value of a `u64`.
#[derive(Clone, Copy, Debug, PartialEq, Eq)]
pub struct Counts {
    pub writes: u64,
    pub syncs: u64,
    pub lanes: u64,
}
