//! What a read and a write are answered.

use ob_base::{Key, Value};

/// A version of a key.
#[derive(Clone, Copy)]
pub struct Version {
    /// The ticket that wrote it, from 1, or 0 for the value that the epoch began with.
    pub source: u64,
    /// The value, none for a delete or an absent key.
    pub value: Option<Value>,
}

/// What a get is answered.
#[derive(Clone, Copy)]
pub enum Read {
    /// The value, and the ticket whose version it is: 0 for the value that the epoch began with.
    Value { value: Option<Value>, source: u64 },
    /// The key is queued or in flight.
    Queued,
    /// So many keys are queued that the batches that are left have no place for this one.
    Full { queued: u64, left: u64 },
}

/// What a put or a delete is answered.
#[derive(Clone, Copy)]
pub enum Wrote {
    /// The key has this version.
    Yes,
    /// A later ticket, the reader, has read the version of the key that this one would cover.
    Conflict { key: Key, reader: u64 },
    /// So many other keys have versions that the write batch has no place for this one.
    Full { keys: u64 },
}
