//! A call on a store.

/// A call on a store, whatever it answered.
#[derive(Clone, Copy)]
pub enum Event {
    Read(u64),
    Write(u64),
    Sync,
}
