//! A vault's calls as values.

use ob_base::{Fault, Key, Value, Write};

/// A call on a vault.
#[derive(Drop)]
pub enum Request {
    /// The keys of a batch, None for a pad.
    Fetch(Vec<Option<Key>>),
    /// The writes of an epoch, in rising order of keys.
    End(Vec<Write>),
}

/// What a vault answered.
#[derive(Drop)]
pub enum Reply {
    /// The values of the keys asked for.
    Values(Vec<Option<Value>>),
    /// The epoch has ended.
    Ended,
    /// Nothing was changed.
    Refused(Fault),
    /// The epoch may have ended or not.
    Doubt(Fault),
}
