//! What is kept of a transaction and of a client.

use crate::calls::Txn;
use ob_base::Key;
use ob_serial::{Outcome, Why};

/// What is kept of a transaction beside its operations.
#[derive(Clone, Copy)]
pub struct Holder {
    /// Its client's number.
    pub client: u32,
    /// Whether it asked to commit.
    pub asked: bool,
    /// Why it was aborted, where it was in a call of its own or at a stop.
    pub cause: Option<Why<Key>>,
}

/// A client.
#[derive(Clone, Copy)]
pub struct Client {
    pub number: u32,
    /// Its last transaction.
    pub last: Option<Txn>,
    /// How that one ended, once its epoch is over.
    pub outcome: Option<Outcome<Key>>,
    pub signed_off: bool,
}
