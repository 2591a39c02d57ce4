//! What the transaction manager is asked, and what it answers.

use ob_base::{Fault, Key, Value};
use ob_serial::Why;

/// The name of a transaction.
#[derive(Clone, Copy, PartialEq, Eq)]
pub struct Txn {
    /// Its client's number.
    pub client: u32,
    pub epoch: u64,
    /// Its ticket in the epoch, from 1.
    pub ticket: u64,
}

/// What a begin is answered.
#[derive(Clone, Copy)]
pub enum Begun {
    /// The transaction that began.
    Txn { txn: Txn },
    /// None began: the desk was stopped, first with this fault.
    Stopped { fault: Fault },
}

/// What a get or a poll is answered.
#[derive(Clone, Copy)]
pub enum Got {
    /// The key's value, none where it is absent.
    Value { value: Option<Value> },
    /// The key waits for a batch: poll for it.
    Queued,
    /// The transaction is aborted.
    Aborted { why: Why<Key> },
}

/// What a put, a delete or a commit is answered.
#[derive(Clone, Copy)]
pub enum Done {
    Yes,
    /// The transaction is aborted.
    Aborted { why: Why<Key> },
}

/// What the driver of epochs sees of the running one.
#[derive(Clone, Copy)]
pub struct Look {
    /// Transactions that aren't aborted, and asked to commit or have a get that can't be answered
    /// yet.
    pub waiting: u64,
    /// Transactions that aren't aborted.
    pub live: u64,
    /// Keys in the queue.
    pub queued: u64,
    /// Batches not yet taken.
    pub left: u64,
    /// Transactions.
    pub txns: u64,
    /// Clients that haven't signed off.
    pub clients: u64,
}
