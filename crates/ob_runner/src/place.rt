//! Where a runner stands in its script.

use ob_base::{Key, Value};
use ob_desk::Txn;
use ob_script::{Ask, Ending};

/// The get of an ask.
#[derive(Clone, Copy)]
pub struct Read {
    pub key: Key,
    /// What is to be added to the value, where the ask is an `add`.
    pub amount: Option<i64>,
    /// The index of the ask behind it.
    pub next: usize,
}

/// Where a runner stands in its script.
#[derive(Clone, Copy)]
pub enum Place {
    /// It is in no transaction. The next one is to begin, where there is one.
    Between,
    /// The ask at this index of its transaction is next, or the transaction's end where there is
    /// none.
    Next {
        txn: Txn,
        ask: usize,
    },
    /// This get isn't answered yet.
    Waiting {
        txn: Txn,
        read: Read,
    },
    /// The get of an `add` of this key was answered: a put of the sum is next, or an abort where
    /// there is none. The ask behind it is the one at this index.
    Adding {
        txn: Txn,
        key: Key,
        sum: Option<Value>,
        next: usize,
    },
    /// It asked to commit, and isn't told yet how the transaction ended.
    Asked {
        txn: Txn,
    },
    /// It was told that no more transactions begin.
    Stopped,
    /// It has signed off.
    Over,
}

/// What a script wants next of a transaction.
#[derive(Clone, Copy)]
pub enum Wanted {
    /// This ask, and the index of the one behind it.
    Ask { ask: Ask, next: usize },
    /// Its end.
    End { ending: Ending },
}
