//! Whether two answers are the same, and whether a record tells what a plain epoch's lists have.

use crate::plain::{PlainEpoch, PlainTxn};
use ob_base::{Key, Op, Value, Write};
use ob_desk::{Done, Got, Look};
use ob_serial::{EpochRecord, Outcome, TxnRecord, Why};

/// What a client is told: a value or none where its get is answered, and why its transaction is aborted
/// where it is.
pub type Told = (Option<Option<Value>>, Option<Why<Key>>);

/// What a get or a poll tells.
pub fn told_by_got(got: &Option<Got>) -> Option<Told> {
    match *got {
        Some(Got::Value { value }) => Some((Some(value), None)),
        Some(Got::Queued) => Some((None, None)),
        Some(Got::Aborted { why }) => Some((None, Some(why))),
        None => None,
    }
}

/// What a write or a request to commit tells.
pub fn told_by_done(done: &Option<Done>) -> Option<Told> {
    match *done {
        Some(Done::Yes) => Some((None, None)),
        Some(Done::Aborted { why }) => Some((None, Some(why))),
        None => None,
    }
}

/// Whether two looks see the same.
pub fn is_look(one: &Look, other: &Look) -> bool {
    one.waiting == other.waiting
        && one.live == other.live
        && one.queued == other.queued
        && one.left == other.left
        && one.txns == other.txns
        && one.clients == other.clients
}

/// Whether two write batches are the same.
pub fn are_writes(one: &[Write], other: &[Write]) -> bool {
    for (x, y) in one.iter().zip(other) {
        if x.key != y.key || x.value != y.value {
            return false;
        }
    }
    one.len() == other.len()
}

/// The key of an operation; what a put or a delete sets it to; and what a get is answered, with the
/// ticket whose that is.
pub fn parts_of(op: &Op<Key>) -> (Key, Option<Option<Value>>, Option<(Option<Value>, u64)>) {
    match *op {
        Op::Get { key, reply, source } => (key, None, Some((reply, source))),
        Op::Put { key, value } => (key, Some(Some(value)), None),
        Op::Del { key } => (key, Some(None), None),
    }
}

// Whether these are what the ticket did, in order.
fn are_done(epoch: &PlainEpoch, ticket: u64, ops: &[Op<Key>]) -> bool {
    let mut n: usize = 0;
    for deed in &epoch.deeds {
        if deed.ticket == ticket {
            match ops.get(n) {
                Some(op) => {
                    if parts_of(op) != parts_of(&deed.op) {
                        return false;
                    }
                }
                None => return false,
            }
            n = n.saturating_add(1);
        }
    }
    n == ops.len()
}

/// How the transaction of a published epoch ended.
pub fn outcome_of(txn: &PlainTxn) -> Outcome<Key> {
    match txn.why {
        Some(why) => Outcome::Aborted { why },
        None => Outcome::Committed,
    }
}

fn is_txn(epoch: &PlainEpoch, txn: &PlainTxn, told: &TxnRecord<Key>) -> bool {
    told.epoch == epoch.number
        && told.ticket == txn.ticket
        && told.client == txn.client
        && told.outcome == outcome_of(txn)
        && are_done(epoch, txn.ticket, &told.ops)
}

/// Whether the record tells of each transaction of the epoch what the lists have of it.
pub fn is_told(epoch: &PlainEpoch, told: &EpochRecord<Key>) -> bool {
    for (txn, told) in epoch.txns.iter().zip(&told.txns) {
        if !is_txn(epoch, txn, told) {
            return false;
        }
    }
    told.epoch == epoch.number && told.txns.len() == epoch.txns.len()
}
