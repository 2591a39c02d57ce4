//! Calls of clients, each as far as it may be made: None where it may not.

use crate::may::{may_abort, may_access, may_begin, may_commit, may_poll, may_settle};
use ob_base::{Key, Memory, Value};
use ob_desk::{Begun, Desk, Done, Got, Txn};
use ob_serial::{Outcome, Why};

/// A transaction of the client begins.
pub fn begin(desk: &mut Desk, client: u32) -> Result<Option<Begun>, Memory> {
    if !may_begin(desk, client) {
        return Ok(None);
    }
    Ok(Some(desk.begin(client)?))
}

/// A get.
pub fn get(desk: &mut Desk, txn: &Txn, key: Key) -> Result<Option<Got>, Memory> {
    // The prover has to see this type named here.
    let _told: Option<Value> = None;
    if !may_access(desk, txn, key) {
        return Ok(None);
    }
    Ok(Some(desk.get(txn, key)?))
}

/// The get that waits, once more.
pub fn poll(desk: &mut Desk, txn: &Txn) -> Option<Got> {
    if !may_poll(desk, txn) {
        return None;
    }
    Some(desk.poll(txn))
}

/// A put, or a delete where there is no value.
pub fn write(
    desk: &mut Desk,
    txn: &Txn,
    key: Key,
    value: &Option<Value>,
) -> Result<Option<Done>, Memory> {
    if !may_access(desk, txn, key) {
        return Ok(None);
    }
    match *value {
        Some(value) => Ok(Some(desk.put(txn, key, value)?)),
        None => Ok(Some(desk.del(txn, key)?)),
    }
}

/// A request to commit.
pub fn commit(desk: &mut Desk, txn: &Txn) -> Option<Done> {
    if !may_commit(desk, txn) {
        return None;
    }
    Some(desk.commit(txn))
}

/// The transaction's client aborts it: why it is aborted.
pub fn abort(desk: &mut Desk, txn: &Txn) -> Option<Why<Key>> {
    if !may_abort(desk, txn) {
        return None;
    }
    Some(desk.abort(txn))
}

/// How the transaction ended, if it has.
pub fn settled(desk: &Desk, txn: &Txn) -> Option<Option<Outcome<Key>>> {
    if !may_settle(desk, txn) {
        return None;
    }
    Some(desk.settled(txn))
}
