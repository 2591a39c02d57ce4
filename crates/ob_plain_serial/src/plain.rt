//! Transactions run one by one.

ghost use Rattle.std.specs.Prelude.{◌≡◌, IfOk, MatchBool, MatchOption, map, filter, ◌∷◌, []};
ghost use Rattle.std.specs.FinMap.{get};
ghost use Rattle.std.specs.Ordering.{nat_cmp};
ghost use Rattle.ob_serial.specs.Serial.{Map, OneByOne, Replays, OpReplays, after_op, after_ops, is_committed, committed_of};
ghost use Rattle.ob_serial.specs.Views.{txn_of, record_of};

use crate::map::PlainMap;
use ob_base::{Key, Memory, Op, Value};
use ob_serial::{EpochRecord, Outcome, TxnRecord};

fn is_same(one: Option<Value>, other: Option<Value>) -> bool
    ensures { MatchBool result (one ≡ other) (one ≡ other → ⊥) }
{
    match (one, other) {
        (None, None) => true,
        (Some(x), Some(y)) => x.as_slice() == y.as_slice(),
        (None, Some(_)) | (Some(_), None) => false,
    }
}

fn finds(values: &PlainMap, key: Key, reply: Option<Value>) -> bool
    ensures { MatchBool result (get values.now key ≡ reply) (get values.now key ≡ reply → ⊥) }
{
    is_same(values.get(key), reply)
}

// Does an operation on the map, if it is answered as the map has it.
fn replay_op(values: &mut PlainMap, op: &Op<Key>) -> Result<bool, Memory>
    ensures { IfOk result (λ good. MatchBool good
        (OpReplays nat_cmp values.old op.now × (values.new ≡ after_op nat_cmp values.old op.now))
        (OpReplays nat_cmp values.old op.now → ⊥)) }
{
    match *op {
        Op::Get { key, reply, .. } => Ok(finds(values, key, reply)),
        Op::Put { key, value } => {
            values.insert(key, value)?;
            Ok(true)
        }
        Op::Del { key } => {
            values.remove(key);
            Ok(true)
        }
    }
}

// Does the operations on the map, if each is answered as the map then has it.
fn replay_ops(values: &mut PlainMap, ops: &[Op<Key>]) -> Result<bool, Memory>
    ensures { IfOk result (λ good. MatchBool good
        (Replays nat_cmp values.old ops.now × (values.new ≡ after_ops nat_cmp values.old ops.now))
        (Replays nat_cmp values.old ops.now → ⊥)) }
{
    for op in ops {
        if !replay_op(values, op)? {
            return Ok(false);
        }
    }
    Ok(true)
}

fn is_committed(txn: &TxnRecord<Key>) -> bool
    ensures { result ≡ is_committed (txn_of txn.now) }
{
    match txn.outcome {
        Outcome::Committed => true,
        Outcome::Aborted { .. } => false,
        Outcome::Unsure { .. } => false,
    }
}

// Runs the transaction, if it is committed and that can be.
fn run_txn(values: &mut PlainMap, txn: &TxnRecord<Key>) -> Result<bool, Memory>
    ensures { IfOk result (λ good. MatchBool good
        (OneByOne nat_cmp values.old (filter (λ t. is_committed t) (txn_of txn.now ∷ []))
        values.new)
        ((last : Map nat_cmp)
        → OneByOne nat_cmp values.old (filter (λ t. is_committed t) (txn_of txn.now ∷ [])) last
        → ⊥)) }
{
    if !is_committed(txn) {
        return Ok(true);
    }
    replay_ops(values, &txn.ops)
}

// Runs the committed ones of the transactions one by one, if that can be.
fn run_txns(values: &mut PlainMap, txns: &[TxnRecord<Key>]) -> Result<bool, Memory>
    ensures { IfOk result (λ good. MatchBool good
        (OneByOne nat_cmp values.old (filter (λ t. is_committed t) (map (λ t. txn_of t) txns.now))
        values.new)
        ((last : Map nat_cmp)
        → OneByOne nat_cmp values.old (filter (λ t. is_committed t) (map (λ t. txn_of t) txns.now))
        last → ⊥)) }
{
    for txn in txns {
        if !run_txn(values, txn)? {
            return Ok(false);
        }
    }
    Ok(true)
}

// Runs the committed transactions of a record one by one, if that can be.
fn run_record(values: &mut PlainMap, one: &EpochRecord<Key>) -> Result<bool, Memory>
    ensures { IfOk result (λ good. MatchBool good
        (OneByOne nat_cmp values.old (filter (λ t. is_committed t) (record_of one.now).txns)
        values.new)
        ((last : Map nat_cmp)
        → OneByOne nat_cmp values.old (filter (λ t. is_committed t) (record_of one.now).txns) last
        → ⊥)) }
{
    run_txns(values, &one.txns)
}

// Runs the committed transactions of the records one by one, if that can be.
fn run_records(values: &mut PlainMap, records: &[EpochRecord<Key>]) -> Result<bool, Memory>
    ensures { IfOk result (λ good. MatchBool good
        (OneByOne nat_cmp values.old (committed_of (map (λ r. record_of r) records.now)) values.new)
        ((last : Map nat_cmp)
        → OneByOne nat_cmp values.old (committed_of (map (λ r. record_of r) records.now)) last
        → ⊥)) }
{
    for one in records {
        if !run_record(values, one)? {
            return Ok(false);
        }
    }
    Ok(true)
}

/// Runs the committed transactions of the records one by one from a map, and gives the map that
/// they leave: none exactly where some get among them finds another reply than its own.
///
/// # Errors
/// Memory was wanting.
pub fn one_by_one(first: PlainMap, records: &[EpochRecord<Key>]) -> Result<Option<PlainMap>, Memory>
    ensures { IfOk result (λ r. MatchOption r
        ((last : Map nat_cmp)
        → OneByOne nat_cmp first (committed_of (map (λ r. record_of r) records.now)) last → ⊥)
        (λ last. OneByOne nat_cmp first (committed_of (map (λ r. record_of r) records.now)) last)) }
{
    let mut values = first;
    if run_records(&mut values, records)? {
        Ok(Some(values))
    } else {
        Ok(None)
    }
}
