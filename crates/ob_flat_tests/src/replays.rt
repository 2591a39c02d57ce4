//! Records that replay one by one, and records that don't.

use ob_base::{Key, Op, Value};
use ob_plain_serial::{PlainMap, one_by_one};
use ob_serial::{EpochRecord, Outcome, TxnRecord, Why};
use std::alloc::Global;
use std::process::Abort;

// A transaction of client 1 with one operation.
fn txn(
    rt: &impl Abort,
    alloc: Global,
    ticket: u64,
    op: Op<Key>,
    outcome: Outcome<Key>,
) -> TxnRecord<Key> {
    // The prover has to see this type named here.
    let _told: Option<Value> = None;
    let mut ops = Vec::with_capacity(alloc, 1).expect(rt, "memory");
    ops.push_reserved(op);
    TxnRecord {
        epoch: 1,
        ticket,
        client: 1,
        ops,
        outcome,
    }
}

// An epoch that puts a value at key 5 with this outcome, and then gets that key with this reply.
fn epoch(
    rt: &impl Abort,
    alloc: Global,
    value: Value,
    outcome: Outcome<Key>,
    reply: Option<Value>,
) -> Vec<EpochRecord<Key>> {
    let put = Op::Put { key: 5, value };
    let get = Op::Get {
        key: 5,
        reply,
        source: 1,
    };
    let mut txns = Vec::with_capacity(alloc, 2).expect(rt, "memory");
    let mut records = Vec::with_capacity(alloc, 1).expect(rt, "memory");
    txns.push_reserved(txn(rt, alloc, 1, put, outcome));
    txns.push_reserved(txn(rt, alloc, 2, get, Outcome::Committed));
    records.push_reserved(EpochRecord { epoch: 1, txns });
    records
}

// What key 5 has behind the records, where they replay on the empty map.
fn last_of(rt: &impl Abort, alloc: Global, records: &[EpochRecord<Key>]) -> Option<Option<Value>> {
    match one_by_one(PlainMap::new(alloc), records).expect(rt, "memory") {
        Some(values) => Some(values.get(5)),
        None => None,
    }
}

#[test]
fn records_replay_exactly_where_each_get_finds_its_reply(rt: HostRuntime) {
    let value = Value::new(b"hi").expect(&rt, "a value");
    let asked = Outcome::Aborted { why: Why::Asked };
    let rows = [
        (Outcome::Committed, Some(value), Some(Some(value))),
        (Outcome::Committed, None, None),
        (asked, None, Some(None)),
        (asked, Some(value), None),
    ];
    for (outcome, reply, wanted) in &rows {
        let records = epoch(&rt, rt.alloc(), value, *outcome, *reply);
        assert!(rt; last_of(&rt, rt.alloc(), &records) == *wanted);
    }
}
