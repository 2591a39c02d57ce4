//! Lines, letter by letter.

use crate::fixture::compare;
use ob_base::{Check, Fault, Field, Key, Op, Value};
use ob_mem::MemSink;
use ob_report::{Summary, drill_lines, fault_status, fault_text, text};
use ob_serial::{EpochRecord, Outcome, TxnRecord, Why};
use std::process::Abort;

// An operation: a put, a get of the client's own value, a get that found nothing, or a delete.
#[derive(Drop)]
enum Done {
    Put(Key, &'static str),
    Got(Key, &'static str),
    Absent(Key),
    Del(Key),
}

fn op_of<R: Abort>(rt: &R, done: &Done) -> Op<Key> {
    match *done {
        Done::Put(key, text) => Op::Put {
            key,
            value: value_of(rt, text),
        },
        Done::Got(key, text) => Op::Get {
            key,
            reply: Some(value_of(rt, text)),
            source: 2,
        },
        Done::Absent(key) => Op::Get {
            key,
            reply: None,
            source: 0,
        },
        Done::Del(key) => Op::Del { key },
    }
}

fn value_of<R: Abort>(rt: &R, text: &str) -> Value {
    Value::new(text.as_bytes()).expect(rt, "a value of up to 64 bytes")
}

fn ops_of<R: AllocGlobal + Abort>(rt: &R, all: &[Done]) -> Vec<Op<Key>> {
    // The prover has to see this type named here.
    let _told: Option<Value> = None;
    let mut ops = Vec::new(rt.alloc());
    for done in all {
        ops.reserve(1).expect(rt, "memory");
        ops.push_reserved(op_of(rt, done));
    }
    ops
}

// A transaction of epoch 1: its ticket, its client, how it ended, and its operations.
type Txn<'a> = (u64, u32, Outcome<Key>, &'a [Done]);

// A record of epoch 1.
fn record_of<R: AllocGlobal + Abort>(rt: &R, rows: &[Txn]) -> EpochRecord<Key> {
    let mut txns = Vec::new(rt.alloc());
    for &(ticket, client, outcome, done) in rows {
        let ops = ops_of(rt, done);
        txns.reserve(1).expect(rt, "memory");
        txns.push_reserved(TxnRecord {
            epoch: 1,
            ticket,
            client,
            ops,
            outcome,
        });
    }
    EpochRecord { epoch: 1, txns }
}

// A sink with so much room, whose calls of these numbers fail.
fn sink_of<R: AllocGlobal + Abort>(rt: &R, room: usize, fails: &[u64]) -> MemSink {
    let fails = fails.to_vec(rt.alloc()).expect(rt, "memory");
    MemSink::new(rt.alloc(), room, fails).expect(rt, "memory")
}

// Compares what is written with lines, with a `/` for each line end.
fn expect_lines<R: AllocGlobal + Abort>(rt: &R, sink: &MemSink, lines: &str) {
    let wanted = lines.replace(rt.alloc(), "/", "\n").expect(rt, "memory");
    compare(rt, lines, sink.written(), wanted.as_str());
}

// Compares the lines of a record of these transactions.
fn expect_record<R: AllocGlobal + Abort>(rt: &R, txns: &[Txn], lines: &str) {
    let record = record_of(rt, txns);
    let mut sink = sink_of(rt, 1000, &[]);
    assert!(rt; text(&record, &mut sink).is_ok());
    expect_lines(rt, &sink, lines);
}

// How a transaction without operations ends, and the words of that.
static OUTCOMES: [(Outcome<Key>, &str); 9] = [
    (
        Outcome::Aborted {
            why: Why::Conflict { key: 5, reader: 7 },
        },
        "epoch 1/txn 2 client 3 aborted conflict key 5 reader 7/",
    ),
    (
        Outcome::Aborted {
            why: Why::Depends { on: 1 },
        },
        "epoch 1/txn 2 client 3 aborted depends on 1/",
    ),
    (
        Outcome::Aborted {
            why: Why::ReadsFull { queued: 4, left: 0 },
        },
        "epoch 1/txn 2 client 3 aborted reads full queued 4 left 0/",
    ),
    (
        Outcome::Aborted {
            why: Why::WritesFull { keys: 2 },
        },
        "epoch 1/txn 2 client 3 aborted writes full keys 2/",
    ),
    (
        Outcome::Aborted {
            why: Why::ShareReads { keys: 1 },
        },
        "epoch 1/txn 2 client 3 aborted share reads 1/",
    ),
    (
        Outcome::Aborted {
            why: Why::ShareWrites { keys: 64 },
        },
        "epoch 1/txn 2 client 3 aborted share writes 64/",
    ),
    (
        Outcome::Aborted { why: Why::EpochEnd },
        "epoch 1/txn 2 client 3 aborted epoch end/",
    ),
    (
        Outcome::Aborted { why: Why::Asked },
        "epoch 1/txn 2 client 3 aborted asked/",
    ),
    (Outcome::Committed, "epoch 1/txn 2 client 3 committed/"),
];

#[test]
fn each_outcome_has_its_words(rt: HostRuntime) {
    for (outcome, lines) in &OUTCOMES {
        expect_record(&rt, &[(2, 3, *outcome, &[])], *lines);
    }
}

static DONE: [Done; 6] = [
    Done::Put(5, "hi"),
    Done::Got(5, "hi"),
    Done::Absent(4294967295),
    Done::Put(0, ""),
    Done::Got(0, ""),
    Done::Del(17),
];

#[test]
fn each_operation_has_its_line(rt: HostRuntime) {
    expect_record(
        &rt,
        &[(2, 3, Outcome::Committed, &DONE)],
        "epoch 1/txn 2 client 3 committed/put 5 hi/get 5 = hi/get 4294967295 absent/\
        put 0 /get 0 = /del 17/",
    );
}

static ABSENT: [Done; 1] = [Done::Absent(0)];

static PUT: [Done; 1] = [Done::Put(3, "x")];

const FULL: Outcome<Key> = Outcome::Aborted {
    why: Why::ReadsFull { queued: 0, left: 0 },
};

#[test]
fn transactions_follow_each_other(rt: HostRuntime) {
    expect_record(
        &rt,
        &[(2, 3, FULL, &ABSENT), (3, 64, Outcome::Committed, &PUT)],
        "epoch 1/txn 2 client 3 aborted reads full queued 0 left 0/get 0 absent/\
        txn 3 client 64 committed/put 3 x/",
    );
}

static FAULTS: [(Fault, u8, &str); 14] = [
    (Fault::Usage, 2, "fault: usage/"),
    (Fault::BadScript { line: 4 }, 2, "fault: script line 4/"),
    (
        Fault::BadParams { field: Field::N },
        2,
        "fault: parameter N/",
    ),
    (
        Fault::BadParams {
            field: Field::LANES,
        },
        2,
        "fault: parameter LANES/",
    ),
    (
        Fault::BadParams {
            field: Field::READS,
        },
        2,
        "fault: parameter READS/",
    ),
    (
        Fault::BadParams {
            field: Field::WRITES,
        },
        2,
        "fault: parameter WRITES/",
    ),
    (Fault::NotStore, 3, "fault: not a store/"),
    (Fault::StoreFault { unsure: None }, 5, "fault: store/"),
    (
        Fault::StoreFault { unsure: Some(1) },
        5,
        "fault: store, epoch 1 unsure/",
    ),
    (
        Fault::StashFull { rows: 2 },
        6,
        "fault: stash full, 2 rows/",
    ),
    (Fault::SourceFault, 7, "fault: source/"),
    (Fault::SinkFault, 7, "fault: sink/"),
    (
        Fault::Worn {
            number: 4611686018427387904,
        },
        8,
        "fault: worn at 4611686018427387904/",
    ),
    (Fault::Memory, 9, "fault: memory/"),
];

static CHECKS: [(Check, &str); 4] = [
    (Check::Tag, "fault: damaged cell 41 tag/"),
    (Check::Seal, "fault: damaged cell 41 seal/"),
    (Check::Epoch, "fault: damaged cell 41 epoch/"),
    (Check::Form, "fault: damaged cell 41 form/"),
];

fn damaged(check: Check) -> Fault {
    Fault::Damaged {
        cell: 41,
        check,
        kept: [1; 16],
        computed: [2; 16],
    }
}

fn expect_fault<R: AllocGlobal + Abort>(rt: &R, fault: &Fault, status: u8, line: &str) {
    let mut sink = sink_of(rt, 100, &[]);
    assert!(rt; fault_text(fault, &mut sink).is_ok() && fault_status(fault) == status);
    expect_lines(rt, &sink, line);
}

#[test]
fn each_fault_has_its_status_and_line(rt: HostRuntime) {
    for (fault, status, line) in &FAULTS {
        expect_fault(&rt, fault, *status, line);
    }
    for (check, line) in &CHECKS {
        expect_fault(&rt, &damaged(*check), 4, line);
    }
}

// So many puts of 64 letters.
fn many_puts<R: AllocGlobal + Abort>(rt: &R, puts: u32) -> Vec<Done> {
    let letters = "xxxxxxxxxxxxxxxxxxxxxxxxxxxxxxxxxxxxxxxxxxxxxxxxxxxxxxxxxxxxxxxx";
    let mut all = Vec::new(rt.alloc());
    for key in 0..puts {
        all.reserve(1).expect(rt, "memory");
        all.push_reserved(Done::Put(key % 10, letters));
    }
    all
}

// How many puts a transaction has, the bytes of its record, and the calls that write it: 33 bytes
// of the first two lines, and 71 of each put, in calls of 4,096 bytes, and one of the rest.
static PAGES: [(u32, usize, u64); 4] = [(0, 33, 1), (57, 4080, 1), (58, 4151, 2), (115, 8198, 3)];

// A call that fails leaves the pages before it.
fn expect_front<R: AllocGlobal + Abort>(
    rt: &R,
    record: &EpochRecord<Key>,
    call: u64,
    whole: &[u8],
) {
    let mut sink = sink_of(rt, 10_000, &[call]);
    assert!(rt; text(record, &mut sink).is_err() && sink.faults() == 1);
    let front = sink.written();
    assert!(rt; front.len() as u64 == call.wrapping_mul(4096) && whole.starts_with(front));
}

// A record is written in so many bytes and calls.
fn expect_calls<R: AllocGlobal + Abort>(
    rt: &R,
    record: &EpochRecord<Key>,
    bytes: usize,
    calls: u64,
) {
    let mut whole = sink_of(rt, 10_000, &[calls]);
    assert!(rt; text(record, &mut whole).is_ok());
    assert!(rt; whole.written().len() == bytes);
    for call in 0..calls {
        expect_front(rt, record, call, whole.written());
    }
}

fn expect_pages<R: AllocGlobal + Abort>(rt: &R, puts: u32, bytes: usize, calls: u64) {
    let puts = many_puts(rt, puts);
    let record = record_of(rt, &[(2, 3, Outcome::Committed, &puts)]);
    expect_calls(rt, &record, bytes, calls);
}

#[test]
fn a_report_is_written_in_pages(rt: HostRuntime) {
    for &(puts, bytes, calls) in &PAGES {
        expect_pages(&rt, puts, bytes, calls);
    }
}

// A sink without room for a line has the front of it.
fn expect_cut<R: AllocGlobal + Abort>(rt: &R, fault: &Fault, room: usize, line: &[u8]) {
    let mut sink = sink_of(rt, room, &[]);
    assert!(rt; fault_text(fault, &mut sink).is_err());
    assert!(rt; sink.written().len() == room && line.starts_with(sink.written()));
}

#[test]
fn a_sink_without_room_has_a_front(rt: HostRuntime) {
    let line = b"fault: damaged cell 41 seal\n";
    for room in 0..28 {
        expect_cut(&rt, &damaged(Check::Seal), room, line);
    }
}

// The digest of no bytes, and that of the row of a key that has a value of one byte.
const OF_NONE: [u8; 32] = [
    0xe3, 0xb0, 0xc4, 0x42, 0x98, 0xfc, 0x1c, 0x14, 0x9a, 0xfb, 0xf4, 0xc8, 0x99, 0x6f, 0xb9, 0x24,
    0x27, 0xae, 0x41, 0xe4, 0x64, 0x9b, 0x93, 0x4c, 0xa4, 0x95, 0x99, 0x1b, 0x78, 0x52, 0xb8, 0x55,
];

const OF_ONE: [u8; 32] = [
    0x16, 0x9a, 0xb6, 0x23, 0xb7, 0x63, 0x23, 0xd2, 0xb6, 0x3d, 0x24, 0xe3, 0x60, 0xd3, 0xc5, 0xc2,
    0xbf, 0x1e, 0x9d, 0x91, 0x22, 0xee, 0x79, 0xef, 0xb4, 0xe1, 0x14, 0x26, 0xcb, 0x17, 0x73, 0x3b,
];

fn summary(count: u32, map: [u8; 32]) -> Summary {
    Summary {
        count,
        epochs: count as u64,
        committed: count as u64,
        keys: count,
        map,
    }
}

fn expect_summary<R: AllocGlobal + Abort>(rt: &R, of: &Summary, lines: &str) {
    // They are written in one piece.
    let mut sink = sink_of(rt, 200, &[1]);
    assert!(rt; drill_lines(of, &mut sink).is_ok());
    expect_lines(rt, &sink, lines);
}

const ONE: &str = "drill 1/epochs 1/committed 1/keys 1/\
    map 169ab623b76323d2b63d24e360d3c5c2bf1e9d9122ee79efb4e11426cb17733b/";

#[test]
fn a_self_test_has_a_summary(rt: HostRuntime) {
    expect_summary(
        &rt,
        &summary(0, OF_NONE),
        "drill 0/epochs 0/committed 0/keys 0/\
        map e3b0c44298fc1c149afbf4c8996fb92427ae41e4649b934ca495991b7852b855/",
    );
    expect_summary(&rt, &summary(1, OF_ONE), ONE);
    let largest = Summary {
        count: 10_000,
        epochs: u64::MAX,
        committed: 9_999,
        keys: 256,
        map: [0xff; 32],
    };
    expect_summary(
        &rt,
        &largest,
        "drill 10000/epochs 18446744073709551615/committed 9999/keys 256/\
        map ffffffffffffffffffffffffffffffffffffffffffffffffffffffffffffffff/",
    );
}

// A sink with too little room has the front of the lines.
fn expect_cut_summary<R: AllocGlobal + Abort>(rt: &R, whole: &[u8], room: usize) {
    let mut sink = sink_of(rt, room, &[]);
    assert!(rt; drill_lines(&summary(1, OF_ONE), &mut sink).is_err() == (room < whole.len()));
    assert!(rt; sink.written().len() == room && whole.starts_with(sink.written()));
}

#[test]
fn a_summary_is_cut_where_room_ends(rt: HostRuntime) {
    let whole = ONE.replace(rt.alloc(), "/", "\n").expect(&rt, "memory");
    assert!(rt; whole.len() == 105);
    for room in 0..106 {
        expect_cut_summary(&rt, whole.as_bytes(), room);
    }
}
