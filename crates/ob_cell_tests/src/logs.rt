//! Records against cells made elsewhere, at each moment of an append, and each rule broken once.

ghost use Rattle.std.specs.Prelude.{◌≡◌, ◌<◌, ◌≤◌, ◌^◌, ◌∷◌, IfSome, Some, replicate, None, true};

use crate::shared::{
    STORE_FAULT, damaged, left_after, new_sink, new_store, params, sealed_as, spelled, test_sealer,
};
use ob_base::{Check, Failed, Fault, Key, Params};
use ob_cells::read_cells;
use ob_log::{Record, append, read_open};
use ob_mem::{Fail, MemStore};
use ob_seal::Sealer;
use ob_store::{Blind, SinkWatch, Store, Watch, write_through};
use std::alloc::Global;
use std::process::Abort;

// The words of three batches, as the tape of another implementation drew them.
const FIRST: [u64; 2] = [6358360514227290561, 11633887360776027008];

const SECOND: [u64; 2] = [14052829551288606090, 10622309020714539063];

const THIRD: [u64; 2] = [10102863338132011689, 14418781035664499212];

// What a call answers: of a read, how many records.
type Answer = Result<usize, Fault>;

// A call on a store and on the log in it.
#[derive(Clone, Copy)]
enum Call {
    // Appends the record of a batch of an epoch, with the place of its first word: what its first
    // place asks for, the others being pads, and its words.
    Append((u64, u32, u64), Option<Key>, &'static [u64]),
    // Makes so many other seals.
    Seal(u64),
    // Fills a cell with a byte.
    Fill(u64, u8),
    // Writes a cell of a body under the seal of this number: the epoch, the batch, and the kind and
    // key of two places.
    Forge(u64, u64, [u8; 6]),
    // Changes a bit of a cell.
    Bend(u64),
    // Reads the open records of epoch 1: how many they are.
    Read,
}

// One place asks for a key, or for none, and 63 for none.
fn one_ask(one: Option<Key>) -> [Option<Key>; 64]
    ensures { result ≡ one ∷ replicate 63 None }
{
    let mut asks = [None; 64];
    asks[0] = one;
    asks
}

// Whether it is a key of the store, or none.
fn is_low(p: &Params, one: Option<Key>) -> bool
    ensures { result ≡ true → IfSome one (λ key. key < p.now.keys) }
{
    match one {
        Some(key) => key < p.keys,
        None => true,
    }
}

// Appends a record whose first place asks for a key, or for none, and the others for none.
fn append_one<W: Watch>(
    store: &mut MemStore,
    sealer: &mut Sealer,
    p: &Params,
    at: (u64, u32, u64),
    one: Option<Key>,
    words: &[u64],
    watch: &mut W,
) -> Answer
    requires none_out { store.old.log.out ≡ 0 }
    ensures none_out { store.new.log.out ≡ 0 }
{
    let (epoch, batch, first) = at;
    if epoch > 1 << 62
        || batch >= p.batches
        || words.len() != p.places as usize
        || !is_low(p, one)
    {
        return Err(Fault::Usage);
    }
    let asks = one_ask(one);
    let asks = &asks[..words.len()];
    match append(store, sealer, p, epoch, batch, first, asks, words, watch) {
        Ok(()) => Ok(0),
        Err(fault) => Err(fault),
    }
}

// Makes so many seals.
fn seal_more(sealer: &mut Sealer, many: u64) {
    for _ in 0..many {
        let _ = sealer.seal(0, &[0; 96]);
    }
}

// The plain bytes of a body: the epoch, the batch, and the kind and key of two places.
fn body_of(numbers: [u8; 6]) -> [u8; 96] {
    let mut plain = [0; 96];
    plain[0] = numbers[0];
    plain[8] = numbers[1];
    plain[20] = numbers[2];
    plain[21] = numbers[3];
    plain[33] = numbers[4];
    plain[34] = numbers[5];
    plain
}

// The bytes of a cell.
fn cell_of(store: &mut MemStore, cell: u64) -> Result<[u8; 128], Failed>
    requires fits { cell < 2 ^ 63 }
    ensures none_out { store.new.log.out ≤ store.old.log.out }
{
    let mut cells = [[0; 128]];
    match read_cells(store, cell, &mut cells, &mut Blind) {
        Ok(()) => Ok(cells[0]),
        Err(Failed) => Err(Failed),
    }
}

// Writes a cell.
fn put(store: &mut MemStore, cell: u64, bytes: &[u8; 128]) -> Answer
    requires none_out { store.old.log.out ≡ 0 }
    ensures none_out { store.new.log.out ≡ 0 }
{
    match write_through(store, cell, bytes, &mut Blind) {
        Ok(()) => Ok(0),
        Err(Failed) => Err(Fault::SinkFault),
    }
}

// Changes a bit of a cell.
fn bend(store: &mut MemStore, cell: u64) -> Answer
    requires none_out { store.old.log.out ≡ 0 }
    ensures none_out { store.new.log.out ≡ 0 }
{
    match cell_of(store, cell.min(1 << 20)) {
        Ok(mut bytes) => {
            bytes[50] ^= 1;
            put(store, cell, &bytes)
        }
        Err(Failed) => Err(Fault::SourceFault),
    }
}

// How many records of epoch 1 are open.
fn count_open<W: Watch>(
    alloc: Global,
    p: &Params,
    store: &mut MemStore,
    sealer: &Sealer,
    watch: &mut W,
) -> Answer
    ensures none_out { store.new.log.out ≤ store.old.log.out }
{
    match read_open(alloc, store, sealer, p, 1, watch) {
        Ok(records) => Ok(records.as_slice().len()),
        Err(fault) => Err(fault),
    }
}

// Makes a call.
fn make<W: Watch>(
    alloc: Global,
    p: &Params,
    store: &mut MemStore,
    sealer: &mut Sealer,
    call: &Call,
    watch: &mut W,
) -> Answer
    requires none_out { store.old.log.out ≡ 0 }
    ensures none_out { store.new.log.out ≡ 0 }
{
    match *call {
        Call::Append(at, one, words) => append_one(store, sealer, p, at, one, words, watch),
        Call::Seal(many) => {
            seal_more(sealer, many);
            Ok(0)
        }
        Call::Fill(cell, byte) => put(store, cell, &[byte; 128]),
        Call::Forge(cell, number, numbers) => {
            let bytes = sealed_as(cell, (2, number), &body_of(numbers));
            put(store, cell, &bytes)
        }
        Call::Bend(cell) => bend(store, cell),
        Call::Read => count_open(alloc, p, store, sealer, watch),
    }
}

type Row = (Call, Answer);

// A store in which these calls were made, each of which has to answer so, and what was then shown.
fn played(
    rt: &impl Abort,
    alloc: Global,
    p: &Params,
    fails: &[Fail],
    calls: &[Row],
    shown: &str,
) -> MemStore
    ensures { result.log.out ≡ 0 }
{
    let mut store = new_store(rt, alloc, 200, fails);
    let mut sink = new_sink(rt, alloc, 200);
    let mut sealer = test_sealer(2);
    let mut watch = SinkWatch::new(&mut sink);
    for (call, wanted) in calls {
        let answer = make(alloc, p, &mut store, &mut sealer, call, &mut watch);
        assert!(rt; answer == *wanted, "{shown}");
    }
    assert!(rt; sink.written() == shown.as_bytes());
    store
}

const ONE: Row = (Call::Append((1, 0, 0), None, &FIRST), Ok(0));

const TWO: Row = (Call::Append((1, 1, 2), None, &SECOND), Ok(0));

// Two batches and one of the next epoch are written; then gates are shut and opened.
const WRITTEN: &[Row] = &[
    ONE,
    TWO,
    (Call::Seal(36), Ok(0)),
    (Call::Append((2, 0, 31), Some(5), &THIRD), Ok(0)),
    (Call::Read, Ok(2)),
    (Call::Fill(16, 0), Ok(0)),
    (Call::Read, Ok(1)),
    (Call::Bend(14), Ok(0)),
    (Call::Fill(16, 0xA5), Ok(0)),
    (Call::Read, Ok(0)),
    (Call::Fill(14, 0xA5), Ok(0)),
    (Call::Read, Ok(2)),
];

// A bit of the first body is another one. The tags are those of another implementation.
const BENT: &[Row] = &[
    ONE,
    (Call::Bend(13), Ok(0)),
    (
        Call::Read,
        Err(Fault::Damaged {
            cell: 13,
            check: Check::Tag,
            kept: *b"\x80\x13\x5f\xb4\xf2\x6b\xc7\x48\x79\x05\x46\xd9\x39\x85\xba\x0c",
            computed: *b"\x59\x4e\x0d\xda\x80\x56\x84\x94\xb6\xfe\x48\xd5\x8a\x2e\xc7\xe7",
        }),
    ),
];

// Bodies of two cells, of which the last one is sealed one number too far.
const WIDE: &[Row] = &[
    (Call::Append((1, 1, 0), Some(7), &[9; 8]), Ok(0)),
    (Call::Append((1, 0, 0), Some(7), &[9; 8]), Ok(0)),
    (Call::Read, Ok(2)),
    (Call::Forge(19, 2, [0; 6]), Ok(0)),
    (
        Call::Read,
        Err(Fault::Damaged {
            cell: 19,
            check: Check::Seal,
            kept: [2, 0, 0, 0, 0, 0, 0, 0, 2, 0, 0, 0, 0, 0, 0, 0],
            computed: [2, 0, 0, 0, 0, 0, 0, 0, 1, 0, 0, 0, 0, 0, 0, 0],
        }),
    ),
];

// Where a batch asks for key 7 once, beside a pad.
const FORGED: &[Row] = &[
    (Call::Forge(13, 0, [1, 0, 1, 7, 1, 0]), Ok(0)),
    (Call::Fill(14, 0xA5), Ok(0)),
    (Call::Read, Ok(1)),
];

// How many places a batch has, the calls that fail, those that are made, and what is shown.
struct Series(u32, &'static [Fail], &'static [Row], &'static str);

const SERIES: &[Series] = &[
    Series(
        2,
        &[],
        WRITTEN,
        "W 13\nS\nW 14\nS\nW 15\nS\nW 16\nS\nW 9\nS\nW 10\nS\nR 13\nR 14\nR 15\nR 16\nR 13\nR 14\nR 15\nR 16\nR 13\nR 14\nR 15\nR 16\nR 13\nR 14\nR 15\nR 16\n",
    ),
    // The second batch's body isn't read.
    Series(
        2,
        &[Fail::Read {
            cell: 15,
            writes: 4,
        }],
        &[ONE, TWO, (Call::Read, Err(STORE_FAULT))],
        "W 13\nS\nW 14\nS\nW 15\nS\nW 16\nS\nR 13\nR 14\nR 15\n",
    ),
    Series(2, &[], BENT, "W 13\nS\nW 14\nS\nR 13\nR 14\nR 15\nR 16\n"),
    Series(2, &[], FORGED, "R 13\nR 14\nR 15\nR 16\n"),
    Series(
        8,
        &[],
        WIDE,
        "W 18\nW 19\nS\nW 20\nS\nW 15\nW 16\nS\nW 17\nS\nR 15\nR 16\nR 17\nR 18\nR 19\nR 20\nR 15\nR 16\nR 17\nR 18\nR 19\nR 20\n",
    ),
];

// Makes the calls of a series, each of which has to answer so.
fn play(rt: &impl Abort, alloc: Global, series: &Series) {
    let &Series(places, fails, calls, shown) = series;
    let _ = played(rt, alloc, &params(rt, 8, places), fails, calls, shown);
}

#[test]
fn calls_answer(rt: HostRuntime) {
    for series in SERIES {
        play(&rt, rt.alloc(), series);
    }
}

// The calls that fail at an append, what it answers, and what it shows.
struct Append(&'static [Fail], Answer, &'static str);

const WHOLE: Append = Append(&[], Ok(0), "W 13\nS\nW 14\nS\n");

// The body isn't written, or not made sure of; or the gate.
const NO_BODY: Append = Append(&[Fail::Write(0)], Err(STORE_FAULT), "W 13\n");

const NO_BODY_SURE: Append = Append(&[Fail::Sync(0)], Err(STORE_FAULT), "W 13\n");

const NO_GATE: Append = Append(&[Fail::Write(1)], Err(STORE_FAULT), "W 13\nS\nW 14\n");

const NO_GATE_SURE: Append = Append(&[Fail::Sync(1)], Err(STORE_FAULT), "W 13\nS\nW 14\n");

// An append; the moment of a crash; and how many records are open where that leaves in their cells
// that aren't sure what they got last, zeros, or A5 in every byte.
struct Crash(Append, usize, usize, usize, Option<usize>);

const CRASHES: &[Crash] = &[
    Crash(WHOLE, 0, 0, 0, Some(0)),
    Crash(WHOLE, 1, 0, 0, Some(0)),
    Crash(WHOLE, 2, 0, 0, Some(0)),
    Crash(WHOLE, 3, 1, 0, Some(1)),
    Crash(WHOLE, 4, 1, 1, Some(1)),
    Crash(NO_BODY, 4, 0, 0, None),
    Crash(NO_BODY_SURE, 4, 0, 0, None),
    Crash(NO_GATE, 4, 1, 0, None),
    Crash(NO_GATE_SURE, 4, 1, 0, None),
];

// A store behind an append, which answers and shows what it should.
fn appended(rt: &impl Abort, alloc: Global, p: &Params, append: &Append) -> MemStore
    ensures { result.log.out ≡ 0 }
{
    let &Append(fails, answer, shown) = append;
    let calls = [(Call::Append((1, 0, 0), None, &FIRST), answer)];
    played(rt, alloc, p, fails, &calls, shown)
}

// What a read of the open records answers after an append and a crash, which leaves this byte in
// the body and the gate, where they aren't sure.
fn read_after(rt: &impl Abort, alloc: Global, crash: &Crash, filling: Option<u8>) -> Answer {
    let Crash(append, moment, ..) = crash;
    let p = params(rt, 8, 2);
    let store = appended(rt, alloc, &p, append);
    let mut left = left_after(rt, &store, *moment, &[13, 14], filling);
    count_open(alloc, &p, &mut left, &test_sealer(2), &mut Blind)
}

// Whether so many records are open after a crash.
fn opens_so(rt: &impl Abort, alloc: Global, crash: &Crash) -> bool {
    let &Crash(_, _, last, zeros, open) = crash;
    read_after(rt, alloc, crash, None) == Ok(last)
        && read_after(rt, alloc, crash, Some(0)) == Ok(zeros)
        && (open == None || read_after(rt, alloc, crash, Some(0xA5)).ok() == open)
}

#[test]
fn a_crash_leaves_a_prefix(rt: HostRuntime) {
    for i in 0..CRASHES.len() {
        assert!(rt; opens_so(&rt, rt.alloc(), &CRASHES[i]), "crash {i}");
    }
}

// The cells were made by another implementation.
const CELLS: &[(u64, [u128; 8])] = &[
    (
        13,
        [
            0x02000000000000000000000000000000,
            0x55b275d14c65d8174ac3a499cf3e8406,
            0xa93cc77ac646cbca748e9e7b6a9e7504,
            0x9af88e38d3a574fd7e507ecb2ae98324,
            0x5ac338934071cb6eefcfbdb4235499d2,
            0xa9a3fe55e7eaac6ecb4f3f70ccce61b5,
            0xc490ac2b84b34fe1bda721d1cda42cf5,
            0x80135fb4f26bc748790546d93985ba0c,
        ],
    ),
    (
        15,
        [
            0x02000000000000000100000000000000,
            0x91195ab77c7de85b20e99188e3c48625,
            0x41d96da2c49321b9eb9891f8284c86dd,
            0xd3414db3947900a9634cbbfdd97b36ce,
            0xfc0fa2cfb767e40d2dc333740989362d,
            0x71dedcccd3ffc3714ceebfce26a61473,
            0x2ebf7f31a8ef883fd3140287464232bc,
            0x1227b76369c2508a955f09506148166c,
        ],
    ),
    (
        9,
        [
            0x02000000000000002600000000000000,
            0xad01369810b7edf47ead3828e3cfd7d0,
            0x2b3c527f7d74147d3fea0103fdc2a77c,
            0x69aedbb7085a2693748c4b150aed86bb,
            0x0e377ce0769f99d7698493b2cc7a2d3e,
            0x5abe4bf3b16d8fbc9720fe4dd6bba0c0,
            0xd4a829f9e5c474825bf50b50f4ea0997,
            0x5c65a230a7367acc19181ab5dd369ff3,
        ],
    ),
];

// A store in which three records were written.
fn with_records(rt: &impl Abort, alloc: Global, p: &Params) -> MemStore
    ensures { result.log.out ≡ 0 }
{
    let shown = "W 13\nS\nW 14\nS\nW 15\nS\nW 16\nS\nW 9\nS\nW 10\nS\n";
    played(rt, alloc, p, &[], &WRITTEN[..4], shown)
}

// Whether a cell has these bytes, before its open gate.
fn is_spelled(rt: &impl Abort, store: &mut MemStore, cell: u64, words: &[u128; 8]) -> bool {
    assert!(rt; cell < 200);
    cell_of(store, cell).ok() == Some(spelled(words))
        && cell_of(store, cell + 1).ok() == Some([0xA5; 128])
}

#[test]
fn records_are_spelled(rt: HostRuntime) {
    let mut store = with_records(&rt, rt.alloc(), &params(&rt, 8, 2));
    for (cell, words) in CELLS {
        assert!(&rt; is_spelled(&rt, &mut store, *cell, words), "{cell}");
    }
}

// Whether a record has this place of its first word, and these words, for places that ask for none.
fn is_told(record: &Record, first: u64, words: &[u64]) -> bool {
    record.generation() == 2
        && record.first() == first
        && record.asks() == [None, None].as_slice()
        && record.words() == words
}

// Whether these are the records of the first two batches.
fn are_told(records: &[Record]) -> bool {
    records.len() == 2 && is_told(&records[0], 0, &FIRST) && is_told(&records[1], 2, &SECOND)
}

// Whether the first two batches are told of a store in which three records were written.
fn tells_two(rt: &impl Abort, alloc: Global) -> bool {
    let p = params(rt, 8, 2);
    let mut store = with_records(rt, alloc, &p);
    match read_open(alloc, &mut store, &test_sealer(2), &p, 1, &mut Blind) {
        Ok(records) => are_told(records.as_slice()),
        Err(_) => false,
    }
}

#[test]
fn records_are_told(rt: HostRuntime) {
    assert!(rt; tells_two(&rt, rt.alloc()));
}

// The keys of the store; the epoch, the batch, and the kind and key of two places in the first
// body; and what is told.
const BROKEN: &[(u32, [u8; 6], Check, u64, u64)] = &[
    (8, [3, 0, 0, 0, 0, 0], Check::Epoch, 3, 1),
    (8, [1, 1, 0, 0, 0, 0], Check::Form, 1, 0),
    (8, [1, 0, 2, 0, 0, 0], Check::Form, 2, 0),
    (8, [1, 0, 0, 4, 0, 0], Check::Form, 4, 0),
    (8, [1, 0, 1, 8, 0, 0], Check::Form, 8, 0),
    (8, [1, 0, 1, 0, 1, 0], Check::Form, 0, 1),
    (8, [1, 0, 1, 1, 1, 9], Check::Form, 9, 0),
    (1, [1, 0, 1, 0, 1, 0], Check::Form, 1, 0),
    (8, [3, 1, 2, 0, 0, 0], Check::Epoch, 3, 1),
    (8, [1, 1, 2, 0, 0, 0], Check::Form, 1, 0),
];

#[test]
fn the_first_broken_rule_is_told(rt: HostRuntime) {
    for &(keys, numbers, check, kept, least) in BROKEN {
        let calls = [
            (Call::Forge(13, 0, numbers), Ok(0)),
            (Call::Fill(14, 0xA5), Ok(0)),
            (Call::Read, Err(damaged(13, check, (kept, 0), (least, 0)))),
        ];
        let p = params(&rt, keys, 2);
        let _ = played(&rt, rt.alloc(), &p, &[], &calls, "R 13\nR 14\nR 15\nR 16\n");
    }
}
