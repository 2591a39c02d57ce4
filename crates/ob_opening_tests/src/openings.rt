//! Tests of openings: in order, after a crash at each moment, with each call failing.

ghost use Rattle.std.specs.Prelude.{◌≡◌, ◌≤◌, ◌∷◌, None, replicate};
ghost use Rattle.ob_mem.specs.Memory.{disk_of_store};

use crate::small::{READ, Told, blank_store, flip, small_store, test_keys, told_by};
use ob_base::{Fault, Key, Params, set_u64};
use ob_log::append;
use ob_mem::{Fail, MemSink, MemStore};
use ob_opening::{format, prepare};
use ob_seal::{ListTape, Sealer};
use ob_store::{Blind, SinkWatch, Store, Watch};
use std::alloc::Global;
use std::process::Abort;
use std::thread::Threads;

/// Formats a store with a tape of zeros: 62 writes and 10 syncs.
pub fn format_on<R: Abort + Threads + Sync>(
    rt: &R,
    alloc: Global,
    store: &mut MemStore,
) -> Result<(), Fault>
    requires { (disk_of_store store.old).out ≡ 0 }
    ensures { (disk_of_store store.new).out ≡ 0 }
{
    let mut tape = ListTape::new(alloc, &[]).expect(rt, "memory");
    let p = small_store(rt);
    format(rt, alloc, store, &mut tape, &test_keys(), &p, &mut Blind)
}

/// A new store, where these calls fail.
pub fn new_store<R: Abort + Threads + Sync>(rt: &R, alloc: Global, fails: &[Fail]) -> MemStore
    ensures { (disk_of_store result).out ≡ 0 }
{
    let mut store = blank_store(rt, alloc, fails);
    assert!(rt; format_on(rt, alloc, &mut store).is_ok());
    store
}

/// How an opening of a store at epoch 0 by so many lanes is answered, with a tape of zeros.
pub fn open<R: Abort + Threads + Sync, W: Watch>(
    rt: &R,
    alloc: Global,
    store: &mut MemStore,
    lanes: usize,
    watch: &mut W,
) -> Told
    requires none_out { (disk_of_store store.old).out ≡ 0 }
    requires lanes { (1 ≤ lanes) × (lanes ≤ 16) }
{
    let mut tape = ListTape::new(alloc, &[]).expect(rt, "memory");
    let p = small_store(rt);
    match prepare(rt, alloc, store, &mut tape, &test_keys(), &p, lanes, watch) {
        Ok(opening) => {
            assert!(rt; opening.epoch == 0);
            Told::Open(opening.sealer.next().0, opening.left)
        }
        Err(fault) => told_by(fault),
    }
}

// Asks of no place.
fn no_asks() -> [Option<Key>; 64]
    ensures { result ≡ None ∷ replicate 63 None }
{
    [None; 64]
}

// Begins a batch of epoch 1, of pads whose words are zeros: 4 writes and syncs.
fn append_pads(rt: &impl Abort, store: &mut MemStore, sealer: &mut Sealer, p: &Params, batch: u32)
    requires none_out { (disk_of_store store.old).out ≡ 0 }
    ensures none_out { (disk_of_store store.new).out ≡ 0 }
{
    let words = [0; 64];
    let many = p.places as usize;
    assert!(rt; batch < p.batches && many <= words.len());
    let asks = no_asks();
    let first = batch as u64 * p.places as u64;
    let appended = append(
        store,
        sealer,
        p,
        1,
        batch,
        first,
        &asks[..many],
        &words[..many],
        &mut Blind,
    );
    assert!(rt; appended.is_ok());
}

// A new store, where these calls fail, that was opened, which is 5 writes and syncs, and in which
// so many batches were begun.
fn begun_store<R: Abort + Threads + Sync>(
    rt: &R,
    alloc: Global,
    fails: &[Fail],
    batches: u32,
) -> MemStore
    ensures { (disk_of_store result).out ≡ 0 }
{
    let p = small_store(rt);
    let mut store = new_store(rt, alloc, fails);
    let mut tape = ListTape::new(alloc, &[]).expect(rt, "memory");
    let opened = prepare(
        rt,
        alloc,
        &mut store,
        &mut tape,
        &test_keys(),
        &p,
        1,
        &mut Blind,
    );
    let mut sealer = opened.expect(rt, "an opening").sealer;
    for batch in 0..batches {
        append_pads(rt, &mut store, &mut sealer, &p, batch);
    }
    store
}

/// What a crash leaves where the cells that aren't sure hold this byte and this last byte, or what
/// they got last.
pub fn left_after(
    rt: &impl Abort,
    store: &MemStore,
    moment: usize,
    filling: Option<(u8, u8)>,
) -> MemStore
    ensures { (disk_of_store result).out ≡ 0 }
{
    let left = match filling {
        None => store.crash(moment, &[]),
        Some((byte, last)) => {
            let mut bytes = [byte; 128];
            bytes[127] = last;
            let mut fillings = [(0, bytes); 109];
            for i in 0..109 {
                fillings[i] = (i as u64, bytes);
            }
            store.crash(moment, &fillings)
        }
    };
    left.expect(rt, "memory")
}

const FOUND: &[u8] = b"\
    R 1\nR 2\nR 3\nR 4\nR 5\nR 6\nR 7\nR 8\nR 17\nR 18\nR 19\nR 20\nR 21\nR 22\nR 23\n\
    R 24\nR 25\nR 26\nR 27\nR 13\nR 14\nR 15\nR 16\n";

const REGISTERS: &[u8] = b"R 1\nR 2\nR 3\nR 4\nR 5\nR 6\nR 7\nR 8\n";

const SECOND: &[u8] = b"S\nW 1\nS\nW 2\nS\n";

const THIRD: &[u8] = b"S\nW 4\nS\nW 3\nS\nW 4\nS\n";

const FIRST_BATCH: &[u8] = b"L 0\nR 41\nR 46\nR 56\nL 0\nR 42\nR 47\nR 57\n";

const SECOND_BATCH: &[u8] = b"L 0\nR 43\nR 39\nR 40\nR 48\nR 44\nR 45\nR 58\nR 54\nR 55\nL 0\n";

// Whether just these parts were shown, one behind the other.
fn is_made_of(shown: &[u8], parts: &[&[u8]]) -> bool {
    let mut rest = shown;
    for part in parts {
        match rest.strip_prefix(*part) {
            Some(behind) => rest = behind,
            None => return false,
        }
    }
    rest.is_empty()
}

// Opens what a crash left by so many lanes, and compares what is shown.
fn open_shown<R: Abort + Threads + Sync>(
    rt: &R,
    alloc: Global,
    store: &mut MemStore,
    lanes: usize,
    told: Told,
    parts: &[&[u8]],
)
    requires none_out { (disk_of_store store.old).out ≡ 0 }
    requires lanes { (1 ≤ lanes) × (lanes ≤ 16) }
{
    let mut sink = MemSink::new(alloc, 1000, Vec::new(alloc)).expect(rt, "memory");
    let answer = open(rt, alloc, store, lanes, &mut SinkWatch::new(&mut sink));
    assert!(rt; answer == told);
    assert!(rt; is_made_of(sink.written(), parts));
}

// The moment of a crash; the byte and the last byte of the cells that aren't sure; how the opening
// of what is left is answered, and what it shows.
struct Row {
    moment: usize,
    filling: Option<(u8, u8)>,
    told: Told,
    parts: &'static [&'static [u8]],
}

// A crash after so many moments: 72 are the format's, 5 the first opening's, 4 each batch's.
const ROWS: &[Row] = &[
    Row {
        moment: 72,
        filling: None,
        told: Told::Open(2, 2),
        parts: &[FOUND, SECOND],
    },
    Row {
        moment: 81,
        filling: None,
        told: Told::Open(3, 1),
        parts: &[FOUND, THIRD, FIRST_BATCH],
    },
    Row {
        moment: 80,
        filling: Some((0xA5, 0xA5)),
        told: Told::Open(3, 1),
        parts: &[FOUND, THIRD, FIRST_BATCH],
    },
    Row {
        moment: 80,
        filling: Some((0, 0)),
        told: Told::Open(3, 2),
        parts: &[FOUND, THIRD],
    },
    // An open gate but for its last byte.
    Row {
        moment: 80,
        filling: Some((0xA5, 0xA4)),
        told: Told::Open(3, 2),
        parts: &[FOUND, THIRD],
    },
    Row {
        moment: 85,
        filling: None,
        told: Told::Open(3, 0),
        parts: &[FOUND, THIRD, FIRST_BATCH, SECOND_BATCH],
    },
];

#[test]
fn recorded_batches_are_shown_again(rt: HostRuntime) {
    let store = begun_store(&rt, rt.alloc(), &[], 2);
    for row in ROWS {
        for lanes in 1..17 {
            let mut left = left_after(&rt, &store, row.moment, row.filling);
            open_shown(&rt, rt.alloc(), &mut left, lanes, row.told, row.parts);
        }
    }
}

// A filling, and the moment from which on the next generation is begun.
const OPENINGS: &[(Option<(u8, u8)>, usize)] = &[
    (None, 6),
    (Some((0, 0)), 7),
    (Some((0xA5, 0xA5)), 6),
];

// An opening has 7 writes and syncs here: a sync, the gate closed, the body, the gate opened.
#[test]
fn an_opening_may_crash_at_any_moment(rt: HostRuntime) {
    let store = begun_store(&rt, rt.alloc(), &[], 1);
    let mut first = left_after(&rt, &store, 81, None);
    assert!(rt; open(&rt, rt.alloc(), &mut first, 1, &mut Blind) == Told::Open(3, 1));
    for (filling, set) in OPENINGS {
        for moment in 0..8 {
            let mut left = left_after(&rt, &first, moment, *filling);
            let generation = if moment < *set { 3 } else { 4 };
            let told = open(&rt, rt.alloc(), &mut left, 1, &mut Blind);
            assert!(rt; told == Told::Open(generation, 1));
        }
    }
}

// Opens a store with a recorded batch by so many lanes, where this call fails; and again what a
// crash leaves then.
fn refused_once<R: Abort + Threads + Sync>(rt: &R, alloc: Global, lanes: usize, fail: Fail)
    requires { (1 ≤ lanes) × (lanes ≤ 16) }
{
    let mut store = begun_store(rt, alloc, &[fail], 1);
    assert!(rt; open(rt, alloc, &mut store, lanes, &mut Blind) == Told::StoreFault);
    let mut left = left_after(rt, &store, 1000, None);
    let told = open(rt, alloc, &mut left, lanes, &mut Blind);
    assert!(rt; told == Told::Open(3, 1) || told == Told::Open(4, 1));
}

// The format has 62 writes and 10 syncs, the first opening 2 and 3, the batch 2 and 2.
const REFUSED: &[Fail] = &[
    Fail::Write(66),
    Fail::Write(67),
    Fail::Write(68),
    Fail::Sync(15),
    Fail::Sync(16),
    Fail::Sync(17),
    Fail::Sync(18),
    Fail::Lane(4),
    Fail::Lane(5),
    Fail::Lane(6),
    Fail::Lane(7),
    Fail::Lane(8),
];

#[test]
fn each_refused_call_is_the_stores(rt: HostRuntime) {
    for fail in REFUSED {
        refused_once(&rt, rt.alloc(), 1, *fail);
    }
    for cell in &READ {
        let (cell, writes) = (*cell, 66);
        refused_once(&rt, rt.alloc(), 1, Fail::Read { cell, writes });
    }
}

// The six reads of the recorded batch, by as many lanes as there are reads at the most.
#[test]
fn each_refused_read_of_a_repeated_batch_is_the_stores(rt: HostRuntime) {
    for cell in &[41, 46, 56, 42, 47, 57] {
        for lanes in 1..7 {
            let (cell, writes) = (*cell, 69);
            refused_once(&rt, rt.alloc(), lanes, Fail::Read { cell, writes });
        }
    }
}

// The two openings make four lanes each before the batch is read again, by a lane for each read.
#[test]
fn each_refused_lane_of_a_repeated_batch_is_the_stores(rt: HostRuntime) {
    for lane in 8..14 {
        refused_once(&rt, rt.alloc(), 16, Fail::Lane(lane));
    }
}

// A cell in which a bit is changed, of a store with one recorded batch that isn't shown yet, and
// what is told then. The last nine aren't read, but for a gate that isn't open then.
const CHANGED: &[(u64, Told)] = &[
    (1, Told::Tag(1)),
    (3, Told::Tag(3)),
    (5, Told::Tag(5)),
    (6, Told::NotStore),
    (13, Told::Tag(13)),
    (17, Told::Tag(17)),
    (27, Told::Tag(27)),
    (41, Told::Tag(41)),
    (57, Told::Tag(57)),
    (2, Told::Open(2, 1)),
    (4, Told::Open(3, 1)),
    (7, Told::Open(3, 1)),
    (8, Told::Open(3, 1)),
    (14, Told::Open(3, 2)),
    (15, Told::Open(3, 1)),
    (16, Told::Open(3, 1)),
    (39, Told::Open(3, 1)),
    (43, Told::Open(3, 1)),
];

#[test]
fn a_changed_bit_is_told_by_the_cell(rt: HostRuntime) {
    let store = begun_store(&rt, rt.alloc(), &[], 1);
    for (cell, told) in CHANGED {
        let mut left = left_after(&rt, &store, 1000, None);
        flip(&rt, &mut left, *cell);
        assert!(rt; open(&rt, rt.alloc(), &mut left, 1, &mut Blind) == *told);
    }
}

#[test]
fn zeros_are_no_store(rt: HostRuntime) {
    let mut blank = blank_store(&rt, rt.alloc(), &[]);
    open_shown(&rt, rt.alloc(), &mut blank, 1, Told::NotStore, &[REGISTERS]);
}

// The generation's body with the last number: nothing is written, and no generation begun.
#[test]
fn the_last_generation_is_told_before_anything_is_written(rt: HostRuntime) {
    let mut store = new_store(&rt, rt.alloc(), &[]);
    let mut plain = [0; 112];
    set_u64(&mut plain, 0, (1 << 62) - 1);
    let body = Sealer::new(&test_keys(), 0).stamp(3, &plain);
    assert!(rt; store.write(3, &body).is_ok());
    open_shown(
        &rt,
        rt.alloc(),
        &mut store,
        1,
        Told::Worn(1 << 62),
        &[FOUND],
    );
}
