//! Epochs one behind the other: what they show, answer and leave.

ghost use Rattle.std.specs.Prelude.{◌≡◌, ◌≤◌};
ghost use Rattle.ob_mem.specs.Memory.{disk_of_store};

use crate::serving::{Plan, Put, Step, Told, run_steps};
use crate::shown::{FIRST_EPOCH, LEAF_ONE, OPENED, SECOND_EPOCH};
use crate::small::{format_with, left_after, new_store, run_on, small_store, store_of};
use ob_base::{Fault, Params, Value};
use ob_cells::read_cells;
use ob_mem::{MemSink, MemStore};
use ob_seal::ChaChaTape;
use ob_store::{Blind, SinkWatch};
use sha2::{Digest, Sha256};
use std::alloc::Global;
use std::process::Abort;
use std::thread::Threads;

const PADS: Step = Step::Ask(None);

const FIVE: Step = Step::Ask(Some(5));

const HI: &[Put] = &[Put {
    key: 5,
    text: b"hi",
}];

const TWO_EPOCHS: &[Step] = &[PADS, PADS, Step::End(HI), FIVE, PADS, Step::End(&[])];

// Whether just these parts were shown, one behind the other.
fn is_made_of(shown: &[u8], parts: &[&[u8]]) -> bool {
    let mut rest = shown;
    for part in parts {
        match rest.strip_prefix(*part) {
            Some(behind) => rest = behind,
            None => return false,
        }
    }
    rest.is_empty()
}

// The steps, how many epochs end, and the fifth word of the tape, whose other words are 0.
struct Row {
    steps: &'static [Step],
    epochs: u64,
    word: u64,
}

const ROWS: &[Row] = &[
    Row {
        steps: &[PADS, PADS, Step::End(&[])],
        epochs: 1,
        word: 0,
    },
    Row {
        steps: &[PADS, PADS, Step::End(HI)],
        epochs: 1,
        word: 0,
    },
    Row {
        steps: TWO_EPOCHS,
        epochs: 2,
        word: 0,
    },
    Row {
        steps: TWO_EPOCHS,
        epochs: 2,
        word: 1,
    },
];

// Whether an opening and so many epochs were shown, of which the second showed this.
fn is_shown(shown: &[u8], epochs: u64, second: &'static [u8]) -> bool {
    let parts = [OPENED, FIRST_EPOCH, second];
    if epochs == 1 {
        is_made_of(shown, &parts[..2])
    } else {
        is_made_of(shown, &parts)
    }
}

// Whether the row's epochs are done and shown, by so many lanes; the second one asks for key 5.
fn plays_so<R: Abort + Threads + Sync>(rt: &R, alloc: Global, lanes: usize, row: &Row) -> bool
    requires { (1 ≤ lanes) × (lanes ≤ 16) }
{
    let wanted = if row.epochs == 1 {
        None
    } else {
        Value::new(b"hi")
    };
    let second = if row.word == 0 {
        SECOND_EPOCH
    } else {
        LEAF_ONE
    };
    let told = Told::Done {
        epoch: row.epochs,
        left: 2,
    };
    let plan = Plan {
        params: &small_store(rt),
        lanes,
        steps: row.steps,
    };
    let mut store = new_store(rt, alloc, &[]);
    let mut sink = MemSink::new(alloc, 2000, Vec::new(alloc)).expect(rt, "memory");
    let mut watch = SinkWatch::new(&mut sink);
    let words = [0, 0, 0, 0, row.word];
    let outcome = run_on(rt, alloc, &mut store, &words, &plan, &mut watch);
    outcome.told == told && outcome.found == wanted && is_shown(sink.written(), row.epochs, second)
}

// However many lanes read, the same is shown.
#[test]
fn epochs_show_what_another_implementation_shows(rt: HostRuntime) {
    for row in ROWS {
        for lanes in 1..17 {
            assert!(rt; plays_so(&rt, rt.alloc(), lanes, row), "by {lanes} lanes");
        }
    }
}

// The SHA-256 digest of all 109 cells of the small store after two epochs under the keys of the
// bytes 0 to 95, as another implementation made it.
const AFTER: [u8; 32] = [
    0x7d, 0xe8, 0xe8, 0x94, 0x92, 0x2a, 0x2c, 0x61, 0x4e, 0x85, 0x9f, 0x22, 0x2c, 0x63, 0x8a, 0x5f,
    0x1e, 0x86, 0x23, 0x33, 0xb9, 0x36, 0x7e, 0x62, 0xf8, 0x70, 0xdf, 0xb8, 0xa5, 0x3a, 0x3a, 0xfd,
];

// A tape under the last 32 of these bytes.
fn last_tape() -> ChaChaTape
    ensures { result.generation ≡ 0 }
{
    let mut bytes = [0; 32];
    for i in 0..32 {
        bytes[i] = 64 + i as u8;
    }
    ChaChaTape::new(&bytes)
}

// The digest of all cells of a store.
fn digest_of(rt: &impl Abort, store: &mut MemStore) -> [u8; 32] {
    let mut all = [[0; 128]; 109];
    assert!(rt; read_cells(store, 0, &mut all, &mut Blind).is_ok());
    let mut hasher = Sha256::new();
    for cell in &all {
        hasher.update(cell);
    }
    hasher.finalize().into()
}

// Whether two epochs by so many lanes leave these cells.
fn leaves_these<R: Abort + Threads + Sync>(rt: &R, alloc: Global, lanes: usize) -> bool
    requires { (1 ≤ lanes) × (lanes ≤ 16) }
{
    let p = small_store(rt);
    let plan = Plan {
        params: &p,
        lanes,
        steps: TWO_EPOCHS,
    };
    let mut store = MemStore::new(alloc, 109, Vec::new(alloc)).expect(rt, "memory");
    let mut tape = last_tape();
    assert!(rt; format_with(rt, alloc, &mut store, &mut tape, &p).is_ok());
    let mut tape = last_tape();
    let outcome = run_steps(rt, alloc, &mut store, &mut tape, &plan, &mut Blind);
    assert!(rt; outcome.told == Told::Done { epoch: 2, left: 2 });
    assert!(rt; outcome.found == Value::new(b"hi"));
    digest_of(rt, &mut store) == AFTER
}

#[test]
fn the_cells_after_two_epochs_are_those_of_another_implementation(rt: HostRuntime) {
    assert!(rt; leaves_these(&rt, rt.alloc(), 1));
    assert!(rt; leaves_these(&rt, rt.alloc(), 16));
}

const FOUR: &[Put] = &[
    Put { key: 0, text: b"a" },
    Put { key: 1, text: b"b" },
    Put { key: 2, text: b"c" },
    Put { key: 3, text: b"d" },
];

// What a run shows whose end finds the stash too full: no write behind the lifts.
const TOO_FULL: &[u8] = b"W 11\nS\nW 12\nS\nL 0\nR 21\nR 19\nR 20\nR 24\nR 22\nR 23\n";

// Whether the end of an epoch of four puts is refused so.
fn is_too_full<R: Abort + Threads + Sync>(
    rt: &R,
    alloc: Global,
    p: &Params,
    store: &mut MemStore,
) -> bool
    requires { (disk_of_store store.old).out ≡ 0 }
{
    let mut sink = MemSink::new(alloc, 2000, Vec::new(alloc)).expect(rt, "memory");
    let mut watch = SinkWatch::new(&mut sink);
    let plan = Plan {
        params: p,
        lanes: 1,
        steps: &[PADS, Step::End(FOUR)],
    };
    let words = [0, 1, 1, 1, 1];
    let outcome = run_on(rt, alloc, store, &words, &plan, &mut watch);
    outcome.told == Told::Before(Fault::StashFull { rows: 2 }) && sink.written().ends_with(TOO_FULL)
}

// A store of 4 keys and 37 cells, whose stash may keep one row.
#[test]
fn a_stash_that_is_too_full_refuses_the_end_before_anything_is_written(rt: HostRuntime) {
    let alloc = rt.alloc();
    let p = Params::new(4, 1, 2, 1, 1, 1, 4, 1, 1).expect(&rt, "parameters");
    let mut store = store_of(&rt, alloc, &p, 37, &[]);
    assert!(rt; is_too_full(&rt, alloc, &p, &mut store));
    let mut left = left_after(&rt, &store, 1000, None);
    let opened = Plan {
        params: &p,
        lanes: 1,
        steps: &[],
    };
    let again = run_on(&rt, alloc, &mut left, &[], &opened, &mut Blind);
    assert!(rt; again.told == Told::Done { epoch: 0, left: 0 });
}

const FIVE_AND_SIX: &[Put] = &[
    Put {
        key: 5,
        text: b"five",
    },
    Put {
        key: 6,
        text: b"six",
    },
];

const AGAIN: &[Put] = &[Put {
    key: 6,
    text: b"again",
}];

const TWICE: &[Step] = &[
    PADS,
    PADS,
    Step::End(FIVE_AND_SIX),
    PADS,
    PADS,
    Step::End(HI),
];

// The lifts of epoch 2: the rows of keys 5 and 6 lie at indexes 0 and 1 of bucket 2.
const LIFTS: &[u8] = b"R 59\nR 60\nR 84\nR 85\nR 69\nR 70\n";

// Runs a small store up to the end of its epoch 2; whether the lifts are shown somewhere.
fn shows_lifts<R: Abort + Threads + Sync>(
    rt: &R,
    alloc: Global,
    store: &mut MemStore,
    steps: &[Step],
) -> bool
    requires { (disk_of_store store.old).out ≡ 0 }
    ensures { (disk_of_store store.new).out ≡ 0 }
{
    let plan = Plan {
        params: &small_store(rt),
        lanes: 1,
        steps,
    };
    let mut sink = MemSink::new(alloc, 4000, Vec::new(alloc)).expect(rt, "memory");
    let mut watch = SinkWatch::new(&mut sink);
    let words = [0, 0, 0, 0, 3, 3];
    let outcome = run_on(rt, alloc, store, &words, &plan, &mut watch);
    assert!(rt; outcome.told == Told::Done { epoch: 2, left: 2 });
    let shown = sink.written();
    for i in 0..shown.len() {
        if shown[i..].starts_with(LIFTS) {
            return true;
        }
    }
    false
}

// The lifts don't depend on what the end writes: an end that is begun again behind a crash reads
// them in the same order, whichever key it puts.
#[test]
fn lifts_are_planned_before_the_writes(rt: HostRuntime) {
    let mut store = new_store(&rt, rt.alloc(), &[]);
    assert!(rt; shows_lifts(&rt, rt.alloc(), &mut store, TWICE));
    // 72 writes and syncs of the format, 5 of the opening, 51 of epoch 1, and 8 of two batches.
    let mut left = left_after(&rt, &store, 136, None);
    assert!(rt; shows_lifts(&rt, rt.alloc(), &mut left, &[Step::End(AGAIN)]));
}
