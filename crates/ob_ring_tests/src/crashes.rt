//! An epoch that crashes at each moment, or of which a call fails or a cell was changed.

ghost use Rattle.std.specs.Prelude.{◌≡◌, ◌≤◌};
ghost use Rattle.ob_mem.specs.Memory.{disk_of_store};

use crate::serving::{Put, Step, Told};
use crate::small::{left_after, new_store, run, run_by, test_keys};
use ob_base::{Check, Fault, Value};
use ob_cells::read_cells;
use ob_mem::{Fail, MemStore};
use ob_seal::Sealer;
use ob_store::{Blind, Store};
use std::alloc::Global;
use std::process::Abort;
use std::thread::Threads;

const PADS: Step = Step::Ask(None);

const FIVE: Step = Step::Ask(Some(5));

const HI: &[Put] = &[Put {
    key: 5,
    text: b"hi",
}];

// An epoch that puts key 5: behind the format 46 writes and 10 syncs, its opening's 2 and 3 among
// them.
const EPOCH: &[Step] = &[PADS, PADS, Step::End(HI)];

// The epoch of what a crash left, and whether key 5 is present there. Where both batches were begun
// it is asked for once the epoch is ended.
fn image_of<R: Abort + Threads + Sync>(rt: &R, alloc: Global, left: &mut MemStore) -> (u64, bool)
    requires { (disk_of_store left.old).out ≡ 0 }
{
    let hi = Value::new(b"hi");
    let asked = run(rt, alloc, left, &[FIVE]);
    match asked.told {
        Told::Done { epoch, .. } => (epoch, asked.found == hi),
        Told::Misuse => {
            let ended = run(rt, alloc, left, &[Step::End(&[]), FIVE]);
            assert!(rt; ended.told == Told::Done { epoch: 1, left: 1 });
            (0, ended.found == hi)
        }
        _ => (9, false),
    }
}

// What the cells that aren't sure hold, and the moment from which on the epoch is ended.
const CRASHES: &[(Option<u8>, usize)] = &[(None, 55), (Some(0), 56), (Some(0xA5), 55)];

// A store that was formatted, and all of it sure, in which the epoch was run by so many lanes.
fn epoch_store<R: Abort + Threads + Sync>(rt: &R, alloc: Global, lanes: usize) -> MemStore
    requires { (1 ≤ lanes) × (lanes ≤ 16) }
{
    let formatted = new_store(rt, alloc, &[]);
    let mut store = left_after(rt, &formatted, 72, None);
    let outcome = run_by(rt, alloc, &mut store, lanes, EPOCH);
    assert!(rt; outcome.told == Told::Done { epoch: 1, left: 2 });
    store
}

// Whether a crash at a moment leaves the epoch whole, or the one before it.
fn leaves_so<R: Abort + Threads + Sync>(
    rt: &R,
    alloc: Global,
    store: &MemStore,
    moment: usize,
    filling: Option<u8>,
    ended: bool,
) -> bool {
    let mut left = left_after(rt, store, moment, filling);
    image_of(rt, alloc, &mut left) == (u64::from(ended), ended)
}

#[test]
fn a_crash_leaves_one_of_two_epochs_whole(rt: HostRuntime) {
    for lanes in [1, 4] {
        let store = epoch_store(&rt, rt.alloc(), lanes);
        for &(filling, set) in CRASHES {
            for moment in 0..57 {
                let so = leaves_so(&rt, rt.alloc(), &store, moment, filling, moment >= set);
                assert!(rt; so, "at {moment}, by {lanes} lanes");
            }
        }
    }
}

// The epoch of what a crash left.
fn epoch_of<R: Abort + Threads + Sync>(rt: &R, alloc: Global, left: &mut MemStore) -> u64
    requires { (disk_of_store left.old).out ≡ 0 }
{
    match run(rt, alloc, left, &[]).told {
        Told::Done { epoch, .. } => epoch,
        _ => 9,
    }
}

// How the epoch goes by so many lanes where this call fails, and the least and the greatest epoch
// that a crash may leave then.
fn failed_at<R: Abort + Threads + Sync>(
    rt: &R,
    alloc: Global,
    lanes: usize,
    fail: Fail,
) -> (Told, u64, u64)
    requires { (1 ≤ lanes) × (lanes ≤ 16) }
{
    let mut store = new_store(rt, alloc, &[fail]);
    let outcome = run_by(rt, alloc, &mut store, lanes, EPOCH);
    let (mut least, mut most) = (9, 0);
    for filling in &[None, Some(0), Some(0xA5)] {
        let mut left = left_after(rt, &store, 1000, *filling);
        let epoch = epoch_of(rt, alloc, &mut left);
        least = least.min(epoch);
        most = most.max(epoch);
    }
    (outcome.told, least, most)
}

const FAILED: Fault = Fault::StoreFault { unsure: None };

const UNSURE: Fault = Fault::StoreFault { unsure: Some(1) };

// How the failing call of this number is told: so many calls are the opening's, those up to the
// next number the batches', and the last of them leaves the end in doubt.
fn told_at(number: u64, opening: u64, batches: u64, last: u64) -> Told {
    if number < opening {
        Told::Opening(FAILED)
    } else if number < batches {
        Told::Fetch(FAILED)
    } else if number < last {
        Told::Before(FAILED)
    } else {
        Told::Unsure(UNSURE)
    }
}

// Of the format 62 writes and 10 syncs come before.
#[test]
fn a_failed_call_refuses_what_made_it(rt: HostRuntime) {
    for i in 0..56 {
        let (fail, told) = if i < 46 {
            (Fail::Write(62 + i), told_at(i, 2, 6, 45))
        } else {
            (Fail::Sync(i - 36), told_at(i - 46, 3, 7, 9))
        };
        let most = u64::from(i == 45 || i == 55);
        let went = failed_at(&rt, rt.alloc(), 1, fail);
        assert!(rt; went == (told, 0, most), "call {i}");
    }
}

// The cells that are read behind the head, in order: those of the opening, of two batches and of
// the lifts; the writes before (62 of the format, 2 of the opening, 2 of each batch's record); and
// how a read that fails is told.
struct Reads {
    cells: &'static [u64],
    writes: u64,
    told: Told,
}

const READS: &[Reads] = &[
    Reads {
        cells: &[
            1, 2, 3, 4, 5, 6, 7, 8, 17, 18, 19, 20, 21, 22, 23, 24, 25, 26, 27, 13, 14, 15, 16,
        ],
        writes: 62,
        told: Told::Opening(FAILED),
    },
    Reads {
        cells: &[41, 46, 56, 42, 47, 57],
        writes: 66,
        told: Told::Fetch(FAILED),
    },
    Reads {
        cells: &[43, 39, 40, 48, 44, 45, 58, 54, 55],
        writes: 68,
        told: Told::Fetch(FAILED),
    },
    Reads {
        cells: &[49, 50, 64, 65],
        writes: 68,
        told: Told::Before(FAILED),
    },
];

#[test]
fn a_failed_read_refuses_what_made_it(rt: HostRuntime) {
    for reads in READS {
        for cell in reads.cells {
            let (cell, writes) = (*cell, reads.writes);
            let read = Fail::Read { cell, writes };
            assert!(rt;
                failed_at(&rt, rt.alloc(), 1, read) == (reads.told, 0, 0),
                "read {cell}"
            );
            assert!(rt;
                failed_at(&rt, rt.alloc(), 4, read) == (reads.told, 0, 0),
                "read {cell}"
            );
        }
    }
}

// Changes a bit of a cell.
fn flip<S: Store>(rt: &impl Abort, store: &mut S, cell: u64)
    requires { (S.disk store.old).out ≡ 0 }
    ensures { (S.disk store.new).out ≡ 0 }
{
    let mut cells = [[0; 128]];
    assert!(rt; cell < 200);
    assert!(rt; read_cells(store, cell, &mut cells, &mut Blind).is_ok());
    cells[0][40] ^= 4;
    assert!(rt; store.write(cell, &cells[0]).is_ok());
}

// Whether a call is refused, a fetch or an end, since this cell is torn.
fn is_torn_at(told: Told, torn: u64, by_fetch: bool) -> bool {
    let fault = match told {
        Told::Fetch(fault) if by_fetch => fault,
        Told::Before(fault) if !by_fetch => fault,
        _ => return false,
    };
    match fault {
        Fault::Damaged { cell, check, .. } => cell == torn && check == Check::Tag,
        _ => false,
    }
}

// Whether the epoch is refused so where a bit of this cell is another.
fn tears_at<R: Abort + Threads + Sync>(rt: &R, alloc: Global, cell: u64, by_fetch: bool) -> bool {
    let mut store = new_store(rt, alloc, &[]);
    flip(rt, &mut store, cell);
    let outcome = run(rt, alloc, &mut store, EPOCH);
    is_torn_at(outcome.told, cell, by_fetch)
}

#[test]
fn a_changed_slot_is_told_by_its_cell(rt: HostRuntime) {
    for &(cell, by_fetch) in &[(41, true), (55, true), (49, false), (65, false)] {
        assert!(rt; tears_at(&rt, rt.alloc(), cell, by_fetch));
    }
}

// Seals a row in cell 89, which is the third seal of generation 2, in place of that of key 5: its
// bytes, but with this key and this length.
fn forge(rt: &impl Abort, store: &mut MemStore, key: u8, len: u8)
    requires { (disk_of_store store.old).out ≡ 0 }
    ensures { (disk_of_store store.new).out ≡ 0 }
{
    let mut plain = [0; 96];
    plain[0] = key;
    plain[4] = len;
    plain[5] = b'h';
    plain[6] = b'i';
    let mut sealer = Sealer::new(&test_keys(), 2);
    for _seal in 0..2 {
        assert!(rt; sealer.seal(0, &[0; 96]).is_ok());
    }
    let bytes = sealer.seal(89, &plain).ok().expect(rt, "a seal");
    assert!(rt; store.write(89, &bytes).is_ok());
}

// Whether a fetch is refused by the form of cell 89, with these first bytes that were kept and
// computed.
fn is_misformed(told: Told, first_kept: u8, first_computed: u8) -> bool {
    let mut bytes = ([0; 16], [0; 16]);
    bytes.0[0] = first_kept;
    bytes.1[0] = first_computed;
    told == Told::Fetch(Fault::Damaged {
        cell: 89,
        check: Check::Form,
        kept: bytes.0,
        computed: bytes.1,
    })
}

// A forged row's key and length, and the first bytes that its check kept and computed, where it
// isn't taken.
const FORGED: &[(u8, u8, Option<(u8, u8)>)] = &[
    (5, 2, None),
    (4, 2, Some((4, 5))),
    (5, 65, Some((65, 0))),
];

// What is told of a fetch of key 5 behind the epoch where its row is forged. On a tape of zeros
// that lies in cell 89.
fn told_of_forged<R: Abort + Threads + Sync>(rt: &R, alloc: Global, key: u8, len: u8) -> Told {
    let mut store = new_store(rt, alloc, &[]);
    let outcome = run(rt, alloc, &mut store, EPOCH);
    assert!(rt; outcome.told == Told::Done { epoch: 1, left: 2 });
    forge(rt, &mut store, key, len);
    run(rt, alloc, &mut store, &[FIVE]).told
}

#[test]
fn a_forged_row_is_told_by_its_form(rt: HostRuntime) {
    for &(key, len, broken) in FORGED {
        let told = told_of_forged(&rt, rt.alloc(), key, len);
        assert!(rt;
            match broken {
                None => told == Told::Done { epoch: 1, left: 1 },
                Some((kept, computed)) => is_misformed(told, kept, computed),
            }
        );
    }
}
