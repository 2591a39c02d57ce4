//! Tests of the format.

use crate::openings::{format_on, left_after, new_store, open};
use crate::small::{Told, blank_store, small_store, test_keys};
use ob_base::Fault;
use ob_cells::read_cells;
use ob_mem::{Fail, MemSink, MemStore};
use ob_opening::format;
use ob_recover::head;
use ob_seal::ChaChaTape;
use ob_store::{Blind, SinkWatch};
use sha2::{Digest, Sha256};
use std::alloc::Global;
use std::process::Abort;
use std::thread::Threads;

// The SHA-256 digest of all 109 cells of a new store of 8 keys under the keys of the bytes 0 to 95,
// as another implementation made it.
const NEW: [u8; 32] = [
    0x3c, 0x8c, 0xb5, 0x7c, 0x7f, 0x39, 0x9d, 0x40, 0x6e, 0xb9, 0x73, 0x8b, 0x96, 0x0c, 0x65, 0x64,
    0x3d, 0x91, 0x4b, 0x30, 0xe9, 0xcb, 0xbf, 0xd9, 0x80, 0xaf, 0x27, 0x1b, 0x6d, 0x17, 0xb8, 0xa1,
];

// The last 32 of the bytes 0 to 95.
fn tape_key() -> [u8; 32] {
    let mut bytes = [0; 32];
    for i in 0..32 {
        bytes[i] = 64 + i as u8;
    }
    bytes
}

// The digest of all cells of a store.
fn digest_of(rt: &impl Abort, store: &mut MemStore) -> [u8; 32] {
    let mut all = [[0; 128]; 109];
    assert!(rt; read_cells(store, 0, &mut all, &mut Blind).is_ok());
    let mut hasher = Sha256::new();
    for cell in &all {
        hasher.update(cell);
    }
    hasher.finalize().into()
}

const SHOWN: &[u8] = b"\
    W 0\nS\nW 2\nW 4\nW 6\nW 8\nW 10\nW 12\nW 14\nW 16\nS\nW 4\nS\nW 3\nS\nW 4\nS\nW 39\nW 40\n\
    W 41\nW 42\nW 43\nW 44\nW 45\nW 46\nW 47\nW 48\nW 49\nW 50\nW 51\nW 52\nW 53\nW 54\nW 55\n\
    W 56\nW 57\nW 58\nW 59\nW 60\nW 61\nW 62\nW 63\nW 64\nW 65\nW 66\nW 67\nW 68\nW 69\nW 70\n\
    W 71\nW 72\nW 73\nW 17\nW 18\nW 19\nW 20\nW 21\nW 22\nW 23\nW 24\nW 25\nW 26\nW 27\nS\nW 6\n\
    S\nW 5\nS\nW 6\nS\nW 0\nS\n";

#[test]
fn a_new_store_is_that_of_another_implementation(rt: HostRuntime) {
    let alloc = rt.alloc();
    let p = small_store(&rt);
    let keys = test_keys();
    let mut store = blank_store(&rt, alloc, &[]);
    let mut tape = ChaChaTape::new(&tape_key());
    let mut sink = MemSink::new(alloc, 1000, Vec::new(alloc)).expect(&rt, "memory");
    let mut watch = SinkWatch::new(&mut sink);
    assert!(rt; format(&rt, alloc, &mut store, &mut tape, &keys, &p, &mut watch).is_ok());
    assert!(rt; digest_of(&rt, &mut store) == NEW);
    assert!(rt; sink.written() == SHOWN);
    assert!(rt; head(&mut store, &keys, &mut Blind).ok() == Some(p));
}

// What a format of a store where this call fails answers.
fn format_with<R: Abort + Threads + Sync>(rt: &R, alloc: Global, fail: Fail) -> Result<(), Fault> {
    let mut store = blank_store(rt, alloc, &[fail]);
    format_on(rt, alloc, &mut store)
}

// It has 62 writes and 10 syncs.
#[test]
fn each_refused_call_is_the_stores(rt: HostRuntime) {
    let fault = Err(Fault::StoreFault { unsure: None });
    for i in 0..72 {
        let fail = if i < 62 {
            Fail::Write(i)
        } else {
            Fail::Sync(i - 62)
        };
        assert!(rt; format_with(&rt, rt.alloc(), fail) == fault);
    }
    for fail in &[Fail::Write(62), Fail::Sync(10)] {
        assert!(rt; format_with(&rt, rt.alloc(), *fail).is_ok());
    }
}

// The moments of two formats, one behind the other, after which a store stands, where the cells
// that aren't sure hold these bytes, or what they got last. Each has 72 writes and syncs: the first
// makes the head zeros, and the last but one writes it.
const STANDING: &[(Option<(u8, u8)>, [usize; 4])] = &[
    (None, [71, 72, 143, 144]),
    (Some((0, 0)), [72, 72, 144, 144]),
    (Some((0xA5, 0xA5)), [72, 72, 144, 144]),
];

// Whether a crash at a moment leaves a store that stands as it should, and else none.
fn crashes_so<R: Abort + Threads + Sync>(
    rt: &R,
    alloc: Global,
    store: &MemStore,
    moment: usize,
    filling: Option<(u8, u8)>,
    stands: bool,
) -> bool {
    let mut left = left_after(rt, store, moment, filling);
    match head(&mut left, &test_keys(), &mut Blind) {
        Ok(p) => {
            let told = open(rt, alloc, &mut left, 1, &mut Blind);
            stands && p == small_store(rt) && told == Told::Open(2, 2)
        }
        Err(fault) => !stands && fault == Fault::NotStore,
    }
}

#[test]
fn a_format_may_crash_at_any_moment(rt: HostRuntime) {
    let mut store = new_store(&rt, rt.alloc(), &[]);
    assert!(rt; format_on(&rt, rt.alloc(), &mut store).is_ok());
    for (filling, standing) in STANDING {
        for moment in 0..145 {
            let stands = standing.contains(&moment);
            assert!(rt; crashes_so(&rt, rt.alloc(), &store, moment, *filling, stands));
        }
    }
}
