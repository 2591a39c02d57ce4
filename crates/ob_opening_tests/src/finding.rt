//! Ring stores that were made elsewhere, found; a bit in each cell, each call failing.

ghost use Rattle.std.specs.Prelude.{◌≡◌};
ghost use Rattle.ob_mem.specs.Memory.{disk_of_store};

use crate::new_store::{FORMATTED, WRITTEN};
use crate::small::{READ, Told, blank_store, flip, small_store, test_keys, told_by, write_digits};
use ob_base::{Fault, set_u64};
use ob_check::Sheet;
use ob_mem::{Fail, MemSink, MemStore};
use ob_recover::{find, head};
use ob_seal::Sealer;
use ob_store::{Blind, SinkWatch, Store, Watch};
use std::alloc::Global;
use std::process::Abort;

// Such a store, where these calls fail.
fn formatted(rt: &impl Abort, alloc: Global, fails: &[Fail]) -> MemStore
    ensures { (disk_of_store result).out ≡ 0 }
{
    let mut store = blank_store(rt, alloc, fails);
    for i in 0..16 {
        write_digits(rt, &mut store, WRITTEN[i], FORMATTED, 256 * i);
    }
    store
}

// Such a store with a changed bit in each of these cells.
fn with_changes(rt: &impl Abort, alloc: Global, cells: &[u64; 4]) -> MemStore
    ensures { (disk_of_store result).out ≡ 0 }
{
    let mut store = formatted(rt, alloc, &[]);
    for i in 0..4 {
        flip(rt, &mut store, cells[i]);
    }
    store
}

// What is found in a store; it is at its beginning.
fn found_in<W: Watch>(rt: &impl Abort, alloc: Global, store: &mut MemStore, watch: &mut W) -> Told {
    let p = small_store(rt);
    let mut sheet = Sheet::new(alloc, &p).expect(rt, "memory");
    match find(alloc, store, &test_keys(), &p, &mut sheet, watch) {
        Ok(found) => {
            assert!(rt; found.epoch == 0 && found.tables.counter == 0);
            assert!(rt; found.records.as_slice().is_empty());
            Told::Found(found.generation)
        }
        Err(fault) => told_by(fault),
    }
}

// A cell that isn't read.
const O: u64 = 40;

// Cells in which a bit is changed, and what is told then.
const CHANGED: &[([u64; 4], Told)] = &[
    ([O, O, O, O], Told::Found(1)),
    ([1, O, O, O], Told::Found(1)),
    ([2, O, O, O], Told::Found(1)),
    ([3, O, O, O], Told::Tag(3)),
    ([4, O, O, O], Told::NotStore),
    ([5, O, O, O], Told::Tag(5)),
    ([6, O, O, O], Told::NotStore),
    ([7, O, O, O], Told::Found(1)),
    ([8, O, O, O], Told::Found(1)),
    ([17, O, O, O], Told::Tag(17)),
    ([18, O, O, O], Told::Tag(18)),
    ([19, O, O, O], Told::Tag(19)),
    ([20, O, O, O], Told::Tag(20)),
    ([21, O, O, O], Told::Tag(21)),
    ([22, O, O, O], Told::Tag(22)),
    ([23, O, O, O], Told::Tag(23)),
    ([24, O, O, O], Told::Tag(24)),
    ([25, O, O, O], Told::Tag(25)),
    ([26, O, O, O], Told::Tag(26)),
    ([27, O, O, O], Told::Tag(27)),
    ([13, 14, 15, 16], Told::Found(1)),
    ([3, 6, O, O], Told::NotStore),
    ([3, 5, O, O], Told::Tag(3)),
    ([5, 17, O, O], Told::Tag(5)),
    ([18, 20, O, O], Told::Tag(18)),
];

#[test]
fn a_changed_bit_is_told_by_the_cell(rt: HostRuntime) {
    for (cells, told) in CHANGED {
        let mut store = with_changes(&rt, rt.alloc(), cells);
        assert!(rt; found_in(&rt, rt.alloc(), &mut store, &mut Blind) == *told);
    }
}

// The generation's body with a number: below 2^62 it is one.
#[test]
fn a_number_is_below_its_limit(rt: HostRuntime) {
    for (number, told) in &[
        ((1 << 62) - 1, Told::Found((1 << 62) - 1)),
        (1 << 62, Told::Form(3)),
    ] {
        let mut store = formatted(&rt, rt.alloc(), &[]);
        let mut plain = [0; 112];
        set_u64(&mut plain, 0, *number);
        let body = Sealer::new(&test_keys(), 0).stamp(3, &plain);
        assert!(rt; store.write(3, &body).is_ok());
        assert!(rt; found_in(&rt, rt.alloc(), &mut store, &mut Blind) == *told);
    }
}

const SHOWN: &[u8] = b"\
    R 1\nR 2\nR 3\nR 4\nR 5\nR 6\nR 7\nR 8\nR 17\nR 18\nR 19\nR 20\nR 21\nR 22\nR 23\n\
    R 24\nR 25\nR 26\nR 27\nR 13\nR 14\nR 15\nR 16\n";

#[test]
fn a_new_store_is_found(rt: HostRuntime) {
    let alloc = rt.alloc();
    let mut store = formatted(&rt, alloc, &[]);
    let p = head(&mut store, &test_keys(), &mut Blind);
    assert!(rt; p.ok() == Some(small_store(&rt)));
    let mut sink = MemSink::new(alloc, 400, Vec::new(alloc)).expect(&rt, "memory");
    let told = found_in(&rt, alloc, &mut store, &mut SinkWatch::new(&mut sink));
    assert!(rt; told == Told::Found(1));
    assert!(rt; sink.written() == SHOWN);
}

// The store's other version.
#[test]
fn a_plain_store_is_no_ring_store(rt: HostRuntime) {
    let mut store = formatted(&rt, rt.alloc(), &[]);
    let mut bytes = [0; 128];
    bytes[..12].copy_from_slice(b"OBLADIST\x66\0\0\0");
    assert!(rt; store.write(0, &bytes).is_ok());
    assert!(rt; head(&mut store, &test_keys(), &mut Blind).err() == Some(Fault::NotStore));
}

#[test]
fn each_refused_read_is_the_stores(rt: HostRuntime) {
    for cell in &READ {
        let fail = Fail::Read {
            cell: *cell,
            writes: 16,
        };
        let mut store = formatted(&rt, rt.alloc(), &[fail]);
        assert!(rt; found_in(&rt, rt.alloc(), &mut store, &mut Blind) == Told::StoreFault);
        assert!(rt; store.faults() == 1);
    }
}
