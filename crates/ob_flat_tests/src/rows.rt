//! Rows with tags made elsewhere.

ghost use Rattle.std.specs.Prelude.{◌≡◌};
ghost use Rattle.ob_mem.specs.Memory.{disk_of_store};

use ob_base::{Check, Fault, Value};
use ob_flat::{read_values, write_rows};
use ob_mem::MemStore;
use ob_seal::{Keys, Sealer};
use ob_store::{Blind, Store};
use std::alloc::Global;
use std::process::Abort;

// A sealer under the keys of the bytes 0 to 95.
fn test_sealer(generation: u64) -> Sealer
    ensures { result.next ≡ 0 }
{
    let mut bytes = [0; 96];
    for i in 0..96 {
        bytes[i] = i as u8;
    }
    Sealer::new(&Keys::from_bytes(&bytes), generation)
}

fn bytes_in(rt: &impl Abort, store: &mut MemStore, cell: u64) -> [u8; 128] {
    let mut bytes = [9; 128];
    let mut lane = store.lane().expect(rt, "a lane");
    assert!(rt; store.read(&mut lane, cell, &mut bytes).is_ok());
    store.absorb(lane);
    bytes
}

// The tags of the cells 17 to 24 that hold the rows of eight keys under the first seals of
// generation 2, where key 5 has `hi`, high byte first.
const TAGS: [u128; 8] = [
    0x021ee5fb419417b9413d5be4d81ddb8e,
    0xf5c2b0a5fc3e9daab0fdf12fa4ec7fa2,
    0x6278909b6987ecd8fe101b2829bff14b,
    0x835efe0b5b047f9460f2a626f01897d5,
    0x872294ddfebc7f0253a0e740d38ff82d,
    0x7b92a5d284855364c392ff56d03fbbfd,
    0x43fb47832423f687ac08efec0d016f15,
    0xb10593c9d4d5491aaffabe4ffd781a87,
];

// Writes the rows of eight keys from cell 17 on, where key 5 has `hi`.
fn with_rows(rt: &impl Abort, alloc: Global) -> MemStore {
    let mut store = MemStore::new(alloc, 25, Vec::new(alloc)).expect(rt, "memory");
    let mut values = [None; 8];
    values[5] = Value::new(b"hi");
    let mut sealer = test_sealer(2);
    assert!(rt; write_rows(&mut store, &mut sealer, 17, &values, &mut Blind).is_ok());
    assert!(rt; sealer.next() == (2, 8));
    store
}

#[test]
fn rows_are_sealed_in_a_row(rt: HostRuntime) {
    let mut store = with_rows(&rt, rt.alloc());
    for i in 0..8 {
        let bytes = bytes_in(&rt, &mut store, 17 + i as u64);
        assert!(rt; bytes[112..] == TAGS[i].to_be_bytes()[..], "row {i}");
    }
}

// Two rows of values of 64 and of no bytes, under seals of these generations, from cell 3 on.
fn with_two(rt: &impl Abort, alloc: Global, first: u64, second: u64) -> MemStore {
    let mut store = MemStore::new(alloc, 9, Vec::new(alloc)).expect(rt, "memory");
    let long = [Value::new(&[7; 64])];
    let empty = [Value::new(&[])];
    let mut sealer = test_sealer(first);
    assert!(rt; write_rows(&mut store, &mut sealer, 3, &long, &mut Blind).is_ok());
    if second != first {
        sealer = test_sealer(second);
    }
    assert!(rt; write_rows(&mut store, &mut sealer, 4, &empty, &mut Blind).is_ok());
    store
}

// Whether they are read as they were written.
fn are_read(rt: &impl Abort, alloc: Global, first: u64, second: u64) -> Result<bool, Fault> {
    let wanted = [Value::new(&[7; 64]), Value::new(&[])];
    let mut values = [None, None].to_vec(alloc).expect(rt, "memory");
    let mut store = with_two(rt, alloc, first, second);
    match read_values(&mut store, &test_sealer(0), 3, &mut values, &mut Blind) {
        Ok(()) => Ok(values.as_slice() == wanted.as_slice()),
        Err(fault) => Err(fault),
    }
}

#[test]
fn each_row_has_the_seal_behind_the_one_before(rt: HostRuntime) {
    assert!(rt; are_read(&rt, rt.alloc(), 5, 5) == Ok(true));
    let mut kept = [0; 16];
    kept[0] = 6;
    let mut computed = [0; 16];
    computed[0] = 5;
    computed[8] = 1;
    assert!(rt;
        are_read(&rt, rt.alloc(), 5, 6)
            == Err(Fault::Damaged {
                cell: 4,
                check: Check::Seal,
                kept,
                computed,
            })
    );
}
