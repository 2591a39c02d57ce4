//! Runs of sealed cells, with tags made elsewhere.

ghost use Rattle.std.specs.Prelude.{◌≡◌};
ghost use Rattle.ob_mem.specs.Memory.{disk_of_store};

use crate::shared::{STORE_FAULT, damaged, is_damage, new_sink, new_store, sealed_as, test_sealer};
use ob_base::{Check, Fault};
use ob_cells::{Cut, Identity, open_sealed, read_cells, read_sealed, write_sealed};
use ob_mem::{Fail, MemStore};
use ob_store::{Blind, SinkWatch, Store, Watch, write_through};
use std::alloc::Global;
use std::process::Abort;

// Empty slots of 96 bytes: the number FFFFFFFF hexadecimal, then zeros, each.
fn empty_slots<const N: usize>() -> [u8; N] {
    let mut bytes = [0; N];
    for i in 0..N {
        if i % 96 < 4 {
            bytes[i] = 0xff;
        }
    }
    bytes
}

// A store with four in the cells 39 to 42, under the first seals of generation 1.
fn with_slots(rt: &impl Abort, alloc: Global, fails: &[Fail]) -> MemStore
    ensures { result.log.out ≡ 0 }
{
    let mut store = new_store(rt, alloc, 43, fails);
    let bytes: [u8; 292] = empty_slots();
    let mut sealer = test_sealer(1);
    let cut = Cut { bytes: &bytes };
    let is_written = write_sealed(&mut store, &mut sealer, 39, 4, &cut, &mut Blind).is_ok();
    assert!(rt; is_written && sealer.next() == (1, 4));
    store
}

const FIRST: Identity = Identity {
    generation: 1,
    number: 0,
};

// The tags that another implementation made.
const TAGS: [u128; 4] = [
    0xc9bd3bdb90fa676ffcc544b29502cd98,
    0x8e225bb5ce9878246ca664e3f71a69fb,
    0x4c91f24f5489c00d27471191ee482bed,
    0x7d55a1e7c49b2350ac1b0e6d8d5d64dc,
];

// The cells, read one behind the other, which is shown.
fn read_shown(rt: &impl Abort, alloc: Global, store: &mut MemStore) -> [[u8; 128]; 4] {
    let mut sink = new_sink(rt, alloc, 20);
    let mut cells = [[9; 128]; 4];
    let mut watch = SinkWatch::new(&mut sink);
    let are_read = read_cells(store, 39, &mut cells, &mut watch).is_ok();
    assert!(rt; are_read && sink.written() == b"R 39\nR 40\nR 41\nR 42\n".as_slice());
    cells
}

// Whether each cell ends with its tag.
fn have_tags(cells: &[[u8; 128]; 4]) -> bool {
    for i in 0..4 {
        if cells[i][112..] != TAGS[i].to_be_bytes()[..] {
            return false;
        }
    }
    true
}

// Whether these cells open as the slots.
fn are_slots(cells: &[[u8; 128]; 4]) -> bool {
    let mut plain = [9; 384];
    let opened = open_sealed(&test_sealer(0), 39, cells, &mut plain);
    opened.ok() == Some(FIRST) && plain == empty_slots()
}

type Read = Result<Identity, Fault>;

// What the cells read as, and whether their plain bytes are the slots.
fn read_plain<W: Watch>(store: &mut MemStore, watch: &mut W) -> (Read, bool) {
    let mut plain = [9; 384];
    let read = read_sealed(store, &test_sealer(0), 39, &mut plain, watch);
    (read, plain == empty_slots())
}

// Whether the slots read back as they were written.
fn reads_back(rt: &impl Abort, alloc: Global) -> bool {
    let mut store = with_slots(rt, alloc, &[]);
    let cells = read_shown(rt, alloc, &mut store);
    have_tags(&cells)
        && are_slots(&cells)
        && read_plain(&mut store, &mut Blind) == (Ok(FIRST), true)
}

#[test]
fn a_run_reads_back(rt: HostRuntime) {
    assert!(rt; reads_back(&rt, rt.alloc()));
}

// Such a store in which a cell has these bytes.
fn slots_with(rt: &impl Abort, alloc: Global, cell: u64, bytes: &[u8; 128]) -> MemStore {
    let mut store = with_slots(rt, alloc, &[]);
    assert!(rt; write_through(&mut store, cell, bytes, &mut Blind).is_ok());
    store
}

// What the slots read as where a cell has these bytes, and the reads that are made.
fn read_with(rt: &impl Abort, alloc: Global, cell: u64, bytes: &[u8; 128]) -> (Read, usize) {
    let mut store = slots_with(rt, alloc, cell, bytes);
    let mut sink = new_sink(rt, alloc, 20);
    let (read, _) = read_plain(&mut store, &mut SinkWatch::new(&mut sink));
    (read, sink.written().len() / 5)
}

// A cell of the run that is sealed anew, under a generation and a number; the first cell that
// breaks a rule then, and the generation and number that it has and those that it should have.
const SEALED_ANEW: &[(u64, (u64, u64), u64, (u64, u64), (u64, u64))] = &[
    (41, (1, 3), 41, (1, 3), (1, 2)),
    (41, (2, 2), 41, (2, 2), (1, 2)),
    (39, (7, 0), 40, (1, 1), (7, 1)),
];

#[test]
fn the_first_cell_that_breaks_a_rule_is_told(rt: HostRuntime) {
    for &(cell, sealed, at, kept, computed) in SEALED_ANEW {
        let bytes = sealed_as(cell, sealed, &[7; 96]);
        let (read, reads) = read_with(&rt, rt.alloc(), cell, &bytes);
        let told = damaged(at, Check::Seal, kept, computed);
        assert!(rt; read == Err(told) && reads == at as usize - 38, "{cell}");
    }
}

// A cell under the seal of the cell behind it.
#[test]
fn a_seal_is_of_its_cell_alone(rt: HostRuntime) {
    let (read, reads) = read_with(&rt, rt.alloc(), 40, &sealed_as(41, (1, 1), &[7; 96]));
    let (other, all) = read_with(&rt, rt.alloc(), 42, &sealed_as(42, (1, 3), &[7; 96]));
    let is_told = matches!(read, Err(fault) if is_damage(fault, 40, Check::Tag));
    assert!(rt; reads == 2 && is_told && other == Ok(FIRST) && all == 4);
}

const NOT_READ: &[Fail] = &[
    Fail::Lane(0),
    Fail::Read {
        cell: 41,
        writes: 4,
    },
];

// Whether reading the slots fails.
fn fails_sealed(rt: &impl Abort, alloc: Global, fail: Fail) -> bool {
    let mut store = with_slots(rt, alloc, &[fail]);
    read_plain(&mut store, &mut Blind).0 == Err(STORE_FAULT)
}

// Whether reading the cells as they are fails.
fn fails_bare(rt: &impl Abort, alloc: Global, fail: Fail) -> bool {
    let mut store = with_slots(rt, alloc, &[fail]);
    read_cells(&mut store, 39, &mut [[0; 128]; 4], &mut Blind).is_err()
}

#[test]
fn a_failing_read_is_told(rt: HostRuntime) {
    for fail in NOT_READ {
        assert!(&rt; fails_sealed(&rt, rt.alloc(), *fail) && fails_bare(&rt, rt.alloc(), *fail));
    }
}

// Whether sealing the slots fails where the third write does, behind three seals.
fn fails_to_seal(rt: &impl Abort, alloc: Global) -> bool {
    let mut store = new_store(rt, alloc, 43, &[Fail::Write(2)]);
    let mut sealer = test_sealer(1);
    let bytes: [u8; 384] = empty_slots();
    let cut = Cut { bytes: &bytes };
    let refused = write_sealed(&mut store, &mut sealer, 39, 4, &cut, &mut Blind).is_err();
    refused && sealer.next() == (1, 3)
}

#[test]
fn a_failing_write_is_told(rt: HostRuntime) {
    assert!(rt; fails_to_seal(&rt, rt.alloc()));
}
