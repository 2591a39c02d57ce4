//! Checkpoints against cells that were made elsewhere, and each rule broken once.

ghost use Rattle.std.specs.Prelude.{◌≡◌, ◌<◌, ◌^◌, IfOk};
ghost use Rattle.ob_base.specs.Tree.{buckets};
ghost use Rattle.ob_tables.specs.Content.{Obeys, content_of};

use crate::cells::{
    SMALL, area_of, cells_of, has_cells, new_sealer, params_of, sealed, sealer_after, store_of,
    store_with,
};
use ob_base::{Check, Fault, Key, Params, Value, buckets};
use ob_cells::{Bench, read_sealed};
use ob_check::{Sheet, read, write};
use ob_mem::{Fail, MemSink};
use ob_seal::Sealer;
use ob_store::{Blind, SinkWatch, Store, Watch};
use ob_tables::{Entry, Meta, Metas, Stash, Tables};
use std::alloc::Global;
use std::process::Abort;
use std::thread::Threads;

/// What a store's checkpoint of an epoch reads as.
pub fn read_of<S: Store, W: Watch>(
    rt: &impl Abort,
    alloc: Global,
    p: &Params,
    epoch: u64,
    store: &mut S,
    watch: &mut W,
) -> Result<Tables<Metas>, Fault>
    ensures { IfOk result (λ t. Obeys p.now (content_of t)) }
{
    let mut sheet = Sheet::new(alloc, p).expect(rt, "memory");
    read(alloc, store, &new_sealer(9), p, epoch, &mut sheet, watch)
}

/// Copies a store's checkpoint of an epoch into another store, under these seals, and gives what it
/// read.
pub fn copy_into<R: Abort + Threads + Sync, S: Store>(
    rt: &R,
    alloc: Global,
    p: &Params,
    epoch: u64,
    from: &mut S,
    into: &mut S,
    sealer: &mut Sealer,
) -> Tables<Metas>
    requires epoch { epoch < 2 ^ 62 }
    requires none_out { (S.disk into.old).out ≡ 0 }
    ensures { Obeys p.now (content_of result) }
{
    let mut sheet = Sheet::new(alloc, p).expect(rt, "memory");
    let mut bench = Bench::new(alloc, 3).expect(rt, "memory");
    let tables = read_of(rt, alloc, p, epoch, from, &mut Blind).expect(rt, "tables");
    let written = write(
        rt, into, sealer, p, epoch, &tables, &mut sheet, &mut bench, &mut Blind,
    );
    assert!(rt; written.is_ok());
    tables
}

/// Reads the plain bytes of a store's checkpoint of an epoch: those of its first cells.
pub fn read_plain<S: Store>(
    rt: &impl Abort,
    p: &Params,
    epoch: u64,
    store: &mut S,
    plain: &mut [u8],
) {
    let len = plain.len();
    assert!(rt; len >= 96 && len % 96 == 0 && len < 1 << 32);
    let base = area_of(p, epoch);
    let read = read_sealed(store, &new_sealer(9), base, plain, &mut Blind);
    assert!(rt; read.is_ok());
}

// What is kept of key 5.
fn entry_5(p: &Params, tables: &Tables<Metas>) -> Option<Entry>
    requires keys { 5 < p.now.keys }
    requires obeys { Obeys p.now (content_of tables.now) }
{
    tables.book.get(5)
}

// What is kept of a bucket.
fn meta_of<'a>(p: &Params, tables: &'a Tables<Metas>, u: u32) -> &'a Meta
    requires bucket { u < buckets p.now }
    requires obeys { Obeys p.now (content_of tables.now) }
{
    tables.metas.get(u)
}

// Whether the tables are those of a store that was just formatted.
fn are_fresh(tables: &Tables<Metas>) -> bool {
    tables.counter == 0 && tables.stash.is_empty() && tables.stash.room() == 8
}

// Whether the tables are those behind an epoch that wrote key 5.
fn are_written(p: &Params, tables: &Tables<Metas>) -> bool
    requires { Obeys p.now (content_of tables.now) }
{
    if p.keys <= 5 || buckets(p) <= 4 {
        return false;
    }
    let entry = Entry {
        generation: 2,
        index: 4,
        leaf: 0,
    };
    let third = meta_of(p, tables, 3);
    let fourth = meta_of(p, tables, 4);
    tables.counter == 2
        && tables.stash.is_empty()
        && entry_5(p, tables) == Some(entry)
        && (third.home(), third.generation(), third.base()) == (1, 2, 2)
        && third.keys() == [Some(5), None].as_slice()
        && third.ranks() == [1, 2, 0, 4, 3].as_slice()
        && (fourth.home(), fourth.generation(), fourth.base()) == (0, 1, 20)
        && fourth.used() == [false, false, true, false, false].as_slice()
}

// Whether the tables are those of epoch 0 or of epoch 1.
fn are_known(p: &Params, epoch: u64, tables: &Tables<Metas>) -> bool
    requires { Obeys p.now (content_of tables.now) }
{
    if epoch == 0 {
        are_fresh(tables)
    } else {
        are_written(p, tables)
    }
}

// The cells of a checkpoint are read, and written into a new store under the seals of a generation
// after so many; they are the same there.
fn copies_so<R: Abort + Threads + Sync>(
    rt: &R,
    alloc: Global,
    p: &Params,
    epoch: u64,
    generation: u64,
    seals: u64,
) -> bool
    requires { epoch < 2 ^ 62 }
{
    let mut store = store_with(rt, alloc, p, epoch, &[]);
    let mut sealer = sealer_after(generation, seals);
    let mut copy = store_of(rt, alloc, p, &[]);
    let tables = copy_into(rt, alloc, p, epoch, &mut store, &mut copy, &mut sealer);
    sealer.next() == (generation, seals.wrapping_add(11))
        && are_known(p, epoch, &tables)
        && has_cells(rt, p, epoch, &mut copy)
}

#[test]
fn checkpoints_are_read_and_written(rt: HostRuntime) {
    let p = params_of(&rt, &SMALL);
    assert!(rt; copies_so(&rt, rt.alloc(), &p, 0, 1, 35));
    assert!(rt; copies_so(&rt, rt.alloc(), &p, 1, 2, 27));
}

// A place, a byte, and how many bytes from that place on are set to it.
type Change = (usize, u8, usize);

// The plain bytes of the cells of epoch 1 with these changes.
fn changed(rt: &impl Abort, alloc: Global, p: &Params, changes: &[Change]) -> [u8; 1056] {
    let mut store = store_with(rt, alloc, p, 1, &[]);
    let mut bytes = [0; 1056];
    read_plain(rt, p, 1, &mut store, &mut bytes);
    for &(place, byte, many) in changes {
        assert!(rt; place <= 1052 && many <= 4);
        bytes[place..place + many].fill(byte);
    }
    bytes
}

// What is read of epoch 1 where these of its bytes are others, sealed anew: the only row of the
// stash, or the fault.
fn answer(
    rt: &impl Abort,
    alloc: Global,
    p: &Params,
    changes: &[Change],
) -> Result<Option<(Key, Value)>, Fault> {
    let bytes = changed(rt, alloc, p, changes);
    let mut store = sealed(rt, alloc, p, 1, &bytes);
    match read_of(rt, alloc, p, 1, &mut store, &mut Blind) {
        Ok(tables) => Ok(only_row(&tables.stash)),
        Err(fault) => Err(fault),
    }
}

fn only_row(stash: &Stash) -> Option<(Key, Value)> {
    if stash.len() == 1 {
        Some(stash.row(0))
    } else {
        None
    }
}

/// What is told of a cell that breaks a rule; both are two numbers of 64 bits, low byte first.
pub fn damaged(cell: u64, check: Check, kept: (u64, u64), computed: (u64, u64)) -> Fault {
    Fault::Damaged {
        cell,
        check,
        kept: ((kept.1 as u128) << 64 | kept.0 as u128).to_le_bytes(),
        computed: ((computed.1 as u128) << 64 | computed.0 as u128).to_le_bytes(),
    }
}

const EMPTY: u64 = 0xffff_ffff;

// No change.
const N: Change = (0, 0, 0);

// Up to four changes.
type Changes = (Change, Change, Change, Change);

// Bytes that are changed, and the check, the cell, the number and the least one that are told.
type Broken = (Changes, Check, u64, u64, u64);

const BROKEN: &[Broken] = &[
    (((8, 4, 1), N, N, N), Check::Form, 28, 4, 0),
    (((16, 2, 1), N, N, N), Check::Form, 28, 2, 0),
    (((138, 4, 1), N, N, N), Check::Form, 29, 4, 0),
    (((289, 2, 1), N, N, N), Check::Form, 31, 2, 0),
    (((306, 2, 1), N, N, N), Check::Form, 31, 2, 5),
    (((306, 8, 1), N, N, N), Check::Form, 31, 8, 5),
    (((310, 5, 1), (311, 0, 3), N, N), Check::Form, 31, 5, EMPTY),
    (((201, 5, 1), (202, 0, 3), N, N), Check::Form, 31, 5, EMPTY),
    (((271, 5, 1), (272, 0, 3), N, N), Check::Form, 30, 5, EMPTY),
    (((279, 5, 1), N, N, N), Check::Form, 30, 5, 0),
    (((281, 1, 1), N, N, N), Check::Form, 30, 1, 0),
    (((280, 2, 1), N, N, N), Check::Form, 30, 2, 0),
    (((315, 1, 1), N, N, N), Check::Form, 31, 1, 0),
    (
        ((284, 1, 1), (286, 1, 1), (288, 1, 1), N),
        Check::Form,
        31,
        1,
        0,
    ),
    (((429, 1, 1), N, N, N), Check::Form, 32, 1, 0),
    (
        ((306, 255, 4), (429, 1, 1), (433, 4, 1), N),
        Check::Form,
        32,
        4,
        5,
    ),
    (
        ((306, 255, 4), (429, 1, 1), (433, 5, 1), (437, 65, 1)),
        Check::Form,
        32,
        65,
        0,
    ),
    (((306, 255, 4), N, N, N), Check::Form, 32, 0, 1),
    (((0, 9, 1), (8, 4, 1), N, N), Check::Epoch, 28, 9, 1),
];

// Whether this is told of such bytes.
fn is_told(rt: &impl Abort, alloc: Global, p: &Params, row: &Broken) -> bool {
    let ((first, second, third, fourth), check, cell, kept, least) = *row;
    let told = answer(rt, alloc, p, &[first, second, third, fourth]).err();
    told == Some(damaged(cell, check, (kept, 0), (least, 0)))
}

#[test]
fn the_first_broken_rule_is_told(rt: HostRuntime) {
    let p = params_of(&rt, &SMALL);
    for row in BROKEN {
        let cell = row.2;
        assert!(rt; is_told(&rt, rt.alloc(), &p, row), "{cell}");
    }
}

// The bytes of an absent key, behind a value and behind the stash's rows are not looked at.
static FREE: [Change; 9] = [
    (20, 7, 1),
    (306, 255, 4),
    (429, 1, 1),
    (433, 5, 1),
    (437, 1, 1),
    (438, b'q', 1),
    (450, 9, 1),
    (600, 3, 1),
    (990, 1, 1),
];

#[test]
fn other_bytes_are_free(rt: HostRuntime) {
    let p = params_of(&rt, &SMALL);
    match answer(&rt, rt.alloc(), &p, &FREE) {
        Ok(Some((key, value))) => assert!(rt; key == 5 && value.as_slice() == b"q".as_slice()),
        _ => assert!(rt; false),
    }
}

// How the reading of epoch 1 ends where a cell holds other bytes and these calls fail, each once,
// and these reads are shown.
fn end_behind(
    rt: &impl Abort,
    alloc: Global,
    fails: &[Fail],
    cell: u64,
    bytes: &[u8; 128],
    shown: &[u8],
) -> Option<Fault> {
    let p = params_of(rt, &SMALL);
    let mut store = store_with(rt, alloc, &p, 1, fails);
    let mut sink = MemSink::new(alloc, 200, Vec::new(alloc)).expect(rt, "memory");
    assert!(rt; store.write(cell, bytes).is_ok());
    let mut watch = SinkWatch::new(&mut sink);
    let end = read_of(rt, alloc, &p, 1, &mut store, &mut watch).err();
    assert!(rt; sink.written() == shown && store.faults() == fails.len() as u64);
    end
}

#[test]
fn a_cell_with_another_bit_ends_the_reading(rt: HostRuntime) {
    let mut bent = cells_of(&rt, 1)[1];
    bent[40] ^= 4;
    match end_behind(&rt, rt.alloc(), &[], 29, &bent, b"R 28\nR 29\n") {
        Some(Fault::Damaged { cell, check, .. }) => {
            assert!(rt; cell == 29 && check == Check::Tag);
        }
        _ => assert!(rt; false),
    }
}

// A cell that was sealed one number too far, and one whose read is refused.
#[test]
fn a_damaged_cell_ends_the_reading(rt: HostRuntime) {
    let far = sealer_after(2, 30).seal(30, &[0; 96]);
    let far = far.ok().expect(&rt, "a seal");
    let end = end_behind(&rt, rt.alloc(), &[], 30, &far, b"R 28\nR 29\nR 30\n");
    assert!(rt; end == Some(damaged(30, Check::Seal, (2, 30), (2, 29))));
    let fails = [Fail::Read {
        cell: 29,
        writes: 12,
    }];
    let end = end_behind(&rt, rt.alloc(), &fails, 30, &far, b"R 28\nR 29\n");
    assert!(rt; end == Some(Fault::StoreFault { unsure: None }));
}
