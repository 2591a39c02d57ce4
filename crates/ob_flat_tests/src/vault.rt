//! Plain stores: formats, openings, ends, each call failing, each cell damaged.

ghost use Rattle.std.specs.Prelude.{◌≡◌, ◌<◌, ◌≤◌, ℕ, false, length, map, All};
ghost use Rattle.std.specs.List.Sorted.{IsStrictlyIncreasing};
ghost use Rattle.ob_mem.specs.Memory.{disk_of_store};

use crate::fixtures::{bytes_in, formatted, formatted_with, open, small_params, test_keys};
use ob_base::{Check, Fault, Key, Params, Value, Write};
use ob_flat::{cells, head, prepare};
use ob_mem::{Fail, MemSink, MemStore};
use ob_plain_serial::{Reply, Request, serve_all};
use ob_seal::Sealer;
use ob_serial::{EndErr, Vault};
use ob_store::{Blind, SinkWatch, Store, Watch};
use std::alloc::Global;
use std::process::Abort;
use std::thread::Threads;

const OPEN: [u8; 128] = [0xA5; 128];

// The value of the tests, or none.
fn hi(some: bool) -> Option<Value> {
    if some { Value::new(b"hi") } else { None }
}

// ---- epochs

// An epoch asks for keys, each of which has to find `hi` or nothing, and may put `hi` at key 5.
struct Epoch {
    asks: &'static [(Key, bool)],
    puts: bool,
}

// Puts `hi` at key 5 in one epoch, and writes nothing in the next.
const TWO: &[Epoch] = &[
    Epoch {
        asks: &[(5, false), (5, false)],
        puts: true,
    },
    Epoch {
        asks: &[(5, true), (4, false)],
        puts: false,
    },
];

const IDLE: &[Epoch] = &[Epoch {
    asks: &[(0, false), (0, false)],
    puts: false,
}];

// Asks for a key, beside a pad.
fn ask<R: Abort + Threads + Sync, V: Vault, W: Watch>(
    rt: &R,
    params: &Params,
    vault: &mut V,
    key: Key,
    watch: &mut W,
) -> Option<Value>
    requires params { V.params vault.old ≡ params.now }
    ensures params { V.params vault.new ≡ params.now }
{
    let mut out = [None; 2];
    assert!(rt; params.places == 2 && key < params.keys && !vault.spent() && vault.left() > 0);
    assert!(rt; vault.fetch(rt, &[Some(key), None], &mut out, watch).is_ok());
    out[0]
}

// Ends an epoch that puts `hi` at key 5, or one without a write.
fn end_with<R: Abort + Threads + Sync, V: Vault, W: Watch>(
    rt: &R,
    params: &Params,
    vault: &mut V,
    puts: bool,
    watch: &mut W,
) -> Result<(), EndErr>
    requires params { V.params vault.old ≡ params.now }
    ensures params { V.params vault.new ≡ params.now }
{
    assert!(rt; 5 < params.keys && 1 <= params.writes && !vault.spent() && vault.left() == 0);
    if !puts {
        return vault.end(rt, &[], watch);
    }
    let value = hi(true);
    vault.end(rt, &[Write { key: 5, value }], watch)
}

// An epoch, and its end.
fn one_epoch<R: Abort + Threads + Sync, V: Vault, W: Watch>(
    rt: &R,
    params: &Params,
    vault: &mut V,
    epoch: &Epoch,
    watch: &mut W,
) -> Result<(), EndErr>
    requires params { V.params vault.old ≡ params.now }
    ensures params { V.params vault.new ≡ params.now }
{
    for asked in epoch.asks {
        assert!(rt; ask(rt, params, vault, asked.0, watch) == hi(asked.1));
    }
    let ended = end_with(rt, params, vault, epoch.puts, watch);
    assert!(rt; vault.spent() == ended.is_err());
    ended
}

// Epochs, one behind the other, up to the first that is refused.
fn all_epochs<R: Abort + Threads + Sync, V: Vault, W: Watch>(
    rt: &R,
    params: &Params,
    vault: &mut V,
    epochs: &[Epoch],
    watch: &mut W,
) -> Result<(), EndErr>
    requires params { V.params vault.old ≡ params.now }
{
    for epoch in epochs {
        if let Err(refused) = one_epoch(rt, params, vault, epoch, watch) {
            return Err(refused);
        }
    }
    assert!(rt; vault.left() == params.batches);
    Ok(())
}

// How epochs end on a store that is opened, and which was the last that ended.
fn ends<R: Abort + Threads + Sync, W: Watch>(
    rt: &R,
    alloc: Global,
    store: &mut MemStore,
    epochs: &[Epoch],
    watch: &mut W,
) -> (Result<(), EndErr>, u64)
    requires { (disk_of_store store.old).out ≡ 0 }
{
    let mut vault = open(rt, alloc, store, watch);
    let params = vault.params();
    let ended = all_epochs(rt, &params, &mut vault, epochs, watch);
    (ended, vault.epoch())
}

// ---- cells

// The 112 plain bytes of a stamped cell that begin so, with zeros behind.
fn plain_of(front: &[u8]) -> [u8; 112]
    requires { length front.now ≤ 112 }
{
    let mut plain = [0; 112];
    plain[..front.len()].copy_from_slice(front);
    plain
}

// Stamps what begins so for a cell.
fn stamped(cell: u64, front: &[u8]) -> [u8; 128]
    requires { length front.now ≤ 112 }
{
    Sealer::new(&test_keys(), 1).stamp(cell, &plain_of(front))
}

const HEAD: &[u8; 48] =
    b"OBLADIST\x66\0\0\0\x08\0\0\0\x02\0\0\0\x02\0\0\0\x03\0\0\0\x02\0\0\0\x02\0\0\0\x02\0\0\0\x02\0\0\0\x08\0\0\0";

// Of each cell that has a tag, after a format: its first two words, and its tag, high byte first.
const FORMATTED: &[(u64, u64, u64, u128)] = &[
    (
        0,
        0x54534944414c424f,
        0x800000066,
        0x9d90193ba8a794728a54437386a91823,
    ),
    (3, 0x1, 0x0, 0x834a770452230e13583e5a804d7c8af2),
    (5, 0x0, 0x0, 0xd9a64cdd7375301f15adeae0989cb213),
    (9, 0x1, 0x0, 0x883e2364ecbf9668601de03b1c1d7db7),
    (10, 0x1, 0x1, 0x425a58538d75228f0a953e4bc9a52acd),
    (11, 0x1, 0x2, 0xa2dfe02931c8a4980ea581766a4c45a2),
    (12, 0x1, 0x3, 0xb3be9f34f38d2b5ecbc61650bf8bdd3e),
    (13, 0x1, 0x4, 0x8d661a4b0da52ecc400cbc93913296f5),
    (14, 0x1, 0x5, 0x27c0f5084e273959dc560b4571f6a224),
    (15, 0x1, 0x6, 0xe1e60f6ae00585a8de96d40d6a41ed8f),
    (16, 0x1, 0x7, 0x5fcec384a6deb2a65c00873ec4c0a9bf),
];

// The same after two epochs.
const TWO_EPOCHS_LATER: &[(u64, u64, u64, u128)] = &[
    (
        0,
        0x54534944414c424f,
        0x800000066,
        0x9d90193ba8a794728a54437386a91823,
    ),
    (1, 0x2, 0x0, 0x76ce7298d05722600f13c3d92471c78e),
    (3, 0x1, 0x0, 0x834a770452230e13583e5a804d7c8af2),
    (5, 0x2, 0x0, 0x2442c181681c10cecc530435953ba1f5),
    (7, 0x1, 0x0, 0x5a09ae2099f78f24b8a2e6a69b91bbec),
    (9, 0x2, 0x8, 0x2df0df1f340ebe7d1a4a8dc37b6431fa),
    (10, 0x2, 0x9, 0xdeaac083bc74bc73be8c69ee53a76a15),
    (11, 0x2, 0xa, 0xa983ff9329d16fee4019b3d5900110db),
    (12, 0x2, 0xb, 0xa4f2e88b2cee812be7c365c01ee261da),
    (13, 0x2, 0xc, 0xa2bc0867e645cdcbe13b768df1c84a88),
    (14, 0x2, 0xd, 0xb46866c1b86a85dd35806d28e22ccc53),
    (15, 0x2, 0xe, 0x2501d70af319cec7ac0ee51c41068d9a),
    (16, 0x2, 0xf, 0xa1328fb83d7eaf71ef2c99e480640179),
    (17, 0x2, 0x0, 0x021ee5fb419417b9413d5be4d81ddb8e),
    (18, 0x2, 0x1, 0xf5c2b0a5fc3e9daab0fdf12fa4ec7fa2),
    (19, 0x2, 0x2, 0x6278909b6987ecd8fe101b2829bff14b),
    (20, 0x2, 0x3, 0x835efe0b5b047f9460f2a626f01897d5),
    (21, 0x2, 0x4, 0x872294ddfebc7f0253a0e740d38ff82d),
    (22, 0x2, 0x5, 0x7b92a5d284855364c392ff56d03fbbfd),
    (23, 0x2, 0x6, 0x43fb47832423f687ac08efec0d016f15),
    (24, 0x2, 0x7, 0xb10593c9d4d5491aaffabe4ffd781a87),
];

const FORMAT: &[u8] = b"\
    W 0\nS\nW 2\nW 4\nW 6\nW 8\nS\nW 4\nS\nW 3\nS\nW 4\nS\nW 9\nW 10\nW 11\nW 12\nW 13\n\
    W 14\nW 15\nW 16\nS\nW 6\nS\nW 5\nS\nW 6\nS\nW 0\nS\n";

const TWO_EPOCHS: &[u8] = b"\
    R 0\nR 1\nR 2\nR 3\nR 4\nR 5\nR 6\nR 7\nR 8\nR 9\nR 10\nR 11\nR 12\nR 13\nR 14\n\
    R 15\nR 16\nS\nW 1\nS\nW 2\nS\nW 17\nW 18\nW 19\nW 20\nW 21\nW 22\nW 23\nW 24\nS\n\
    W 7\nS\nW 8\nS\nW 9\nW 10\nW 11\nW 12\nW 13\nW 14\nW 15\nW 16\nS\nW 6\nS\nW 5\nS\n\
    W 6\nS\n";

// Whether a cell's first two words and its tag are these.
fn has_tag(bytes: &[u8; 128], first: u64, second: u64, tag: u128) -> bool {
    bytes[..8] == first.to_le_bytes()[..]
        && bytes[8..16] == second.to_le_bytes()[..]
        && bytes[112..] == tag.to_be_bytes()[..]
}

// Looks at cells that should have these bytes.
fn look_at(rt: &impl Abort, store: &mut MemStore, cells: &[u64], bytes: &[u8; 128]) {
    for cell in cells {
        assert!(rt; bytes_in(rt, store, *cell) == *bytes, "cell {cell}");
    }
}

// Looks at cells with a tag, at those that should be open gates, and at those of zeros.
fn look(
    rt: &impl Abort,
    store: &mut MemStore,
    cells: &[(u64, u64, u64, u128)],
    gates: &[u64],
    empty: &[u64],
) {
    for (cell, first, second, tag) in cells {
        let bytes = bytes_in(rt, store, *cell);
        assert!(rt; has_tag(&bytes, *first, *second, *tag), "cell {cell}");
    }
    look_at(rt, store, gates, &OPEN);
    look_at(rt, store, empty, &[0; 128]);
}

// A formatted store, whose format is shown.
fn formatted_shown(rt: &impl Abort, alloc: Global) -> MemStore {
    let mut sink = MemSink::new(alloc, 200, Vec::new(alloc)).expect(rt, "memory");
    let store = formatted_with(rt, alloc, Vec::new(alloc), &mut SinkWatch::new(&mut sink));
    assert!(rt; sink.written() == FORMAT);
    store
}

#[test]
fn a_format_makes_its_cells_in_order(rt: HostRuntime) {
    let params = small_params();
    assert!(rt; cells(&params) == 25);
    let mut store = formatted_shown(&rt, rt.alloc());
    look(&rt, &mut store, FORMATTED, &[4, 6], &[1, 2, 7, 8, 17, 24]);
    assert!(rt; head(&mut store, &test_keys(), &mut Blind) == Ok(params));
}

#[test]
fn two_epochs_make_their_cells_in_order(rt: HostRuntime) {
    let alloc = rt.alloc();
    let mut sink = MemSink::new(alloc, 400, Vec::new(alloc)).expect(&rt, "memory");
    let mut store = formatted(&rt, alloc);
    let ended = ends(&rt, alloc, &mut store, TWO, &mut SinkWatch::new(&mut sink));
    assert!(rt; ended == (Ok(()), 2));
    assert!(rt; sink.written() == TWO_EPOCHS);
    look(&rt, &mut store, TWO_EPOCHS_LATER, &[2, 4, 6, 8], &[]);
}

// The greatest generation under which a cell of these rows is sealed.
fn last_generation(rt: &impl Abort, store: &mut MemStore) -> u64 {
    let sealer = Sealer::new(&test_keys(), 0);
    let mut last = 0;
    for cell in 9..25 {
        let bytes = bytes_in(rt, store, cell);
        if let Ok(opened) = sealer.unseal(cell, None, &bytes) {
            last = opened.generation.max(last);
        }
    }
    last
}

// What a crash leaves where the cells that aren't sure hold these bytes, or what they got last.
fn left_after(
    rt: &impl Abort,
    store: &MemStore,
    moment: usize,
    filling: Option<[u8; 128]>,
) -> MemStore
    ensures { (disk_of_store result).out ≡ 0 }
{
    let left = match filling {
        None => store.crash(moment, &[]),
        Some(bytes) => {
            let mut fillings = [(0, bytes); 25];
            for i in 0..25 {
                fillings[i] = (i as u64, bytes);
            }
            store.crash(moment, &fillings)
        }
    };
    left.expect(rt, "memory")
}

// The epoch and the value of key 5 after a crash, and whether the next generation is above all that
// sealed a row.
fn kept_after<R: Abort + Threads + Sync>(
    rt: &R,
    alloc: Global,
    store: &MemStore,
    moment: usize,
    filling: Option<[u8; 128]>,
) -> (u64, Option<Value>, bool) {
    let sealed = last_generation(rt, &mut left_after(rt, store, moment, filling));
    let mut left = left_after(rt, store, moment, filling);
    let mut vault = open(rt, alloc, &mut left, &mut Blind);
    let params = vault.params();
    let value = ask(rt, &params, &mut vault, 5, &mut Blind);
    (vault.epoch(), value, sealed < vault.generation())
}

// Crashes a store of two epochs at each moment from its opening to the second end, with this in the
// cells that aren't sure: the epochs have ended from these moments on.
fn crash_everywhere<R: Abort + Threads + Sync>(
    rt: &R,
    alloc: Global,
    store: &MemStore,
    filling: Option<[u8; 128]>,
    ended: (usize, usize),
) {
    for moment in 30..64 {
        let epoch = u64::from(moment >= ended.0) + u64::from(moment >= ended.1);
        let value = hi(epoch != 0);
        assert!(rt;
            kept_after(rt, alloc, store, moment, filling) == (epoch, value, true),
            "at {moment}"
        );
    }
}

#[test]
fn a_crash_leaves_the_old_epoch_or_the_new(rt: HostRuntime) {
    let alloc = rt.alloc();
    let store = after_two_epochs(&rt, alloc);
    // The format has 30 writes and syncs, the opening 5, the first end 13, the second 15. The last
    // write and sync of an end decide.
    crash_everywhere(&rt, alloc, &store, None, (47, 62));
    crash_everywhere(&rt, alloc, &store, Some([0; 128]), (48, 63));
    crash_everywhere(&rt, alloc, &store, Some(OPEN), (47, 62));
}

// A formatted store behind two epochs.
fn after_two_epochs<R: Abort + Threads + Sync>(rt: &R, alloc: Global) -> MemStore {
    let mut store = formatted(rt, alloc);
    assert!(rt; ends(rt, alloc, &mut store, TWO, &mut Blind) == (Ok(()), 2));
    store
}

// The first epoch's end where this call fails.
fn first_end<R: Abort + Threads + Sync>(rt: &R, alloc: Global, fail: Fail) -> Result<(), EndErr> {
    let fails = [fail].to_vec(alloc).expect(rt, "memory");
    let mut store = formatted_with(rt, alloc, fails, &mut Blind);
    ends(rt, alloc, &mut store, IDLE, &mut Blind).0
}

const BEFORE: Result<(), EndErr> = Err(EndErr::Before(Fault::StoreFault { unsure: None }));

const UNSURE: Result<(), EndErr> = Err(EndErr::Unsure(Fault::StoreFault { unsure: Some(1) }));

// The format has 20 writes and 10 syncs, the opening two and three.
const FAILING: &[(Fail, Result<(), EndErr>)] = &[
    (Fail::Write(22), BEFORE),
    (Fail::Write(29), BEFORE),
    (Fail::Sync(13), BEFORE),
    (Fail::Write(30), BEFORE),
    (Fail::Sync(14), BEFORE),
    (Fail::Write(31), UNSURE),
    (Fail::Sync(15), UNSURE),
    (Fail::Write(32), Ok(())),
];

#[test]
fn a_failing_call_of_an_end_is_told(rt: HostRuntime) {
    for i in 0..FAILING.len() {
        let (fail, wanted) = &FAILING[i];
        assert!(rt; first_end(&rt, rt.alloc(), *fail) == *wanted, "row {i}");
    }
}

// What opening answers where this cell was changed.
fn refused_with(rt: &impl Abort, alloc: Global, cell: u64, bytes: &[u8; 128]) -> Fault {
    let mut store = formatted(rt, alloc);
    let keys = test_keys();
    assert!(rt; store.write(cell, bytes).is_ok());
    if let Err(fault) = head(&mut store, &keys, &mut Blind) {
        return fault;
    }
    let Err(fault) = prepare(alloc, &mut store, &keys, &small_params(), &mut Blind) else {
        panic!(rt; "the store was opened")
    };
    fault
}

// A damaged cell, with what is kept and what was computed, high byte first.
fn damaged(cell: u64, check: Check, kept: u128, computed: u128) -> Fault {
    Fault::Damaged {
        cell,
        check,
        kept: kept.to_be_bytes(),
        computed: computed.to_be_bytes(),
    }
}

// Of a formatted store's cells the lowest bit of this byte is changed: the tag that is kept, and
// the one that was computed, high byte first.
const TAGS: &[(u64, usize, u128, u128)] = &[
    (
        0,
        112,
        0x9c90193ba8a794728a54437386a91823,
        0x9d90193ba8a794728a54437386a91823,
    ),
    (
        3,
        112,
        0x824a770452230e13583e5a804d7c8af2,
        0x834a770452230e13583e5a804d7c8af2,
    ),
    (
        5,
        127,
        0xd9a64cdd7375301f15adeae0989cb212,
        0xd9a64cdd7375301f15adeae0989cb213,
    ),
    (
        9,
        112,
        0x893e2364ecbf9668601de03b1c1d7db7,
        0x883e2364ecbf9668601de03b1c1d7db7,
    ),
    (
        16,
        20,
        0x5fcec384a6deb2a65c00873ec4c0a9bf,
        0xc6d7238dbb239e2c0487f75b191deb26,
    ),
];

// A formatted store's cell with the lowest bit of this byte changed.
fn changed(rt: &impl Abort, alloc: Global, cell: u64, place: usize) -> [u8; 128] {
    let mut bytes = bytes_in(rt, &mut formatted(rt, alloc), cell);
    assert!(rt; place < 128);
    bytes[place] ^= 1;
    bytes
}

#[test]
fn a_damaged_tag_is_told(rt: HostRuntime) {
    for &(cell, place, kept, computed) in TAGS {
        let bytes = changed(&rt, rt.alloc(), cell, place);
        let told = refused_with(&rt, rt.alloc(), cell, &bytes);
        assert!(rt;
            told == damaged(cell, Check::Tag, kept, computed),
            "cell {cell}"
        );
    }
}

// A row's cell of these plain bytes, under a seal of this generation and number.
fn sealed(rt: &impl Abort, cell: u64, generation: u64, number: u64, plain: &[u8; 96]) -> [u8; 128] {
    let mut sealer = Sealer::new(&test_keys(), generation);
    for _ in 0..number {
        assert!(rt; sealer.seal(0, plain).is_ok());
    }
    sealer.seal(cell, plain).ok().expect(rt, "a seal")
}

// What a cell of a formatted store holds instead.
#[derive(Clone, Copy)]
enum Bent {
    // The head with another byte there, under its tag.
    Head {
        at: usize,
        byte: u8,
    },
    // Such bytes.
    Filled {
        byte: u8,
    },
    // The number 2^62, under its tag.
    Great,
    // A row that begins with these two bytes, whether it is present and how long, under this seal.
    Row {
        generation: u64,
        number: u64,
        front: (u8, u8),
    },
}

fn bent_bytes(rt: &impl Abort, cell: u64, bent: &Bent) -> [u8; 128] {
    match bent {
        Bent::Head { at, byte } => {
            let mut front = *HEAD;
            assert!(rt; *at < 48);
            front[*at] = *byte;
            stamped(cell, &front)
        }
        Bent::Filled { byte } => [*byte; 128],
        Bent::Great => stamped(cell, &[0, 0, 0, 0, 0, 0, 0, 0x40]),
        Bent::Row {
            generation,
            number,
            front,
        } => {
            let mut plain = [0; 96];
            plain[0] = front.0;
            plain[1] = front.1;
            sealed(rt, cell, *generation, *number, &plain)
        }
    }
}

// What opening tells of a damaged cell: two numbers that are kept, and two that were computed.
type Told = (u64, Check, (u64, u64), (u64, u64));

// The 16 bytes of two numbers, low byte first, as a number with the high byte first.
fn told(numbers: (u64, u64)) -> u128 {
    let first = u128::from(u64::from_be_bytes(numbers.0.to_le_bytes()));
    let second = u128::from(u64::from_be_bytes(numbers.1.to_le_bytes()));
    (first << 64) | second
}

fn fault_of(told_as: Option<Told>) -> Fault {
    match told_as {
        None => Fault::NotStore,
        Some((cell, check, kept, computed)) => damaged(cell, check, told(kept), told(computed)),
    }
}

// A row's cell, and what is told of it; or it is no store.
const BENT: &[(u64, Bent, Option<Told>)] = &[
    (0, Bent::Head { at: 8, byte: 101 }, None),
    (
        0,
        Bent::Head { at: 20, byte: 17 },
        Some((0, Check::Form, (17, 0), (1, 0))),
    ),
    (
        0,
        Bent::Head { at: 12, byte: 9 },
        Some((0, Check::Form, (9, 0), (1, 0))),
    ),
    (4, Bent::Filled { byte: 0 }, None),
    (6, Bent::Filled { byte: 1 }, None),
    (5, Bent::Great, Some((5, Check::Form, (1 << 62, 0), (0, 0)))),
    (
        9,
        Bent::Row {
            generation: 7,
            number: 2,
            front: (0, 0),
        },
        Some((10, Check::Seal, (1, 1), (7, 3))),
    ),
    (
        12,
        Bent::Row {
            generation: 1,
            number: 4,
            front: (0, 0),
        },
        Some((12, Check::Seal, (1, 4), (1, 3))),
    ),
    (
        12,
        Bent::Row {
            generation: 2,
            number: 3,
            front: (2, 65),
        },
        Some((12, Check::Seal, (2, 3), (1, 3))),
    ),
    (
        12,
        Bent::Row {
            generation: 1,
            number: 3,
            front: (2, 65),
        },
        Some((12, Check::Form, (2, 0), (0, 0))),
    ),
    (
        16,
        Bent::Row {
            generation: 1,
            number: 7,
            front: (0, 65),
        },
        Some((16, Check::Form, (65, 0), (0, 0))),
    ),
];

#[test]
fn damage_is_named(rt: HostRuntime) {
    for (cell, bent, wanted) in BENT {
        let bytes = bent_bytes(&rt, *cell, bent);
        let told = refused_with(&rt, rt.alloc(), *cell, &bytes);
        assert!(rt; told == fault_of(*wanted), "cell {cell}");
    }
}

// The number `2^62 - 1`.
const LAST: [u8; 8] = [0xFF, 0xFF, 0xFF, 0xFF, 0xFF, 0xFF, 0xFF, 0x3F];

// How an epoch ends behind two, where the register holds the last number.
fn last_end<R: Abort + Threads + Sync>(rt: &R, alloc: Global) -> Result<(), EndErr> {
    let store = after_two_epochs(rt, alloc);
    let mut left = left_after(rt, &store, 1000, None);
    assert!(rt; left.write(7, &stamped(7, &LAST)).is_ok());
    ends(rt, alloc, &mut left, IDLE, &mut Blind).0
}

#[test]
fn the_last_numbers_are_worn(rt: HostRuntime) {
    let worn = Fault::Worn { number: 1 << 62 };
    assert!(rt; refused_with(&rt, rt.alloc(), 3, &stamped(3, &LAST)) == worn);
    assert!(rt; last_end(&rt, rt.alloc()) == Err(EndErr::Before(worn)));
}

// Whether a list of one call, which asks for a key beside a pad, is served.
fn is_served<R: Abort + Threads + Sync, V: Vault>(
    rt: &R,
    alloc: Global,
    params: &Params,
    vault: &mut V,
) -> bool
    requires params { V.params vault.old ≡ params.now }
{
    let asks = [Some(5), None].to_vec(alloc).expect(rt, "memory");
    let requests = [Request::Fetch(asks)];
    assert!(rt; params.places == 2 && params.keys == 8 && !vault.spent() && vault.left() == 2);
    match serve_all(rt, alloc, vault, &requests, &mut Blind) {
        Ok(replies) => replies.len() == 1 && matches!(replies.get(0), Some(Reply::Values(_))),
        Err(_) => false,
    }
}

#[test]
fn a_list_of_calls_is_served(rt: HostRuntime) {
    let mut store = formatted(&rt, rt.alloc());
    let mut vault = open(&rt, rt.alloc(), &mut store, &mut Blind);
    let params = vault.params();
    assert!(rt; is_served(&rt, rt.alloc(), &params, &mut vault));
    assert!(rt; vault.left() == 1);
}
