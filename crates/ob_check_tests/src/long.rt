//! Runs that several threads seal, and cells that were sealed before, against runs that are sealed
//! one cell behind the other.

ghost use Rattle.std.specs.Prelude.{◌≡◌, ◌≤◌};
ghost use Rattle.ob_mem.specs.Memory.{disk_of_store};

use crate::cells::new_sealer;
use ob_cells::{
    Bench, CellRun, Cut, Pieces, read_cells, threads_for, write_long, write_ready, write_sealed,
};
use ob_mem::{Fail, MemSink, MemStore};
use ob_seal::Sealer;
use ob_store::{Blind, SinkWatch, Store};
use std::alloc::Global;
use std::process::Abort;
use std::thread::Threads;

// The first cell of a run.
const BASE: u64 = 39;

// What writing a run left: whether it was answered Ok, the store, the next seal, and what was shown.
#[derive(Drop)]
struct Left {
    good: bool,
    store: MemStore,
    next: (u64, u64),
    shown: MemSink,
}

// A store with room for a run of so many cells and some more, where these calls fail.
fn roomy_store(rt: &impl Abort, alloc: Global, many: u64, fails: &[Fail]) -> MemStore
    requires { many ≤ 3100 }
    ensures { (disk_of_store result).out ≡ 0 }
{
    let fails = fails.to_vec(alloc).expect(rt, "memory");
    MemStore::new(alloc, many as usize + 100, fails).expect(rt, "memory")
}

// A sink with room for what writing a run shows.
fn new_sink(rt: &impl Abort, alloc: Global) -> MemSink {
    MemSink::new(alloc, 50000, Vec::new(alloc)).expect(rt, "memory")
}

// The plain bytes of 3,100 cells, but for the last 31.
fn plain_bytes(rt: &impl Abort, alloc: Global) -> Vec<u8> {
    let mut bytes = vec![in alloc; 0u8; 297569].expect(rt, "memory");
    for i in 0..bytes.len() {
        bytes[i] = (i % 251) as u8;
    }
    bytes
}

// A run of so many cells, sealed one behind the other.
fn one_by_one(rt: &impl Abort, alloc: Global, cut: &Cut<'_>, many: u64, fails: &[Fail]) -> Left
    requires { many ≤ 3100 }
{
    let mut store = roomy_store(rt, alloc, many, fails);
    let mut sealer = new_sealer(3);
    let mut shown = new_sink(rt, alloc);
    let mut watch = SinkWatch::new(&mut shown);
    let good = write_sealed(&mut store, &mut sealer, BASE, many, cut, &mut watch).is_ok();
    Left {
        good,
        store,
        next: sealer.next(),
        shown,
    }
}

// The same, sealed on a bench.
fn on_bench<R: Abort + Threads + Sync>(
    rt: &R,
    alloc: Global,
    cut: &Cut<'_>,
    many: u64,
    bench: &mut Bench,
    fails: &[Fail],
) -> Left
    requires { many ≤ 3100 }
{
    let run = CellRun {
        base: BASE,
        many,
        pieces: cut,
    };
    let mut store = roomy_store(rt, alloc, many, fails);
    let mut sealer = new_sealer(3);
    let mut shown = new_sink(rt, alloc);
    let mut watch = SinkWatch::new(&mut shown);
    let good = write_long(rt, &mut store, &mut sealer, bench, &run, &mut watch).is_ok();
    Left {
        good,
        store,
        next: sealer.next(),
        shown,
    }
}

// So many first cells of a store.
fn cells_of(rt: &impl Abort, alloc: Global, store: &mut MemStore, many: u64) -> Vec<[u8; 128]> {
    let mut cells = vec![in alloc; [0u8; 128]; many as usize].expect(rt, "memory");
    assert!(rt; read_cells(store, 0, cells.as_mut_slice(), &mut Blind).is_ok());
    cells
}

// Whether both left the same, in so many cells.
fn are_alike(rt: &impl Abort, alloc: Global, one: &mut Left, other: &mut Left, many: u64) -> bool
    requires { many ≤ 3100 }
{
    let first = cells_of(rt, alloc, &mut one.store, many + 100);
    let second = cells_of(rt, alloc, &mut other.store, many + 100);
    one.good == other.good
        && one.next == other.next
        && one.shown.written() == other.shown.written()
        && one.store.faults() == other.store.faults()
        && first.as_slice() == second.as_slice()
}

// Whether a run of so many cells where these calls fail leaves the same on a bench.
fn is_same_on<R: Abort + Threads + Sync>(
    rt: &R,
    alloc: Global,
    cut: &Cut<'_>,
    many: u64,
    bench: &mut Bench,
    fails: &[Fail],
) -> bool
    requires { many ≤ 3100 }
{
    let mut want = one_by_one(rt, alloc, cut, many, fails);
    let mut left = on_bench(rt, alloc, cut, many, bench, fails);
    want.good == fails.is_empty() && are_alike(rt, alloc, &mut want, &mut left, many)
}

// Whether it leaves the same by 1, 2 and 16 threads.
fn is_same_by_threads<R: Abort + Threads + Sync>(
    rt: &R,
    alloc: Global,
    cut: &Cut<'_>,
    many: u64,
    fails: &[Fail],
) -> bool
    requires { many ≤ 3100 }
{
    for threads in &[1, 2, 16] {
        let mut bench = Bench::new(alloc, *threads).expect(rt, "memory");
        if !is_same_on(rt, alloc, cut, many, &mut bench, fails) {
            return false;
        }
    }
    true
}

// Whether it is so where a write fails: of the first, of those about a window's end, of the last.
fn is_so_refused<R: Abort + Threads + Sync>(rt: &R, alloc: Global, cut: &Cut<'_>, many: u64) -> bool
    requires { (1 ≤ many) × (many ≤ 3100) }
{
    for &at in &[0, 63, 1023, 1024, 1535, 1536, 3071] {
        if at < many - 1 && !is_same_by_threads(rt, alloc, cut, many, &[Fail::Write(at)]) {
            return false;
        }
    }
    is_same_by_threads(rt, alloc, cut, many, &[Fail::Write(many - 1)])
}

const MANY: &[u64] = &[1, 63, 64, 1024, 1025, 1536, 3000, 3073];

// Whether runs of so many cells leave the same by threads, where no write fails, or where one does.
fn are_same<R: Abort + Threads + Sync>(rt: &R, alloc: Global, refused: bool) -> bool {
    let bytes = plain_bytes(rt, alloc);
    let cut = Cut {
        bytes: bytes.as_slice(),
    };
    for &many in MANY {
        let is_same = if refused {
            is_so_refused(rt, alloc, &cut, many)
        } else {
            is_same_by_threads(rt, alloc, &cut, many, &[])
        };
        if !is_same {
            return false;
        }
    }
    true
}

#[test]
fn a_run_by_threads_is_the_same(rt: HostRuntime) {
    assert!(rt; are_same(&rt, rt.alloc(), false));
}

#[test]
fn a_refused_run_by_threads_is_the_same(rt: HostRuntime) {
    assert!(rt; are_same(&rt, rt.alloc(), true));
}

// Whether one bench serves runs one behind the other.
fn serves_many<R: Abort + Threads + Sync>(rt: &R, alloc: Global) -> bool {
    let bytes = plain_bytes(rt, alloc);
    let cut = Cut {
        bytes: bytes.as_slice(),
    };
    let mut bench = Bench::new(alloc, 3).expect(rt, "memory");
    is_same_on(rt, alloc, &cut, 1100, &mut bench, &[])
        && is_same_on(rt, alloc, &cut, 100, &mut bench, &[])
        && is_same_on(rt, alloc, &cut, 70, &mut bench, &[])
}

// A bench has the cells of the runs before.
#[test]
fn a_bench_serves_many_runs(rt: HostRuntime) {
    assert!(rt; serves_many(&rt, rt.alloc()));
}

// The first 48 cells of a run, sealed before they are written.
fn slots_of(sealer: &Sealer, cut: &Cut<'_>) -> [[u8; 128]; 48] {
    let mut slots = [[0; 128]; 48];
    for i in 0..48 {
        slots[i] = sealer.seal_at(BASE + i as u64, i as u64, &cut.piece(i as u64));
    }
    slots
}

// A run of 48 cells that were sealed before it is written.
fn sealed_before(rt: &impl Abort, alloc: Global, cut: &Cut<'_>, fails: &[Fail]) -> Left {
    let mut store = roomy_store(rt, alloc, 48, fails);
    let mut sealer = new_sealer(3);
    let slots = slots_of(&sealer, cut);
    assert!(rt; sealer.next() == (3, 0));
    let mut shown = new_sink(rt, alloc);
    let mut watch = SinkWatch::new(&mut shown);
    let good = write_ready(&mut store, &mut sealer, BASE, &slots, &mut watch).is_ok();
    Left {
        good,
        store,
        next: sealer.next(),
        shown,
    }
}

// Whether a run of 48 cells where these calls fail leaves the same if they were sealed before.
fn is_same_before(rt: &impl Abort, alloc: Global, fails: &[Fail]) -> bool {
    let bytes = plain_bytes(rt, alloc);
    let cut = Cut {
        bytes: bytes.as_slice(),
    };
    let mut want = one_by_one(rt, alloc, &cut, 48, fails);
    let mut left = sealed_before(rt, alloc, &cut, fails);
    want.good == fails.is_empty() && are_alike(rt, alloc, &mut want, &mut left, 48)
}

const FAILS: &[&[Fail]] = &[
    &[],
    &[Fail::Write(0)],
    &[Fail::Write(20)],
    &[Fail::Write(47)],
];

#[test]
fn cells_that_were_sealed_before_are_the_same(rt: HostRuntime) {
    for fails in FAILS {
        assert!(&rt; is_same_before(&rt, rt.alloc(), fails));
    }
}

#[test]
fn few_cells_are_sealed_by_one_thread(rt: HostRuntime) {
    let few = threads_for(16, 63) == 1 && threads_for(16, 255) == 1 && threads_for(1, 1536) == 1;
    assert!(rt; few && threads_for(16, 256) == 2 && threads_for(16, 1536) == 12);
}
