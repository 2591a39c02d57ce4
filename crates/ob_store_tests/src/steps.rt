//! Calls on a store as rows: what is called, and what it has to answer.

ghost use Rattle.std.specs.Prelude.{◌≡◌, ◌≤◌};
ghost use Rattle.ob_mem.specs.Memory.{disk_of_store};

use ob_mem::{Fail, MemSink, MemStore};
use ob_store::Store;
use std::alloc::Global;
use std::process::Abort;

/// Ends the test where this isn't so, and names the case.
pub fn insist<R: Abort>(rt: &R, so: bool, case: &str) {
    assert!(rt; so, "{case}");
}

/// The same of a case by its number.
pub fn insist_at<R: Abort>(rt: &R, so: bool, case: usize) {
    assert!(rt; so, "{case}");
}

/// A call on a store, and its answer. A read has a lane of its own.
#[derive(Drop)]
pub enum Step {
    /// Fills a cell with a byte.
    Write(u64, u8),
    NotWritten(u64, u8),
    /// Makes sure of what was written.
    Synced,
    NotSynced,
    /// Reads a cell: all of it is this byte.
    Read(u64, u8),
    /// These bytes, and zeros behind them.
    Front(u64, [u8; 3]),
    NotRead(u64),
    /// Two lanes read by turns the cells 0 to 3, each of which is its number throughout.
    Turns,
    /// No lane is made.
    NoLane,
}

type Cell = [u8; 128];

// Whether a lane reads a cell as these bytes; of none, whether it fails to read it.
fn lane_reads<S: Store>(store: &S, lane: &mut S::Lane, cell: u64, wanted: Option<Cell>) -> bool {
    let mut bytes = [0x99; 128];
    let read = store.read(lane, cell, &mut bytes);
    match wanted {
        Some(wanted) => read.is_ok() && bytes == wanted,
        None => read.is_err(),
    }
}

// The same with a lane of its own.
fn reads_as<S: Store>(store: &mut S, cell: u64, wanted: Option<Cell>) -> bool
    ensures { (S.disk store.new).out ≤ (S.disk store.old).out }
{
    let Ok(mut lane) = store.lane() else {
        return false;
    };
    let is_so = lane_reads(store, &mut lane, cell, wanted);
    store.absorb(lane);
    is_so
}

// Whether two lanes read the cells 0 to 3 by turns, each as its number.
fn read_by_turns<S: Store>(store: &mut S) -> bool
    ensures { (S.disk store.new).out ≤ (S.disk store.old).out }
{
    let Ok(mut first) = store.lane() else {
        return false;
    };
    let Ok(mut second) = store.lane() else {
        store.absorb(first);
        return false;
    };
    let is_so = lane_reads(store, &mut first, 0, Some([0; 128]))
        && lane_reads(store, &mut second, 2, Some([2; 128]))
        && lane_reads(store, &mut first, 1, Some([1; 128]))
        && lane_reads(store, &mut second, 3, Some([3; 128]));
    store.absorb(first);
    store.absorb(second);
    is_so
}

// Whether no lane is made.
fn has_no_lane<S: Store>(store: &mut S) -> bool
    ensures { (S.disk store.new).out ≤ (S.disk store.old).out }
{
    let Ok(lane) = store.lane() else {
        return true;
    };
    store.absorb(lane);
    false
}

// These bytes, and zeros behind them.
fn cell_of(front: [u8; 3]) -> Cell {
    let mut bytes = [0; 128];
    bytes[..3].copy_from_slice(&front);
    bytes
}

// Whether a call answers as it has to.
fn answers_so<S: Store>(store: &mut S, step: &Step) -> bool
    requires { (S.disk store.old).out ≡ 0 }
    ensures { (S.disk store.new).out ≡ 0 }
{
    match *step {
        Step::Write(cell, byte) => store.write(cell, &[byte; 128]).is_ok(),
        Step::NotWritten(cell, byte) => store.write(cell, &[byte; 128]).is_err(),
        Step::Synced => store.sync().is_ok(),
        Step::NotSynced => store.sync().is_err(),
        Step::Read(cell, byte) => reads_as(store, cell, Some([byte; 128])),
        Step::Front(cell, front) => reads_as(store, cell, Some(cell_of(front))),
        Step::NotRead(cell) => reads_as(store, cell, None),
        Step::Turns => read_by_turns(store),
        Step::NoLane => has_no_lane(store),
    }
}

/// Makes calls one behind the other, each of which has to answer so.
pub fn play<S: Store>(rt: &impl Abort, store: &mut S, steps: &[Step])
    requires { (S.disk store.old).out ≡ 0 }
    ensures { (S.disk store.new).out ≡ 0 }
{
    for i in 0..steps.len() {
        insist_at(rt, answers_so(store, &steps[i]), i);
    }
}

/// So many cells of zeros, where these calls fail.
pub fn new_store(rt: &impl Abort, alloc: Global, cells: usize, fails: &[Fail]) -> MemStore
    ensures { (disk_of_store result).out ≡ 0 }
{
    let fails = fails.to_vec(alloc).expect(rt, "memory");
    MemStore::new(alloc, cells, fails).expect(rt, "memory")
}

/// A sink that takes so many bytes, and whose writes of these numbers fail.
pub fn new_sink(rt: &impl Abort, alloc: Global, room: usize, fails: &[u64]) -> MemSink {
    let fails = fails.to_vec(alloc).expect(rt, "memory");
    MemSink::new(alloc, room, fails).expect(rt, "memory")
}
