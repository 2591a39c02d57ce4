//! What tests of cells share: stores, sealers, what a crash leaves, how damage is told.

ghost use Rattle.std.specs.Prelude.{◌≡◌, ◌≤◌, ℕ};
ghost use Rattle.ob_mem.specs.Replay.{zeros};
ghost use Rattle.ob_mem.specs.Memory.{disk_of_store};

use ob_base::{Check, Fault, Jobs, Params};
use ob_cells::{Crew, JobsErr, run_jobs};
use ob_lanes::Lanes;
use ob_mem::{Fail, MemSink, MemStore};
use ob_seal::{Keys, Sealer};
use std::alloc::Global;
use std::process::Abort;
use std::thread::Threads;

/// So many cells of zeros, where these calls fail.
pub fn new_store(rt: &impl Abort, alloc: Global, cells: usize, fails: &[Fail]) -> MemStore
    ensures out { (disk_of_store result).out ≡ 0 }
    ensures blank { (k : ℕ) → (disk_of_store result).cells k ≡ zeros }
{
    let fails = fails.to_vec(alloc).expect(rt, "memory");
    MemStore::new(alloc, cells, fails).expect(rt, "memory")
}

/// A sink that takes so many bytes, and doesn't fail.
pub fn new_sink(rt: &impl Abort, alloc: Global, room: usize) -> MemSink {
    MemSink::new(alloc, room, Vec::new(alloc)).expect(rt, "memory")
}

/// What a crash of a store leaves after so many calls: in each of these cells that isn't sure then,
/// this byte throughout, or what it got last.
pub fn left_after(
    rt: &impl Abort,
    store: &MemStore,
    moment: usize,
    cells: &[u64],
    filling: Option<u8>,
) -> MemStore
    ensures { (disk_of_store result).out ≡ 0 }
{
    assert!(rt; cells.len() <= 4);
    let mut fills = [(0, [filling.unwrap_or(0); 128]); 4];
    for i in 0..cells.len() {
        fills[i].0 = cells[i];
    }
    let left = match filling {
        None => store.crash(moment, &[]),
        Some(_) => store.crash(moment, &fills[..cells.len()]),
    };
    left.expect(rt, "memory")
}

/// The parameters of a store with so many keys and two read batches of so many places.
pub fn params(rt: &impl Abort, keys: u32, places: u32) -> Params {
    Params::new(keys, 2, 2, 3, 2, places, 2, 2, 8).expect(rt, "parameters in range")
}

/// A crew of so many lanes, with room for 18 jobs.
pub fn crew_of<L: Drop>(rt: &impl Abort, alloc: Global, lanes: usize) -> Crew<L>
    requires { (1 ≤ lanes) × (lanes ≤ 16) }
    ensures { result.lanes ≡ lanes }
{
    let crew = Crew::new(alloc, lanes, 18).expect(rt, "memory");
    assert!(rt; crew.lanes() == lanes);
    crew
}

/// What jobs answer that a crew reads.
pub fn run<S: Lanes, R: Abort + Threads + Sync>(
    rt: &R,
    store: &mut S,
    crew: &mut Crew<S::Lane>,
    jobs: &mut Jobs,
) -> Result<(), JobsErr>
    ensures { (S.disk store.new).out ≤ (S.disk store.old).out }
{
    assert!(rt; jobs.jobs().len() <= crew.jobs());
    run_jobs(rt, store, crew, &test_sealer(1), jobs)
}

/// A sealer of a generation, under the keys of the bytes 0 to 95.
pub fn test_sealer(generation: u64) -> Sealer
    ensures { result.next ≡ 0 }
{
    let mut bytes = [0; 96];
    for i in 0..96 {
        bytes[i] = i as u8;
    }
    Sealer::new(&Keys::from_bytes(&bytes), generation)
}

/// A cell of these plain bytes, under the seal of a generation and a number.
pub fn sealed_as(cell: u64, seal: (u64, u64), plain: &[u8; 96]) -> [u8; 128] {
    let mut sealer = test_sealer(seal.0);
    let mut bytes = [0; 128];
    for _ in 0..=seal.1 {
        if let Ok(sealed) = sealer.seal(cell, plain) {
            bytes = sealed;
        }
    }
    bytes
}

/// The bytes of a cell, 16 a number, the high one first.
pub fn spelled(words: &[u128; 8]) -> [u8; 128] {
    let mut bytes = [0; 128];
    for i in 0..8 {
        bytes[16 * i..16 * i + 16].copy_from_slice(&words[i].to_be_bytes());
    }
    bytes
}

/// What is told of a damaged cell, where both are two numbers of 64 bits, low byte first.
pub fn damaged(cell: u64, check: Check, kept: (u64, u64), computed: (u64, u64)) -> Fault {
    Fault::Damaged {
        cell,
        check,
        kept: ((kept.1 as u128) << 64 | kept.0 as u128).to_le_bytes(),
        computed: ((computed.1 as u128) << 64 | computed.0 as u128).to_le_bytes(),
    }
}

/// Whether it is the damage of this cell, at this check.
pub fn is_damage(fault: Fault, at: u64, failed: Check) -> bool {
    match fault {
        Fault::Damaged { cell, check, .. } => cell == at && check == failed,
        _ => false,
    }
}

/// A store that failed before it wrote or synced.
pub const STORE_FAULT: Fault = Fault::StoreFault { unsure: None };
