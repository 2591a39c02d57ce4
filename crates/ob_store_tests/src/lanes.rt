//! Lanes of stores, in threads.

ghost use Rattle.std.specs.Prelude.{◌≡◌, ◌≤◌};

use crate::files::{fresh_path, opened};
use crate::steps::Step::Read;
use crate::steps::{insist, new_store, play};
use ob_base::Job;
use ob_lanes::{Lanes, Readers, Slot, read_jobs};
use ob_mem::{BareStore, GateStore};
use ob_seal::{Keys, Sealer};
use ob_store::Store;
use std::alloc::Global;
use std::fs;
use std::process::Abort;
use std::thread::Threads;

// The plain bytes of a cell.
fn plain_of(cell: u64) -> [u8; 96] {
    [cell.to_le_bytes()[0]; 96]
}

// Writes these cells, each under the next seal. A job for each, in their order.
fn sealed<S: Store>(
    rt: &impl Abort,
    alloc: Global,
    store: &mut S,
    sealer: &mut Sealer,
    cells: &[u64],
) -> Vec<Job>
    requires { (S.disk store.old).out ≡ 0 }
    ensures { (S.disk store.new).out ≡ 0 }
{
    let mut jobs = Vec::new(alloc);
    for i in 0..cells.len() {
        let cell = cells[i];
        let (generation, number) = sealer.next();
        let bytes = sealer.seal(cell, &plain_of(cell)).ok().expect(rt, "a seal");
        insist(rt, store.write(cell, &bytes).is_ok(), "a write");
        let job = Job {
            cell,
            generation,
            number,
            key: None,
            result: None,
        };
        jobs.push(job).ok().expect(rt, "memory");
    }
    jobs
}

// Whether each job was read, and its cell opened.
fn are_read(slots: &[Slot], cells: &[u64]) -> bool {
    if slots.len() != cells.len() {
        return false;
    }
    for i in 0..cells.len() {
        if slots[i].outcome != Ok(plain_of(cells[i])) {
            return false;
        }
    }
    true
}

// Whether two lanes read and open these cells, which are sealed first.
fn reads_all<S: Lanes, R: Abort + Threads + Sync>(
    rt: &R,
    alloc: Global,
    store: &mut S,
    cells: &[u64],
) -> bool
    requires { (S.disk store.old).out ≡ 0 }
{
    let mut sealer = Sealer::new(&Keys::from_bytes(&[7; 96]), 1);
    let jobs = sealed(rt, alloc, store, &mut sealer, cells);
    let mut readers: Readers<S::Lane> = Readers::new(alloc, 2, jobs.len()).expect(rt, "memory");
    read_jobs(rt, store, &mut readers, &sealer, jobs.as_slice()).is_ok()
        && are_read(readers.slots.as_slice(), cells)
}

#[test]
fn two_lanes_read_at_once(rt: HostRuntime) {
    let alloc = rt.alloc();
    let mut store = GateStore::new(new_store(&rt, alloc, 8, &[]), 10_000_000);
    let read = reads_all(&rt, alloc, &mut store, &[5, 0, 6, 1]);
    insist(&rt, read && store.phases() == 1, "one phase");
}

// Whether a lane reads a cell while another one is out that reads nothing.
fn reads_beside_another<S: Store>(rt: &impl Abort, store: &mut S, cell: u64) -> bool
    ensures { (S.disk store.new).out ≤ (S.disk store.old).out }
{
    let mut first = store.lane().ok().expect(rt, "a lane");
    let second = store.lane().ok().expect(rt, "a lane");
    let mut bytes = [0; 128];
    let is_read = store.read(&mut first, cell, &mut bytes).is_ok();
    store.absorb(first);
    store.absorb(second);
    is_read
}

// A gate waits so often in vain.
#[test]
fn a_lane_that_reads_alone_beside_another_fails(rt: HostRuntime) {
    let alloc = rt.alloc();
    let mut store = GateStore::new(new_store(&rt, alloc, 8, &[]), 10);
    let read = reads_beside_another(&rt, &mut store, 5);
    let phases = store.phases();
    play(&rt, &mut store, &[Read(5, 0)]);
    insist(
        &rt,
        !read && phases == 1 && store.phases() == 1,
        "one phase",
    );
}

#[test]
fn threads_read_a_bare_store(rt: HostRuntime) {
    let alloc = rt.alloc();
    let mut store = BareStore::new(alloc, 8).expect(&rt, "memory");
    let read = reads_all(&rt, alloc, &mut store, &[5, 0, 7, 6, 1]);
    insist(&rt, read, "five cells");
}

// As many cells as it takes for a bare store to start a thread for each of two lanes.
const MANY: usize = 80;

#[test]
fn threads_read_many_cells_of_a_bare_store(rt: HostRuntime) {
    let alloc = rt.alloc();
    let mut store = BareStore::new(alloc, MANY).expect(&rt, "memory");
    let mut cells = [0; MANY];
    for i in 0..MANY {
        cells[i] = (i * 7 % MANY) as u64;
    }
    let read = reads_all(&rt, alloc, &mut store, &cells);
    insist(&rt, read, "all cells");
}

// Whether threads read a new file.
fn is_read<R: Abort + Threads + Sync>(rt: &R, host: &HostRuntime, path: &str) -> bool {
    match opened(host, path, true) {
        Ok(mut store) => reads_all(rt, host.alloc(), &mut store, &[5, 0, 7, 6, 1]),
        Err(_) => false,
    }
}

#[test]
fn threads_read_a_file(rt: HostRuntime) {
    let path = fresh_path(&rt, &rt, "threads");
    let read = is_read(&rt, &rt, path.as_str());
    let removed = fs::remove_file(&rt, path.as_str()).is_ok();
    insist(&rt, read && removed, "a new file");
}
