//! Batches that are read of a mirror by several lanes.

ghost use Rattle.std.specs.Prelude.{◌≡◌, ◌≤◌};

use crate::spy::let_go;
use crate::steps::{NONE, insist, new_spy};
use ob_base::{Check, Fault, Job};
use ob_lanes::{Lanes, Readers, Slot, read_jobs};
use ob_mem::Fail;
use ob_mirror::{Mirror, Places};
use ob_seal::{Keys, Sealer};
use std::alloc::Global;
use std::process::Abort;
use std::thread::Threads;

// So many jobs, of the cells 0 to 3 over and over.
fn new_jobs(rt: &impl Abort, alloc: Global, many: usize) -> Vec<Job> {
    let mut jobs = Vec::new(alloc);
    for i in 0..many {
        let job = Job {
            cell: i as u64 % 4,
            generation: 1,
            number: 0,
            key: None,
            result: None,
        };
        insist(rt, jobs.push(job).is_ok(), "memory");
    }
    jobs
}

// The bytes of the four cells.
const BYTES: &[u8; 4] = b"1234";

// Whether a cell was read well, as its byte throughout: so it is no sealed cell, and its tag is told.
fn is_read(slot: &Slot, wanted: usize) -> bool {
    match slot.outcome {
        Err(
            Fault::Damaged {
                cell,
                check: Check::Tag,
                kept,
                ..
            },
        ) => cell == wanted as u64 && kept == [BYTES[wanted % 4]; 16],
        _ => false,
    }
}

// Whether each was.
fn are_read(slots: &[Slot]) -> bool {
    for i in 0..slots.len() {
        if !is_read(&slots[i], i % 4) {
            return false;
        }
    }
    true
}

/// Whether so many lanes read so many jobs.
pub fn reads_all<S: Lanes, R: Abort + Threads + Sync>(
    rt: &R,
    alloc: Global,
    store: &mut S,
    lanes: usize,
    many: usize,
) -> bool
    requires { (1 ≤ lanes) × (lanes ≤ 16) }
{
    let sealer = Sealer::new(&Keys::from_bytes(&[7; 96]), 1);
    let jobs = new_jobs(rt, alloc, many);
    let mut readers: Readers<S::Lane> = Readers::new(alloc, lanes, jobs.len()).expect(rt, "memory");
    read_jobs(rt, store, &mut readers, &sealer, jobs.as_slice()).is_ok()
        && are_read(readers.slots.as_slice())
}

// Whether a store was asked for this read alone, so often.
fn are_reads_of(heard: &[u8], cell: u64, many: usize) -> bool {
    for i in 0..heard.len() {
        let letter = if i % 2 == 0 {
            b'R'
        } else {
            b'0' + (cell % 10) as u8
        };
        if heard[i] != letter {
            return false;
        }
    }
    heard.len() / 2 == many
}

// Makes a mirror of two such stores, of which the first fails to read one cell, and has so many lanes
// read so many jobs: whether the second is asked for that cell alone, each fourth time.
fn reads_of_either<R: Abort + Threads + Sync>(
    rt: &R,
    alloc: Global,
    lanes: usize,
    many: usize,
    cell: u64,
) -> bool
    requires { (1 ≤ lanes) × (lanes ≤ 16) }
{
    let mut first = new_spy(rt, alloc, BYTES, Fail::Read { cell, writes: 4 });
    let mut second = new_spy(rt, alloc, BYTES, NONE);
    let mut mirror = Mirror::over(&mut first, &mut second, Places::new());
    let read = reads_all(rt, alloc, &mut mirror, lanes, many);
    let _lent = mirror.into_lent();
    let so = read && are_reads_of(second.heard.as_slice(), cell, many / 4);
    let_go(first);
    let_go(second);
    so
}

fn each_batch_is_read<R: Abort + Threads + Sync>(rt: &R, alloc: Global) -> bool {
    reads_of_either(rt, alloc, 1, 4, 2)
        && reads_of_either(rt, alloc, 4, 16, 0)
        && reads_of_either(rt, alloc, 16, 16, 3)
        && reads_of_either(rt, alloc, 16, 128, 1)
}

#[test]
fn lanes_of_a_mirror_read_of_either_half(rt: HostRuntime) {
    insist(&rt, each_batch_is_read(&rt, rt.alloc()), "four batches");
}
