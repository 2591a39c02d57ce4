//! Recorded batches that ask for keys, repeated: what they read stands in the stash.

ghost use Rattle.std.specs.Prelude.{◌≡◌, ◌≤◌};
ghost use Rattle.ob_mem.specs.Memory.{disk_of_store};
ghost use Rattle.ob_recover.specs.Finds.{ObeysFound};

use crate::small::{blank_store, small_store, test_keys, write_digits};
use crate::two_epochs::CELLS;
use ob_base::{Jobs, Params};
use ob_cells::Crew;
use ob_check::Sheet;
use ob_mem::MemStore;
use ob_recover::{Found, find, replay};
use ob_ring::Ring;
use ob_seal::Sealer;
use ob_store::{Blind, Store};
use std::alloc::Global;
use std::process::Abort;
use std::thread::Threads;

// The store after two epochs.
fn after_two_epochs(rt: &impl Abort, alloc: Global) -> MemStore
    ensures { (disk_of_store result).out ≡ 0 }
{
    let mut store = blank_store(rt, alloc, &[]);
    for i in 0..109 {
        write_digits(rt, &mut store, i as u64, CELLS, 256 * i);
    }
    store
}

// The bytes of a record that aren't 0: its epoch at 0, its batch at 8, its first word's place at
// 12, and from 20 on for each place whether it asks for a key, the key, and its word.
type Spelled = &'static [(usize, u8)];

fn plain_of(rt: &impl Abort, spelled: Spelled) -> [u8; 96] {
    let mut plain = [0; 96];
    for (place, byte) in spelled {
        assert!(rt; *place < 96);
        plain[*place] = *byte;
    }
    plain
}

// Writes records, one a cell, under the first seals of generation 3, and opens their gates.
fn record_batches(rt: &impl Abort, store: &mut MemStore, records: &[Spelled])
    requires { (disk_of_store store.old).out ≡ 0 }
    ensures { (disk_of_store store.new).out ≡ 0 }
{
    let mut sealer = Sealer::new(&test_keys(), 3);
    let mut cell = 13;
    for record in records {
        let body = sealer
            .seal(cell, &plain_of(rt, *record))
            .ok()
            .expect(rt, "a seal");
        assert!(rt; store.write(cell, &body).is_ok());
        assert!(rt; store.write(cell.wrapping_add(1), &[0xA5; 128]).is_ok());
        cell = cell.wrapping_add(2);
    }
}

// What is found in the store after two epochs.
fn found_in(rt: &impl Abort, alloc: Global, store: &mut MemStore, p: &Params) -> Found
    ensures { ObeysFound p.now result }
{
    let mut sheet = Sheet::new(alloc, p).expect(rt, "memory");
    let found = find(alloc, store, &test_keys(), p, &mut sheet, &mut Blind).expect(rt, "a store");
    assert!(rt; (found.generation, found.epoch) == (2, 2));
    found
}

// Whether the stash has the row of key 5; it has no other.
fn holds_five(rt: &impl Abort, ring: &Ring) -> bool {
    let stash = &ring.tables().stash;
    let holds = match stash.get(5) {
        Some(value) => value.as_slice() == b"hi".as_slice(),
        None => false,
    };
    assert!(rt; stash.len() == usize::from(holds));
    holds
}

// How many batches are left behind those that stand in the log, and whether the stash then has the
// row of key 5, and no other, where so many lanes read them.
fn replayed<R: Abort + Threads + Sync>(
    rt: &R,
    alloc: Global,
    store: &mut MemStore,
    lanes: usize,
) -> (u32, bool)
    requires { (1 ≤ lanes) × (lanes ≤ 16) }
{
    let p = small_store(rt);
    let mut jobs = Jobs::new(alloc, &p).expect(rt, "memory");
    let mut crew = Crew::new(alloc, lanes, jobs.room()).expect(rt, "memory");
    let sealer = Sealer::new(&test_keys(), 3);
    let found = found_in(rt, alloc, store, &p);
    match replay(
        rt, store, &mut crew, &sealer, &p, &mut jobs, found, &mut Blind,
    ) {
        Ok((ring, left)) => (left, holds_five(rt, &ring)),
        Err(_) => (9, false),
    }
}

// The key 5 asked for by the first place of batch 0, or by the second of batch 1.
const FIRST: Spelled = &[(0, 3), (20, 1), (21, 5)];

const SECOND: Spelled = &[(0, 3), (8, 1), (12, 2), (33, 1), (34, 5)];

// The key 6, which was never written, and no key.
const ABSENT: Spelled = &[(0, 3), (20, 1), (21, 6)];

const PADS: Spelled = &[(0, 3)];

// Records; how many batches are left behind them; whether the stash then has the row of key 5.
const ROWS: &[(&[Spelled], u32, bool)] = &[
    (&[], 2, false),
    (&[FIRST], 1, true),
    (&[FIRST, SECOND], 0, true),
    (&[PADS, SECOND], 0, true),
    (&[ABSENT], 1, false),
    (&[PADS], 1, false),
];

#[test]
fn a_key_that_is_asked_for_stands_in_the_stash(rt: HostRuntime) {
    for (records, left, holds) in ROWS {
        let mut store = after_two_epochs(&rt, rt.alloc());
        record_batches(&rt, &mut store, records);
        for lanes in 1..17 {
            assert!(rt; replayed(&rt, rt.alloc(), &mut store, lanes) == (*left, *holds));
        }
    }
}
