//! Maps of ring vaults.

ghost use Rattle.std.specs.Prelude.{◌≡◌};
ghost use Rattle.ob_mem.specs.Memory.{disk_of_store};

use crate::maps::{insist, let_go, reads_maps, small_params, test_keys};
use ob_base::ring_cells;
use ob_mem::MemStore;
use ob_opening::{format, prepare};
use ob_seal::{ListTape, Tape};
use ob_store::Blind;
use ob_vault::RingVault;
use std::alloc::Global;
use std::process::Abort;
use std::thread::Threads;

// A new ring store.
fn new_store<R: Abort + Threads + Sync>(rt: &R, alloc: Global) -> MemStore
    ensures { (disk_of_store result).out ≡ 0 }
{
    let params = small_params();
    let cells = ring_cells(&params) as usize;
    let mut store = MemStore::new(alloc, cells, Vec::new(alloc)).expect(rt, "memory");
    let mut tape = ListTape::new(alloc, &[]).expect(rt, "memory");
    let made = format(
        rt,
        alloc,
        &mut store,
        &mut tape,
        &test_keys(),
        &params,
        &mut Blind,
    );
    insist(rt, made.is_ok(), "a format");
    store
}

// A vault over it, by two lanes.
fn open<'a, R: Abort + Threads + Sync, T: Tape>(
    rt: &R,
    alloc: Global,
    store: &'a mut MemStore,
    tape: &'a mut T,
) -> Option<RingVault<'a, MemStore, T>>
    requires none_out { (disk_of_store store.old).out ≡ 0 }
    requires unstarted { T.present tape.old ≡ 0 }
{
    let keys = test_keys();
    let params = small_params();
    match prepare(rt, alloc, store, tape, &keys, &params, 2, &mut Blind) {
        Ok(opening) => Some(RingVault::over(store, tape, opening)),
        Err(_) => None,
    }
}

// Whether its maps are read back.
fn reads<R: Abort + Threads + Sync>(rt: &R, alloc: Global, store: &mut MemStore) -> bool
    requires { (disk_of_store store.old).out ≡ 0 }
{
    let mut tape = ListTape::new(alloc, &[]).expect(rt, "memory");
    let Some(mut vault) = open(rt, alloc, store, &mut tape) else {
        return false;
    };
    let params = vault.params();
    reads_maps(rt, alloc, &params, &mut vault)
}

// The same of a new store.
fn reads_new<R: Abort + Threads + Sync>(rt: &R, alloc: Global) -> bool {
    let mut store = new_store(rt, alloc);
    let read = reads(rt, alloc, &mut store);
    let_go(store);
    read
}

#[test]
fn maps_of_a_ring_vault_are_read_back(rt: HostRuntime) {
    insist(&rt, reads_new(&rt, rt.alloc()), "both maps");
}
