//! Maps of plain vaults.

ghost use Rattle.std.specs.Prelude.{◌≡◌};
ghost use Rattle.ob_mem.specs.Memory.{disk_of_store};

use crate::maps::{insist, let_go, reads_maps, small_params, test_keys};
use ob_flat::{FlatVault, format, prepare};
use ob_mem::MemStore;
use ob_store::Blind;
use std::alloc::Global;
use std::process::Abort;
use std::thread::Threads;

// A new plain store.
fn new_store(rt: &impl Abort, alloc: Global) -> MemStore
    ensures { (disk_of_store result).out ≡ 0 }
{
    let mut store = MemStore::new(alloc, 25, Vec::new(alloc)).expect(rt, "memory");
    let made = format(&mut store, &test_keys(), &small_params(), &mut Blind);
    insist(rt, made.is_ok(), "a format");
    store
}

// A vault over it.
fn open<'a>(rt: &impl Abort, alloc: Global, store: &'a mut MemStore) -> FlatVault<'a, MemStore>
    requires { (disk_of_store store.old).out ≡ 0 }
{
    let opening = prepare(alloc, store, &test_keys(), &small_params(), &mut Blind);
    FlatVault::over(store, opening.expect(rt, "an opening"))
}

// Whether its maps are read back.
fn reads<R: Abort + Threads + Sync>(rt: &R, alloc: Global, store: &mut MemStore) -> bool
    requires { (disk_of_store store.old).out ≡ 0 }
{
    let mut vault = open(rt, alloc, store);
    let params = vault.params();
    params == small_params() && reads_maps(rt, alloc, &params, &mut vault)
}

// The same of a new store.
fn reads_new<R: Abort + Threads + Sync>(rt: &R, alloc: Global) -> bool {
    let mut store = new_store(rt, alloc);
    let read = reads(rt, alloc, &mut store);
    let_go(store);
    read
}

#[test]
fn maps_of_a_plain_vault_are_read_back(rt: HostRuntime) {
    insist(&rt, reads_new(&rt, rt.alloc()), "both maps");
}
