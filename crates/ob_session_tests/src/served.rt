//! A store in memory, a vault over it and a desk at that, for two sessions.

ghost use Rattle.std.specs.Prelude.{◌≡◌, suc};
ghost use Rattle.ob_mem.specs.Memory.{disk_of_store};
ghost use Rattle.ob_desk.specs.Desk.{new_desk, setup_of};
ghost use Rattle.ob_driver.specs.Testing.{two_clients};
ghost use Rattle.ob_session_tests.specs.Sessions.{ServesDesks};

use ob_base::Params;
use ob_desk::Desk;
use ob_flat::{FlatVault, format, head, prepare};
use ob_mem::{MemSink, MemStore};
use ob_seal::Keys;
use ob_serial::Vault;
use ob_shares::NO_SHARES;
use ob_store::{Blind, Store};
use std::alloc::Global;
use std::process::Abort;

// Keys of 96 bytes of 7.
fn test_keys() -> Keys {
    Keys::from_bytes(&[7; 96])
}

// A store of 25 cells of zeros.
fn blank(rt: &impl Abort, alloc: Global) -> MemStore
    ensures { (disk_of_store result).out ≡ 0 }
{
    MemStore::new(alloc, 25, Vec::new(alloc)).expect(rt, "memory")
}

/// A store of eight keys, two batches of two places, two writes.
pub fn formatted(rt: &impl Abort, alloc: Global) -> MemStore
    ensures { (disk_of_store result).out ≡ 0 }
{
    let params = Params::new(8, 2, 2, 3, 2, 2, 2, 2, 8).expect(rt, "parameters in range");
    let mut store = blank(rt, alloc);
    assert!(rt; format(&mut store, &test_keys(), &params, &mut Blind).is_ok());
    store
}

/// An output that takes so many bytes.
pub fn new_output(rt: &impl Abort, alloc: Global, room: usize) -> MemSink {
    let Ok(output) = MemSink::new(alloc, room, Vec::new(alloc)) else {
        panic!(rt; "no memory")
    };
    output
}

/// Opens a store.
pub fn open<'a, S: Store>(rt: &impl Abort, alloc: Global, store: &'a mut S) -> FlatVault<'a, S>
    requires { (S.disk store.old).out ≡ 0 }
{
    let Ok(params) = head(store, &test_keys(), &mut Blind) else {
        panic!(rt; "no head")
    };
    let Ok(opening) = prepare(alloc, store, &test_keys(), &params, &mut Blind) else {
        panic!(rt; "no opening")
    };
    FlatVault::over(store, opening)
}

/// A desk of the clients 1 and 2 at a vault over a store of the tests, which serves.
pub fn desk_at<V: Vault>(rt: &impl Abort, alloc: Global, params: &Params, vault: &V) -> Desk
    ensures opens { ServesDesks params.now (V.counts vault.now) }
    ensures desk { result
        ≡ new_desk (setup_of params.now) (suc (V.counts vault.now).epoch)
        (V.counts vault.now).left two_clients }
{
    assert!(rt; params.keys == 8);
    assert!(rt; !vault.spent());
    assert!(rt; vault.left() <= params.batches);
    let Ok(desk) = Desk::new(
        alloc,
        params,
        vault.epoch() + 1,
        vault.left(),
        &[1, 2],
        NO_SHARES,
    ) else {
        panic!(rt; "no memory")
    };
    desk
}
