//! What the tests of plain stores share: parameters, keys, stores in memory, openings.

ghost use Rattle.std.specs.Prelude.{◌≡◌};
ghost use Rattle.ob_mem.specs.Memory.{disk_of_store};

use ob_base::Params;
use ob_flat::{FlatVault, format, head, prepare};
use ob_mem::{Fail, MemStore};
use ob_seal::Keys;
use ob_store::{Blind, Store, Watch};
use std::alloc::Global;
use std::process::Abort;

/// Eight keys, two batches of two places, two writes.
pub fn small_params() -> Params {
    let Ok(params) = Params::new(8, 2, 2, 3, 2, 2, 2, 2, 8) else {
        unreachable!()
    };
    params
}

/// The keys of the bytes 0 to 95.
pub fn test_keys() -> Keys {
    let mut bytes = [0; 96];
    for i in 0..96 {
        bytes[i] = i as u8;
    }
    Keys::from_bytes(&bytes)
}

/// A formatted store, whose calls fail as told.
pub fn formatted_with<W: Watch>(
    rt: &impl Abort,
    alloc: Global,
    fails: Vec<Fail>,
    watch: &mut W,
) -> MemStore
    ensures { (disk_of_store result).out ≡ 0 }
{
    let mut store = MemStore::new(alloc, 25, fails).expect(rt, "memory");
    assert!(rt; format(&mut store, &test_keys(), &small_params(), watch).is_ok());
    store
}

/// A formatted store.
pub fn formatted(rt: &impl Abort, alloc: Global) -> MemStore
    ensures { (disk_of_store result).out ≡ 0 }
{
    formatted_with(rt, alloc, Vec::new(alloc), &mut Blind)
}

/// Opens a store, and makes a vault over it.
pub fn open<'a, W: Watch>(
    rt: &impl Abort,
    alloc: Global,
    store: &'a mut MemStore,
    watch: &mut W,
) -> FlatVault<'a, MemStore>
    requires { (disk_of_store store.old).out ≡ 0 }
{
    let keys = test_keys();
    let params = head(store, &keys, watch).expect(rt, "a head");
    let opening = prepare(alloc, store, &keys, &params, watch).expect(rt, "an opening");
    FlatVault::over(store, opening)
}

/// What a cell holds.
pub fn bytes_in(rt: &impl Abort, store: &mut MemStore, cell: u64) -> [u8; 128] {
    let mut bytes = [9; 128];
    let mut lane = store.lane().expect(rt, "a lane");
    assert!(rt; store.read(&mut lane, cell, &mut bytes).is_ok());
    store.absorb(lane);
    bytes
}
