//! Maps that are read back of a vault, whatever the vault.

ghost use Rattle.std.specs.Prelude.{◌≡◌};

use ob_base::{Key, Params, Value, Write};
use ob_drill::read_map;
use ob_mem::MemStore;
use ob_seal::Keys;
use ob_serial::Vault;
use ob_store::Blind;
use std::alloc::Global;
use std::process::Abort;
use std::thread::Threads;

/// Ends the test where this isn't so, and names the case.
pub fn insist<R: Abort>(rt: &R, so: bool, case: &str) {
    assert!(rt; so, "{case}");
}

/// Lets a store go. What a drop takes is proved in each function that has one, so tests call this.
pub fn let_go(_store: MemStore) {}

/// Eight keys, two batches of two places.
pub fn small_params() -> Params {
    let Ok(params) = Params::new(8, 2, 2, 3, 2, 2, 2, 2, 8) else {
        unreachable!()
    };
    params
}

/// The keys of the bytes 0 to 95.
pub fn test_keys() -> Keys {
    let mut bytes = [0; 96];
    for i in 0..96 {
        bytes[i] = i as u8;
    }
    Keys::from_bytes(&bytes)
}

// The bytes 0 to 63.
fn long_value() -> Option<Value> {
    let mut bytes = [0; 64];
    for i in 0..64 {
        bytes[i] = i as u8;
    }
    Value::new(&bytes)
}

// Fetches a batch of pads.
fn fetch_pads<R: Abort + Threads + Sync, V: Vault>(rt: &R, params: &Params, vault: &mut V)
    requires params { V.params vault.old ≡ params.now }
    ensures params { V.params vault.new ≡ params.now }
{
    let mut found = [None; 2];
    assert!(rt; params.places == 2 && !vault.spent() && vault.left() > 0);
    let fetched = vault.fetch(rt, &[None, None], &mut found, &mut Blind);
    insist(rt, fetched.is_ok(), "a batch");
}

// Ends an epoch by a put of a value.
fn end<R: Abort + Threads + Sync, V: Vault>(
    rt: &R,
    params: &Params,
    vault: &mut V,
    key: Key,
    value: Option<Value>,
)
    requires params { V.params vault.old ≡ params.now }
    ensures params { V.params vault.new ≡ params.now }
{
    assert!(rt; key < params.keys && !vault.spent() && vault.left() == 0);
    let ended = vault.end(rt, &[Write { key, value }], &mut Blind);
    insist(rt, ended.is_ok(), "an end");
}

// The digest of no row.
const OF_NONE: [u8; 32] = [
    0xe3, 0xb0, 0xc4, 0x42, 0x98, 0xfc, 0x1c, 0x14, 0x9a, 0xfb, 0xf4, 0xc8, 0x99, 0x6f, 0xb9, 0x24,
    0x27, 0xae, 0x41, 0xe4, 0x64, 0x9b, 0x93, 0x4c, 0xa4, 0x95, 0x99, 0x1b, 0x78, 0x52, 0xb8, 0x55,
];

// The digest of `hi` at key 0 and of the bytes 0 to 63 at key 7.
const OF_TWO: [u8; 32] = [
    0x73, 0x62, 0xf3, 0x80, 0xf5, 0x63, 0xd3, 0xdc, 0x8e, 0xe1, 0xc3, 0xe3, 0xef, 0x21, 0xe0, 0xa7,
    0xf4, 0x3d, 0x53, 0x56, 0x3c, 0xec, 0xf6, 0x5e, 0x96, 0x4f, 0x18, 0x81, 0x04, 0x63, 0x63, 0x40,
];

// What is read of a vault: how many keys its map has, and its digest; the last epoch that has ended
// then, and how many batches are left of the next one.
struct Read {
    keys: u32,
    map: [u8; 32],
    epoch: u64,
    left: u32,
}

// Whether a vault's map is read so.
fn reads_so<R: Abort + Threads + Sync, V: Vault>(
    rt: &R,
    alloc: Global,
    params: &Params,
    vault: &mut V,
    wanted: &Read,
) -> bool
    requires params { V.params vault.old ≡ params.now }
    ensures params { V.params vault.new ≡ params.now }
{
    if vault.spent() {
        return false;
    }
    match read_map(rt, alloc, params, vault, &mut Blind) {
        Ok(digest) => {
            digest.keys == wanted.keys
                && digest.map == wanted.map
                && vault.epoch() == wanted.epoch
                && vault.left() == wanted.left
        }
        Err(_) => false,
    }
}

// Of a new vault two batches, an end, and two batches.
const NONE: &Read = &Read {
    keys: 0,
    map: OF_NONE,
    epoch: 1,
    left: 0,
};

// Behind three epochs and a batch: a batch, an end, two batches, an end, and a batch.
const TWO: &Read = &Read {
    keys: 2,
    map: OF_TWO,
    epoch: 5,
    left: 1,
};

/// Whether a new vault's map is read as empty, and behind an epoch that puts each the least and the
/// greatest key are read back.
pub fn reads_maps<R: Abort + Threads + Sync, V: Vault>(
    rt: &R,
    alloc: Global,
    params: &Params,
    vault: &mut V,
) -> bool
    requires params { V.params vault.old ≡ params.now }
{
    let none = reads_so(rt, alloc, params, vault, NONE);
    end(rt, params, vault, 7, long_value());
    fetch_pads(rt, params, vault);
    fetch_pads(rt, params, vault);
    end(rt, params, vault, 0, Value::new(b"hi"));
    fetch_pads(rt, params, vault);
    none && reads_so(rt, alloc, params, vault, TWO)
}
