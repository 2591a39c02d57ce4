//! A map read back, key by key.

ghost use Rattle.std.specs.Prelude.{◌≡◌, ◌*◌, ◌+◌, ◌<◌, ◌≤◌, ℕ, Bool, false, IfOk, IfErr, OnOk, min};
ghost use Rattle.std.specs.FinMap.{get};
ghost use denote.Param.Send.{IsSync};
ghost use Rattle.ob_base.specs.Causes.{Rose};
ghost use Rattle.ob_store.specs.Calls.{IsStoreFault};
ghost use Rattle.ob_serial.specs.Vaults.{VaultState};
ghost use Rattle.ob_serial.specs.VaultKinds.{kind_of};
ghost use Rattle.ob_drill.specs.Rows.{IsDigestOf};
ghost use Rattle.ob_drill.specs.Reading.{ReadsOnly, ReadingFails};
ghost use Rattle.ob_drill.specs.Gathered.{HasRows};

use crate::batch::{ask, fetch};
use crate::rows::Rows;
use ob_base::{Fault, Key, Memory, Params};
use ob_serial::Vault;
use ob_store::Watch;
use sha2::{Digest, Sha256};
use std::alloc::Global;
use std::thread::Threads;

/// How many keys a map has, and the digest of its rows.
#[derive(Clone, Copy, PartialEq, Eq)]
pub struct MapDigest {
    pub keys: u32,
    pub map: [u8; 32],
}

// Reads a batch of keys, from `first` on: the key behind them.
fn read_batch<R: Threads + Sync, V: Vault, W: Watch>(
    rt: &R,
    params: &Params,
    vault: &mut V,
    watch: &mut W,
    first: Key,
    rows: &mut Rows,
) -> Result<Key, Fault>
    requires sync { IsSync R.row }
    requires params { V.params vault.old ≡ params.now }
    requires serves { (V.counts vault.old).spent ≡ false }
    requires inside { first < params.now.keys }
    requires few { rows.old.many ≤ first }
    ensures params { V.params vault.new ≡ params.now }
    ensures next { IfOk result (λ next. (first < next) × (next ≤ params.now.keys)) }
    ensures few { IfOk result (λ next. rows.new.many ≤ next) }
    ensures serves { OnOk result ((V.counts vault.new).spent ≡ false) }
    ensures rows { IfOk result (λ next. (v : VaultState) → V.holds vault.old v
        → HasRows (get v.content) first rows.old → HasRows (get v.content) next rows.new) }
    ensures reads { OnOk result (ReadsOnly (kind_of V.Vault) 2 vault.old (W.trace watch.old)
        vault.new (W.trace watch.new)) }
    ensures refused { IfErr result (λ fault. ReadingFails (kind_of V.Vault) 2
        vault.old (W.trace watch.old) fault vault.new (W.trace watch.new)) }
    ensures cause { IfErr result (λ fault. IsStoreFault fault
        → Rose (V.disk vault.old).faults (V.disk vault.new).faults) }
{
    let places = params.places as usize;
    let count = places.min((params.keys - first) as usize);
    let mut asks = [None; 64];
    let mut found = [None; 64];
    ask(&mut asks[..places], first, count);
    match fetch(rt, vault, &asks[..places], &mut found[..places], watch) {
        Ok(()) => {}
        Err(fault) => return Err(fault),
    }
    match rows.put_all(first, &found[..count]) {
        Ok(()) => Ok(first + count as u32),
        Err(Memory) => Err(Fault::Memory),
    }
}

/// Reads all that a vault holds: how many keys are there, and the digest of their rows, in rising
/// order of keys. A row is the key in four bytes, the lowest first, the length of its value in one,
/// and the value. The keys are read in whole batches; where none is left, an epoch is ended
/// without writes.
///
/// # Errors
/// What the vault refused, as it came; or memory was wanting.
pub fn read_map<R: Threads + Sync, V: Vault, W: Watch>(
    rt: &R,
    alloc: Global,
    params: &Params,
    vault: &mut V,
    watch: &mut W,
) -> Result<MapDigest, Fault>
    requires sync { IsSync R.row }
    requires params { V.params vault.old ≡ params.now }
    requires serves { (V.counts vault.old).spent ≡ false }
    ensures params { V.params vault.new ≡ params.now }
    // What is answered is of the map that the vault held.
    ensures digest { IfOk result (λ digest. (v : VaultState) → V.holds vault.old v
        → IsDigestOf v.content params.now.keys digest) }
    // Its calls are one chain, each of them a fetch, or an end without writes: at most two a key.
    ensures reads { OnOk result (ReadsOnly (kind_of V.Vault) (2 * params.now.keys) vault.old (W.trace watch.old)
        vault.new (W.trace watch.new)) }
    ensures refused { IfErr result (λ fault. ReadingFails (kind_of V.Vault) (2 * params.now.keys)
        vault.old (W.trace watch.old) fault vault.new (W.trace watch.new)) }
    ensures cause { IfErr result (λ fault. IsStoreFault fault
        → Rose (V.disk vault.old).faults (V.disk vault.new).faults) }
{
    let mut rows = Rows::new(alloc);
    let mut next = 0;
    while next < params.keys {
        next = match read_batch(rt, params, vault, watch, next, &mut rows) {
            Ok(behind) => behind,
            Err(refused) => return Err(refused),
        };
    }
    Ok(MapDigest {
        keys: rows.many,
        map: Sha256::digest(&rows.bytes[..]),
    })
}
