//! One batch of keys, fetched.

ghost use Rattle.std.specs.Prelude.{◌≡◌, ◌+◌, ◌<◌, ◌≤◌, ◌^◌, [], false, length, IfErr, OnOk};
ghost use denote.Param.Send.{IsSync};
ghost use Rattle.ob_base.specs.Causes.{Rose};
ghost use Rattle.ob_store.specs.Calls.{IsStoreFault};
ghost use Rattle.ob_serial.specs.Vaults.{VaultState, AreBelow, AreDistinct, AnswersAll};
ghost use Rattle.ob_serial.specs.VaultKinds.{kind_of};
ghost use Rattle.ob_drill.specs.Reading.{ReadsOnly, IsRefusedReading};
ghost use Rattle.ob_drill.specs.Gathered.{AsksFrom};

use ob_base::{Fault, Key, Value};
use ob_serial::{EndErr, Vault};
use ob_store::Watch;
use std::thread::Threads;

/// Asks for so many keys from `first` on. The other places are pads.
pub fn ask(asks: &mut [Option<Key>], first: Key, count: usize)
    requires { first + length asks.old ≤ 2 ^ 31 }
    ensures size { length asks.new ≡ length asks.old }
    ensures asks { AsksFrom first count asks.new }
{
    for i in 0..asks.len() {
        asks[i] = if i < count {
            Some(first + i as u32)
        } else {
            None
        };
    }
}

// Leaves a batch to fetch: where none is left, an epoch is ended without writes.
fn leave_one<R: Threads + Sync, V: Vault, W: Watch>(
    rt: &R,
    vault: &mut V,
    watch: &mut W,
) -> Result<(), Fault>
    requires sync { IsSync R.row }
    requires serves { (V.counts vault.old).spent ≡ false }
    requires some { 0 < (V.params vault.old).batches }
    ensures params { V.params vault.new ≡ V.params vault.old }
    ensures serves { OnOk result ((V.counts vault.new).spent ≡ false) }
    ensures some_left { OnOk result (0 < (V.counts vault.new).left) }
    ensures reads { OnOk result (ReadsOnly (kind_of V.Vault) 1 vault.old (W.trace watch.old)
        vault.new (W.trace watch.new)) }
    ensures refused { IfErr result (λ fault. IsRefusedReading (kind_of V.Vault) 1
        vault.old (W.trace watch.old) fault vault.new (W.trace watch.new)) }
    ensures cause { IfErr result (λ fault. IsStoreFault fault
        → Rose (V.disk vault.old).faults (V.disk vault.new).faults) }
{
    if vault.left() > 0 {
        return Ok(());
    }
    match vault.end(rt, &[], watch) {
        Ok(()) => Ok(()),
        Err(EndErr::Before(fault)) => Err(fault),
        Err(EndErr::Unsure(fault)) => Err(fault),
    }
}

/// Fetches a batch. Where none is left, an epoch is ended before it, without writes.
///
/// # Errors
/// The vault refused.
pub fn fetch<R: Threads + Sync, V: Vault, W: Watch>(
    rt: &R,
    vault: &mut V,
    asks: &[Option<Key>],
    found: &mut [Option<Value>],
    watch: &mut W,
) -> Result<(), Fault>
    requires sync { IsSync R.row }
    requires serves { (V.counts vault.old).spent ≡ false }
    requires some { 0 < (V.params vault.old).batches }
    requires whole { length asks.now ≡ (V.params vault.old).places }
    requires room { length found.old ≡ (V.params vault.old).places }
    requires keys { AreBelow (V.params vault.old).keys asks.now }
    requires distinct { AreDistinct asks.now }
    ensures params { V.params vault.new ≡ V.params vault.old }
    ensures serves { OnOk result ((V.counts vault.new).spent ≡ false) }
    ensures answers { OnOk result ((v : VaultState) → V.holds vault.old v
        → AnswersAll v.content asks.now found.new) }
    ensures reads { OnOk result (ReadsOnly (kind_of V.Vault) 2 vault.old (W.trace watch.old)
        vault.new (W.trace watch.new)) }
    ensures refused { IfErr result (λ fault. IsRefusedReading (kind_of V.Vault) 2
        vault.old (W.trace watch.old) fault vault.new (W.trace watch.new)) }
    ensures cause { IfErr result (λ fault. IsStoreFault fault
        → Rose (V.disk vault.old).faults (V.disk vault.new).faults) }
{
    match leave_one(rt, vault, watch) {
        Ok(()) => {}
        Err(fault) => return Err(fault),
    }
    vault.fetch(rt, asks, found, watch)
}
