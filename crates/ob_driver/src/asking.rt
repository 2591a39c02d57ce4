//! Calls of the desk and of the vault over the driver's room.

ghost use Rattle.std.specs.Prelude.{◌≡◌, ◌<◌, ◌≤◌, ◌+◌, false, All, length, map, IfErr};
ghost use Rattle.std.specs.List.Sorted.{IsStrictlyIncreasing};
ghost use Rattle.ob_base.specs.Causes.{Rose};
ghost use Rattle.ob_base.specs.Writes.{pair_of};
ghost use Rattle.ob_store.specs.Calls.{IsStoreFault};
ghost use Rattle.ob_serial.specs.Vaults.{Fetch, End, AreBelow, AreDistinct, counts_next};
ghost use Rattle.ob_serial.specs.VaultViews.{fetch_answer, end_answer, IsFetchFault, IsEndFault, IsStoreEnd};
ghost use Rattle.ob_serial.specs.VaultKinds.{kind_of};
ghost use Rattle.ob_desk.specs.Desk as desks;
ghost use Rattle.ob_conduct.specs.Scenes.{Watched};

use ob_base::{Fault, Key, Value, Write};
use ob_desk::Desk;
use ob_serial::{EndErr, Vault};
use ob_store::Watch;
use std::thread::Threads;

/// Takes a batch of the desk.
pub fn take_batch(desk: &mut Desk, asks: &mut Vec<Option<Key>>)
    requires may { desks.MayCall desk.old desks.TakeBatch }
    requires places { length asks.old.items ≡ desk.old.setup.params.places }
    ensures taken { desks.TakeStep desk.old asks.new.items desk.new }
    ensures places { length asks.new.items ≡ length asks.old.items }
{
    desk.take_batch(asks.as_mut_slice());
}

/// Delivers a batch's values to the desk.
pub fn deliver_batch(desk: &mut Desk, asks: &Vec<Option<Key>>, found: &Vec<Option<Value>>)
    requires may { desks.MayCall desk.old (desks.Deliver asks.now.items found.now.items) }
    ensures delivered { desks.DeliverStep desk.old asks.now.items found.now.items desk.new }
{
    desk.deliver(asks.as_slice(), found.as_slice());
}

/// Reads a batch's values from the vault.
///
/// # Errors
/// The vault refused.
pub fn read_batch<R: Threads + Sync, V: Vault, W: Watch>(
    rt: &R,
    vault: &mut V,
    watch: &mut W,
    asks: &Vec<Option<Key>>,
    found: &mut Vec<Option<Value>>,
) -> Result<(), Fault>
    requires serves { (V.counts vault.old).spent ≡ false }
    requires watched { (W.trace watch.old).broken ≡ false }
    requires some_left { 0 < (V.counts vault.old).left }
    requires whole { length asks.now.items ≡ (V.params vault.old).places }
    requires room { length found.old.items ≡ (V.params vault.old).places }
    requires keys { AreBelow (V.params vault.old).keys asks.now.items }
    requires distinct { AreDistinct asks.now.items }
    ensures params { V.params vault.new ≡ V.params vault.old }
    ensures room { length found.new.items ≡ length found.old.items }
    ensures counts { V.counts vault.new ≡ counts_next (V.params vault.old).batches
        (V.counts vault.old) (Fetch asks.now.items) (fetch_answer found.new.items result) }
    ensures called { Watched (kind_of V.Vault) vault.old (W.trace watch.old) (Fetch asks.now.items)
        (fetch_answer found.new.items result) vault.new (W.trace watch.new) }
    ensures faults { IfErr result IsFetchFault }
    ensures cause { IfErr result (λ fault. IsStoreFault fault
        → Rose (V.disk vault.old).faults (V.disk vault.new).faults) }
{
    vault.fetch(rt, asks.as_slice(), found.as_mut_slice(), watch)
}

/// Ends the epoch in the vault with these writes.
///
/// # Errors
/// The vault refused, or the end is in doubt.
pub fn end<R: Threads + Sync, V: Vault, W: Watch>(
    rt: &R,
    vault: &mut V,
    watch: &mut W,
    writes: &Vec<Write>,
) -> Result<(), EndErr>
    requires serves { (V.counts vault.old).spent ≡ false }
    requires watched { (W.trace watch.old).broken ≡ false }
    requires none_left { (V.counts vault.old).left ≡ 0 }
    requires few { length writes.now.items ≤ (V.params vault.old).writes }
    requires rising { IsStrictlyIncreasing (map (λ w. w.key) writes.now.items) }
    requires keys { All (λ w. w.key < (V.params vault.old).keys) writes.now.items }
    ensures params { V.params vault.new ≡ V.params vault.old }
    ensures counts { V.counts vault.new ≡ counts_next (V.params vault.old).batches
        (V.counts vault.old) (End (map pair_of writes.now.items)) (end_answer result) }
    ensures called { Watched (kind_of V.Vault) vault.old (W.trace watch.old)
        (End (map pair_of writes.now.items)) (end_answer result) vault.new (W.trace watch.new) }
    ensures faults { IfErr result (IsEndFault ((V.counts vault.old).epoch + 1)) }
    ensures cause { IfErr result (λ refused. IsStoreEnd refused
        → Rose (V.disk vault.old).faults (V.disk vault.new).faults) }
{
    vault.end(rt, writes.as_slice(), watch)
}
