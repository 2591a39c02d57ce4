//! Batches: taken of the desk, fetched of the vault, delivered.

ghost use Rattle.std.specs.Prelude.{◌≡◌, ◌<◌, ℕ, length, [], ◌∷◌, List, None, false, IfErr, OnOk};
ghost use Rattle.ob_serial.specs.VaultKinds.{kind_of};
ghost use Rattle.ob_conduct.specs.Acts.{Batch};
ghost use Rattle.ob_conduct.specs.Scenes.{scene};
ghost use Rattle.ob_conduct.specs.Ready.{IsBetweenActs};
ghost use Rattle.ob_conduct.specs.Moves.{ReadsBatches, BatchStops, RestStops};

use crate::run_err::RunErr;
use crate::watching::heed;
use ob_base::{Key, Params, Value};
use ob_desk::Desk;
use ob_serial::Vault;
use ob_store::Watch;
use std::thread::Threads;

/// Takes a batch of the desk, fetches it from the vault and delivers it.
///
/// # Errors
/// The vault refused, or the watch broke; and the desk is stopped.
fn read_batch<R: Threads + Sync, V: Vault, W: Watch>(
    rt: &R,
    desk: &mut Desk,
    vault: &mut V,
    watch: &mut W,
    asks: &mut [Option<Key>],
    found: &mut [Option<Value>],
) -> Result<(), RunErr>
    requires ready { IsBetweenActs (V.params vault.old) desk.old (V.counts vault.old) }
    requires goes_on { desk.old.stop ≡ None }
    requires whole { (W.trace watch.old).broken ≡ false }
    requires some_left { 0 < (V.counts vault.old).left }
    requires places { length asks.old ≡ (V.params vault.old).places }
    requires room { length found.old ≡ (V.params vault.old).places }
    ensures params { V.params vault.new ≡ V.params vault.old }
    ensures places { length asks.new ≡ (V.params vault.old).places }
    ensures room { length found.new ≡ (V.params vault.old).places }
    ensures read { OnOk result ((batch : Batch)
        × ReadsBatches (kind_of V.Vault) (V.params vault.old)
        (scene desk.old vault.old (W.trace watch.old)) (batch ∷ [])
        (scene desk.new vault.new (W.trace watch.new)) (V.counts vault.new)
        × ((W.trace watch.new).broken ≡ false)) }
    ensures less { OnOk result ((V.counts vault.new).left < (V.counts vault.old).left) }
    ensures refused { IfErr result (λ err. BatchStops (kind_of V.Vault) (V.params vault.old)
        (scene desk.old vault.old (W.trace watch.old)) err
        (scene desk.new vault.new (W.trace watch.new))) }
{
    desk.take_batch(asks);
    match vault.fetch(rt, asks, found, watch) {
        Ok(()) => {
            desk.deliver(asks, found);
            heed(desk, watch)
        }
        Err(fault) => {
            desk.stop(fault);
            Err(RunErr::Fault(fault))
        }
    }
}

/// Takes, fetches and delivers one batch.
///
/// # Errors
/// The vault refused, or the watch broke; and the desk is stopped.
pub fn fetch_batch<R: Threads + Sync, V: Vault, W: Watch>(
    rt: &R,
    params: &Params,
    desk: &mut Desk,
    vault: &mut V,
    watch: &mut W,
) -> Result<(), RunErr>
    requires params { V.params vault.old ≡ params.now }
    requires ready { IsBetweenActs params.now desk.old (V.counts vault.old) }
    requires goes_on { desk.old.stop ≡ None }
    requires whole { (W.trace watch.old).broken ≡ false }
    requires some_left { 0 < (V.counts vault.old).left }
    ensures params { V.params vault.new ≡ params.now }
    ensures read { OnOk result ((batch : Batch)
        × ReadsBatches (kind_of V.Vault) params.now (scene desk.old vault.old (W.trace watch.old))
        (batch ∷ []) (scene desk.new vault.new (W.trace watch.new)) (V.counts vault.new)
        × ((W.trace watch.new).broken ≡ false)) }
    ensures less { OnOk result ((V.counts vault.new).left < (V.counts vault.old).left) }
    ensures refused { IfErr result (λ err. BatchStops (kind_of V.Vault) params.now
        (scene desk.old vault.old (W.trace watch.old)) err
        (scene desk.new vault.new (W.trace watch.new))) }
{
    let places = params.places as usize;
    let mut asks: [Option<Key>; 64] = [None; 64];
    let mut found: [Option<Value>; 64] = [None; 64];
    read_batch(
        rt,
        desk,
        vault,
        watch,
        &mut asks[..places],
        &mut found[..places],
    )
}

/// Takes, fetches and delivers each batch that is left.
///
/// # Errors
/// The vault refused, or the watch broke; and the desk is stopped.
pub fn fetch_rest<R: Threads + Sync, V: Vault, W: Watch>(
    rt: &R,
    params: &Params,
    desk: &mut Desk,
    vault: &mut V,
    watch: &mut W,
) -> Result<(), RunErr>
    requires params { V.params vault.old ≡ params.now }
    requires ready { IsBetweenActs params.now desk.old (V.counts vault.old) }
    requires goes_on { desk.old.stop ≡ None }
    requires whole { (W.trace watch.old).broken ≡ false }
    ensures params { V.params vault.new ≡ params.now }
    ensures read { OnOk result ((batches : List Batch)
        × ReadsBatches (kind_of V.Vault) params.now (scene desk.old vault.old (W.trace watch.old))
        batches (scene desk.new vault.new (W.trace watch.new)) (V.counts vault.new)
        × ((W.trace watch.new).broken ≡ false)) }
    ensures none_left { OnOk result ((V.counts vault.new).left ≡ 0) }
    ensures refused { IfErr result (λ err. RestStops (kind_of V.Vault) params.now
        (scene desk.old vault.old (W.trace watch.old)) err
        (scene desk.new vault.new (W.trace watch.new))) }
{
    while vault.left() > 0 {
        match fetch_batch(rt, params, desk, vault, watch) {
            Ok(()) => {}
            Err(err) => return Err(err),
        }
    }
    Ok(())
}
