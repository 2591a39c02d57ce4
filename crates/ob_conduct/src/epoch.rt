//! The end of an epoch, and its lines.

ghost use Rattle.std.specs.Prelude.{◌≡◌, ◌≤◌, None, false, IfOk, IfErr, OnOk, vec_capacity};
ghost use Rattle.ob_io.specs.Streams.{outflow};
ghost use Rattle.ob_serial.specs.Views.{record_of};
ghost use Rattle.ob_serial.specs.VaultKinds.{kind_of};
ghost use Rattle.ob_desk.specs.Desk.{look_at};
ghost use Rattle.ob_desk.specs.Beats.{BeatKind};
ghost use Rattle.ob_desk.specs.declared.calls.Look.{Look as Seen};
ghost use Rattle.ob_conduct.specs.Acts.{MayAct, IsToEnd};
ghost use Rattle.ob_conduct.specs.Scenes.{scene};
ghost use Rattle.ob_conduct.specs.Ready.{IsBetweenActs};
ghost use Rattle.ob_conduct.specs.Moves.{IsEnded, EndFails, Acted, ActFails};

use crate::batch::fetch_rest;
use crate::run_err::RunErr;
use crate::watching::heed;
use ob_base::{Failed, Fault, Key, Params, Write};
use ob_desk::Desk;
use ob_io::Sink;
use ob_report::text;
use ob_serial::{EndErr, EpochRecord, Vault};
use ob_store::Watch;
use std::thread::Threads;

// Closes the epoch, ends it in the vault with its writes, and publishes it: its record.
fn close<R: Threads + Sync, V: Vault, W: Watch>(
    rt: &R,
    params: &Params,
    desk: &mut Desk,
    vault: &mut V,
    watch: &mut W,
    writes: &mut Vec<Write>,
) -> Result<EpochRecord<Key>, Fault>
    requires params { V.params vault.old ≡ params.now }
    requires ready { IsBetweenActs params.now desk.old (V.counts vault.old) }
    requires goes_on { desk.old.stop ≡ None }
    requires whole { (W.trace watch.old).broken ≡ false }
    requires none_left { (V.counts vault.old).left ≡ 0 }
    requires room { params.now.writes ≤ vec_capacity writes.old }
    ensures params { V.params vault.new ≡ params.now }
    ensures room { vec_capacity writes.old ≤ vec_capacity writes.new }
    ensures ended { IfOk result
        (λ told. IsEnded (kind_of V.Vault) params.now (scene desk.old vault.old (W.trace watch.old))
        (record_of told) (scene desk.new vault.new (W.trace watch.new)) (V.counts vault.new)) }
    ensures refused { IfErr result
        (λ fault. EndFails (kind_of V.Vault) (scene desk.old vault.old (W.trace watch.old)) fault
        (scene desk.new vault.new (W.trace watch.new))) }
{
    desk.close(writes);
    match vault.end(rt, writes, watch) {
        Ok(()) => Ok(desk.publish(vault.epoch() + 1, params.batches)),
        Err(EndErr::Before(fault)) => {
            desk.stop(fault);
            Err(fault)
        }
        Err(EndErr::Unsure(fault)) => {
            desk.unsure(fault);
            Err(fault)
        }
    }
}

/// Fetches the batches that are left, ends the epoch, and writes its lines.
///
/// # Errors
/// The vault refused, or the watch broke, or the output failed. The desk is stopped.
pub fn end_epoch<R: Threads + Sync, V: Vault, W: Watch, O: Sink>(
    rt: &R,
    params: &Params,
    desk: &mut Desk,
    vault: &mut V,
    watch: &mut W,
    output: &mut O,
    writes: &mut Vec<Write>,
) -> Result<(), RunErr>
    requires params { V.params vault.old ≡ params.now }
    requires ready { IsBetweenActs params.now desk.old (V.counts vault.old) }
    requires goes_on { desk.old.stop ≡ None }
    requires whole { (W.trace watch.old).broken ≡ false }
    requires room { params.now.writes ≤ vec_capacity writes.old }
    ensures params { V.params vault.new ≡ params.now }
    ensures room { vec_capacity writes.old ≤ vec_capacity writes.new }
    // At a look that shows the desk as it was, and allows it, this is a thing that the driver does.
    ensures ended { (beat : BeatKind) (look : Seen) → look ≡ look_at desk.old
        → MayAct beat look → IsToEnd look
        → OnOk result (Acted (kind_of V.Vault) params.now beat
        (scene desk.old vault.old (W.trace watch.old)) (outflow O.Sink output.old)
        (scene desk.new vault.new (W.trace watch.new)) (V.counts vault.new)
        (outflow O.Sink output.new)) }
    ensures refused { (beat : BeatKind) (look : Seen) → look ≡ look_at desk.old
        → MayAct beat look → IsToEnd look
        → IfErr result (λ err. ActFails (kind_of V.Vault) beat
        (scene desk.old vault.old (W.trace watch.old)) (outflow O.Sink output.old) err
        (scene desk.new vault.new (W.trace watch.new)) (outflow O.Sink output.new)) }
{
    match fetch_rest(rt, params, desk, vault, watch) {
        Ok(()) => {}
        Err(err) => return Err(err),
    }
    let told = match close(rt, params, desk, vault, watch, writes) {
        Ok(told) => told,
        Err(fault) => return Err(RunErr::Fault(fault)),
    };
    match text(&told, output) {
        Ok(()) => heed(desk, watch),
        Err(Failed) => {
            desk.stop(Fault::SinkFault);
            Err(RunErr::Fault(Fault::SinkFault))
        }
    }
}
