//! The driver's look, and what it does behind it.

ghost use Rattle.std.specs.Prelude.{◌≡◌, ◌≤◌, ◌<◌, ◌⊎◌, ℕ, true, false, MatchBool, None, IfOk, IfErr, OnOk, vec_capacity};
ghost use Rattle.ob_io.specs.Streams.{outflow};
ghost use Rattle.ob_serial.specs.VaultKinds.{kind_of};
ghost use Rattle.ob_desk.specs.Desk.{look_at};
ghost use Rattle.ob_desk.specs.Beats.{beat_kind};
ghost use Rattle.ob_conduct.specs.Acts.{MayAct, MayRest, IsToFetch};
ghost use Rattle.ob_conduct.specs.Scenes.{scene};
ghost use Rattle.ob_conduct.specs.Records.{IsOver};
ghost use Rattle.ob_conduct.specs.Ready.{IsBetweenActs};
ghost use Rattle.ob_conduct.specs.Moves.{Acted, ActFails};

use crate::batch::fetch_batch;
use crate::epoch::end_epoch;
use crate::run_err::RunErr;
use ob_base::{Params, Write};
use ob_desk::{Beat, Desk, Look};
use ob_io::Sink;
use ob_serial::Vault;
use ob_store::Watch;
use std::thread::Threads;

/// Whether the run goes on behind a look.
#[derive(Clone, Copy)]
pub enum Round {
    On,
    /// Each client has signed off, and no transaction waits for its epoch's end.
    Over,
}

// Whether the run is over: no client is left, and no transaction waits for its epoch's end.
fn is_over(look: &Look) -> bool
    ensures { MatchBool result ((look.now.clients ≡ 0) × (look.now.txns ≡ 0)) (look.now.clients ≡ 0
        → 0 < look.now.txns) }
{
    look.clients == 0 && look.txns == 0
}

// Whether to act at this look.
fn is_due<B: Beat>(beat: &mut B, look: &Look) -> bool
    ensures may { MatchBool result (MayAct (beat_kind B.passes B.exact) look.now)
        (MayRest (beat_kind B.passes B.exact) look.now) }
    ensures anchors { B.anchors beat.new ≡ B.anchors beat.old }
{
    if look.clients == 0 {
        return true;
    }
    beat.due(look.waiting, look.live, look.queued, look.left)
}

// Whether there is a batch to fetch: keys are queued, and a batch is left for them.
fn is_to_fetch(look: &Look) -> bool
    ensures { MatchBool result (IsToFetch look.now) ((look.now.queued ≡ 0) ⊎ (look.now.left ≡ 0)) }
{
    look.queued > 0 && look.left > 0
}

// Fetches a batch, where keys are queued and a batch is left; else ends the epoch, where it has
// transactions.
fn act<R: Threads + Sync, V: Vault, W: Watch, B: Beat, O: Sink>(
    rt: &R,
    params: &Params,
    desk: &mut Desk,
    vault: &mut V,
    watch: &mut W,
    output: &mut O,
    writes: &mut Vec<Write>,
    look: &Look,
) -> Result<(), RunErr>
    requires params { V.params vault.old ≡ params.now }
    requires ready { IsBetweenActs params.now desk.old (V.counts vault.old) }
    requires goes_on { desk.old.stop ≡ None }
    requires whole { (W.trace watch.old).broken ≡ false }
    requires room { params.now.writes ≤ vec_capacity writes.old }
    requires look { look.now ≡ look_at desk.old }
    requires may { MayAct (beat_kind B.passes B.exact) look.now }
    requires not_over { look.now.clients ≡ 0 → 0 < look.now.txns }
    ensures params { V.params vault.new ≡ params.now }
    ensures room { vec_capacity writes.old ≤ vec_capacity writes.new }
    ensures acted { OnOk result
        (Acted (kind_of V.Vault) params.now (beat_kind B.passes B.exact)
        (scene desk.old vault.old (W.trace watch.old))
        (outflow O.Sink output.old) (scene desk.new vault.new (W.trace watch.new))
        (V.counts vault.new) (outflow O.Sink output.new)) }
    ensures failed { IfErr result
        (λ err. ActFails (kind_of V.Vault) (beat_kind B.passes B.exact)
        (scene desk.old vault.old (W.trace watch.old))
        (outflow O.Sink output.old) err (scene desk.new vault.new (W.trace watch.new))
        (outflow O.Sink output.new)) }
{
    if is_to_fetch(look) {
        return fetch_batch(rt, params, desk, vault, watch);
    }
    if look.txns > 0 {
        return end_epoch(rt, params, desk, vault, watch, output, writes);
    }
    Ok(())
}

/// The driver looks once, and acts at most once.
///
/// # Errors
/// The desk was stopped; or the vault refused, or the watch broke, or the output failed, and the
/// desk is stopped.
pub fn look_and_act<R: Threads + Sync, V: Vault, W: Watch, B: Beat, O: Sink>(
    rt: &R,
    params: &Params,
    desk: &mut Desk,
    vault: &mut V,
    watch: &mut W,
    beat: &mut B,
    output: &mut O,
    writes: &mut Vec<Write>,
) -> Result<Round, RunErr>
    requires params { V.params vault.old ≡ params.now }
    requires ready { IsBetweenActs params.now desk.old (V.counts vault.old) }
    requires whole { (W.trace watch.old).broken ≡ false }
    requires room { params.now.writes ≤ vec_capacity writes.old }
    ensures params { V.params vault.new ≡ params.now }
    ensures room { vec_capacity writes.old ≤ vec_capacity writes.new }
    ensures anchors { B.anchors beat.new ≡ B.anchors beat.old }
    ensures acted { OnOk result
        (Acted (kind_of V.Vault) params.now (beat_kind B.passes B.exact)
        (scene desk.old vault.old (W.trace watch.old))
        (outflow O.Sink output.old) (scene desk.new vault.new (W.trace watch.new))
        (V.counts vault.new) (outflow O.Sink output.new)) }
    ensures over { IfOk result (λ round. round ≡ Round.Over → IsOver desk.new) }
    ensures failed { IfErr result
        (λ err. ActFails (kind_of V.Vault) (beat_kind B.passes B.exact)
        (scene desk.old vault.old (W.trace watch.old))
        (outflow O.Sink output.old) err (scene desk.new vault.new (W.trace watch.new))
        (outflow O.Sink output.new)) }
{
    if let Some(fault) = desk.stopped() {
        return Err(RunErr::Fault(fault));
    }
    let look = desk.look();
    if is_over(&look) {
        return Ok(Round::Over);
    }
    if !is_due(beat, &look) {
        return Ok(Round::On);
    }
    match act::<R, V, W, B, O>(rt, params, desk, vault, watch, output, writes, &look) {
        Ok(()) => Ok(Round::On),
        Err(err) => Err(err),
    }
}
