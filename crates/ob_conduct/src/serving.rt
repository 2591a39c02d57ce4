//! Clients served in rounds over a vault.

ghost use Rattle.std.specs.Prelude.{◌≡◌, ◌≤◌, ℕ, suc, All, map, [], false, vec_capacity};
ghost use Rattle.ob_io.specs.Streams.{outflow};
ghost use Rattle.ob_serial.specs.VaultKinds.{kind_of};
ghost use Rattle.ob_desk.specs.Desk.{MayOpen, new_desk, setup_with};
ghost use Rattle.ob_desk.specs.Beats.{beat_kind};
ghost use Rattle.ob_conduct.specs.Scenes.{scene, run_state, runner_kind};
ghost use Rattle.ob_conduct.specs.Conducted.{ByHand};

use crate::look::{Round, look_and_act};
use crate::rounds::step_all;
use crate::run_err::RunErr;
use ob_base::{Fault, Params, Write};
use ob_desk::{Beat, Desk};
use ob_io::Sink;
use ob_serial::Vault;
use ob_session::Runner;
use ob_store::Watch;
use std::alloc::Global;
use std::sync::Wait;
use std::thread::Threads;

// Rounds, up to the end of the run.
fn run_rounds<R: Threads + Wait + Sync, V: Vault, W: Watch, U: Runner, B: Beat, O: Sink>(
    rt: &R,
    params: &Params,
    desk: &mut Desk,
    runners: &mut [U],
    vault: &mut V,
    watch: &mut W,
    beat: &mut B,
    output: &mut O,
    writes: &mut Vec<Write>,
) -> Result<(), RunErr>
    requires params { V.params vault.old ≡ params.now }
    requires serves { (V.counts vault.old).spent ≡ false }
    requires whole { (W.trace watch.old).broken ≡ false }
    requires fresh { desk.old
        ≡ new_desk (setup_with params.now desk.old.setup.shares) (suc (V.counts vault.old).epoch)
        (V.counts vault.old).left (map U.client runners.old) }
    requires opens { MayOpen (setup_with params.now desk.old.setup.shares) (suc (V.counts vault.old).epoch)
        (V.counts vault.old).left (map U.client runners.old) }
    requires below { All (λ u. U.bound u ≤ params.now.keys) runners.old }
    requires none_made { All (λ u. U.fits u []) runners.old }
    requires room { params.now.writes ≤ vec_capacity writes.old }
    ensures params { V.params vault.new ≡ params.now }
    ensures beat { B.anchors beat.new ≡ B.anchors beat.old }
    ensures done { ByHand (kind_of V.Vault) (runner_kind U.client U.bound U.plan U.fits U.turn)
        (beat_kind B.passes B.exact)
        (run_state (scene desk.old vault.old (W.trace watch.old)) runners.old
        (outflow O.Sink output.old))
        (run_state (scene desk.new vault.new (W.trace watch.new)) runners.new
        (outflow O.Sink output.new)) result }
{
    for _ in rt.forever() {
        step_all(desk, runners);
        match look_and_act(rt, params, desk, vault, watch, beat, output, writes) {
            Ok(Round::On) => {}
            Ok(Round::Over) => return Ok(()),
            Err(err) => return Err(err),
        }
    }
    unreachable!()
}

/// Runs the clients over the vault, all by hand. In rounds each runner makes one step; then the
/// driver looks once, and where no client is left or the beat says so it acts once. The run is over
/// where each client has signed off and no transaction waits for its epoch's end, or where the desk
/// is stopped. Each epoch's lines are written once it is durable.
///
/// # Errors
/// Memory was wanting, before the first round or for a client; or the vault refused, and is spent;
/// or the watch broke, and all lines of what ended are written; or the output failed, and a front
/// of the lines is written. But where memory was wanting before the first round the desk is
/// stopped.
pub fn serve<R: Threads + Wait + Sync, V: Vault, W: Watch, U: Runner, B: Beat, O: Sink>(
    rt: &R,
    alloc: Global,
    params: &Params,
    desk: &mut Desk,
    runners: &mut [U],
    vault: &mut V,
    watch: &mut W,
    beat: &mut B,
    output: &mut O,
) -> Result<(), RunErr>
    requires params { V.params vault.old ≡ params.now }
    requires serves { (V.counts vault.old).spent ≡ false }
    requires whole { (W.trace watch.old).broken ≡ false }
    requires fresh { desk.old
        ≡ new_desk (setup_with params.now desk.old.setup.shares) (suc (V.counts vault.old).epoch)
        (V.counts vault.old).left (map U.client runners.old) }
    requires opens { MayOpen (setup_with params.now desk.old.setup.shares) (suc (V.counts vault.old).epoch)
        (V.counts vault.old).left (map U.client runners.old) }
    requires below { All (λ u. U.bound u ≤ params.now.keys) runners.old }
    requires none_made { All (λ u. U.fits u []) runners.old }
    ensures params { V.params vault.new ≡ params.now }
    // It keeps the references that the vault and the beat were lent.
    ensures anchors { (V.disk vault.new).anchors ≡ (V.disk vault.old).anchors }
    ensures beat { B.anchors beat.new ≡ B.anchors beat.old }
    ensures done { ByHand (kind_of V.Vault) (runner_kind U.client U.bound U.plan U.fits U.turn)
        (beat_kind B.passes B.exact)
        (run_state (scene desk.old vault.old (W.trace watch.old)) runners.old
        (outflow O.Sink output.old))
        (run_state (scene desk.new vault.new (W.trace watch.new)) runners.new
        (outflow O.Sink output.new)) result }
{
    let mut writes = match Vec::with_capacity(alloc, params.writes as usize) {
        Ok(writes) => writes,
        Err(_) => return Err(RunErr::Fault(Fault::Memory)),
    };
    run_rounds(
        rt,
        params,
        desk,
        runners,
        vault,
        watch,
        beat,
        output,
        &mut writes,
    )
}
