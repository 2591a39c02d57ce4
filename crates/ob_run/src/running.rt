//! A run, by threads or by hand.

ghost use Rattle.std.specs.Prelude.{◌≡◌, ◌≤◌, ℕ, suc, All, map, [], false};
ghost use Rattle.ob_io.specs.Streams.{outflow};
ghost use Rattle.ob_serial.specs.VaultKinds.{kind_of};
ghost use Rattle.ob_desk.specs.Desk.{DeskState, MayOpen, new_desk, setup_with};
ghost use Rattle.ob_desk.specs.Beats.{beat_kind};
ghost use Rattle.ob_conduct.specs.Scenes.{scene, run_state, runner_kind};
ghost use Rattle.ob_run.specs.Ends.{IsQuiet};
ghost use Rattle.ob_run.specs.Threaded.{RunsBy};

use crate::by_hand::run_by_hand;
use crate::in_threads::run_in_threads;
use ob_base::Params;
use ob_conduct::RunErr;
use ob_desk::{Beat, Desk};
use ob_io::Sink;
use ob_serial::Vault;
use ob_session::Runner;
use ob_store::Watch;
use std::alloc::Global;
use std::sync::Wait;
use std::thread::Threads;

/// Runs these clients over the vault, from the desk as it was made, up to the end: each client in a
/// thread of its own; or, without `threads`, all by hand. Where the system refuses a client's
/// thread it is made by hand, too. Those made by hand have their turns in rounds. The caller's
/// thread drives the epochs. The run is over where each client has signed off and no transaction
/// waits for its epoch's end, or where the desk is stopped. Each epoch's lines are written once it
/// is durable. No thread is left behind.
///
/// # Errors
/// Memory was wanting, before any client made a call or for a client; or the vault refused, and is
/// spent; or the watch broke, and all lines of what ended are written; or the output failed, and a
/// front of the lines is written.
pub fn run<U: Runner + Send, R: Threads + Wait + Sync, V: Vault, W: Watch, B: Beat, O: Sink>(
    rt: &R,
    alloc: Global,
    params: &Params,
    desk: Desk,
    clients: &[u32],
    runners: &mut Vec<U>,
    vault: &mut V,
    watch: &mut W,
    beat: &mut B,
    output: &mut O,
    threads: bool,
) -> Result<(), RunErr>
    requires params { V.params vault.old ≡ params.now }
    requires serves { (V.counts vault.old).spent ≡ false }
    requires whole { (W.trace watch.old).broken ≡ false }
    requires clients { clients.now ≡ map U.client runners.old.items }
    requires fresh { desk
        ≡ new_desk (setup_with params.now desk.setup.shares) (suc (V.counts vault.old).epoch)
        (V.counts vault.old).left (map U.client runners.old.items) }
    requires opens { MayOpen (setup_with params.now desk.setup.shares) (suc (V.counts vault.old).epoch)
        (V.counts vault.old).left (map U.client runners.old.items) }
    requires below { All (λ u. U.bound u ≤ params.now.keys) runners.old.items }
    requires none_made { All (λ u. U.fits u []) runners.old.items }
    // Of this kind of runner: behind its sign-off it is to call nothing, and so it stops no desk
    // behind the last look of the driver.
    requires quiet { IsQuiet U.turn }
    ensures params { V.params vault.new ≡ params.now }
    // It keeps the references that the vault and the beat were lent.
    ensures anchors { (V.disk vault.new).anchors ≡ (V.disk vault.old).anchors }
    ensures beat { B.anchors beat.new ≡ B.anchors beat.old }
    ensures done { (d : DeskState)
        × RunsBy threads (kind_of V.Vault) (runner_kind U.client U.bound U.plan U.fits U.turn)
        (beat_kind B.passes B.exact)
        (run_state (scene desk vault.old (W.trace watch.old)) runners.old.items
        (outflow O.Sink output.old))
        (run_state (scene d vault.new (W.trace watch.new)) runners.new.items
        (outflow O.Sink output.new)) result }
{
    if threads {
        run_in_threads(
            rt,
            alloc,
            params,
            desk,
            clients,
            runners,
            vault,
            watch,
            beat,
            output,
            clients.len(),
        )
    } else {
        run_by_hand(rt, alloc, params, desk, runners, vault, watch, beat, output)
    }
}
