//! A run by hand.

ghost use Rattle.std.specs.Prelude.{◌≡◌, ◌≤◌, ℕ, suc, All, map, [], false};
ghost use Rattle.ob_io.specs.Streams.{outflow};
ghost use Rattle.ob_serial.specs.VaultKinds.{kind_of};
ghost use Rattle.ob_desk.specs.Desk.{DeskState, MayOpen, new_desk, setup_with};
ghost use Rattle.ob_desk.specs.Beats.{beat_kind};
ghost use Rattle.ob_conduct.specs.Scenes.{scene, run_state, runner_kind};
ghost use Rattle.ob_conduct.specs.Conducted.{ByHand};

use ob_base::Params;
use ob_conduct::{RunErr, serve};
use ob_desk::{Beat, Desk};
use ob_io::Sink;
use ob_serial::Vault;
use ob_session::Runner;
use ob_store::Watch;
use std::alloc::Global;
use std::sync::Wait;
use std::thread::Threads;

/// Lets a desk go, of which nothing more is asked.
pub(crate) fn let_go(_desk: Desk) {}

/// Runs the clients over the vault, all by hand, from the desk as it was made.
pub(crate) fn run_by_hand<
    R: Threads + Wait + Sync,
    V: Vault,
    W: Watch,
    U: Runner,
    B: Beat,
    O: Sink,
>(
    rt: &R,
    alloc: Global,
    params: &Params,
    mut desk: Desk,
    runners: &mut Vec<U>,
    vault: &mut V,
    watch: &mut W,
    beat: &mut B,
    output: &mut O,
) -> Result<(), RunErr>
    requires params { V.params vault.old ≡ params.now }
    requires serves { (V.counts vault.old).spent ≡ false }
    requires whole { (W.trace watch.old).broken ≡ false }
    requires fresh { desk
        ≡ new_desk (setup_with params.now desk.setup.shares) (suc (V.counts vault.old).epoch)
        (V.counts vault.old).left (map U.client runners.old.items) }
    requires opens { MayOpen (setup_with params.now desk.setup.shares) (suc (V.counts vault.old).epoch)
        (V.counts vault.old).left (map U.client runners.old.items) }
    requires below { All (λ u. U.bound u ≤ params.now.keys) runners.old.items }
    requires none_made { All (λ u. U.fits u []) runners.old.items }
    ensures params { V.params vault.new ≡ params.now }
    ensures anchors { (V.disk vault.new).anchors ≡ (V.disk vault.old).anchors }
    ensures beat { B.anchors beat.new ≡ B.anchors beat.old }
    ensures done { (d : DeskState)
        × ByHand (kind_of V.Vault) (runner_kind U.client U.bound U.plan U.fits U.turn)
        (beat_kind B.passes B.exact)
        (run_state (scene desk vault.old (W.trace watch.old)) runners.old.items
        (outflow O.Sink output.old))
        (run_state (scene d vault.new (W.trace watch.new)) runners.new.items
        (outflow O.Sink output.new)) result }
{
    let result = serve(
        rt, alloc, params, &mut desk, runners, vault, watch, beat, output,
    );
    let_go(desk);
    result
}
