//! A round of the clients.

ghost use Rattle.std.specs.Prelude.{◌≡◌, ◌≤◌, ℕ, All, map};
ghost use Rattle.std.specs.List.Sorted.{IsStrictlyIncreasing};
ghost use Rattle.ob_base.specs.declared.params.Params.{Params};
ghost use Rattle.ob_serial.specs.Vaults.{VaultCounts};
ghost use Rattle.ob_conduct.specs.Ready.{IsBetweenActs};
ghost use Rattle.ob_conduct.specs.Scenes.{runner_kind};
ghost use Rattle.ob_conduct.specs.Moves.{Heard, Stepped};

use ob_desk::Desk;
use ob_session::Runner;

/// Each runner in order makes one step.
pub fn step_all<U: Runner>(desk: &mut Desk, runners: &mut [U])
    requires below { All (λ u. U.bound u ≤ desk.old.setup.params.keys) runners.old }
    requires ready { (c : VaultCounts) × IsBetweenActs desk.old.setup.params desk.old c }
    requires heard { Heard U.client U.fits desk.old runners.old }
    ensures stepped { Stepped (runner_kind U.client U.bound U.plan U.fits U.turn)
        (map U.client runners.old) desk.old runners.old desk.new runners.new }
    ensures ready { (p : Params) (c : VaultCounts) → IsBetweenActs p desk.old c
        → IsBetweenActs p desk.new c }
{
    for i in 0..runners.len() {
        runners[i].step(desk);
    }
}
