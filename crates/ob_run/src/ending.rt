//! The laws of how a run at a hall ends.

ghost use Rattle.ob_serial.specs.VaultKinds.{kind_of};
ghost use Rattle.ob_run.specs.Ends.{OverRunsEndOver, FailedRunsFail, IdleHallsHaveNone};

use ob_serial::Vault;

/// Where the driver's run answered Ok, and no client calls anything behind its sign-off, the whole
/// history leads to a desk that is over: what other callers do behind the driver's last look
/// changes nothing. No call of the vault was refused, all lines are written, and the watch is
/// whole.
pub fn over_runs_end_over<V: Vault>()
    ensures { OverRunsEndOver (kind_of V.Vault) }
{}

/// Where the driver's run was cut off, its last act tells by what, and only clients' turns stand
/// behind it: nobody refused those before it, and the desk is stopped for that.
pub fn failed_runs_end_failed<V: Vault>()
    ensures { FailedRunsFail (kind_of V.Vault) }
{}

/// Where no pass made a call the whole history is empty, and the desk as it was made.
pub fn idle_halls_have_none()
    ensures { IdleHallsHaveNone }
{}
