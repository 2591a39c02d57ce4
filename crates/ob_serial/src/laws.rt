//! What one-by-one runs obey.

ghost use Rattle.ob_serial.specs.Laws.{HasOneResult, RunsAppend, IgnoresUncommitted, ReplaysByPlace};

/// What one-by-one runs obey: from a map, transactions leave one map at most; a run goes on with
/// another one from where it ends, and each longer run is two such; and a transaction that isn't
/// committed changes nothing.
pub fn serial_runs()
    ensures one_result { HasOneResult }
    ensures append { RunsAppend }
    ensures uncommitted { IgnoresUncommitted }
{}

/// Operations replay on a map exactly where each get, at whatever place, finds its reply in the
/// map as the operations before it leave it.
pub fn replays_by_place()
    ensures { ReplaysByPlace }
{}
