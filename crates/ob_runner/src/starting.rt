//! The runners of a script's clients.

ghost use Rattle.std.specs.Prelude.{IfOk};
ghost use Rattle.ob_runner.specs.Runners.{AreRunners, AreRunnersOf};

use crate::runner::ScriptRunner;
use ob_base::Memory;
use ob_script::Scripts;
use std::alloc::Global;

fn runners_of(
    alloc: Global,
    scripts: &Scripts,
    clients: &[u32],
) -> Result<Vec<ScriptRunner>, Memory>
    ensures { IfOk result (λ runners. AreRunnersOf scripts.now clients.now runners.items) }
{
    let mut runners = Vec::with_capacity(alloc, clients.len())?;
    for client in clients {
        let runner = ScriptRunner::new(alloc, scripts, *client)?;
        runners.push_reserved(runner);
    }
    Ok(runners)
}

/// A runner of each client that the script names, in rising numbers. They have made no call.
///
/// # Errors
/// Memory was wanting.
pub fn runners(alloc: Global, scripts: &Scripts) -> Result<Vec<ScriptRunner>, Memory>
    ensures { IfOk result (λ runners. AreRunners scripts.now runners.items) }
{
    runners_of(alloc, scripts, scripts.clients())
}
