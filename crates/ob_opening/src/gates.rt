//! Gates of a new store's logs.

ghost use Rattle.std.specs.Prelude.{◌≡◌, ◌<◌, ◌++◌, IfOk, OnOk};
ghost use Rattle.ob_schedule.specs.Schedule.{log_gates};
ghost use Rattle.ob_opening.specs.Formats.{all_gates};

use ob_base::{Params, log_gate};
use std::alloc::{AllocError, Global};

// Puts the gates of a log area behind the others, in rising order.
fn push_gates(p: &Params, area: u8, gates: &mut Vec<u64>) -> Result<(), AllocError>
    requires { area < 2 }
    ensures { OnOk result (gates.new.items ≡ gates.old.items ++ log_gates p.now area) }
{
    for batch in 0..p.batches {
        gates.push(log_gate(p, area, batch))?;
    }
    Ok(())
}

/// The gates of both log areas, in rising order.
pub fn log_gates(alloc: Global, p: &Params) -> Result<Vec<u64>, AllocError>
    ensures { IfOk result (λ gates. gates.items ≡ all_gates p.now) }
{
    let mut gates = Vec::new(alloc);
    push_gates(p, 0, &mut gates)?;
    push_gates(p, 1, &mut gates)?;
    Ok(gates)
}
