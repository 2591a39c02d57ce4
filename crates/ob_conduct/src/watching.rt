//! A look at the watch.

ghost use Rattle.ob_conduct.specs.Moves.{HeedsWatch};

use crate::run_err::RunErr;
use ob_base::Fault;
use ob_desk::Desk;
use ob_store::Watch;

/// Stops the desk where the watch has broken.
///
/// # Errors
/// It has, and the desk is stopped.
pub fn heed<W: Watch>(desk: &mut Desk, watch: &W) -> Result<(), RunErr>
    ensures { HeedsWatch desk.old desk.new (W.trace watch.now) result }
{
    if watch.broken() {
        desk.stop(Fault::SinkFault);
        return Err(RunErr::Unwatched);
    }
    Ok(())
}
