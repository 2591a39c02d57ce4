//! How a call ends.

ghost use Rattle.ob_io.specs.Streams.{outflow};
ghost use Rattle.ob_top.specs.Outside.{IsCommandFinished, IsFinished, IsWatched};
ghost use Rattle.ob_top.specs.Endings.{err_of, fault_of};

use ob_base::Fault;
use ob_conduct::RunErr;
use ob_io::Sink;
use ob_report::{fault_status, fault_text};
use ob_store::Watch;

/// Refuses to go on where the watch has broken.
///
/// # Errors
/// It has.
pub fn still_watched<W: Watch>(watch: &W) -> Result<(), RunErr>
    ensures { IsWatched (W.trace watch.now) (err_of result) }
{
    match watch.broken() {
        true => Err(RunErr::Unwatched),
        false => Ok(()),
    }
}

/// Writes the line of a fault behind what stands in the output, if there is one, and answers its
/// status. Where the output itself has failed nothing more is written.
pub fn finish<O: Sink>(output: &mut O, ended: Result<(), Fault>) -> u8
    ensures { IsFinished (outflow O.Sink output.old) (outflow O.Sink output.new) (fault_of ended)
        result }
{
    match ended {
        Ok(()) => 0,
        Err(Fault::SinkFault) => fault_status(&Fault::SinkFault),
        Err(fault) => {
            let _ = fault_text(&fault, output);
            fault_status(&fault)
        }
    }
}

/// The same of a command over a store. Where its watch broke, and the output didn't fail, that is
/// told as the output's fault.
pub fn finish_run<O: Sink>(output: &mut O, ended: Result<(), RunErr>) -> u8
    ensures { IsCommandFinished (outflow O.Sink output.old) (outflow O.Sink output.new)
        (err_of ended) result }
{
    match ended {
        Ok(()) => 0,
        Err(RunErr::Fault(fault)) => finish(output, Err(fault)),
        Err(RunErr::Unwatched) => {
            let _ = fault_text(&Fault::SinkFault, output);
            fault_status(&Fault::SinkFault)
        }
    }
}
