//! What an audit answers to the traces of runs behind each other.

ghost use Rattle.ob_io.specs.Streams.{outflow};
ghost use Rattle.ob_top.specs.Fitting.{RefusedTracesFit, TracesFit};

use ob_io::Sink;
use ob_store::Store;

/// So it is of bytes: where the format and the runs of such a row wrote their traces, and no trace
/// failed, what they wrote, one behind the other, fits: `audit` answers that wherever it comes in,
/// if it has at most 2^32 bytes.
pub fn traces_fit<S: Store, W: Sink>()
    ensures { TracesFit (λ store. S.disk store) (λ sink. outflow W.Sink sink) }
{}

/// So it is of the traces of runs of which some were refused, before their opening or in it, but for
/// the case that an audit leaves out.
pub fn refused_traces_fit<S: Store, W: Sink>()
    ensures { RefusedTracesFit (λ store. S.disk store) (λ sink. outflow W.Sink sink) }
{}
