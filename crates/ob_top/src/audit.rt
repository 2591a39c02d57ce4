//! `audit`.

ghost use Rattle.std.specs.Prelude.{◌≡◌};
ghost use Rattle.ob_io.specs.Streams.{inflow, outflow};
ghost use Rattle.ob_top.specs.Outside.{outside};
ghost use Rattle.ob_top.specs.Audits.{AuditDone, verdict_status};

use crate::endings::finish;
use ob_audit::{Audit, audit, verdict_text};
use ob_base::{Failed, Fault};
use ob_io::{Sink, Source};
use std::alloc::Global;

fn verdict_status(audit: &Audit) -> u8
    ensures { result ≡ verdict_status audit.now }
{
    match audit {
        Audit::Fits => 0,
        Audit::Breaks { .. } => 1,
    }
}

/// Audits the trace that comes in, writes what is found, and answers the status: 0 where it fits, 1
/// where a line breaks, and else that of the fault whose line is written.
pub fn audit_on<I: Source, O: Sink>(alloc: Global, input: &mut I, output: &mut O) -> u8
    ensures { AuditDone (outside (inflow I.Source input.old) (outflow O.Sink output.old))
        (outside (inflow I.Source input.new) (outflow O.Sink output.new)) result }
{
    let audit = match audit(alloc, input) {
        Ok(audit) => audit,
        Err(fault) => return finish(output, Err(fault)),
    };
    match verdict_text(&audit, output) {
        Ok(()) => verdict_status(&audit),
        Err(Failed) => finish(output, Err(Fault::SinkFault)),
    }
}
