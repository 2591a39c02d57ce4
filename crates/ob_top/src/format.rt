//! `format` over a store.

ghost use Rattle.std.specs.Prelude.{◌≡◌, false};
ghost use Rattle.ob_io.specs.Streams.{outflow};
ghost use Rattle.ob_store.specs.Images.{LeavesOnly};
ghost use Rattle.ob_store.specs.Calls.{GoesOn};
ghost use Rattle.ob_vault.specs.RingKind.{ring_kind};
ghost use Rattle.ob_vault.specs.RingLives.{ring_lives};
ghost use Rattle.ob_top.specs.Audited.{ring_audits};
ghost use Rattle.ob_top.specs.Formats.{FormatEnds};
ghost use Rattle.ob_top.specs.Endings.{err_of};
ghost use Rattle.ob_top.specs.Outside.{words_given};

use crate::endings::still_watched;
use ob_base::{Failed, Fault, Params, ring_cells};
use ob_conduct::RunErr;
use ob_io::Sink;
use ob_opening::format;
use ob_report::size_text;
use ob_seal::{Keys, Tape};
use ob_store::{Store, Watch};
use std::alloc::Global;
use std::thread::Threads;

/// Makes an empty store of these parameters, and then tells how many cells it has. The tape, which
/// wasn't started, gives the order of its slots. A watch, which is whole, is shown all that the
/// store sees.
///
/// # Errors
/// Memory was wanting, and nothing was done; the store failed, and nothing is written to the
/// output; or the watch broke, and nothing is, though the store was made; or the output failed, and
/// a front of the line is.
pub fn format_on<R: Threads + Sync, S: Store, T: Tape, O: Sink, W: Watch>(
    rt: &R,
    alloc: Global,
    store: &mut S,
    tape: &mut T,
    keys: &Keys,
    params: &Params,
    output: &mut O,
    watch: &mut W,
) -> Result<(), RunErr>
    requires none_out { (S.disk store.old).out ≡ 0 }
    requires unstarted { T.present tape.old ≡ 0 }
    requires whole { (W.trace watch.old).broken ≡ false }
    ensures goes { GoesOn (S.disk store.old) (S.disk store.new) }
    ensures none_out { (S.disk store.new).out ≡ 0 }
    ensures ends { FormatEnds ring_kind ring_lives ring_audits S.disk
        (words_given (T.present tape.new) (T.drawn tape.new)) keys.now params.now store.old
        store.new (outflow O.Sink output.old) (outflow O.Sink output.new) (W.trace watch.old)
        (W.trace watch.new) (err_of result) }
    ensures left { (S.disk store.old).tells
        → LeavesOnly (S.disk store.old) (S.disk store.new)
        (ring_kind.format_leaves keys.now params.now (T.drawn tape.new)
        (S.disk store.old)) }
{
    match format(rt, alloc, store, tape, keys, params, watch) {
        Ok(()) => {}
        Err(fault) => return Err(RunErr::Fault(fault)),
    }
    match still_watched(watch) {
        Ok(()) => {}
        Err(err) => return Err(err),
    }
    match size_text(ring_cells(params), output) {
        Ok(()) => Ok(()),
        Err(Failed) => Err(RunErr::Fault(Fault::SinkFault)),
    }
}
