//! Two stores are joined, and a script is run over both.

ghost use Rattle.std.specs.Prelude.{◌≡◌, ◌≤◌, ◌⊎◌, ◌∷◌, [], ◌++◌, false, IfOk, IfErr, OnOk, OnErr};
ghost use Rattle.ob_base.specs.Causes.{Rose};
ghost use Rattle.ob_base.specs.Layout.{ring_cells};
ghost use Rattle.ob_io.specs.Streams.{inflow, outflow};
ghost use Rattle.ob_desk.specs.Beats.{beat_kind};
ghost use Rattle.ob_mirror.specs.Joins.{IsCopy, IsOnlyRead, NotesAsFar, cell_writes};
ghost use Rattle.ob_store.specs.Calls.{GoesOn};
ghost use Rattle.ob_store.specs.Images.{Passes, SameOff};
ghost use Rattle.ob_store.specs.Told.{Does};
ghost use Rattle.ob_store.specs.declared.event.Event.TheVariants as event;
ghost use Rattle.ob_vault.specs.RingKind.{ring_kind};
ghost use Rattle.ob_top.specs.Begun.{AreFewLanes};
ghost use Rattle.ob_top.specs.Outside.{outside, words_given};
ghost use Rattle.ob_top.specs.Parts.{manner};
ghost use Rattle.ob_mirrored.specs.Over.{AreJoined, AreUnjoined, OverBoth, join_notes};

use crate::over::{Room, do_over};
use ob_base::{Failed, Fault, Params, ring_cells};
use ob_conduct::RunErr;
use ob_desk::Beat;
use ob_io::{Sink, Source};
use ob_lanes::Lanes;
use ob_mirror::{Mirror, join, read_cells};
use ob_seal::{Keys, Tape};
use ob_store::{Store, Watch};
use ob_top::{Means, finish_run, head_on, still_watched};
use std::alloc::Global;
use std::sync::Wait;
use std::thread::Threads;

// The register of the epoch: its first cell, and how many it has.
const REGISTER: u64 = 5;

const REGISTER_CELLS: u64 = 4;

// Makes the second half from the first, of which the register of the epoch is read before: a store
// may tell its length there.
//
// # Errors
// One of them failed, and its count of faults rose. The first is as it was.
fn copy_store<A: Store, B: Store, W: Watch>(
    first: &mut A,
    second: &mut B,
    params: &Params,
    watch: &mut W,
) -> Result<(), Failed>
    requires free { (B.disk second.old).out ≡ 0 }
    ensures first { IsOnlyRead (A.disk first.old) (A.disk first.new) }
    ensures does { Does (join_notes params.now) (A.disk first.old).seen (A.disk first.new).seen
        (W.trace watch.old) (W.trace watch.new) result }
    ensures second { GoesOn (B.disk second.old) (B.disk second.new) }
    ensures second_seen { NotesAsFar (cell_writes (ring_cells params.now) ++ event.Sync ∷ [])
        (B.disk second.old).seen (B.disk second.new).seen result }
    ensures second_out { (B.disk second.new).out ≤ (B.disk second.old).out }
    ensures second_tells { OnOk result ((B.disk second.old).tells → (B.disk second.new).tells) }
    ensures second_passes { Passes (SameOff 0 (ring_cells params.now)) (B.disk second.old)
        (B.disk second.new) }
    ensures copied { OnOk result
        (IsCopy (ring_cells params.now) (A.disk first.new) (B.disk second.new)) }
    ensures cause { OnErr result (Rose (A.disk first.old).faults (A.disk first.new).faults
        ⊎ Rose (B.disk second.old).faults (B.disk second.new).faults) }
{
    match read_cells(first, REGISTER, REGISTER_CELLS, watch) {
        Ok(()) => {}
        Err(Failed) => return Err(Failed),
    }
    join(first, second, ring_cells(params), watch)
}

// Reads the head of the first half, and makes the second one from it. The watch is whole behind
// that.
//
// # Errors
// The head was refused, or the join; or the watch broke.
fn join_on<S: Lanes, M: Store, W: Watch>(
    keys: &Keys,
    first: &mut S,
    second: &mut M,
    watch: &mut W,
) -> Result<Params, RunErr>
    requires none_out { (S.disk first.old).out ≡ 0 }
    requires second_in { (M.disk second.old).out ≡ 0 }
    ensures none_out { (S.disk first.new).out ≡ 0 }
    ensures second_in { (M.disk second.new).out ≡ 0 }
    ensures head { IfOk result (λ params. (S.disk first.new).tells
        → ring_kind.is_head keys.now params ((S.disk first.new).cells 0)) }
    ensures joined { IfOk result (λ params. AreJoined keys.now params S.disk first.old first.new
        (M.disk second.old) (M.disk second.new) (W.trace watch.old) (W.trace watch.new)) }
    ensures whole { OnOk result ((W.trace watch.new).broken ≡ false) }
    ensures refused { IfErr result (λ err. AreUnjoined keys.now S.disk M.disk first.old first.new
        second.old second.new (W.trace watch.old) (W.trace watch.new) err) }
{
    let params = match head_on(first, keys, watch) {
        Ok(params) => params,
        Err(err) => return Err(err),
    };
    match copy_store(first, second, &params, watch) {
        Ok(()) => {}
        Err(Failed) => return Err(RunErr::Fault(Fault::StoreFault { unsure: None })),
    }
    match still_watched(watch) {
        Ok(()) => Ok(params),
        Err(err) => Err(err),
    }
}

/// Reads the head of the first half, makes the second one from it, and runs the script that comes
/// in over both, under a watch that is whole. Its status is told.
pub fn do_joined<
    'a,
    R: Threads + Wait + Sync,
    S: Lanes + 'a,
    M: Store + 'a,
    T: Tape,
    I: Source,
    O: Sink,
    B: Beat,
    W: Watch,
>(
    rt: &R,
    alloc: Global,
    keys: &Keys,
    first: &mut S,
    second: &mut M,
    room: Room<S::Lane, M::Lane>,
    tape: &mut T,
    input: &mut I,
    output: &mut O,
    beat: &mut B,
    means: Means,
    watch: &mut W,
) -> u8
    requires none_out { (S.disk first.old).out ≡ 0 }
    requires second_in { (M.disk second.old).out ≡ 0 }
    requires unstarted { T.present tape.old ≡ 0 }
    requires lanes { AreFewLanes means.lanes }
    ensures none_out { (S.disk first.new).out ≡ 0 }
    ensures second_in { (M.disk second.new).out ≡ 0 }
    ensures anchors { (W.trace watch.new).anchors ≡ (W.trace watch.old).anchors }
    ensures done { OverBoth ⟦<Mirror<'a, S, M> as Store>⟧.disk (λ m. m.halves.first.now)
        (λ m. m.halves.second.now) S.disk M.disk
        (manner (beat_kind B.passes B.exact) means.threads means.lanes means.shares)
        (outside (inflow I.Source input.old) (outflow O.Sink output.old))
        (outside (inflow I.Source input.new) (outflow O.Sink output.new)) result
        (words_given (T.present tape.new) (T.drawn tape.new)) keys.now first.old first.new
        second.old second.new (W.trace watch.old) (W.trace watch.new) }
{
    match join_on(keys, first, second, watch) {
        Ok(params) => do_over(
            rt, alloc, keys, params, first, second, room, tape, input, output, beat, means, watch,
        ),
        Err(err) => finish_run(output, Err(err)),
    }
}
