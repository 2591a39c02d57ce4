//! The top call with a second store.

ghost use Rattle.std.specs.Prelude.{◌≡◌, true, not, map, MatchBool, Some};
ghost use Rattle.ob_base.specs.declared.fault.Fault.{Fault};
ghost use Rattle.ob_io.specs.Streams.{inflow, outflow};
ghost use Rattle.ob_desk.specs.Beats.{beat_kind};
ghost use Rattle.ob_top.specs.Begun.{AreFewLanes};
ghost use Rattle.ob_top.specs.Outside.{IsFinished, NoneOut, outside, words_given};
ghost use Rattle.ob_top.specs.Parts.{manner};
ghost use Rattle.ob_mirrored.specs.Mirrored.{AloneDoes, IsToldWithout, LacksTrace, MirrorDoes, MirroredDoes, SecondIn, SecondStays, StoreStays, UnderTrace, left_behind};

use crate::asked::{MirrorRun, mirror_asked};
use crate::joined::do_joined;
use crate::over::Room;
use ob_bare::BareStore;
use ob_base::{Fault, Memory};
use ob_conduct::RunErr;
use ob_desk::Beat;
use ob_io::{Sink, Source};
use ob_lanes::Lanes;
use ob_mirror::Mirror;
use ob_seal::{Keys, Tape};
use ob_store::{Blind, SinkWatch, Start, Store, Watch};
use ob_top::{Means, finish, finish_run, obladi};
use ob_words::keys_of;
use std::alloc::Global;
use std::sync::Wait;
use std::thread::Threads;

// Joins both and runs over them under a watch of the trace, whose first line tells of the mirror.
fn do_traced<
    'a,
    R: Threads + Wait + Sync,
    S: Lanes + 'a,
    M: Store + 'a,
    T: Tape,
    I: Source,
    O: Sink,
    B: Beat,
    W: Sink,
>(
    rt: &R,
    alloc: Global,
    keys: &Keys,
    first: &mut S,
    second: &mut M,
    room: Room<S::Lane, M::Lane>,
    tape: &mut T,
    input: &mut I,
    output: &mut O,
    trace: &mut Option<W>,
    beat: &mut B,
    means: Means,
) -> u8
    requires none_out { (S.disk first.old).out ≡ 0 }
    requires second_in { (M.disk second.old).out ≡ 0 }
    requires unstarted { T.present tape.old ≡ 0 }
    requires lanes { AreFewLanes means.lanes }
    ensures none_out { (S.disk first.new).out ≡ 0 }
    ensures second_in { (M.disk second.new).out ≡ 0 }
    ensures done { (LacksTrace trace.old true → ⊥)
        → UnderTrace ⟦<Mirror<'a, S, M> as Store>⟧.disk (λ m. m.halves.first.now)
        (λ m. m.halves.second.now) S.disk M.disk (λ w. outflow W.Sink w) trace.old trace.new
        (outside (inflow I.Source input.old) (outflow O.Sink output.old))
        (outside (inflow I.Source input.new) (outflow O.Sink output.new)) result
        (words_given (T.present tape.new) (T.drawn tape.new)) true
        (manner (beat_kind B.passes B.exact) means.threads means.lanes means.shares) keys.now
        first.old first.new second.old second.new }
{
    let Some(sink) = trace else {
        return finish_run(output, Err(RunErr::Unwatched));
    };
    let mut watch = SinkWatch::new(sink);
    watch.start(&Start::Run { mirrored: true });
    if watch.broken() {
        return finish_run(output, Err(RunErr::Unwatched));
    }
    do_joined(
        rt, alloc, keys, first, second, room, tape, input, output, beat, means, &mut watch,
    )
}

// Joins both and runs over them, with a trace or without one.
fn do_both<
    'a,
    R: Threads + Wait + Sync,
    S: Lanes + 'a,
    M: Store + 'a,
    T: Tape,
    I: Source,
    O: Sink,
    B: Beat,
    W: Sink,
>(
    rt: &R,
    alloc: Global,
    traced: bool,
    keys: &Keys,
    first: &mut S,
    second: &mut M,
    room: Room<S::Lane, M::Lane>,
    tape: &mut T,
    input: &mut I,
    output: &mut O,
    trace: &mut Option<W>,
    beat: &mut B,
    means: Means,
) -> u8
    requires none_out { (S.disk first.old).out ≡ 0 }
    requires second_in { (M.disk second.old).out ≡ 0 }
    requires unstarted { T.present tape.old ≡ 0 }
    requires lanes { AreFewLanes means.lanes }
    ensures none_out { (S.disk first.new).out ≡ 0 }
    ensures second_in { (M.disk second.new).out ≡ 0 }
    ensures done { (LacksTrace trace.old traced → ⊥)
        → UnderTrace ⟦<Mirror<'a, S, M> as Store>⟧.disk (λ m. m.halves.first.now)
        (λ m. m.halves.second.now) S.disk M.disk (λ w. outflow W.Sink w) trace.old trace.new
        (outside (inflow I.Source input.old) (outflow O.Sink output.old))
        (outside (inflow I.Source input.new) (outflow O.Sink output.new)) result
        (words_given (T.present tape.new) (T.drawn tape.new)) traced
        (manner (beat_kind B.passes B.exact) means.threads means.lanes means.shares) keys.now
        first.old first.new second.old second.new }
{
    if traced {
        return do_traced(
            rt, alloc, keys, first, second, room, tape, input, output, trace, beat, means,
        );
    }
    do_joined(
        rt, alloc, keys, first, second, room, tape, input, output, beat, means, &mut Blind,
    )
}

// Whether a trace is asked for and wasn't handed in.
fn lacks_trace<W>(traced: bool, trace: &Option<W>) -> bool
    ensures { MatchBool result (LacksTrace trace.now traced) (LacksTrace trace.now traced → ⊥) }
{
    if !traced {
        return false;
    }
    match trace {
        Some(_) => false,
        None => true,
    }
}

// Runs over a mirror of a store and the second one, if there is one, and where a trace is asked for
// there is one too.
fn do_with_first<
    'a,
    R: Threads + Wait + Sync,
    S: Lanes + 'a,
    M: Store + 'a,
    T: Tape,
    I: Source,
    O: Sink,
    B: Beat,
    W: Sink,
>(
    rt: &R,
    alloc: Global,
    run: MirrorRun,
    text: Option<&[u8]>,
    first: &mut S,
    mirror: &mut Option<M>,
    room: Room<S::Lane, M::Lane>,
    tape: &mut T,
    input: &mut I,
    output: &mut O,
    trace: &mut Option<W>,
    beat: &mut B,
) -> u8
    requires none_out { (S.disk first.old).out ≡ 0 }
    requires second_in { SecondIn M.disk mirror.old }
    requires unstarted { T.present tape.old ≡ 0 }
    requires lanes { AreFewLanes run.lanes }
    ensures none_out { (S.disk first.new).out ≡ 0 }
    ensures second_stays { SecondStays M.disk mirror.old mirror.new }
    ensures done { MirrorDoes ⟦<Mirror<'a, S, M> as Store>⟧.disk (λ m. m.halves.first.now)
        (λ m. m.halves.second.now) S.disk M.disk (λ w. outflow W.Sink w) text.entry
        (Some first.entry) (left_behind first.exit) mirror.old mirror.new trace.old trace.new
        (outside (inflow I.Source input.old) (outflow O.Sink output.old))
        (outside (inflow I.Source input.new) (outflow O.Sink output.new)) result
        (words_given (T.present tape.new) (T.drawn tape.new)) run.traced
        (manner (beat_kind B.passes B.exact) (not run.turns) run.lanes run.shares) }
{
    let keys = match keys_of(text) {
        Ok(keys) => keys,
        Err(fault) => return finish(output, Err(fault)),
    };
    let means = Means {
        lanes: run.lanes,
        threads: !run.turns,
        shares: run.shares,
    };
    if lacks_trace(run.traced, trace) {
        return finish_run(output, Err(RunErr::Unwatched));
    }
    match mirror {
        Some(second) => do_both(
            rt, alloc, run.traced, &keys, first, second, room, tape, input, output, trace, beat,
            means,
        ),
        None => finish(output, Err(Fault::StoreFault { unsure: None })),
    }
}

// Tells why nothing is run over a mirror without a store.
fn tell_without<O: Sink>(text: Option<&[u8]>, output: &mut O) -> u8
    ensures { (fault : Fault) × IsToldWithout text.entry fault
        × IsFinished (outflow O.Sink output.old) (outflow O.Sink output.new) (Some fault) result }
{
    match keys_of(text) {
        Ok(_) => finish(output, Err(Fault::StoreFault { unsure: None })),
        Err(fault) => finish(output, Err(fault)),
    }
}

// Does what the words ask for, with a store.
fn do_with<
    'a,
    R: AllocGlobal + Threads + Wait + Sync,
    S: Lanes + 'a,
    M: Store + 'a,
    T: Tape,
    I: Source,
    O: Sink,
    B: Beat,
    W: Sink,
>(
    rt: &R,
    words: &[&str],
    text: Option<&[u8]>,
    first: &mut S,
    mirror: &mut Option<M>,
    room: Room<S::Lane, M::Lane>,
    tape: &mut T,
    input: &mut I,
    output: &mut O,
    trace: &mut Option<W>,
    beat: &mut B,
) -> u8
    requires none_out { (S.disk first.old).out ≡ 0 }
    requires second_in { SecondIn M.disk mirror.old }
    requires unstarted { T.present tape.old ≡ 0 }
    ensures none_out { (S.disk first.new).out ≡ 0 }
    ensures second_stays { SecondStays M.disk mirror.old mirror.new }
    ensures alone { AloneDoes S.disk (λ w. outflow W.Sink w) (beat_kind B.passes B.exact)
        (map (λ w. w.now) words.entry.now) text.entry (Some first.entry) (left_behind first.exit)
        mirror.old mirror.new trace.old trace.new
        (outside (inflow I.Source input.old) (outflow O.Sink output.old))
        (outside (inflow I.Source input.new) (outflow O.Sink output.new)) result
        (words_given (T.present tape.new) (T.drawn tape.new)) }
    ensures mirrored { MirroredDoes ⟦<Mirror<'a, S, M> as Store>⟧.disk (λ m. m.halves.first.now)
        (λ m. m.halves.second.now) S.disk M.disk (λ w. outflow W.Sink w) text.entry
        (Some first.entry) (left_behind first.exit) mirror.old mirror.new trace.old trace.new
        (outside (inflow I.Source input.old) (outflow O.Sink output.old))
        (outside (inflow I.Source input.new) (outflow O.Sink output.new)) result
        (words_given (T.present tape.new) (T.drawn tape.new)) (beat_kind B.passes B.exact)
        (map (λ w. w.now) words.entry.now) }
{
    let asked = match mirror_asked(rt.alloc(), words) {
        Ok(asked) => asked,
        Err(Memory) => return finish(output, Err(Fault::Memory)),
    };
    match asked {
        Some(run) => do_with_first(
            rt,
            rt.alloc(),
            run,
            text,
            first,
            mirror,
            room,
            tape,
            input,
            output,
            trace,
            beat,
        ),
        None => obladi(
            rt,
            words,
            text,
            Some(first),
            tape,
            input,
            output,
            trace,
            beat,
        ),
    }
}

/// The top call with a second store, which `--mirror` names: `mirror` is that store, or none where
/// it wasn't opened. Where the words ask for no mirror it is left as it is, and all is done that
/// `obladi` does. A run with a mirror first reads the head of the store, then the register of the
/// epoch, and copies all its cells to the second one, whatever that had; from then on each write and
/// sync goes to both, and a read that the first refuses is made of the second. With `--trace` each
/// read of the first up to the copy's end, and then each call of both as one, is written there, behind
/// a first line that tells of the mirror.
///
/// The status is that of `obladi`. Before anything is touched `fault: store` and 5 stand where
/// either store is missing, behind what is wrong with the words and the keys, and for the second one
/// behind a trace that is asked for and missing; and so they do where the copy failed. Behind the copy
/// they stand only where a call of both as one was refused: a read of the first that the second
/// served is no cause.
pub fn obladi_mirrored<
    'a,
    R: AllocGlobal + Threads + Wait + Sync,
    S: Lanes + 'a,
    M: Store + 'a,
    T: Tape,
    I: Source,
    O: Sink,
    B: Beat,
    W: Sink,
>(
    rt: &R,
    words: &[&str],
    text: Option<&[u8]>,
    store: Option<&mut S>,
    mirror: &mut Option<M>,
    room: Room<S::Lane, M::Lane>,
    tape: &mut T,
    input: &mut I,
    output: &mut O,
    trace: &mut Option<W>,
    beat: &mut B,
) -> u8
    requires none_out { NoneOut S.disk store }
    requires second_in { SecondIn M.disk mirror.old }
    requires unstarted { T.present tape.old ≡ 0 }
    // Both can be handed in again.
    ensures stays { StoreStays S.disk store.entry store.exit }
    ensures second_stays { SecondStays M.disk mirror.old mirror.new }
    ensures alone { AloneDoes S.disk (λ w. outflow W.Sink w) (beat_kind B.passes B.exact)
        (map (λ w. w.now) words.entry.now) text.entry store.entry store.exit mirror.old mirror.new
        trace.old trace.new
        (outside (inflow I.Source input.old) (outflow O.Sink output.old))
        (outside (inflow I.Source input.new) (outflow O.Sink output.new)) result
        (words_given (T.present tape.new) (T.drawn tape.new)) }
    ensures mirrored { MirroredDoes ⟦<Mirror<'a, S, M> as Store>⟧.disk (λ m. m.halves.first.now)
        (λ m. m.halves.second.now) S.disk M.disk (λ w. outflow W.Sink w) text.entry store.entry
        store.exit mirror.old mirror.new trace.old trace.new
        (outside (inflow I.Source input.old) (outflow O.Sink output.old))
        (outside (inflow I.Source input.new) (outflow O.Sink output.new)) result
        (words_given (T.present tape.new) (T.drawn tape.new)) (beat_kind B.passes B.exact)
        (map (λ w. w.now) words.entry.now) }
{
    match store {
        Some(first) => do_with(
            rt, words, text, first, mirror, room, tape, input, output, trace, beat,
        ),
        None => match mirror_asked(rt.alloc(), words) {
            Ok(asked) => match asked {
                Some(_) => tell_without(text, output),
                None => obladi(
                    rt,
                    words,
                    text,
                    None::<&mut BareStore>,
                    tape,
                    input,
                    output,
                    trace,
                    beat,
                ),
            },
            Err(Memory) => finish(output, Err(Fault::Memory)),
        },
    }
}
