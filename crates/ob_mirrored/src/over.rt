//! A script is run over a mirror.

ghost use Rattle.std.specs.Prelude.{◌≡◌, false};
ghost use Rattle.ob_io.specs.Streams.{inflow, outflow};
ghost use Rattle.ob_desk.specs.Beats.{beat_kind};
ghost use Rattle.ob_vault.specs.RingKind.{ring_kind};
ghost use Rattle.ob_top.specs.Begun.{AreFewLanes};
ghost use Rattle.ob_top.specs.Outside.{outside, words_given};
ghost use Rattle.ob_top.specs.Parts.{manner};
ghost use Rattle.ob_mirrored.specs.Over.{IsDoneOver};

use ob_base::Params;
use ob_desk::Beat;
use ob_io::{Sink, Source};
use ob_lanes::Lanes;
use ob_mirror::{Mirror, Places};
use ob_seal::{Keys, Tape};
use ob_store::{Store, Watch};
use ob_top::{Means, finish_run, run_behind_head};
use std::alloc::Global;
use std::sync::Wait;
use std::thread::Threads;

/// Room for a mirror of two stores with such lanes, and places for their hands. By a value of this
/// type its size is known.
#[derive(Drop)]
pub struct Room<L, M> {
    halves: [u64; 4],
    places: Places<L, M>,
}

impl<L, M> Room<L, M> {
    /// Room, and places with no hand.
    pub fn new() -> Room<L, M> {
        Room {
            halves: [0; 4],
            places: Places::new(),
        }
    }
}

// Both are given back as they are.
fn hand_back<A, B>(first: &mut A, second: &mut B)
    ensures first { first.exit.now ≡ first.entry.now }
    ensures second { second.exit.now ≡ second.entry.now }
{}

/// Runs the script that comes in over a mirror of both, of which the head was read. Its status is
/// told.
pub fn do_over<
    'a,
    R: Threads + Wait + Sync,
    S: Lanes + 'a,
    M: Store + 'a,
    T: Tape,
    I: Source,
    O: Sink,
    B: Beat,
    W: Watch,
>(
    rt: &R,
    alloc: Global,
    keys: &Keys,
    params: Params,
    first: &mut S,
    second: &mut M,
    room: Room<S::Lane, M::Lane>,
    tape: &mut T,
    input: &mut I,
    output: &mut O,
    beat: &mut B,
    means: Means,
    watch: &mut W,
) -> u8
    requires none_out { (S.disk first.old).out ≡ 0 }
    requires second_in { (M.disk second.old).out ≡ 0 }
    requires unstarted { T.present tape.old ≡ 0 }
    requires lanes { AreFewLanes means.lanes }
    requires whole { (W.trace watch.old).broken ≡ false }
    requires head { (S.disk first.old).tells
        → ring_kind.is_head keys.now params ((S.disk first.old).cells 0) }
    ensures none_out { (S.disk first.new).out ≡ 0 }
    ensures second_in { (M.disk second.new).out ≡ 0 }
    ensures done { IsDoneOver ⟦<Mirror<'a, S, M> as Store>⟧.disk (λ m. m.halves.first.now)
        (λ m. m.halves.second.now) S.disk M.disk
        (manner (beat_kind B.passes B.exact) means.threads means.lanes means.shares)
        (outside (inflow I.Source input.old) (outflow O.Sink output.old))
        (outside (inflow I.Source input.new) (outflow O.Sink output.new)) result
        (words_given (T.present tape.new) (T.drawn tape.new)) keys.now first.old first.new
        second.old second.new (W.trace watch.old) (W.trace watch.new) }
{
    let Room { places, .. } = room;
    let mut mirror = Mirror::over(first, second, places);
    let ended = run_behind_head(
        rt,
        alloc,
        &mut mirror,
        tape,
        keys,
        params,
        input,
        output,
        beat,
        means,
        watch,
    );
    let (first, second) = mirror.into_lent();
    hand_back(first, second);
    finish_run(output, ended)
}
