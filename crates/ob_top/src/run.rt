//! `run` over a store.

ghost use Rattle.std.specs.Prelude.{◌≡◌, ◌≤◌, ℕ, List, IfOk, IfErr, OnOk, OnErr, MatchBool, MatchResult, None, suc, false, length, map, All, []};
ghost use Rattle.ob_base.specs.declared.params.Params.{Params};
ghost use Rattle.ob_io.specs.Streams.{Flow, inflow, outflow};
ghost use Rattle.ob_store.specs.Calls.{GoesOn};
ghost use Rattle.ob_store.specs.Images.{IsSynced, LeavesOnly};
ghost use Rattle.ob_serial.specs.Vaults.{Standing};
ghost use Rattle.ob_vault.specs.Kinds.{Stands, AllStand, StandsAsBefore};
ghost use Rattle.ob_recover.specs.declared.found.Found.{Found};
ghost use Rattle.ob_vault.specs.RingKind.{GoesOnFrom, RingFound, ring_kind};
ghost use Rattle.ob_vault.specs.RingLives.{ring_lives};
ghost use Rattle.ob_top.specs.Audited.{ring_audits};
ghost use Rattle.ob_vault.specs.RingVaults.{HasPlanned, run_over};
ghost use Rattle.ob_top.specs.Begun.{AreFewLanes, BegunBehindHead, EndsAtHead, FromHeadAndBehind, HasReadHead, RunsOnBegun, MayServe, NotBegun};
ghost use Rattle.ob_desk.specs.Desk.{DeskState, MayOpen, new_desk, setup_with};
ghost use Rattle.ob_desk.specs.Beats.{beat_kind};
ghost use Rattle.ob_script.specs.Script.{AreSound};
ghost use Rattle.ob_runner.specs.Runners.{AreRunners};
ghost use Rattle.ob_runner.specs.RunnerViews.{client_of, bound_of, plan_of, MayHaveMade};
ghost use Rattle.ob_runner.specs.Turns.{IsScriptTurn};
ghost use Rattle.ob_conduct.specs.Scenes.{scene, run_state, runner_kind};
ghost use Rattle.ob_run.specs.Threaded.{RunsBy};
ghost use Rattle.ob_serial.specs.VaultKinds.{kind_of};
ghost use Rattle.ob_top.specs.Runs.{IsInputRefused, LivesUnserved, ServedOver, RunOn};
ghost use Rattle.ob_shares.specs.declared.shares.Shares.{Shares};
ghost use Rattle.ob_shares.specs.Shares.{AreFitting};
ghost use Rattle.ob_top.specs.Parts.{manner, reading_head, CameIn, ShareFits, SharesFit, IsShareRefused};
ghost use Rattle.ob_top.specs.Endings.{err_of};
ghost use Rattle.ob_top.specs.Outside.{words_given, outside};

use crate::endings::still_watched;
use ob_base::{Fault, Field, Memory, Params};
use ob_conduct::RunErr;
use ob_desk::{Beat, Desk};
use ob_io::{ReadErr, Sink, Source, read_all};
use ob_lanes::Lanes;
use ob_opening::{Opening, prepare};
use ob_recover::head;
use ob_run::run;
use ob_runner::{ScriptRunner, runners};
use ob_script::{LIMIT, Scripts, parse};
use ob_seal::{Keys, Tape};
use ob_serial::Vault;
use ob_shares::Shares;
use ob_store::Watch;
use ob_vault::RingVault;
use std::alloc::Global;
use std::sync::Wait;
use std::thread::Threads;

/// How a run goes.
#[derive(Clone, Copy)]
pub struct Means {
    /// The most lanes that share a phase's reads, from 1 to 16.
    pub lanes: u32,
    /// Whether clients have threads of their own.
    pub threads: bool,
    /// How many different keys each client may name in an epoch.
    pub shares: Shares,
}

/// A run of which all is ready: the store's parameters, the script, what makes its clients' calls,
/// and what opening found.
#[derive(Drop)]
pub struct Begun<L> {
    pub params: Params,
    pub scripts: Scripts,
    pub runners: Vec<ScriptRunner>,
    pub opening: Opening<L>,
}

// Whether so many clients may have the share: it isn't 0, and there are places for all of theirs.
fn share_fits(share: Option<u32>, clients: usize, places: u32) -> bool
    ensures { MatchBool result (ShareFits clients places share)
        (ShareFits clients places share → ⊥) }
{
    match share {
        None => true,
        Some(0) => false,
        Some(keys) => (clients as u64).saturating_mul(keys as u64) <= places as u64,
    }
}

// Which of the shares the script's clients may not have: the first one.
fn check_shares(params: &Params, scripts: &Scripts, shares: &Shares) -> Result<(), Field>
    ensures { MatchResult result (λ done. SharesFit params.now scripts.now shares.now)
        (λ field. IsShareRefused params.now scripts.now shares.now field) }
{
    let clients = scripts.clients().len();
    if !share_fits(shares.reads, clients, params.places) {
        return Err(Field::READS);
    }
    if !share_fits(shares.writes, clients, params.writes) {
        return Err(Field::WRITES);
    }
    Ok(())
}

// Reads the script that comes in.
fn read_script<I: Source>(alloc: Global, input: &mut I, keys: u32) -> Result<Scripts, Fault>
    ensures sound { IfOk result (λ scripts. AreSound scripts) }
    ensures came { IfOk result (λ scripts. CameIn keys (inflow I.Source input.old) scripts) }
    ensures refused { IfErr result
        (λ fault. IsInputRefused keys (inflow I.Source input.old) (inflow I.Source input.new)
        fault) }
{
    let bytes = match read_all(alloc, input, LIMIT) {
        Ok(bytes) => bytes,
        Err(ReadErr::Memory) => return Err(Fault::Memory),
        Err(ReadErr::Failed) => return Err(Fault::SourceFault),
    };
    parse(alloc, &bytes, keys)
}

/// Reads the head of a store, and what it says of it. The watch is whole behind that.
///
/// # Errors
/// The head was refused, or the watch broke. The store was only read.
pub fn head_on<S: Lanes, W: Watch>(
    store: &mut S,
    keys: &Keys,
    watch: &mut W,
) -> Result<Params, RunErr>
    ensures out { (S.disk store.new).out ≤ (S.disk store.old).out }
    ensures goes { GoesOn (S.disk store.old) (S.disk store.new) }
    ensures read { IfOk result (λ params. HasReadHead keys.now params (S.disk store.old)
        (S.disk store.new) (W.trace watch.old) (W.trace watch.new)) }
    ensures refused { IfErr result (λ err. (most : ℕ) (shares : Shares) (input : Flow)
        → EndsAtHead keys.now most shares (S.disk store.old) (S.disk store.new)
        (W.trace watch.old) (W.trace watch.new) input input err) }
    ensures lives { (S.disk store.new).tells
        → OnErr result (LivesUnserved S.disk keys.now store.old store.new) }
{
    let params = match head(store, keys, watch) {
        Ok(params) => params,
        Err(fault) => return Err(RunErr::Fault(fault)),
    };
    match still_watched(watch) {
        Ok(()) => Ok(params),
        Err(err) => Err(err),
    }
}

// Reads the script, and then opens the store of which the head was read, for so many lanes and
// clients with these shares. What is told of a run's beginning is told from the head's read on,
// whatever the store and the watch were before it, and behind it.
fn open_on<R: Threads + Sync, S: Lanes, T: Tape, I: Source, W: Watch>(
    rt: &R,
    alloc: Global,
    store: &mut S,
    tape: &mut T,
    keys: &Keys,
    params: Params,
    input: &mut I,
    means: &Means,
    watch: &mut W,
) -> Result<Begun<S::Lane>, RunErr>
    requires none_out { (S.disk store.old).out ≡ 0 }
    requires unstarted { T.present tape.old ≡ 0 }
    requires lanes { AreFewLanes means.now.lanes }
    requires whole { (W.trace watch.old).broken ≡ false }
    requires head { (S.disk store.old).tells
        → ring_kind.is_head keys.now params ((S.disk store.old).cells 0) }
    ensures none_out { (S.disk store.new).out ≡ 0 }
    ensures goes { GoesOn (S.disk store.old) (S.disk store.new) }
    ensures serves { IfOk result (λ begun. MayServe means.now.lanes begun.params (S.disk store.new)
        (T.present tape.new) (T.drawn tape.new) begun.opening) }
    ensures sound { IfOk result (λ begun. AreSound begun.scripts) }
    ensures fits { IfOk result
        (λ begun. SharesFit begun.params begun.scripts means.now.shares) }
    ensures runners { IfOk result (λ begun. AreRunners begun.scripts begun.runners.items) }
    ensures keys { IfOk result (λ begun. begun.scripts.keys ≡ begun.params.keys) }
    ensures begun { IfOk result (λ begun. (f : RingFound)
        × RunsOnBegun keys.now begun.params begun.opening f
        × FromHeadAndBehind S.disk keys.now params store.old (W.trace watch.old)
        (λ head first before. BegunBehindHead S.disk head keys.now means.now.lanes begun.params
        begun.scripts begun.opening.sealer first store.new before (W.trace watch.new)
        (inflow I.Source input.old) f)) }
    ensures refused { IfErr result (λ err. FromHeadAndBehind S.disk keys.now params store.old
        (W.trace watch.old) (λ head first before. NotBegun S.disk head keys.now means.now.lanes
        means.now.shares first store.new before (W.trace watch.new) (inflow I.Source input.old)
        (inflow I.Source input.new) err)) }
{
    let scripts = match read_script(alloc, input, params.keys) {
        Ok(scripts) => scripts,
        Err(fault) => return Err(RunErr::Fault(fault)),
    };
    match check_shares(&params, &scripts, &means.shares) {
        Ok(()) => {}
        Err(field) => return Err(RunErr::Fault(Fault::BadParams { field })),
    }
    let runners = match runners(alloc, &scripts) {
        Ok(runners) => runners,
        Err(Memory) => return Err(RunErr::Fault(Fault::Memory)),
    };
    let lanes = means.lanes as usize;
    match prepare(rt, alloc, store, tape, keys, &params, lanes, watch) {
        Ok(opening) => Ok(Begun {
            params,
            scripts,
            runners,
            opening,
        }),
        Err(fault) => Err(RunErr::Fault(fault)),
    }
}

/// Runs the script's clients over a vault, from a new desk on.
///
/// # Errors
/// What the run met.
pub fn conduct<R: Threads + Wait + Sync, V: Vault, W: Watch, O: Sink, B: Beat>(
    rt: &R,
    alloc: Global,
    params: &Params,
    scripts: &Scripts,
    runners: &mut Vec<ScriptRunner>,
    vault: &mut V,
    watch: &mut W,
    output: &mut O,
    beat: &mut B,
    means: &Means,
) -> Result<(), RunErr>
    requires params { V.params vault.old ≡ params.now }
    requires serves { (V.counts vault.old).spent ≡ false }
    requires whole { (W.trace watch.old).broken ≡ false }
    requires few { (V.counts vault.old).left ≤ params.now.batches }
    requires sound { AreSound scripts.now }
    requires keys { scripts.now.keys ≡ params.now.keys }
    requires runners { AreRunners scripts.now runners.old.items }
    requires fit { AreFitting means.now.shares (length scripts.now.clients) params.now.places
        params.now.writes }
    ensures params { V.params vault.new ≡ params.now }
    ensures anchors { (V.disk vault.new).anchors ≡ (V.disk vault.old).anchors }
    ensures done { (new : DeskState)
        × RunsBy means.now.threads (kind_of V.Vault)
        (runner_kind client_of bound_of plan_of MayHaveMade IsScriptTurn)
        (beat_kind B.passes B.exact)
        (run_state (scene (new_desk (setup_with params.now means.now.shares)
        (suc (V.counts vault.old).epoch) (V.counts vault.old).left scripts.now.clients) vault.old
        (W.trace watch.old)) runners.old.items (outflow O.Sink output.old))
        (run_state (scene new vault.new (W.trace watch.new)) runners.new.items
        (outflow O.Sink output.new)) result }
{
    let desk = match Desk::new(
        alloc,
        params,
        vault.epoch() + 1,
        vault.left(),
        scripts.clients(),
        means.shares,
    ) {
        Ok(desk) => desk,
        Err(Memory) => return Err(RunErr::Fault(Fault::Memory)),
    };
    run(
        rt,
        alloc,
        params,
        desk,
        scripts.clients(),
        runners,
        vault,
        watch,
        beat,
        output,
        means.threads,
    )
}

/// Both are given back as they are.
pub fn hand_back<S, T>(store: &mut S, tape: &mut T)
    ensures store { store.exit.now ≡ store.entry.now }
    ensures tape { tape.exit.now ≡ tape.entry.now }
{}

// Runs the script over the store that was opened.
fn serve_on<R: Threads + Wait + Sync, S: Lanes, T: Tape, O: Sink, B: Beat, W: Watch>(
    rt: &R,
    alloc: Global,
    store: &mut S,
    tape: &mut T,
    keys: &Keys,
    begun: Begun<S::Lane>,
    output: &mut O,
    beat: &mut B,
    means: Means,
    watch: &mut W,
) -> Result<(), RunErr>
    requires none_out { (S.disk store.old).out ≡ 0 }
    requires lanes { AreFewLanes means.lanes }
    requires whole { (W.trace watch.old).broken ≡ false }
    requires serves { MayServe means.lanes begun.params (S.disk store.old) (T.present tape.old)
        (T.drawn tape.old) begun.opening }
    requires sound { AreSound begun.scripts }
    requires runners { AreRunners begun.scripts begun.runners.items }
    requires keys { begun.scripts.keys ≡ begun.params.keys }
    requires fits { SharesFit begun.params begun.scripts means.shares }
    ensures none_out { (S.disk store.new).out ≡ 0 }
    ensures serves { (f : RingFound) (found : Found) → f.run ≡ run_over begun.opening
        → GoesOnFrom keys.now begun.params found f → HasPlanned f.run f.content f.records
        → ServedOver ring_kind ring_lives ring_audits S.disk
        (manner (beat_kind B.passes B.exact) means.threads means.lanes means.shares)
        keys.now begun.params f begun.opening.sealer begun.scripts
        (words_given (T.present tape.new) (T.drawn tape.new)) store.old store.new
        (outflow O.Sink output.old) (outflow O.Sink output.new) (W.trace watch.old)
        (W.trace watch.new) (err_of result) }
{
    let Begun {
        params,
        scripts,
        mut runners,
        opening,
    } = begun;
    let mut vault = RingVault::over(store, tape, opening);
    let ended = conduct(
        rt,
        alloc,
        &params,
        &scripts,
        &mut runners,
        &mut vault,
        watch,
        output,
        beat,
        &means,
    );
    let (store, tape) = vault.into_lent();
    hand_back(store, tape);
    ended
}

/// Runs the script that comes in over a store of which the head was read, and reports each epoch
/// once it has ended. Without `threads` its clients' calls are made by hand, and else in threads of
/// their own. A watch, which is whole, is shown all that the store sees. What is told of a run is
/// told from the head's read on, whatever the store and the watch were before it, and behind it.
///
/// # Errors
/// In this order: the input, the shares of what came in, the opening; then what the run met. Where
/// the watch broke nothing more is begun.
pub fn run_behind_head<
    R: Threads + Wait + Sync,
    S: Lanes,
    T: Tape,
    I: Source,
    O: Sink,
    B: Beat,
    W: Watch,
>(
    rt: &R,
    alloc: Global,
    store: &mut S,
    tape: &mut T,
    keys: &Keys,
    params: Params,
    input: &mut I,
    output: &mut O,
    beat: &mut B,
    means: Means,
    watch: &mut W,
) -> Result<(), RunErr>
    requires none_out { (S.disk store.old).out ≡ 0 }
    requires unstarted { T.present tape.old ≡ 0 }
    requires lanes { AreFewLanes means.lanes }
    requires whole { (W.trace watch.old).broken ≡ false }
    requires head { (S.disk store.old).tells
        → ring_kind.is_head keys.now params ((S.disk store.old).cells 0) }
    ensures goes { GoesOn (S.disk store.old) (S.disk store.new) }
    ensures none_out { (S.disk store.new).out ≡ 0 }
    ensures done { FromHeadAndBehind S.disk keys.now params store.old (W.trace watch.old)
        (λ head first before. RunOn ring_kind ring_lives ring_audits S.disk (reading_head head
        (manner (beat_kind B.passes B.exact) means.threads means.lanes means.shares))
        (words_given (T.present tape.new) (T.drawn tape.new)) keys.now first store.new
        (outside (inflow I.Source input.old) (outflow O.Sink output.old))
        (outside (inflow I.Source input.new) (outflow O.Sink output.new))
        before (W.trace watch.new) (err_of result)) }
{
    let begun = match open_on(rt, alloc, store, tape, keys, params, input, &means, watch) {
        Ok(begun) => begun,
        Err(err) => return Err(err),
    };
    match still_watched(watch) {
        Ok(()) => {}
        Err(err) => return Err(err),
    }
    serve_on(
        rt, alloc, store, tape, keys, begun, output, beat, means, watch,
    )
}

/// Runs the script that comes in over a store, and reports each epoch once it has ended. Without
/// `threads` its clients' calls are made by hand, and else in threads of their own. A watch, which
/// is whole, is shown all that the store sees.
///
/// # Errors
/// In this order: the head, the input, the shares of what came in, the opening; then what the run
/// met. Where the watch broke
/// nothing more is begun.
pub fn run_on<R: Threads + Wait + Sync, S: Lanes, T: Tape, I: Source, O: Sink, B: Beat, W: Watch>(
    rt: &R,
    alloc: Global,
    store: &mut S,
    tape: &mut T,
    keys: &Keys,
    input: &mut I,
    output: &mut O,
    beat: &mut B,
    means: Means,
    watch: &mut W,
) -> Result<(), RunErr>
    requires none_out { (S.disk store.old).out ≡ 0 }
    requires whole { (W.trace watch.old).broken ≡ false }
    requires unstarted { T.present tape.old ≡ 0 }
    requires lanes { AreFewLanes means.lanes }
    ensures goes { GoesOn (S.disk store.old) (S.disk store.new) }
    ensures none_out { (S.disk store.new).out ≡ 0 }
    ensures done { RunOn ring_kind ring_lives ring_audits S.disk
        (manner (beat_kind B.passes B.exact) means.threads means.lanes means.shares)
        (words_given (T.present tape.new) (T.drawn tape.new)) keys.now store.old store.new
        (outside (inflow I.Source input.old) (outflow O.Sink output.old))
        (outside (inflow I.Source input.new) (outflow O.Sink output.new))
        (W.trace watch.old) (W.trace watch.new) (err_of result) }
{
    let params = match head_on(store, keys, watch) {
        Ok(params) => params,
        Err(err) => return Err(err),
    };
    run_behind_head(
        rt, alloc, store, tape, keys, params, input, output, beat, means, watch,
    )
}
