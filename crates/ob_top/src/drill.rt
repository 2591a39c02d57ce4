//! A self-test: many transactions over a store that is made for them, and their map read back.

ghost use Rattle.std.specs.Prelude.{◌≡◌, ◌≤◌, ℕ, List, IfOk, IfErr, IfSome, OnOk, false};
ghost use Rattle.std.specs.FinMap.{empty};
ghost use Rattle.ob_base.specs.Causes.{Rose};
ghost use Rattle.ob_store.specs.Calls.{GoesOn, IsStoreFault};
ghost use Rattle.ob_seal.specs.declared.keys.Keys.{Keys as Secrets};
ghost use Rattle.ob_serial.specs.Vaults.{VaultState};
ghost use Rattle.ob_serial.specs.VaultKinds.{kind_of};
ghost use Rattle.ob_stand.specs.Stands.{Stands};
ghost use Rattle.ob_start.specs.Heads.{numbers_of};
ghost use Rattle.ob_opening.specs.Formats.{formatted_standing};
ghost use Rattle.ob_vault.specs.RingKind.{RingFound};
ghost use Rattle.ob_script.specs.Drill.{drill_script};
ghost use Rattle.ob_runner.specs.Runners.{AreRunners};
ghost use Rattle.ob_desk.specs.Beats.{beat_kind};
ghost use Rattle.ob_outcomes.specs.Served.{IsPatient};
ghost use Rattle.ob_top.specs.Begun.{MayServe};
ghost use Rattle.ob_io.specs.Streams.{Flow, outflow};
ghost use Rattle.ob_top.specs.Drills.{drill_numbers, drill_digest, DrillDone};
ghost use Rattle.ob_top.specs.Outside.{outside, words_given};
ghost use Rattle.ob_top.specs.Drilling.{IsOpenedEmpty, OpensEmpty, IsWant, HasDrilled, DrillFails};
ghost use Rattle.ob_top.specs.SelfTests.{IsDrilled, IsServedAndRead};

use crate::endings::finish;
use crate::run::{Begun, Means, conduct, hand_back};
use ob_bare::{BareStore, Void};
use ob_base::{Failed, Fault, Memory, Params, ring_cells};
use ob_desk::{Beat, Eager};
use ob_drill::{MapDigest, read_map};
use ob_io::Sink;
use ob_lanes::Lanes;
use ob_opening::{format, prepare};
use ob_report::{Summary, drill_lines};
use ob_runner::{ScriptRunner, runners};
use ob_script::{Scripts, drill};
use ob_seal::{ChaChaTape, Keys, Tape};
use ob_serial::Vault;
use ob_shares::NO_SHARES;
use ob_store::Blind;
use ob_vault::RingVault;
use std::sync::Wait;
use std::thread::Threads;

/// What a self-test came to.
#[derive(Clone, Copy)]
pub struct Drilled {
    /// The last epoch that was durable when all transactions were served.
    pub epochs: u64,
    /// The map that they left.
    pub digest: MapDigest,
}

// How many lanes may read at once.
const LANES: usize = 4;

// The parameters of the store of a self-test.
fn drill_params() -> Params
    ensures { numbers_of result ≡ drill_numbers }
{
    let Ok(params) = Params::new(256, 8, 4, 6, 4, 4, 8, 8, 256) else {
        unreachable!()
    };
    params
}

// Opens a store that was just formatted, for so many transactions.
fn ready<R: AllocGlobal + Threads + Sync, S: Lanes, T: Tape>(
    rt: &R,
    count: u32,
    store: &mut S,
    tape: &mut T,
    keys: &Keys,
    params: &Params,
) -> Result<Begun<S::Lane>, Fault>
    requires tells { (S.disk store.old).tells }
    requires none_out { (S.disk store.old).out ≡ 0 }
    requires unstarted { T.present tape.old ≡ 0 }
    requires numbers { numbers_of params.now ≡ drill_numbers }
    requires stands { (words : List ℕ) × Stands keys.now params.now
        (formatted_standing params.now words) (S.disk store.old).cells }
    ensures goes { GoesOn (S.disk store.old) (S.disk store.new) }
    ensures none_out { (S.disk store.new).out ≡ 0 }
    ensures tells { OnOk result (S.disk store.new).tells }
    ensures params { IfOk result (λ begun. begun.params ≡ params.now) }
    ensures script { IfOk result (λ begun. begun.scripts ≡ drill_script count) }
    ensures runners { IfOk result (λ begun. AreRunners begun.scripts begun.runners.items) }
    ensures serves { IfOk result (λ begun. MayServe 4 begun.params (S.disk store.new)
        (T.present tape.new) (T.drawn tape.new) begun.opening) }
    ensures ready { IfOk result (λ begun. (f : RingFound) × OpensEmpty keys.now params.now
        (S.disk store.old) (S.disk store.new) f begun.opening) }
    ensures refused { IfErr result (λ fault. IsWant (S.disk store.old) (S.disk store.new) fault) }
{
    let scripts = match drill(rt.alloc(), count) {
        Ok(scripts) => scripts,
        Err(Memory) => return Err(Fault::Memory),
    };
    let runners = match runners(rt.alloc(), &scripts) {
        Ok(runners) => runners,
        Err(Memory) => return Err(Fault::Memory),
    };
    let opening = match prepare(rt, rt.alloc(), store, tape, keys, params, LANES, &mut Blind) {
        Ok(opening) => opening,
        Err(fault) => return Err(fault),
    };
    Ok(Begun {
        params: *params,
        scripts,
        runners,
        opening,
    })
}

// Runs the script over a vault, by threads, and then reads the map that the vault holds.
fn drill_vault<R: AllocGlobal + Threads + Wait + Sync, V: Vault, B: Beat>(
    rt: &R,
    params: &Params,
    scripts: &Scripts,
    runners: &mut Vec<ScriptRunner>,
    vault: &mut V,
    beat: &mut B,
) -> Result<Drilled, Fault>
    requires params { V.params vault.old ≡ params.now }
    requires numbers { numbers_of params.now ≡ drill_numbers }
    requires script { (n : ℕ) × (n ≤ 10000) × (scripts.now ≡ drill_script n) }
    requires runners { AreRunners scripts.now runners.old.items }
    requires left { (V.counts vault.old).left ≡ params.now.batches }
    requires begins { (V.counts vault.old).epoch ≡ 0 }
    requires held { (v : VaultState) × V.holds vault.old v × (v.spent ≡ false)
        × (v.content ≡ empty) }
    ensures anchors { (V.disk vault.new).anchors ≡ (V.disk vault.old).anchors }
    ensures drilled { IfOk result (λ d. HasDrilled (kind_of V.Vault) V.counts
        (beat_kind B.passes B.exact) params.now scripts.now runners.old.items vault.old
        vault.new d) }
    ensures epochs { (n : ℕ) → scripts.now ≡ drill_script n → n ≤ 10000
        → IsPatient (beat_kind B.passes B.exact) → IfOk result (λ d. d.epochs ≡ n) }
    ensures digest { (n : ℕ) → scripts.now ≡ drill_script n → n ≤ 10000
        → IsPatient (beat_kind B.passes B.exact)
        → IfOk result (λ d. d.digest ≡ drill_digest n) }
    ensures goes { GoesOn (V.disk vault.old) (V.disk vault.new) }
    ensures cause { IfErr result (λ fault. IsStoreFault fault
        → Rose (V.disk vault.old).faults (V.disk vault.new).faults) }
    ensures refused { IfErr result (λ fault. DrillFails (kind_of V.Vault) V.counts
        (beat_kind B.passes B.exact) params.now scripts.now runners.old.items vault.old
        vault.new fault) }
{
    match conduct(
        rt,
        rt.alloc(),
        params,
        scripts,
        runners,
        vault,
        &mut Blind,
        &mut Void,
        beat,
        &Means {
            lanes: LANES as u32,
            threads: true,
            shares: NO_SHARES,
        },
    ) {
        Ok(()) => {}
        Err(err) => return Err(err.fault()),
    }
    let epochs = vault.epoch();
    match read_map(rt, rt.alloc(), params, vault, &mut Blind) {
        Ok(digest) => Ok(Drilled { epochs, digest }),
        Err(fault) => Err(fault),
    }
}

// Serves the script over the store that was opened, and reads the map that it then holds.
fn drill_over<R: AllocGlobal + Threads + Wait + Sync, S: Lanes, T: Tape, B: Beat>(
    rt: &R,
    store: &mut S,
    tape: &mut T,
    begun: Begun<S::Lane>,
    beat: &mut B,
) -> Result<Drilled, Fault>
    requires tells { (S.disk store.old).tells }
    requires none_out { (S.disk store.old).out ≡ 0 }
    requires serves { MayServe 4 begun.params (S.disk store.old) (T.present tape.old)
        (T.drawn tape.old) begun.opening }
    requires numbers { numbers_of begun.params ≡ drill_numbers }
    requires script { (n : ℕ) × (n ≤ 10000) × (begun.scripts ≡ drill_script n) }
    requires runners { AreRunners begun.scripts begun.runners.items }
    requires ready { (keys : Secrets) × (f : RingFound)
        × IsOpenedEmpty keys begun.params (S.disk store.old) f begun.opening }
    ensures goes { GoesOn (S.disk store.old) (S.disk store.new) }
    ensures none_out { (S.disk store.new).out ≡ 0 }
    ensures epochs { (n : ℕ) → begun.scripts ≡ drill_script n → n ≤ 10000
        → IsPatient (beat_kind B.passes B.exact) → IfOk result (λ d. d.epochs ≡ n) }
    ensures digest { (n : ℕ) → begun.scripts ≡ drill_script n → n ≤ 10000
        → IsPatient (beat_kind B.passes B.exact)
        → IfOk result (λ d. d.digest ≡ drill_digest n) }
    ensures drilled { (keys : Secrets) (f : RingFound) (n : ℕ)
        → IsOpenedEmpty keys begun.params (S.disk store.old) f begun.opening
        → begun.scripts ≡ drill_script n → n ≤ 10000
        → IfOk result (λ d. IsServedAndRead S.disk (beat_kind B.passes B.exact) keys begun.params n
        f store.old store.new) }
    ensures refused { IfErr result (λ fault. IsWant (S.disk store.old) (S.disk store.new) fault) }
{
    let Begun {
        params,
        scripts,
        mut runners,
        opening,
    } = begun;
    let mut vault = RingVault::over(store, tape, opening);
    let drilled = drill_vault(rt, &params, &scripts, &mut runners, &mut vault, beat);
    let (store, tape) = vault.into_lent();
    hand_back(store, tape);
    drilled
}

/// Makes an empty store, runs the self-test's script of so many transactions over it, and reads
/// the map that these left. `made` gives the words of the format and `tape` those of the run;
/// neither was started.
///
/// # Errors
/// Memory was wanting; or the store failed, and its count of faults rose.
pub fn drill_on<R: AllocGlobal + Threads + Wait + Sync, S: Lanes, T: Tape, B: Beat>(
    rt: &R,
    count: u32,
    store: &mut S,
    made: &mut T,
    tape: &mut T,
    beat: &mut B,
) -> Result<Drilled, Fault>
    requires few { count ≤ 10000 }
    requires tells { (S.disk store.old).tells }
    requires none_out { (S.disk store.old).out ≡ 0 }
    requires unstarted { T.present made.old ≡ 0 }
    requires not_begun { T.present tape.old ≡ 0 }
    ensures goes { GoesOn (S.disk store.old) (S.disk store.new) }
    ensures none_out { (S.disk store.new).out ≡ 0 }
    // An empty store was made, opened, served and read. Each transaction is committed, in an epoch
    // of its own, as the records of its run tell; and the map is what they come to.
    ensures drilled { IfOk result (λ d. IsDrilled S.disk (beat_kind B.passes B.exact) count
        (words_given (T.present made.new) (T.drawn made.new)) store.old store.new) }
    ensures epochs { IsPatient (beat_kind B.passes B.exact)
        → IfOk result (λ d. d.epochs ≡ count) }
    ensures digest { IsPatient (beat_kind B.passes B.exact)
        → IfOk result (λ d. d.digest ≡ drill_digest count) }
    // It is refused for want of memory, or by its store, and then its count rose.
    ensures refused { IfErr result (λ fault. IsWant (S.disk store.old) (S.disk store.new) fault) }
{
    let params = drill_params();
    let keys = Keys::from_bytes(&[0; 96]);
    match format(rt, rt.alloc(), store, made, &keys, &params, &mut Blind) {
        Ok(()) => {}
        Err(fault) => return Err(fault),
    }
    let begun = match ready(rt, count, store, tape, &keys, &params) {
        Ok(begun) => begun,
        Err(fault) => return Err(fault),
    };
    drill_over(rt, store, tape, begun, beat)
}

// Makes a self-test over a store in memory. None where memory was wanting.
fn drill_in_memory<R: AllocGlobal + Threads + Wait + Sync>(rt: &R, count: u32) -> Option<Drilled>
    requires few { count ≤ 10000 }
    ensures epochs { IfSome result (λ d. d.epochs ≡ count) }
    ensures digest { IfSome result (λ d. d.digest ≡ drill_digest count) }
{
    let cells = ring_cells(&drill_params()) as usize;
    let Ok(mut store) = BareStore::new(rt.alloc(), cells) else {
        return None;
    };
    let mut made = ChaChaTape::new(&[0; 32]);
    let mut tape = ChaChaTape::new(&[0; 32]);
    match drill_on(rt, count, &mut store, &mut made, &mut tape, &mut Eager) {
        Ok(drilled) => Some(drilled),
        // The store fails only where it has no cell, and that it has is a matter of memory.
        Err(_) => None,
    }
}

/// Makes a self-test of so many transactions, prints its summary, and answers the status: 0, or 7
/// where the output failed, or 9 for want of memory.
pub fn drill_told<R: AllocGlobal + Threads + Wait + Sync, O: Sink>(
    rt: &R,
    count: u32,
    output: &mut O,
) -> u8
    requires few { count ≤ 10000 }
    ensures { (input : Flow) → DrillDone count (outside input (outflow O.Sink output.old))
        (outside input (outflow O.Sink output.new)) result }
{
    let Some(drilled) = drill_in_memory(rt, count) else {
        return finish(output, Err(Fault::Memory));
    };
    let Drilled { epochs, digest } = drilled;
    let map = digest.map;
    let summary = Summary {
        count,
        epochs,
        committed: count as u64,
        keys: digest.keys,
        map,
    };
    match drill_lines(&summary, output) {
        Ok(()) => 0,
        Err(Failed) => finish(output, Err(Fault::SinkFault)),
    }
}
