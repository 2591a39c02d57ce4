//! A run over a ring store: its opening, and steps one behind the other.

ghost use Rattle.std.specs.Prelude.{◌≡◌, ◌<◌, ◌≤◌, ◌∷◌, [], length, IfOk, IfSome, OnOk, None};
ghost use Rattle.ob_ring_tests.specs.Serving.{AreFitWrites, IsServing};

use crate::small::test_keys;
use ob_base::{Fault, Key, Params, Value, Write};
use ob_cells::{Bench, Crew};
use ob_end::end;
use ob_fetch::{Run, fetch};
use ob_lanes::Lanes;
use ob_opening::{Opening, prepare};
use ob_ring::Index;
use ob_seal::Tape;
use ob_serial::EndErr;
use ob_store::Watch;
use std::alloc::Global;
use std::thread::Threads;

// A key and the value that it gets.
#[derive(Clone, Copy)]
pub struct Put {
    pub key: Key,
    pub text: &'static [u8],
}

// A batch whose first place asks for a key, or for none, or the end of an epoch with these puts.
#[derive(Clone, Copy)]
pub enum Step {
    Ask(Option<Key>),
    End(&'static [Put]),
}

/// A store's parameters, how many lanes read it, and the steps that a run takes.
#[derive(Clone, Copy)]
pub struct Plan<'a> {
    pub params: &'a Params,
    pub lanes: usize,
    pub steps: &'a [Step],
}

// How a run went: all its steps, with the last epoch that ended and the batches that are left; or
// which call was refused.
#[derive(Clone, Copy, PartialEq)]
pub enum Told {
    Done { epoch: u64, left: u32 },
    Opening(Fault),
    Fetch(Fault),
    Before(Fault),
    Unsure(Fault),
    Misuse,
}

// How a run went, and the last value that an asked key had.
#[derive(Clone, Copy)]
pub struct Outcome {
    pub told: Told,
    pub found: Option<Value>,
}

// A run, what reads its jobs, where its cells are sealed, and room for what its ends count.
#[derive(Drop)]
struct Serving<L> {
    run: Run,
    crew: Crew<L>,
    bench: Bench,
    index: Index,
}

// Opens a store for a run.
fn open_run<S: Lanes, R: Threads + Sync, T: Tape, W: Watch>(
    rt: &R,
    alloc: Global,
    store: &mut S,
    tape: &mut T,
    plan: &Plan,
    watch: &mut W,
) -> Result<Serving<S::Lane>, Fault>
    requires none_out { (S.disk store.old).out ≡ 0 }
    requires unstarted { T.present tape.old ≡ 0 }
    requires lanes { (1 ≤ plan.now.lanes) × (plan.now.lanes ≤ 16) }
    ensures out { (S.disk store.new).out ≤ (S.disk store.old).out }
    ensures serving { IfOk result (λ s. IsServing (S.disk store.new) (T.present tape.new)
        (T.drawn tape.new) s.run s.crew s.index) }
{
    let (p, lanes) = (plan.params, plan.lanes);
    let Opening {
        params,
        gates,
        sealer,
        epoch,
        left,
        ring,
        jobs,
        crew,
        bench,
        sheet,
        words,
        index,
    } = match prepare(rt, alloc, store, tape, &test_keys(), p, lanes, watch) {
        Ok(opening) => opening,
        Err(fault) => return Err(fault),
    };
    let run = Run {
        params,
        gates,
        sealer,
        drawn: 0,
        epoch,
        left,
        spent: false,
        ring,
        jobs,
        sheet,
        words,
    };
    Ok(Serving {
        run,
        crew,
        bench,
        index,
    })
}

// The asks of a batch of at most two places.
fn asks_of(key: Option<Key>) -> [Option<Key>; 2]
    ensures { result ≡ key ∷ None ∷ [] }
{
    [key, None]
}

// Fetches a batch whose first place asks for this key.
fn ask<S: Lanes, R: Threads + Sync, T: Tape, W: Watch>(
    rt: &R,
    store: &mut S,
    tape: &mut T,
    serving: &mut Serving<S::Lane>,
    key: Option<Key>,
    watch: &mut W,
) -> Result<Option<Value>, Told>
    requires serving { IsServing (S.disk store.old) (T.present tape.old) (T.drawn tape.old)
        serving.old.run serving.old.crew serving.old.index }
    requires some_left { 0 < serving.old.run.left }
    requires few { serving.old.run.params.places ≤ 2 }
    requires low { IfSome key (λ k. k < serving.old.run.params.keys) }
    ensures out { (S.disk store.new).out ≤ (S.disk store.old).out }
    ensures serving { OnOk result (IsServing (S.disk store.new) (T.present tape.new)
        (T.drawn tape.new) serving.new.run serving.new.crew serving.new.index) }
{
    let asks = asks_of(key);
    let mut out: [Option<Value>; 2] = [None; 2];
    let places = serving.run.params.places as usize;
    match fetch(
        rt,
        store,
        tape,
        &mut serving.crew,
        &mut serving.run,
        &asks[..places],
        &mut out[..places],
        watch,
    ) {
        Ok(()) => Ok(out[0]),
        Err(fault) => Err(Told::Fetch(fault)),
    }
}

// Ends the epoch with these writes.
fn end_with<S: Lanes, R: Threads + Sync, T: Tape, W: Watch>(
    rt: &R,
    store: &mut S,
    tape: &mut T,
    serving: &mut Serving<S::Lane>,
    writes: &[Write],
    watch: &mut W,
) -> Result<Option<Value>, Told>
    requires serving { IsServing (S.disk store.old) (T.present tape.old) (T.drawn tape.old)
        serving.old.run serving.old.crew serving.old.index }
    requires none_left { serving.old.run.left ≡ 0 }
    requires few { length writes.now ≤ serving.old.run.params.writes }
    requires fit { AreFitWrites serving.old.run.params.keys writes.now }
    ensures out { (S.disk store.new).out ≤ (S.disk store.old).out }
    ensures serving { OnOk result (IsServing (S.disk store.new) (T.present tape.new)
        (T.drawn tape.new) serving.new.run serving.new.crew serving.new.index) }
{
    match end(
        rt,
        store,
        tape,
        &mut serving.crew,
        &mut serving.run,
        &mut serving.index,
        &mut serving.bench,
        writes,
        watch,
    ) {
        Ok(()) => Ok(None),
        Err(EndErr::Before(fault)) => Err(Told::Before(fault)),
        Err(EndErr::Unsure(fault)) => Err(Told::Unsure(fault)),
    }
}

// The writes of at most four puts of keys below these.
fn writes_of(puts: &[Put], keys: u32) -> Option<[Write; 4]>
    requires { 0 < keys }
    ensures few { IfSome result (λ writes. length puts.now ≤ 4) }
    ensures fit { IfSome result (AreFitWrites keys) }
{
    if puts.len() > 4 {
        return None;
    }
    let mut writes = [Write {
        key: 0,
        value: None,
    }; 4];
    for i in 0..puts.len() {
        let put = puts[i];
        let value = Value::new(put.text)?;
        if put.key >= keys {
            return None;
        }
        writes[i] = Write {
            key: put.key,
            value: Some(value),
        };
    }
    Some(writes)
}

// Takes a step, where it may be taken.
fn take_step<S: Lanes, R: Threads + Sync, T: Tape, W: Watch>(
    rt: &R,
    store: &mut S,
    tape: &mut T,
    serving: &mut Serving<S::Lane>,
    step: Step,
    watch: &mut W,
) -> Result<Option<Value>, Told>
    requires serving { IsServing (S.disk store.old) (T.present tape.old) (T.drawn tape.old)
        serving.old.run serving.old.crew serving.old.index }
    ensures out { (S.disk store.new).out ≤ (S.disk store.old).out }
    ensures serving { OnOk result (IsServing (S.disk store.new) (T.present tape.new)
        (T.drawn tape.new) serving.new.run serving.new.crew serving.new.index) }
{
    let (p, left) = (serving.run.params, serving.run.left);
    match step {
        Step::Ask(key) => {
            if left == 0 || p.places > 2 || key.unwrap_or(0) >= p.keys {
                return Err(Told::Misuse);
            }
            ask(rt, store, tape, serving, key, watch)
        }
        Step::End(puts) => {
            let Some(writes) = writes_of(puts, p.keys) else {
                return Err(Told::Misuse);
            };
            if left != 0 || puts.len() > p.writes as usize {
                return Err(Told::Misuse);
            }
            end_with(rt, store, tape, serving, &writes[..puts.len()], watch)
        }
    }
}

// Takes these steps, up to the first that isn't taken.
fn take_steps<S: Lanes, R: Threads + Sync, T: Tape, W: Watch>(
    rt: &R,
    store: &mut S,
    tape: &mut T,
    serving: &mut Serving<S::Lane>,
    steps: &[Step],
    watch: &mut W,
) -> Outcome
    requires serving { IsServing (S.disk store.old) (T.present tape.old) (T.drawn tape.old)
        serving.old.run serving.old.crew serving.old.index }
    ensures { (S.disk store.new).out ≡ 0 }
{
    let mut found: Option<Value> = None;
    for i in 0..steps.len() {
        match take_step(rt, store, tape, serving, steps[i], watch) {
            Ok(None) => {}
            Ok(Some(value)) => found = Some(value),
            Err(told) => return Outcome { told, found },
        }
    }
    let (epoch, left) = (serving.run.epoch, serving.run.left);
    let told = Told::Done { epoch, left };
    Outcome { told, found }
}

/// Opens a store under the tests' keys, and takes the steps.
pub fn run_steps<S: Lanes, R: Threads + Sync, T: Tape, W: Watch>(
    rt: &R,
    alloc: Global,
    store: &mut S,
    tape: &mut T,
    plan: &Plan,
    watch: &mut W,
) -> Outcome
    requires none_out { (S.disk store.old).out ≡ 0 }
    requires unstarted { T.present tape.old ≡ 0 }
    requires lanes { (1 ≤ plan.now.lanes) × (plan.now.lanes ≤ 16) }
    ensures { (S.disk store.new).out ≡ 0 }
{
    match open_run(rt, alloc, store, tape, plan, watch) {
        Ok(mut serving) => take_steps(rt, store, tape, &mut serving, plan.steps, watch),
        Err(fault) => Outcome {
            told: Told::Opening(fault),
            found: None,
        },
    }
}
