//! The clients of the tests: each makes the calls of its script, and minds a write that is held.

ghost use Rattle.std.specs.Prelude.{◌≡◌, ◌++◌, ◌∷◌, [], ℕ, All, IfSome};
ghost use Rattle.ob_session.specs.Steps.{step_of, steps_of, IsOwn};
ghost use Rattle.ob_session.specs.Clients.{said_by};
ghost use Rattle.ob_hall.specs.Passes.{Steps};
ghost use Rattle.ob_runner.specs.RunnerViews.{client_of, bound_of, MayHaveMade};
ghost use Rattle.ob_serve_tests.specs.Pairs.{IsNewPair, AreTwo};
ghost use Rattle.ob_serve_tests.specs.Overlaps.{HasComeTo};
ghost use Rattle.ob_serve_tests.specs.declared.first.First.TheVariants as firsts;

use crate::first::First;
use ob_base::{Fault, Key};
use ob_desk::{Begun, Desk, Done, Txn};
use ob_runner::ScriptRunner;
use ob_script::parse;
use ob_serial::{Outcome, Why};
use ob_session::{Made, Runner, Said, Step};
use std::alloc::Global;
use std::process::Abort;
use std::sync::atomic::AtomicBool;
use std::sync::atomic::Ordering::SeqCst;

/// Where a store holds a write, until a client lets it go.
#[derive(Drop)]
pub struct Hold {
    pub reached: AtomicBool,
    pub release: AtomicBool,
}

impl Hold {
    /// No write is held yet; or, where it counts as reached, none is to be.
    pub fn new(reached: bool) -> Hold {
        Hold {
            reached: AtomicBool::new(reached),
            release: AtomicBool::new(false),
        }
    }
}

/// Makes the calls of a script. Behind a first transaction that it gave up it asks again and again
/// how that one ended, until a write is held; and then it stops the desk for want of memory, or
/// goes on. It lets the write go once it has stopped the desk, written, or asked again for a key.
#[derive(Drop)]
pub struct Scripted<'h> {
    runner: ScriptRunner,
    hold: &'h Hold,
    first: First,
    stops: bool,
    heard: Heard,
}

// Behind a call that tells of a begin or an abort.
fn behind(first: &First, said: &Said) -> First
    ensures { (client : ℕ) (before : Steps) → HasComeTo first.now client before
        → IsOwn client (step_of said.now)
        → HasComeTo result client (before ++ said_by client (step_of said.now ∷ [])) }
{
    match said {
        Said::Begin {
            reply: Begun::Txn { txn },
            ..
        } => match first {
            First::Unbegun => First::Begun { txn: *txn },
            _ => First::Past,
        },
        Said::Abort {
            txn,
            why: Why::Asked,
        } => match first {
            First::Begun { txn: own } if own.client == txn.client => First::GivenUp { txn: *own },
            _ => First::Past,
        },
        _ => First::Past,
    }
}

// How far it has come behind the calls of a step.
fn next(first: &First, made: &Made) -> First
    ensures { (client : ℕ) (before : Steps) → HasComeTo first.now client before
        → All (IsOwn client) (steps_of made.now)
        → HasComeTo result client (before ++ said_by client (steps_of made.now)) }
{
    if made.second.is_some() || made.third.is_some() {
        return First::Past;
    }
    match &made.first {
        Some(said) => behind(first, said),
        None => First::Past,
    }
}

/// What a client was told: how its last transaction ended that asked to commit, and why it might
/// begin no other; and whether it has signed off.
#[derive(Clone, Copy)]
pub struct Heard {
    pub outcome: Option<Outcome<Key>>,
    pub refused: Option<Fault>,
    pub gone: bool,
}

impl Heard {
    const NOTHING: Heard = Heard {
        outcome: None,
        refused: None,
        gone: false,
    };
}

// What it was told with this call.
fn heard_with(heard: Heard, said: &Said) -> Heard {
    let Heard {
        outcome,
        refused,
        gone,
    } = heard;
    match *said {
        Said::Settled {
            outcome: Some(ended),
            ..
        } => Heard {
            outcome: Some(ended),
            refused,
            gone,
        },
        Said::Commit {
            reply: Done::Aborted { why },
            ..
        } => Heard {
            outcome: Some(Outcome::Aborted { why }),
            refused,
            gone,
        },
        Said::Begin {
            reply: Begun::Stopped { fault },
            ..
        } => Heard {
            outcome,
            refused: Some(fault),
            gone,
        },
        Said::SignOff { .. } => Heard {
            outcome,
            refused,
            gone: true,
        },
        _ => heard,
    }
}

// What it was told with the call of a step.
fn heard_by(heard: Heard, made: &Made) -> Heard {
    match &made.first {
        Some(said) => heard_with(heard, said),
        None => heard,
    }
}

// Lets a write go that is held, where the call of a step is a write or asks again for a key.
fn let_go(hold: &Hold, made: &Made) {
    if !hold.reached.load(SeqCst) {
        return;
    }
    match &made.first {
        Some(Said::Write { .. }) | Some(Said::Poll { .. }) => hold.release.store(true, SeqCst),
        _ => {}
    }
}

impl<'h> Scripted<'h> {
    // The transaction that it gave up, where this is so.
    fn given_up(&self, so: bool) -> Option<Txn>
        ensures { IfSome result (λ x. self.now.first ≡ firsts.GivenUp x) }
    {
        match self.first {
            First::GivenUp { txn } if so => Some(txn),
            _ => None,
        }
    }
}

impl<'h> Runner for Scripted<'h> {
    ghost use Rattle.ob_runner.specs.RunnerViews.{client_of, bound_of, MayHaveMade};
    ghost use Rattle.ob_run.specs.Ends.{QuietRule};
    ghost use Rattle.ob_serve_tests.specs.Overlaps.{HasComeTo};

    ghost client = { λ r. client_of r.runner };

    ghost bound = { λ r. bound_of r.runner };

    ghost Plan = { Unit {0} };

    ghost plan = { λ r. tt };

    ghost fits = { λ r said. MayHaveMade r.runner said
        × HasComeTo r.first (client_of r.runner) said };

    ghost turn = { λ plan. QuietRule };

    fn step(&mut self, desk: &mut Desk) -> (Step, Made) {
        let waits = !self.hold.reached.load(SeqCst);
        if let Some(txn) = self.given_up(waits) {
            let outcome = desk.settled(&txn);
            return (Step::Ran, Made::one(Said::Settled { txn, outcome }));
        }
        if let Some(_txn) = self.given_up(self.stops) {
            let fault = Fault::Memory;
            desk.stop(fault);
            self.first = First::Past;
            self.hold.release.store(true, SeqCst);
            return (Step::Ran, Made::one(Said::Stop { fault }));
        }
        let (step, made) = self.runner.step(desk);
        self.first = next(&self.first, &made);
        self.heard = heard_by(self.heard, &made);
        let_go(self.hold, &made);
        (step, made)
    }
}

// The runner of a client's part of a script.
fn client<'h>(
    rt: &impl Abort,
    alloc: Global,
    script: &[u8],
    number: u32,
    hold: &'h Hold,
    stops: bool,
) -> Scripted<'h>
    ensures { IsNewPair (λ r. client_of r.runner) (λ r. bound_of r.runner)
        (λ r said. MayHaveMade r.runner said × HasComeTo r.first (client_of r.runner) said) number
        result }
{
    let Ok(scripts) = parse(alloc, script, 8) else {
        panic!(rt; "no script")
    };
    let Ok(runner) = ScriptRunner::new(alloc, &scripts, number) else {
        panic!(rt; "no memory")
    };
    Scripted {
        runner,
        hold,
        first: First::Unbegun,
        stops,
        heard: Heard::NOTHING,
    }
}

/// Both clients of a script. The second one stops the desk behind what it gave up, or doesn't.
pub fn clients<'h>(
    rt: &impl Abort,
    alloc: Global,
    script: &[u8],
    hold: &'h Hold,
    stops: bool,
) -> Vec<Scripted<'h>>
    ensures { AreTwo (λ r. client_of r.runner) (λ r. bound_of r.runner)
        (λ r said. MayHaveMade r.runner said × HasComeTo r.first (client_of r.runner) said)
        result.items }
{
    let Ok(mut runners) = Vec::with_capacity(alloc, 2) else {
        panic!(rt; "no memory")
    };
    let first = client(rt, alloc, script, 1, hold, false);
    runners.push_reserved(first);
    let second = client(rt, alloc, script, 2, hold, stops);
    runners.push_reserved(second);
    runners
}

/// What the client at this place was told.
pub fn heard_at(clients: &[Scripted], at: usize) -> Heard {
    match clients.get(at) {
        Some(client) => client.heard,
        None => Heard::NOTHING,
    }
}
