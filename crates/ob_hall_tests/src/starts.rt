//! Clients that sign off, in threads of their own and by hand.

ghost use Rattle.std.specs.Prelude.{◌≡◌, ◌≤◌, All, [], length, vec_capacity};
ghost use Rattle.ob_hall.specs.Calling.{IsReady};
ghost use Rattle.ob_threads.specs.Served.{words};
ghost use Rattle.ob_threads.specs.Starts.{Each, CanStep, IsStepped};
ghost use Rattle.ob_hall_tests.specs.Halls.{AreStarting, AreDone, IsVisiting};
ghost use denote.Param.Send.{IsSync};

use crate::halls::{closed, opened};
use crate::insist;
use crate::visitor::Visitor;
use ob_hall::{Hall, Pass};
use ob_session::Runner;
use ob_threads::{Client, Started, join_all, run_unless, start_all, step_all};
use std::alloc::Global;
use std::process::Abort;
use std::sync::Wait;
use std::sync::atomic::AtomicBool;
use std::thread::Threads;
use std::{mem, thread};

// ---- threads and hands

// Clients that wait for their start, that are started, and that came back.
struct Crew {
    waiting: Vec<Client<Visitor>>,
    started: Vec<Started<Visitor>>,
    back: Vec<Client<Visitor>>,
}

// With room for three clients each.
fn new_crew<R: AllocGlobal + Abort>(rt: &R) -> Crew
    ensures none { (result.waiting.items ≡ []) × (result.started.items ≡ [])
        × (result.back.items ≡ []) }
    ensures room { (3 ≤ vec_capacity result.waiting) × (3 ≤ vec_capacity result.started)
        × (3 ≤ vec_capacity result.back) }
{
    let alloc = rt.alloc();
    Crew {
        waiting: Vec::with_capacity(alloc, 3).ok().expect(rt, "memory"),
        started: Vec::with_capacity(alloc, 3).ok().expect(rt, "memory"),
        back: Vec::with_capacity(alloc, 3).ok().expect(rt, "memory"),
    }
}

impl Crew {
    fn destroy_empty(self)
        requires { (self.waiting.items ≡ []) × (self.started.items ≡ []) × (self.back.items ≡ []) }
    {
        let Crew {
            waiting,
            started,
            back,
        } = self;
        waiting.destroy_empty();
        started.destroy_empty();
        back.destroy_empty();
    }
}

// A client for each pass but the driver's, the last one first: whether each of them comes back as
// it went from what its thread would do with its flag set.
fn seat<R: Wait>(
    rt: &R,
    hall: &Hall,
    passes: &mut Vec<Pass>,
    waiting: &mut Vec<Client<Visitor>>,
) -> bool
    requires starting { AreStarting hall.now 0 passes.old.items }
    requires three { length passes.old.items ≡ 4 }
    requires none { waiting.old.items ≡ [] }
    requires room { 3 ≤ vec_capacity waiting.old }
    ensures left { AreStarting hall.now 3 passes.new.items }
    ensures one { length passes.new.items ≡ 1 }
    ensures capacity { vec_capacity passes.new ≡ vec_capacity passes.old }
    ensures visiting { All (λ c. IsVisiting hall.now c.0 c.1.client c.1.gone) waiting.new.items }
    ensures three { length waiting.new.items ≡ 3 }
{
    let by_hand = AtomicBool::new(true);
    let mut unserved = true;
    while passes.len() > 1 {
        let Some(pass) = passes.pop() else {
            unreachable!()
        };
        let visitor = Visitor::new(pass.number());
        let (client, served) = run_unless(rt, hall, &by_hand, (pass, visitor));
        unserved &= !served;
        waiting.push_reserved(client);
    }
    unserved
}

// Gives the passes of the clients back, the first client's first: whether each of them was in its
// place, and has signed off.
fn unseat(hall: &Hall, passes: &mut Vec<Pass>, back: &mut Vec<Client<Visitor>>) -> bool
    requires left { AreStarting hall.now 3 passes.old.items }
    requires one { length passes.old.items ≡ 1 }
    requires room { 4 ≤ vec_capacity passes.old }
    requires ready { All (λ c. IsReady hall.now c.0) back.old.items }
    requires three { length back.old.items ≡ 3 }
    ensures done { AreDone hall.now 0 passes.new.items }
    ensures none { back.new.items ≡ [] }
{
    let mut well = true;
    for k in 0..3 {
        let Some((pass, visitor)) = back.pop() else {
            unreachable!()
        };
        well = well && visitor.gone && visitor.client == k + 1;
        passes.push_reserved(pass);
    }
    well
}

// How many are in threads.
fn count_away(started: &[Started<Visitor>]) -> usize {
    let mut away = 0;
    for one in started {
        if matches!(one, Started::Away { .. }) {
            away += 1;
        }
    }
    away
}

// A step of each client that is here.
fn step_each<U: Runner, R: Wait>(rt: &R, hall: &Hall, started: &mut Vec<Started<U>>)
    requires met { All (CanStep (words U.client U.bound U.plan U.fits U.turn) hall.now)
        started.old.items }
    ensures stepped { Each (IsStepped (words U.client U.bound U.plan U.fits U.turn) hall.now)
        started.old.items started.new.items }
{
    let mut turns = 0;
    step_all(rt, hall, started.as_mut_slice(), &mut turns);
}

// Starts as many clients as there are flags, makes a step of each other one, and joins all: how
// many went to threads.
fn in_scope<'c, R: Threads + Wait + Sync>(
    rt: &R,
    alloc: Global,
    hall: &Hall,
    flags: &[AtomicBool],
    crew: &'c mut Crew,
) -> (usize, &'c mut Crew)
    requires visiting { All (λ c. IsVisiting hall.now c.0 c.1.client c.1.gone)
        crew.old.waiting.items }
    requires three { length crew.old.waiting.items ≡ 3 }
    requires none { (crew.old.started.items ≡ []) × (crew.old.back.items ≡ []) }
    requires room { (3 ≤ vec_capacity crew.old.started) × (3 ≤ vec_capacity crew.old.back) }
    ensures crew_name { result.1.ghost_name ≡ crew.entry.ghost_name }
    ensures none { (result.1.now.waiting.items ≡ []) × (result.1.now.started.items ≡ []) }
    ensures ready { All (λ c. IsReady hall.now c.0) result.1.now.back.items }
    ensures three { length result.1.now.back.items ≡ 3 }
{
    thread::scope(
        thread::scope_env(),
        rt,
        |scope| -> (usize, &mut Crew)
            requires { (All (λ c. IsVisiting hall.now c.0 c.1.client c.1.gone)
                crew.now.waiting.items)
                × (length crew.now.waiting.items ≡ 3)
                × (crew.now.started.items ≡ []) × (crew.now.back.items ≡ [])
                × (3 ≤ vec_capacity crew.now.started) × (3 ≤ vec_capacity crew.now.back)
                × IsSync R.row }
            ensures { (result.1.ghost_name ≡ crew.entry.ghost_name)
                × (result.1.now.waiting.items ≡ []) × (result.1.now.started.items ≡ [])
                × (All (λ c. IsReady hall.entry.now c.0) result.1.now.back.items)
                × (length result.1.now.back.items ≡ 3) }
        {
            let clients = mem::replace(&mut crew.waiting, Vec::new(alloc));
            start_all(scope, rt, hall, flags, clients, &mut crew.started);
            let away = count_away(crew.started.as_slice());
            step_each(rt, hall, &mut crew.started);
            let started = mem::replace(&mut crew.started, Vec::new(alloc));
            join_all(rt, hall, started, &mut crew.back);
            (away, crew)
        },
    )
}

// Whether of three clients, none of which signs off while its flag is set, as many went to threads as
// starts are tried, and each came back to its place and has signed off.
fn starts_well<R: Threads + Wait + Sync + AllocGlobal + Abort>(rt: &R, starts: usize) -> bool
    requires { starts ≤ 3 }
{
    let flags = [
        AtomicBool::new(false),
        AtomicBool::new(false),
        AtomicBool::new(false),
    ];
    let mut crew = new_crew(rt);
    let (hall, mut passes) = opened(rt, &[1, 2, 3]);
    let unserved = seat(rt, &hall, &mut passes, &mut crew.waiting);
    let (away, joined) = in_scope(rt, rt.alloc(), &hall, &flags[..starts], &mut crew);
    let well = unseat(&hall, &mut passes, &mut joined.back);
    closed(hall, passes);
    crew.destroy_empty();
    unserved && well && away == starts
}

// However many are started each comes back. One whose flag is set comes back as it went.
#[test]
fn each_client_signs_off_but_one_whose_flag_is_set(rt: HostRuntime) {
    for starts in 0..4 {
        insist(&rt, starts_well(&rt, starts), starts);
    }
}
