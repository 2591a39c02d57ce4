//! Two sessions in threads, beside the driver with no client of its own.

ghost use Rattle.std.specs.Prelude.{◌≡◌, ◌≤◌, ◌<◌, All};
ghost use Rattle.ob_hall.specs.Passes.{opening_of};
ghost use Rattle.ob_hall.specs.Calling.{IsReady, IsBetween};
ghost use Rattle.ob_hall.specs.Testing.{IsInTxn, IsInTxnOrNot};
ghost use Rattle.ob_driver.specs.Drives.{IsFirstPass};
ghost use Rattle.ob_session_tests.specs.Sessions.{IsSession};
ghost use denote.Param.Send.{IsSync};

use crate::served::{desk_at, formatted, new_output, open};
use ob_base::{Key, Params, Value};
use ob_calls::Refused;
use ob_conduct::RunErr;
use ob_desk::{Begun, Eager};
use ob_hall::{Hall, Pass};
use ob_mem::{HoldStore, MemSink};
use ob_run::serve;
use ob_runner::ScriptRunner;
use ob_serial::{Outcome, Vault, Why};
use ob_store::{Blind, Store};
use ob_threads::Client;
use std::alloc::Global;
use std::process::Abort;
use std::sync::Wait;
use std::sync::atomic::Ordering::SeqCst;
use std::sync::atomic::{AtomicBool, AtomicU64};
use std::thread;
use std::thread::Threads;
use std::time::Duration;

// So often a thread gives way before it waits no more.
const TURNS: u64 = 10_000_000;

// The body of the place where the first epoch's end sets the epoch's register.
const REGISTER: u64 = 7;

// What a client calls, and how it has to be answered.
enum Ask {
    Begin,
    // It finds no value.
    Get { key: Key },
    // Of the value `a`. It is done, or its transaction is aborted for this.
    Put { key: Key, why: Option<Why<Key>> },
    // It is done.
    Del { key: Key },
    Commit { outcome: Outcome<Key> },
}

// The moment from which a call may be made, and the call.
type Line = (u64, Ask);

/// How many calls were answered, and how many of them as wanted. Where it holds the first epoch's
/// end, that is reached, and let go behind the fourth answer.
#[derive(Drop)]
pub struct Clock {
    moment: AtomicU64,
    right: AtomicU64,
    holds: bool,
    reached: AtomicBool,
    release: AtomicBool,
}

impl Clock {
    fn new(holds: bool) -> Clock {
        Clock {
            moment: AtomicU64::new(0),
            right: AtomicU64::new(0),
            holds,
            reached: AtomicBool::new(false),
            release: AtomicBool::new(!holds),
        }
    }

    // Waits until the end is reached, but not for ever.
    fn wait_for_end(&self) {
        for _ in 0..TURNS {
            if self.reached.load(SeqCst) {
                return;
            }
            thread::yield_now();
        }
    }

    // Waits until so many calls were answered, but not for longer than some seconds.
    fn wait_until<R: Wait>(&self, rt: &R, at: u64) {
        for _ in 0..1000 {
            let now = self.moment.load(SeqCst);
            if now >= at {
                return;
            }
            self.moment
                .park_timeout(rt, (now % (1 << 32)) as u32, Duration::from_millis(10));
        }
    }

    // One call more was answered.
    fn count(&self, right: bool) {
        if right {
            self.right.fetch_add(1, SeqCst);
        }
        if self.moment.fetch_add(1, SeqCst) >= 3 {
            self.release.store(true, SeqCst);
        }
        self.moment.wake_all();
    }
}

// ---- one call

// Whether a call was done, or its transaction aborted for this.
fn is_done(done: &Result<(), Refused>, wanted: Option<Why<Key>>) -> bool {
    match done {
        Ok(()) => wanted.is_none(),
        Err(Refused::Aborted { why }) => wanted == Some(*why),
        Err(Refused::Memory) => false,
    }
}

// Whether no value was found.
fn is_absent(got: &Result<Option<Value>, Refused>) -> bool {
    matches!(got, Ok(None))
}

// A put of the value `a`: whether it is answered as wanted.
fn put<R: Wait>(rt: &R, hall: &Hall, pass: &mut Pass, key: Key, wanted: Option<Why<Key>>) -> bool
    requires ready { IsReady hall.now pass.old }
    requires inside { IsInTxn pass.old }
    requires key { key < (opening_of hall.now).setup.params.keys }
    ensures ready { IsReady hall.now pass.new }
    ensures inside { IsInTxn pass.new }
{
    match Value::new(b"a") {
        Some(value) => is_done(&ob_calls::put(rt, hall, pass, key, value), wanted),
        None => false,
    }
}

// A call in a transaction: whether the client still is in it, and was answered as wanted.
fn call_inside<R: Wait>(rt: &R, hall: &Hall, pass: &mut Pass, ask: &Ask) -> (bool, bool)
    requires ready { IsReady hall.now pass.old }
    requires inside { IsInTxn pass.old }
    requires keys { 8 ≤ (opening_of hall.now).setup.params.keys }
    ensures ready { IsReady hall.now pass.new }
    ensures stands { IsInTxnOrNot result.0 pass.new }
{
    match ask {
        Ask::Get { key } if *key < 8 => {
            let got = ob_calls::get(rt, hall, pass, *key);
            (true, is_absent(&got))
        }
        Ask::Put { key, why } if *key < 8 => (true, put(rt, hall, pass, *key, *why)),
        Ask::Del { key } if *key < 8 => {
            let done = ob_calls::del(rt, hall, pass, *key);
            (true, is_done(&done, None))
        }
        Ask::Commit { outcome } => {
            let found = ob_calls::commit(rt, hall, pass);
            (false, found == *outcome)
        }
        _ => (true, false),
    }
}

// One call, where it may be made: whether the client is in a transaction behind it, and was
// answered as wanted.
fn call<R: Wait>(rt: &R, hall: &Hall, pass: &mut Pass, inside: bool, ask: &Ask) -> (bool, bool)
    requires ready { IsReady hall.now pass.old }
    requires stands { IsInTxnOrNot inside pass.old }
    requires keys { 8 ≤ (opening_of hall.now).setup.params.keys }
    ensures ready { IsReady hall.now pass.new }
    ensures stands { IsInTxnOrNot result.0 pass.new }
{
    if inside {
        return call_inside(rt, hall, pass, ask);
    }
    let Ask::Begin = ask else {
        return (false, false);
    };
    match ob_calls::begin(rt, hall, pass) {
        Ok(Begun::Txn { .. }) => (true, true),
        Ok(Begun::Stopped { .. }) => (false, false),
        Err(_) => (false, false),
    }
}

// ---- a session

// Makes the calls of a script, each from its moment on, and leaves the client's transaction.
fn follow_all<R: Wait>(rt: &R, hall: &Hall, pass: &mut Pass, script: &[Line], clock: &Clock)
    requires ready { IsReady hall.now pass.old }
    requires between { IsBetween pass.old }
    requires keys { 8 ≤ (opening_of hall.now).setup.params.keys }
    ensures ready { IsReady hall.now pass.new }
    ensures between { IsBetween pass.new }
{
    let mut inside = false;
    for line in script {
        let (at, ask) = line;
        clock.wait_until(rt, *at);
        let (next, right) = call(rt, hall, pass, inside, ask);
        inside = next;
        clock.count(right);
    }
    if inside {
        ob_calls::abort(rt, hall, pass);
    }
}

const COMMIT: Ask = Ask::Commit {
    outcome: Outcome::Committed,
};

// The first client writes what the second one has read by then.
const WRITER: &[Line] = &[
    (0, Ask::Begin),
    (2, Ask::Get { key: 7 }),
    (
        4,
        Ask::Put {
            key: 5,
            why: Some(Why::Conflict { key: 5, reader: 2 }),
        },
    ),
];

// The second one reads, and deletes another key.
const READER: &[Line] = &[
    (1, Ask::Begin),
    (2, Ask::Get { key: 5 }),
    (5, Ask::Del { key: 6 }),
    (6, COMMIT),
];

// The first client asks to commit, and its epoch is closed.
const ENDED: &[Line] = &[
    (0, Ask::Begin),
    (1, Ask::Put { key: 5, why: None }),
    (2, COMMIT),
];

// The second one begins and writes while that epoch is ended.
const BESIDE: &[Line] = &[
    (2, Ask::Begin),
    (3, Ask::Put { key: 6, why: None }),
    (4, COMMIT),
];

// The calls of a client.
fn script_of(clock: &Clock, number: u32) -> &'static [Line] {
    match (clock.holds, number) {
        (false, 1) => WRITER,
        (false, _) => READER,
        (true, 1) => ENDED,
        (true, _) => {
            clock.wait_for_end();
            BESIDE
        }
    }
}

// How many calls both clients make.
fn calls_of(clock: &Clock) -> u64 {
    if clock.holds { 6 } else { 7 }
}

// How many epochs are durable once both clients have made their calls.
fn epochs_of(clock: &Clock) -> u64 {
    if clock.holds { 2 } else { 1 }
}

// Makes the calls of a client, asks for the last durable epoch once both have made theirs, and
// signs off.
fn follow<R: Wait>(rt: &R, hall: &Hall, pass: &mut Pass, clock: &Clock)
    requires { IsSession hall.now pass.old }
{
    let script = script_of(clock, pass.number());
    follow_all(rt, hall, pass, script, clock);
    clock.wait_until(rt, calls_of(clock));
    clock.count(hall.durable(pass) == epochs_of(clock));
    ob_calls::sign_off(rt, hall, pass);
}

// Each of these sessions in a thread of its own.
fn follow_each<R: Threads + Wait + Sync>(rt: &R, hall: &Hall, sessions: &mut [Pass], clock: &Clock)
    requires { All (IsSession hall.now) sessions.old }
{
    thread::for_each_mut(
        rt,
        sessions,
        2,
        &move |_k, pass: &mut Pass|
            requires { IsSession hall.now pass.old }
        { follow(rt, hall, pass, clock) },
    );
}

// ---- a run

// A hall that none has called, the driver's pass, and those of the clients 1 and 2.
#[derive(Drop)]
struct Opened {
    hall: Hall,
    driver: Pass,
    sessions: Vec<Pass>,
}

// A hall round a new desk at this vault.
fn open_hall<V: Vault>(rt: &impl Abort, alloc: Global, params: &Params, vault: &V) -> Opened
    ensures driver { IsFirstPass result.hall result.driver params.now (V.counts vault.now) }
    ensures sessions { All (IsSession result.hall) result.sessions.items }
{
    let desk = desk_at(rt, alloc, params, vault);
    let Ok((hall, mut sessions)) = Hall::new(alloc, desk, &[1, 2]) else {
        panic!(rt; "no memory")
    };
    let driver = sessions.remove(0);
    Opened {
        hall,
        driver,
        sessions,
    }
}

// Drives the epochs of a hall with no client of the driver's own.
fn drive_alone<R: Threads + Wait + Sync, V: Vault>(
    rt: &R,
    alloc: Global,
    params: &Params,
    hall: &Hall,
    driver: &mut Pass,
    vault: &mut V,
    output: &mut MemSink,
) -> Result<(), RunErr>
    requires params { V.params vault.old ≡ params.now }
    requires driver { IsFirstPass hall.now driver.old params.now (V.counts vault.old) }
{
    let mut none: Vec<Client<ScriptRunner>> = Vec::new(alloc);
    let result = serve(
        rt, alloc, params, hall, driver, &mut none, vault, &mut Blind, &mut Eager, output, 0,
    );
    none.destroy_empty();
    result
}

// The sessions in threads, and the driver beside them.
fn run_beside<R: Threads + Wait + Sync, V: Vault>(
    rt: &R,
    alloc: Global,
    params: &Params,
    hall: &Hall,
    driver: &mut Pass,
    sessions: &mut [Pass],
    clock: &Clock,
    vault: &mut V,
    output: &mut MemSink,
) -> Result<(), RunErr>
    requires params { V.params vault.old ≡ params.now }
    requires driver { IsFirstPass hall.now driver.old params.now (V.counts vault.old) }
    requires sessions { All (IsSession hall.now) sessions.old }
{
    let (_, result) = thread::join(
        rt,
        move ||
            requires { All (IsSession hall.now) sessions.now × IsSync R.row }
        { follow_each(rt, hall, sessions, clock) },
        move || -> Result<(), RunErr>
            requires { (V.params vault.now ≡ params.now)
                × (IsFirstPass hall.now driver.now params.now (V.counts vault.now)) × IsSync R.row }
        { drive_alone(rt, alloc, params, hall, driver, vault, output) },
    );
    result
}

// Two sessions over a store.
fn run_sessions<R: Threads + Wait + Sync + Abort, S: Store>(
    rt: &R,
    alloc: Global,
    store: &mut S,
    clock: &Clock,
    output: &mut MemSink,
) -> Result<(), RunErr>
    requires { (S.disk store.old).out ≡ 0 }
{
    let mut vault = open(rt, alloc, store);
    let params = vault.params();
    let mut opened = open_hall(rt, alloc, &params, &vault);
    run_beside(
        rt,
        alloc,
        &params,
        &opened.hall,
        &mut opened.driver,
        opened.sessions.as_mut_slice(),
        clock,
        &mut vault,
        output,
    )
}

// Whether two sessions over a new store end well, with so many calls answered as wanted, and with
// these lines.
fn end_so<R: Threads + Wait + Sync + Abort>(
    rt: &R,
    alloc: Global,
    clock: &Clock,
    right: u64,
    lines: &[u8],
) -> bool {
    let mut output = new_output(rt, alloc, 1000);
    let store = formatted(rt, alloc);
    let mut held = HoldStore::new(store, REGISTER, TURNS, &clock.reached, &clock.release);
    let ended = run_sessions(rt, alloc, &mut held, clock, &mut output);
    ended.is_ok() && clock.right.load(SeqCst) == right && output.written() == lines
}

const LINES: &[u8] =
    b"epoch 1\ntxn 1 client 1 aborted conflict key 5 reader 2\nget 7 absent\ntxn 2 client 2 committed\nget 5 absent\ndel 6\n";

#[test]
fn two_sessions_are_served(rt: HostRuntime) {
    let clock = Clock::new(false);
    assert!(rt; end_so(&rt, rt.alloc(), &clock, 9, LINES));
}

const TWO_EPOCHS: &[u8] =
    b"epoch 1\ntxn 1 client 1 committed\nput 5 a\nepoch 2\ntxn 1 client 2 committed\nput 6 a\n";

// Were the turn kept through the end, the second client could begin only behind it: and the store
// would wait for it in vain, and fail.
#[test]
fn a_client_goes_on_while_an_epoch_is_ended(rt: HostRuntime) {
    let clock = Clock::new(true);
    assert!(&rt; end_so(&rt, rt.alloc(), &clock, 8, TWO_EPOCHS) && clock.reached.load(SeqCst));
}
