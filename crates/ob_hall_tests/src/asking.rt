//! What clients call at a hall, and how they have to be answered.

ghost use Rattle.std.specs.Prelude.{◌≡◌, ◌≤◌, ◌<◌, length};
ghost use Rattle.ob_hall.specs.Passes.{opening_of};
ghost use Rattle.ob_hall.specs.Calling.{IsReady, IsBetween};
ghost use Rattle.ob_hall.specs.Testing.{IsInTxn, IsInTxnOrNot};

use ob_base::{Fault, Key, Value};
use ob_calls::Refused;
use ob_desk::Begun;
use ob_hall::{Hall, Pass};
use ob_serial::{Outcome, Why};
use std::sync::Wait;
use std::sync::atomic::AtomicU64;
use std::sync::atomic::Ordering::SeqCst;
use std::time::Duration;

/// In place of a key: the client's own one.
pub const OWN: Key = 64;

/// What a client calls, and how it has to be answered. It writes the value of the tests. Where a
/// cause is named, its transaction is aborted for it.
pub enum Ask {
    /// The last durable epoch, outside of a transaction.
    Durable {
        epoch: u64,
    },
    /// Its next transaction; or the desk is stopped, for this fault.
    Begin {
        stopped: Option<Fault>,
    },
    /// The value of the tests is found, or none.
    Get {
        key: Key,
        found: bool,
        aborted: Option<Why<Key>>,
    },
    Put {
        key: Key,
        aborted: Option<Why<Key>>,
    },
    Del {
        key: Key,
        aborted: Option<Why<Key>>,
    },
    Commit {
        outcome: Outcome<Key>,
    },
    Abort {
        why: Why<Key>,
    },
}

/// The moment from which a call may be made, and the call.
pub type Line = (u64, Ask);

/// How many calls were made, and how many of them were answered as wanted.
#[derive(Drop)]
pub struct Clock {
    moment: AtomicU64,
    right: AtomicU64,
}

impl Clock {
    /// No call was made.
    pub fn new() -> Clock {
        Clock {
            moment: AtomicU64::new(0),
            right: AtomicU64::new(0),
        }
    }

    /// How many calls were made.
    pub fn made(&self) -> u64 {
        self.moment.load(SeqCst)
    }

    /// How many were answered as wanted.
    pub fn right(&self) -> u64 {
        self.right.load(SeqCst)
    }

    /// One call more was made, and answered as wanted or not.
    pub fn count(&self, right: bool) {
        if right {
            self.right.fetch_add(1, SeqCst);
        }
        self.moment.fetch_add(1, SeqCst);
        self.moment.wake_all();
    }

    /// Waits until so many calls were made, but not for longer than some seconds.
    pub fn wait_until<R: Wait>(&self, rt: &R, at: u64) {
        for _ in 0..1000 {
            let now = self.moment.load(SeqCst);
            if now >= at {
                return;
            }
            self.moment
                .park_timeout(rt, (now % (1 << 32)) as u32, Duration::from_millis(10));
        }
    }
}

// ---- one call

// Whether a call was refused since its transaction is aborted for this.
fn is_aborted(refused: &Refused, wanted: Option<Why<Key>>) -> bool {
    match (refused, wanted) {
        (Refused::Aborted { why }, Some(cause)) => *why == cause,
        _ => false,
    }
}

// Whether a call was done, or its transaction is aborted for this.
fn is_done(done: &Result<(), Refused>, wanted: Option<Why<Key>>) -> bool {
    match done {
        Ok(()) => wanted.is_none(),
        Err(refused) => is_aborted(refused, wanted),
    }
}

// Whether the value was found, or none, or the transaction is aborted for this.
fn is_found(
    got: &Result<Option<Value>, Refused>,
    value: &Value,
    found: bool,
    wanted: Option<Why<Key>>,
) -> bool {
    match got {
        Ok(Some(there)) => wanted.is_none() && found && there == value,
        Ok(None) => wanted.is_none() && !found,
        Err(refused) => is_aborted(refused, wanted),
    }
}

fn key_of(key: Key, own: Key) -> Key
    requires own { own < 64 }
    ensures { result < 64 }
{
    if key < OWN { key } else { own }
}

// A call in a transaction: whether the client still is in it, and was answered as wanted.
fn call_inside<R: Wait>(
    rt: &R,
    hall: &Hall,
    pass: &mut Pass,
    ask: &Ask,
    own: Key,
    value: &Value,
) -> (bool, bool)
    requires ready { IsReady hall.now pass.old }
    requires inside { IsInTxn pass.old }
    requires keys { (opening_of hall.now).setup.params.keys ≡ 64 }
    requires own { own < 64 }
    ensures ready { IsReady hall.now pass.new }
    ensures stands { IsInTxnOrNot result.0 pass.new }
{
    match ask {
        Ask::Get {
            key,
            found,
            aborted,
        } => {
            let got = ob_calls::get(rt, hall, pass, key_of(*key, own));
            (true, is_found(&got, value, *found, *aborted))
        }
        Ask::Put { key, aborted } => {
            let done = ob_calls::put(rt, hall, pass, key_of(*key, own), *value);
            (true, is_done(&done, *aborted))
        }
        Ask::Del { key, aborted } => {
            let done = ob_calls::del(rt, hall, pass, key_of(*key, own));
            (true, is_done(&done, *aborted))
        }
        Ask::Commit { outcome } => {
            let ended = ob_calls::commit(rt, hall, pass);
            (false, ended == *outcome)
        }
        Ask::Abort { why } => {
            let told = ob_calls::abort(rt, hall, pass);
            (false, told == *why)
        }
        Ask::Begin { .. } | Ask::Durable { .. } => (true, false),
    }
}

// A call between two transactions: whether the client is in one behind it, and was answered as
// wanted.
fn call_between<R: Wait>(rt: &R, hall: &Hall, pass: &mut Pass, ask: &Ask) -> (bool, bool)
    requires ready { IsReady hall.now pass.old }
    requires between { IsBetween pass.old }
    ensures ready { IsReady hall.now pass.new }
    ensures stands { IsInTxnOrNot result.0 pass.new }
{
    match ask {
        Ask::Begin { stopped } => match ob_calls::begin(rt, hall, pass) {
            Ok(Begun::Txn { .. }) => (true, stopped.is_none()),
            Ok(Begun::Stopped { fault }) => (false, *stopped == Some(fault)),
            Err(_) => (false, false),
        },
        Ask::Durable { epoch } => (false, hall.durable(pass) == *epoch),
        _ => (false, false),
    }
}

// ---- a script of calls

/// Makes so many calls, each from its moment on: those of these lines, again and again. Then it
/// leaves its transaction, if it still is in one, and signs off.
pub fn follow<R: Wait>(
    rt: &R,
    hall: &Hall,
    pass: &mut Pass,
    lines: &[Line],
    calls: usize,
    own: Key,
    value: &Value,
    clock: &Clock,
)
    requires ready { IsReady hall.now pass.old }
    requires between { IsBetween pass.old }
    requires keys { (opening_of hall.now).setup.params.keys ≡ 64 }
    requires lines { 0 < length lines.now }
    requires own { own < 64 }
    ensures ready { IsReady hall.now pass.new }
{
    let mut inside = false;
    for n in 0..calls {
        let (at, ask) = &lines[n % lines.len()];
        clock.wait_until(rt, *at);
        let (next, right) = if inside {
            call_inside(rt, hall, pass, ask, own, value)
        } else {
            call_between(rt, hall, pass, ask)
        };
        inside = next;
        clock.count(right);
    }
    if inside {
        ob_calls::abort(rt, hall, pass);
    }
    ob_calls::sign_off(rt, hall, pass);
}
