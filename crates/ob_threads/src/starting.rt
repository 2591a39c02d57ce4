//! A client in a thread of its own, or by hand.

ghost use Rattle.std.specs.Prelude.{◌≡◌, ◌≤◌, false, All, [], length, drop, map, vec_capacity, IfOk, IfErr, IfNone};
ghost use Rattle.ob_threads.specs.Served.{words, IsClient};
ghost use Rattle.ob_threads.specs.Starts.{Each, ComesBack, IsByHand, HasItsPlace, IsAsItCame, IsWaitedFor, IsJoined, stays};

use crate::serving::{Client, run_unless, serve};
use ob_hall::Hall;
use ob_session::Runner;
use std::snapshot::Snapshot;
use std::sync::Wait;
use std::sync::atomic::AtomicBool;
use std::sync::atomic::Ordering::SeqCst;
use std::thread::{Promise, PromisedHandle, Scope, Threads};

/// A client's thread gives back this client of this hall: served, or as it went.
#[derive(Drop)]
pub struct Since<U> {
    hall: Snapshot<Hall>,
    client: Snapshot<Client<U>>,
}

impl<U: Runner> Promise<(Client<U>, bool)> for Since<U> {
    ghost use Rattle.ob_threads.specs.Served.{words};
    ghost use Rattle.ob_threads.specs.Starts.{Each, ComesBack, IsByHand, HasItsPlace, IsWaitedFor, IsJoined};

    ghost kept_by = { λ p back.
        ComesBack (words U.client U.bound U.plan U.fits U.turn) p.hall.value p.client.value back };
}

/// Who makes a client's calls.
#[derive(Drop)]
pub enum Started<U: Runner> {
    /// Its thread.
    Away {
        handle: PromisedHandle<(Client<U>, bool), Since<U>>,
    },
    /// The caller, by hand.
    Here {
        client: Client<U>,
    },
}

// The client that came back, no call of which was made. It would wait for good with one that was
// served, which can't be, since its flag was set before.
fn untouched<U, R: Wait>(rt: &R, back: (Client<U>, bool)) -> Client<U>
    ensures { back ≡ (result, false) }
{
    let (client, served) = back;
    if !served {
        return client;
    }
    for _ in rt.forever() {}
    unreachable!()
}

// Starts a client's thread, with a promise of what it gives back. Where the system refuses it the
// client comes back as it came, with its flag set.
fn launch<
    's,
    E,
    U: Runner + Send + 's,
    R: Threads + Wait + Sync,
    P: Promise<(Client<U>, bool)> + Drop,
>(
    scope: &Scope<'s, E>,
    rt: &'s R,
    hall: &'s Hall,
    by_hand: &'s AtomicBool,
    promise: P,
    client: Client<U>,
) -> Result<PromisedHandle<(Client<U>, bool), P>, Client<U>>
    requires client { IsClient (words U.client U.bound U.plan U.fits U.turn) hall.now client }
    requires keeps { (back : _)
        → ComesBack (words U.client U.bound U.plan U.fits U.turn) hall.now client back
        → P.kept_by promise back }
    ensures started { IfOk result (λ handle. handle.promise ≡ promise) }
    ensures refused { IfErr result
        (IsByHand (words U.client U.bound U.plan U.fits U.turn) hall.now client) }
    ensures came { IfErr result (λ back. back ≡ client) }
{
    let job = move || -> (Client<U>, bool)
        requires { IsClient (words U.client U.bound U.plan U.fits U.turn) hall.now client }
        ensures { ComesBack (words U.client U.bound U.plan U.fits U.turn) hall.entry.now client
            result }
    { run_unless(rt, hall, by_hand, client) };
    match scope.spawn_with(promise, job) {
        Ok(handle) => Ok(handle),
        Err(refused) => {
            by_hand.store(true, SeqCst);
            let back = (refused.value)();
            Err(untouched(rt, back))
        }
    }
}

// Starts the client's thread, where it has a flag. Where the system refuses it the client stays
// here.
fn place<'s, E, U: Runner + Send + 's, R: Threads + Wait + Sync>(
    scope: &Scope<'s, E>,
    rt: &'s R,
    hall: &'s Hall,
    flag: Option<&'s AtomicBool>,
    client: Client<U>,
) -> Started<U>
    requires client { IsClient (words U.client U.bound U.plan U.fits U.turn) hall.now client }
    ensures placed { HasItsPlace (words U.client U.bound U.plan U.fits U.turn) hall.now client
        result }
    ensures came { IsAsItCame client result }
    ensures stays { IfNone flag.entry (result ≡ stays client) }
{
    let Some(by_hand) = flag else {
        return Started::Here { client };
    };
    let since = Since {
        hall: Snapshot::of(hall),
        client: Snapshot::of(&client),
    };
    match launch(scope, rt, hall, by_hand, since, client) {
        Ok(handle) => Started::Away { handle },
        Err(client) => Started::Here { client },
    }
}

/// Starts a thread for each of the first clients, as many as there are flags, none of which is
/// set. The others stay here, and so does each whose thread the system refuses. No call of a client
/// that stays is made.
pub fn start_all<'s, E, U: Runner + Send + 's, R: Threads + Wait + Sync>(
    scope: &Scope<'s, E>,
    rt: &'s R,
    hall: &'s Hall,
    flags: &'s [AtomicBool],
    clients: Vec<Client<U>>,
    started: &mut Vec<Started<U>>,
)
    requires clients { All (IsClient (words U.client U.bound U.plan U.fits U.turn) hall.now)
        clients.items }
    requires none { started.old.items ≡ [] }
    requires room { length clients.items ≤ vec_capacity started.old }
    ensures placed { Each (HasItsPlace (words U.client U.bound U.plan U.fits U.turn) hall.now)
        clients.items started.new.items }
    ensures came { Each IsAsItCame clients.items started.new.items }
    ensures others { drop (length flags.now) started.new.items
        ≡ map stays (drop (length flags.now) clients.items) }
{
    for client in clients {
        let flag = flags.get(started.len());
        let one = place(scope, rt, hall, flag, client);
        started.push_reserved(one);
    }
}

// Waits for a client that is away.
fn join<U: Runner, R: Threads + Wait>(rt: &R, hall: &Hall, started: Started<U>) -> Client<U>
    requires placed { IsWaitedFor (words U.client U.bound U.plan U.fits U.turn) hall.now started }
    ensures joined { IsJoined (words U.client U.bound U.plan U.fits U.turn) hall.now started
        result }
{
    match started {
        Started::Away { handle } => {
            let (client, served) = handle.join(rt);
            if served {
                client
            } else {
                serve(rt, hall, client)
            }
        }
        Started::Here { client } => client,
    }
}

/// Waits for the clients that are away, each of which is served, and gives all back in their
/// places.
pub fn join_all<U: Runner, R: Threads + Wait>(
    rt: &R,
    hall: &Hall,
    started: Vec<Started<U>>,
    clients: &mut Vec<Client<U>>,
)
    requires placed { All (IsWaitedFor (words U.client U.bound U.plan U.fits U.turn) hall.now)
        started.items }
    requires none { clients.old.items ≡ [] }
    requires room { length started.items ≤ vec_capacity clients.old }
    ensures joined { Each (IsJoined (words U.client U.bound U.plan U.fits U.turn) hall.now)
        started.items clients.new.items }
{
    for one in started {
        let client = join(rt, hall, one);
        clients.push_reserved(client);
    }
}
