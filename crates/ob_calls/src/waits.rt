//! A client's calls that may ask again: get and commit.

ghost use Rattle.std.specs.Prelude.{◌≡◌, ◌<◌, ℕ, [], ◌∷◌, IfOk, OnErr};
ghost use Rattle.ob_desk.specs.Desk as desks;
ghost use Rattle.ob_desk.specs.Calls.{got_reply, done_reply};
ghost use Rattle.ob_desk.specs.declared.calls.Txn.{Txn};
ghost use Rattle.ob_session.specs.Steps.{steps_of};
ghost use Rattle.ob_hall.specs.Passes.{opening_of, last_of_pass};
ghost use Rattle.ob_hall.specs.Calling.{IsReady, IsBetween, IsIn, HasNotSignedOff, TellsCalls};
ghost use Rattle.ob_calls.specs.Saying.{StaysIn};
ghost use Rattle.ob_calls.specs.Waiting.{IsWaiting, HasBegun, AskSays, AskStands, IsGetAnswer, GetSays, CommitSays};

use crate::calls::{Refused, enter, no_call};
use ob_base::{Key, Memory, Value};
use ob_desk::{Done, Got, Txn};
use ob_hall::{Hall, Pass};
use ob_serial::Outcome;
use ob_session::{Made, Said};
use std::sync::Wait;

// A get's first turn.
fn ask<R: Wait>(rt: &R, hall: &Hall, pass: &mut Pass, txn: &Txn, key: Key) -> Result<Got, Memory>
    requires ready { IsReady hall.now pass.old }
    requires inside { IsIn pass.old txn.now }
    requires key { key < (opening_of hall.now).setup.params.keys }
    ensures one_history { TellsCalls hall.now pass.old pass.new (AskSays txn.now key result) }
    ensures stands { AskStands result pass.new txn.now }
    ensures last { last_of_pass pass.new ≡ last_of_pass pass.old }
    ensures ready { IsReady hall.now pass.new }
{
    let mut desk = enter(rt, hall, pass);
    match desk.get(txn, key) {
        Ok(reply) => {
            hall.leave_client(pass, desk, got(txn, key, &reply));
            Ok(reply)
        }
        Err(memory) => {
            hall.leave_client(pass, desk, no_call());
            Err(memory)
        }
    }
}

// A turn in which it's asked once more for a get's key.
fn ask_again<R: Wait>(rt: &R, hall: &Hall, pass: &mut Pass, txn: &Txn) -> Got
    requires ready { IsReady hall.now pass.old }
    requires waiting { IsWaiting pass.old txn.now }
    ensures one_history { TellsCalls hall.now pass.old pass.new (λ calls. calls
        ≡ (desks.Poll txn.now, got_reply result) ∷ []) }
    ensures last { last_of_pass pass.new ≡ last_of_pass pass.old }
    ensures ready { IsReady hall.now pass.new }
{
    let mut desk = enter(rt, hall, pass);
    let reply = desk.poll(txn);
    hall.leave_client(pass, desk, got_again(txn, &reply));
    reply
}

// A turn in which it's asked to commit.
fn ask_to_commit<R: Wait>(rt: &R, hall: &Hall, pass: &mut Pass, txn: &Txn) -> Done
    requires ready { IsReady hall.now pass.old }
    requires inside { IsIn pass.old txn.now }
    ensures one_history { TellsCalls hall.now pass.old pass.new (λ calls. calls
        ≡ (desks.Commit txn.now, done_reply result) ∷ []) }
    ensures last { last_of_pass pass.new ≡ last_of_pass pass.old }
    ensures ready { IsReady hall.now pass.new }
{
    let mut desk = enter(rt, hall, pass);
    let reply = desk.commit(txn);
    hall.leave_client(pass, desk, Made::one(Said::Commit { txn: *txn, reply }));
    reply
}

// A turn in which it's asked how the transaction ended, if it has.
fn ask_for_end<R: Wait>(rt: &R, hall: &Hall, pass: &mut Pass, txn: &Txn) -> Option<Outcome<Key>>
    requires ready { IsReady hall.now pass.old }
    requires begun { HasBegun pass.old txn.now }
    ensures one_history { TellsCalls hall.now pass.old pass.new (λ calls. calls
        ≡ (desks.Settled txn.now, desks.IsSettled result) ∷ []) }
    ensures last { last_of_pass pass.new ≡ last_of_pass pass.old }
    ensures ready { IsReady hall.now pass.new }
{
    let desk = enter(rt, hall, pass);
    let outcome = desk.settled(txn);
    hall.leave_client(pass, desk, Made::one(Said::Settled { txn: *txn, outcome }));
    outcome
}

/// A key's value, none where it is absent. Where the key has to be fetched it asks again, in a
/// turn each, and sleeps in between.
///
/// # Errors
/// The transaction is aborted; or memory was wanting at the first turn, and the desk is as
/// before.
pub fn get<R: Wait>(
    rt: &R,
    hall: &Hall,
    pass: &mut Pass,
    key: Key,
) -> Result<Option<Value>, Refused>
    requires ready { IsReady hall.now pass.old }
    requires inside { (x : Txn) × IsIn pass.old x }
    requires key { key < (opening_of hall.now).setup.params.keys }
    ensures one_history { (x : Txn) → IsIn pass.old x
        → TellsCalls hall.now pass.old pass.new (GetSays x key result) }
    ensures last { last_of_pass pass.new ≡ last_of_pass pass.old }
    ensures stands { (x : Txn) → IsIn pass.old x → StaysIn result pass.old pass.new x }
    ensures ready { IsReady hall.now pass.new }
{
    let Some(txn) = pass.last else { unreachable!() };
    let mut seen = hall.news();
    let mut reply = match ask(rt, hall, pass, &txn, key) {
        Ok(reply) => reply,
        Err(_) => return Err(Refused::Memory),
    };
    for _ in rt.forever() {
        match end_of(&reply) {
            Some(answer) => return answer,
            None => hall.nap(rt, seen),
        }
        seen = hall.news();
        reply = ask_again(rt, hall, pass, &txn);
    }
    unreachable!()
}

/// Asks to commit, and waits until the transaction has ended: it asks how in a turn each, and
/// sleeps in between.
pub fn commit<R: Wait>(rt: &R, hall: &Hall, pass: &mut Pass) -> Outcome<Key>
    requires ready { IsReady hall.now pass.old }
    requires inside { (x : Txn) × IsIn pass.old x }
    ensures one_history { (x : Txn) → IsIn pass.old x
        → TellsCalls hall.now pass.old pass.new (CommitSays x result) }
    ensures last { last_of_pass pass.new ≡ last_of_pass pass.old }
    ensures stands { HasNotSignedOff pass.old → IsBetween pass.new }
    ensures ready { IsReady hall.now pass.new }
{
    let Some(txn) = pass.last else { unreachable!() };
    match ask_to_commit(rt, hall, pass, &txn) {
        Done::Yes => {}
        Done::Aborted { why } => return Outcome::Aborted { why },
    }
    for _ in rt.forever() {
        let seen = hall.news();
        match ask_for_end(rt, hall, pass, &txn) {
            Some(outcome) => return outcome,
            None => hall.nap(rt, seen),
        }
    }
    unreachable!()
}

// How a get ended that was answered so, if it did.
fn end_of(got: &Got) -> Option<Result<Option<Value>, Refused>>
    ensures { IsGetAnswer got.now result }
{
    match got {
        Got::Value { value } => Some(Ok(*value)),
        Got::Aborted { why } => Some(Err(Refused::Aborted { why: *why })),
        Got::Queued => None,
    }
}

// A get with its reply.
fn got(txn: &Txn, key: Key, reply: &Got) -> Made
    ensures { steps_of result ≡ (desks.GetKey txn.now key, got_reply reply.now) ∷ [] }
{
    Made::one(Said::Get {
        txn: *txn,
        key,
        reply: *reply,
    })
}

// A poll with its reply.
fn got_again(txn: &Txn, reply: &Got) -> Made
    ensures { steps_of result ≡ (desks.Poll txn.now, got_reply reply.now) ∷ [] }
{
    Made::one(Said::Poll {
        txn: *txn,
        reply: *reply,
    })
}
