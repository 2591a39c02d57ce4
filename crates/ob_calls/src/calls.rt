//! A client's calls that wait for nothing but a turn.

ghost use Rattle.std.specs.Prelude.{◌≡◌, ◌<◌, ℕ, List, [], ◌∷◌, Option, Some, None, Ok};
ghost use Rattle.ob_desk.specs.Desk as desks;
ghost use Rattle.ob_desk.specs.Calls.{done_reply};
ghost use Rattle.ob_desk.specs.declared.calls.Txn.{Txn};
ghost use Rattle.ob_session.specs.Steps.{steps_of};
ghost use Rattle.ob_hall.specs.Passes.{opening_of, last_of_pass, IsPassOf, IsOutOfTurn, EntersTurn};
ghost use Rattle.ob_hall.specs.Calling.{IsReady, IsBetween, IsIn, TellsCalls, HasNotSignedOff};
ghost use Rattle.ob_calls.specs.Saying.{BeginSays, BeginStands, IsNamed, last_begun, WriteSays, StaysIn};

use ob_base::{Key, Memory, Value};
use ob_desk::{Begun, Desk, Done, Txn};
use ob_hall::{Hall, Pass};
use ob_serial::Why;
use ob_session::{Made, Said};
use std::sync::Wait;

/// Why a call was not done.
#[derive(Clone, Copy)]
pub enum Refused {
    /// The transaction is aborted.
    Aborted { why: Why<Key> },
    /// Memory was wanting. The desk is as before.
    Memory,
}

/// Waits for the pass's turn, and takes the desk out. The pass has then seen the whole history,
/// which leads to the desk.
pub fn enter<R: Wait>(rt: &R, hall: &Hall, pass: &mut Pass) -> Desk
    requires own { IsPassOf hall.now pass.old }
    requires idle { IsOutOfTurn pass.old }
    ensures entered { EntersTurn hall.now pass.old pass.new result }
    ensures own { IsPassOf hall.now pass.new }
{
    let (desk, _) = hall.enter_behind(rt, pass, 0);
    desk
}

/// Begins the client's next transaction, in one turn.
///
/// # Errors
/// Memory was wanting. The desk is as before.
pub fn begin<R: Wait>(rt: &R, hall: &Hall, pass: &mut Pass) -> Result<Begun, Memory>
    requires ready { IsReady hall.now pass.old }
    requires between { IsBetween pass.old }
    ensures one_history { TellsCalls hall.now pass.old pass.new
        (BeginSays pass.old.client result) }
    ensures last { last_of_pass pass.new ≡ last_begun (last_of_pass pass.old) result }
    ensures named { IsNamed pass.old.client result }
    ensures stands { BeginStands result pass.new }
    ensures ready { IsReady hall.now pass.new }
{
    let client = pass.client;
    let mut desk = enter(rt, hall, pass);
    match desk.begin(client) {
        Ok(reply) => {
            hall.leave_client(pass, desk, Made::one(Said::Begin { client, reply }));
            pass.last = last_behind(pass.last, &reply);
            Ok(reply)
        }
        Err(memory) => {
            hall.leave_client(pass, desk, no_call());
            Err(memory)
        }
    }
}

/// Writes a value under a key, in one turn.
///
/// # Errors
/// The transaction is aborted; or memory was wanting, and the desk is as before.
pub fn put<R: Wait>(
    rt: &R,
    hall: &Hall,
    pass: &mut Pass,
    key: Key,
    value: Value,
) -> Result<(), Refused>
    requires ready { IsReady hall.now pass.old }
    requires inside { (x : Txn) × IsIn pass.old x }
    requires key { key < (opening_of hall.now).setup.params.keys }
    ensures one_history { (x : Txn) → IsIn pass.old x
        → TellsCalls hall.now pass.old pass.new (WriteSays x key (Some value) result) }
    ensures last { last_of_pass pass.new ≡ last_of_pass pass.old }
    ensures stands { (x : Txn) → IsIn pass.old x → StaysIn result pass.old pass.new x }
    ensures ready { IsReady hall.now pass.new }
{
    let Some(txn) = pass.last else { unreachable!() };
    let mut desk = enter(rt, hall, pass);
    match desk.put(&txn, key, value) {
        Ok(reply) => {
            let said = Said::Write {
                txn,
                key,
                value: Some(value),
                reply,
            };
            hall.leave_client(pass, desk, Made::one(said));
            answer_of(&reply)
        }
        Err(_) => {
            hall.leave_client(pass, desk, no_call());
            Err(Refused::Memory)
        }
    }
}

/// Deletes a key, in one turn.
///
/// # Errors
/// The transaction is aborted; or memory was wanting, and the desk is as before.
pub fn del<R: Wait>(rt: &R, hall: &Hall, pass: &mut Pass, key: Key) -> Result<(), Refused>
    requires ready { IsReady hall.now pass.old }
    requires inside { (x : Txn) × IsIn pass.old x }
    requires key { key < (opening_of hall.now).setup.params.keys }
    ensures one_history { (x : Txn) → IsIn pass.old x
        → TellsCalls hall.now pass.old pass.new (WriteSays x key None result) }
    ensures last { last_of_pass pass.new ≡ last_of_pass pass.old }
    ensures stands { (x : Txn) → IsIn pass.old x → StaysIn result pass.old pass.new x }
    ensures ready { IsReady hall.now pass.new }
{
    let Some(txn) = pass.last else { unreachable!() };
    let mut desk = enter(rt, hall, pass);
    match desk.del(&txn, key) {
        Ok(reply) => {
            let said = Said::Write {
                txn,
                key,
                value: None,
                reply,
            };
            hall.leave_client(pass, desk, Made::one(said));
            answer_of(&reply)
        }
        Err(_) => {
            hall.leave_client(pass, desk, no_call());
            Err(Refused::Memory)
        }
    }
}

/// Aborts the client's transaction, in one turn. The cause is the earlier one where it was
/// aborted already.
pub fn abort<R: Wait>(rt: &R, hall: &Hall, pass: &mut Pass) -> Why<Key>
    requires ready { IsReady hall.now pass.old }
    requires inside { (x : Txn) × IsIn pass.old x }
    ensures one_history { (x : Txn) → IsIn pass.old x
        → TellsCalls hall.now pass.old pass.new (λ calls. calls
        ≡ (desks.Abort x, desks.Aborted result) ∷ []) }
    ensures last { last_of_pass pass.new ≡ last_of_pass pass.old }
    ensures stands { HasNotSignedOff pass.old → IsBetween pass.new }
    ensures ready { IsReady hall.now pass.new }
{
    let Some(txn) = pass.last else { unreachable!() };
    let mut desk = enter(rt, hall, pass);
    let why = desk.abort(&txn);
    hall.leave_client(pass, desk, Made::one(Said::Abort { txn, why }));
    why
}

/// The client makes no more transactions.
pub fn sign_off<R: Wait>(rt: &R, hall: &Hall, pass: &mut Pass)
    requires ready { IsReady hall.now pass.old }
    requires between { IsBetween pass.old }
    ensures one_history { TellsCalls hall.now pass.old pass.new (λ calls. calls
        ≡ (desks.SignOff pass.old.client, desks.Done) ∷ []) }
    ensures last { last_of_pass pass.new ≡ last_of_pass pass.old }
    ensures ready { IsReady hall.now pass.new }
{
    let client = pass.client;
    let mut desk = enter(rt, hall, pass);
    desk.sign_off(client);
    hall.leave_client(pass, desk, Made::one(Said::SignOff { client }));
}

// No call was made.
pub(crate) fn no_call() -> Made
    ensures { steps_of result ≡ [] }
{
    Made::NONE
}

// The last transaction behind a begin that was answered so.
fn last_behind(last: Option<Txn>, begun: &Begun) -> Option<Txn>
    ensures { result ≡ last_begun last (Ok begun.now) }
{
    match begun {
        Begun::Txn { txn } => Some(*txn),
        Begun::Stopped { .. } => last,
    }
}

// What a put or a delete that was answered so tells its caller.
fn answer_of(reply: &Done) -> Result<(), Refused>
    ensures { (x : Txn) (key : ℕ) (value : Option (List ℕ))
        → WriteSays x key value result ((desks.Write x key value, done_reply reply.now) ∷ []) }
{
    match reply {
        Done::Yes => Ok(()),
        Done::Aborted { why } => Err(Refused::Aborted { why: *why }),
    }
}
