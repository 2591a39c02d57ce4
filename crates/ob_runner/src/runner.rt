//! A client that makes the calls that its script asks for.

ghost use Rattle.std.specs.Prelude.{◌≡◌, ◌<◌, length, true, IfOk, [], Some, option_map, slice_get};
ghost use Rattle.ob_base.specs.declared.op.Op.TheVariants as op;
ghost use Rattle.ob_desk.specs.Calls.{begun_reply, got_reply, done_reply};
ghost use Rattle.ob_session.specs.Steps.{steps_of};
ghost use Rattle.ob_script.specs.Script.{asks_by};
ghost use Rattle.ob_script.specs.ScriptViews.{script_of, script_txn_of};
ghost use Rattle.ob_runner.specs.Places as places;

use crate::place::{Place, Read, Wanted};
use crate::sums::sum_of;
use ob_base::{Fault, Key, Memory, Value};
use ob_desk::{Begun, Desk, Done, Got, Txn};
use ob_script::{Ask, Ending, ScriptTxn, Scripts};
use ob_session::{Made, Runner, Said, Step};
use std::alloc::{AllocError, Global};

/// Makes the calls that its client's transactions in a script ask for, one in each step.
///
/// A transaction's operations are made in order, and then it commits or aborts as the script says.
/// An `add` is a get and, in a later step, a put of the sum; or the transaction's abort, where the
/// value is no canonical integer in i64 or the sum is out of range. Who asked to commit asks how it
/// ended until that is told. An aborted transaction is not tried again: the next one of the script
/// follows. At the script's end, or when it is told that no more transactions begin, it signs off.
#[derive(Drop)]
pub struct ScriptRunner {
    client: u32,
    keys: Key,
    txns: Vec<ScriptTxn>,
    at: usize,
    place: Place,
}

fn copy(alloc: Global, txn: &ScriptTxn) -> Result<ScriptTxn, AllocError>
    ensures { IfOk result (λ copied. script_txn_of copied ≡ script_txn_of txn.now) }
{
    Ok(ScriptTxn {
        client: txn.client,
        asks: Vec::from_slice(alloc, &txn.asks)?,
        ending: txn.ending,
    })
}

// Copies the transactions of one client, in order.
fn copy_by(
    alloc: Global,
    own: &mut Vec<ScriptTxn>,
    txns: &[ScriptTxn],
    client: u32,
) -> Result<(), AllocError>
    requires { own.old.items ≡ [] }
    ensures { IfOk result (λ done. script_of own.new.items ≡ asks_by client (script_of txns.now)) }
{
    for txn in txns {
        if txn.client == client {
            own.push(copy(alloc, txn)?)?;
        }
    }
    Ok(())
}

// Memory was wanting: stops the desk.
fn halt(desk: &mut Desk) -> (Step, Made)
    ensures { places.Halts desk.old result.0 (steps_of result.1) desk.new }
{
    let fault = Fault::Memory;
    desk.stop(fault);
    (Step::Ran, Made::one(Said::Stop { fault }))
}

// The place behind a get that was answered with this value.
fn place_behind(txn: &Txn, read: &Read, value: &Option<Value>) -> Place
    ensures { result
        ≡ places.place_behind txn.now read.now.key read.now.next read.now.amount value.now }
{
    match read.amount {
        None => Place::Next {
            txn: *txn,
            ask: read.next,
        },
        Some(amount) => Place::Adding {
            txn: *txn,
            key: read.key,
            sum: sum_of(value, amount),
            next: read.next,
        },
    }
}

impl ScriptRunner {
    ghost use Rattle.ob_runner.specs.RunnerViews.{runner_state};

    /// A runner of a client's transactions in a script. It has made no call.
    ///
    /// # Errors
    /// Memory was wanting.
    pub fn new(alloc: Global, scripts: &Scripts, client: u32) -> Result<ScriptRunner, Memory>
        ensures client { IfOk result (λ r. (runner_state r).client ≡ client) }
        ensures bound { IfOk result (λ r. (runner_state r).keys ≡ scripts.now.keys) }
        ensures plan { IfOk result (λ r. (runner_state r).script
            ≡ asks_by client scripts.now.txns) }
        ensures fits { IfOk result (λ r. places.Fits (runner_state r) []) }
    {
        let mut txns = Vec::new(alloc);
        copy_by(alloc, &mut txns, scripts.txns(), client)?;
        Ok(ScriptRunner {
            client,
            keys: scripts.keys(),
            txns,
            at: 0,
            place: Place::Between,
        })
    }

    // Its transaction is over.
    fn finish(&mut self)
        requires { places.IsInScript (runner_state self.old) }
        ensures { runner_state self.new ≡ places.finished (runner_state self.old) }
    {
        self.at += 1;
        self.place = Place::Between;
    }

    // What its script wants at this index of its transaction.
    fn wanted(&self, ask: usize) -> Wanted
        requires { places.IsInScript (runner_state self.now) }
        ensures { option_map (λ s. places.wanted_of s ask)
            (slice_get (script_of self.now.txns.items) self.now.at) ≡ Some result }
    {
        let txn = &self.txns[self.at];
        match txn.asks.get(ask) {
            Some(found) => Wanted::Ask {
                ask: *found,
                next: ask + 1,
            },
            None => Wanted::End { ending: txn.ending },
        }
    }

    // Goes on behind a get, or a poll for it, that was answered so.
    fn take_got(&mut self, txn: &Txn, read: &Read, got: &Got) -> Step
        requires { places.IsInScript (runner_state self.old) }
        ensures state { runner_state self.new
            ≡ places.after_got txn.now read.now (got_reply got.now) (runner_state self.old) }
        ensures stand { result ≡ places.stand_of (got_reply got.now) }
    {
        match got {
            Got::Value { value } => {
                self.place = place_behind(txn, read, value);
                Step::Ran
            }
            Got::Queued => {
                self.place = Place::Waiting {
                    txn: *txn,
                    read: *read,
                };
                Step::Waits
            }
            Got::Aborted { .. } => {
                self.finish();
                Step::Ran
            }
        }
    }

    // Goes on behind a call that was answered so, and that this place follows where it was done.
    fn take_done(&mut self, place: &Place, done: &Done)
        requires { places.IsInScript (runner_state self.old) }
        ensures { runner_state self.new
            ≡ places.after_done place.now (done_reply done.now) (runner_state self.old) }
    {
        match done {
            Done::Yes => self.place = *place,
            Done::Aborted { .. } => self.finish(),
        }
    }

    // Goes on behind a begin that was answered so.
    fn take_begun(&mut self, begun: &Begun)
        ensures { runner_state self.new
            ≡ places.after_begun (begun_reply begun.now) (runner_state self.old) }
    {
        match begun {
            Begun::Txn { txn } => self.place = Place::Next { txn: *txn, ask: 0 },
            Begun::Stopped { .. } => self.place = Place::Stopped,
        }
    }

    // Begins its next transaction.
    fn begin(&mut self, desk: &mut Desk) -> (Step, Made)
        requires may { places.MayStep (runner_state self.old) desk.old }
        requires place { self.old.place ≡ Place.Between }
        requires more { places.IsInScript (runner_state self.old) }
        ensures { places.StepsTo (runner_state self.old) desk.old result.0 (steps_of result.1)
            (runner_state self.new) desk.new }
    {
        let client = self.client;
        let Ok(reply) = desk.begin(client) else {
            return halt(desk);
        };
        self.take_begun(&reply);
        (Step::Ran, Made::one(Said::Begin { client, reply }))
    }

    // Signs off.
    fn sign_off(&mut self, desk: &mut Desk) -> (Step, Made)
        requires may { places.MayStep (runner_state self.old) desk.old }
        requires done { places.IsDone (runner_state self.old) }
        ensures { places.StepsTo (runner_state self.old) desk.old result.0 (steps_of result.1)
            (runner_state self.new) desk.new }
    {
        let client = self.client;
        desk.sign_off(client);
        self.place = Place::Over;
        (Step::Done, Made::one(Said::SignOff { client }))
    }

    // Makes the get of an ask.
    fn get(&mut self, desk: &mut Desk, txn: &Txn, read: &Read) -> (Step, Made)
        requires may { places.MayStep (runner_state self.old) desk.old }
        requires place { places.IsAtWork txn.now self.old.place }
        requires takes { places.takes_memory self.old.place
            (slice_get (runner_state self.old).script self.old.at) ≡ true }
        requires read { places.InTxn (runner_state self.old)
            (places.IsReading txn.now None read.now) }
        ensures { places.StepsTo (runner_state self.old) desk.old result.0 (steps_of result.1)
            (runner_state self.new) desk.new }
    {
        let key = read.key;
        let Ok(reply) = desk.get(txn, key) else {
            return halt(desk);
        };
        let stand = self.take_got(txn, read, &reply);
        let txn = *txn;
        (stand, Made::one(Said::Get { txn, key, reply }))
    }

    // Asks for the answer to a get once more.
    fn poll(&mut self, desk: &mut Desk, txn: &Txn, read: &Read) -> (Step, Made)
        requires may { places.MayStep (runner_state self.old) desk.old }
        requires place { self.old.place ≡ Place.Waiting txn.now read.now }
        ensures { places.StepsTo (runner_state self.old) desk.old result.0 (steps_of result.1)
            (runner_state self.new) desk.new }
    {
        let reply = desk.poll(txn);
        let stand = self.take_got(txn, read, &reply);
        let txn = *txn;
        (stand, Made::one(Said::Poll { txn, reply }))
    }

    // Makes a put, behind which the ask at this index is next.
    fn put(
        &mut self,
        desk: &mut Desk,
        txn: &Txn,
        key: Key,
        value: &Value,
        next: usize,
    ) -> (Step, Made)
        requires may { places.MayStep (runner_state self.old) desk.old }
        requires place { places.IsAtWork txn.now self.old.place }
        requires key { key < self.old.keys }
        requires takes { places.takes_memory self.old.place
            (slice_get (runner_state self.old).script self.old.at) ≡ true }
        requires put { places.InTxn (runner_state self.old)
            (places.MeetsAsks (op.Put key value.now) next) }
        ensures { places.StepsTo (runner_state self.old) desk.old result.0 (steps_of result.1)
            (runner_state self.new) desk.new }
    {
        let Ok(reply) = desk.put(txn, key, *value) else {
            return halt(desk);
        };
        let txn = *txn;
        self.take_done(&Place::Next { txn, ask: next }, &reply);
        let value = Some(*value);
        (
            Step::Ran,
            Made::one(Said::Write {
                txn,
                key,
                value,
                reply,
            }),
        )
    }

    // Makes a delete, behind which the ask at this index is next.
    fn del(&mut self, desk: &mut Desk, txn: &Txn, key: Key, next: usize) -> (Step, Made)
        requires may { places.MayStep (runner_state self.old) desk.old }
        requires place { places.IsAtWork txn.now self.old.place }
        requires key { key < self.old.keys }
        requires takes { places.takes_memory self.old.place
            (slice_get (runner_state self.old).script self.old.at) ≡ true }
        requires del { places.InTxn (runner_state self.old) (places.MeetsAsks (op.Del key) next) }
        ensures { places.StepsTo (runner_state self.old) desk.old result.0 (steps_of result.1)
            (runner_state self.new) desk.new }
    {
        let Ok(reply) = desk.del(txn, key) else {
            return halt(desk);
        };
        let txn = *txn;
        self.take_done(&Place::Next { txn, ask: next }, &reply);
        let value = None;
        (
            Step::Ran,
            Made::one(Said::Write {
                txn,
                key,
                value,
                reply,
            }),
        )
    }

    // Asks to commit.
    fn commit(&mut self, desk: &mut Desk, txn: &Txn) -> (Step, Made)
        requires may { places.MayStep (runner_state self.old) desk.old }
        requires place { places.IsAtWork txn.now self.old.place }
        requires end { places.InTxn (runner_state self.old) (places.IsAtTxnEnd Ending.Commit) }
        ensures { places.StepsTo (runner_state self.old) desk.old result.0 (steps_of result.1)
            (runner_state self.new) desk.new }
    {
        let reply = desk.commit(txn);
        let txn = *txn;
        self.take_done(&Place::Asked { txn }, &reply);
        (Step::Ran, Made::one(Said::Commit { txn, reply }))
    }

    // Aborts its transaction.
    fn abort(&mut self, desk: &mut Desk, txn: &Txn) -> (Step, Made)
        requires may { places.MayStep (runner_state self.old) desk.old }
        requires place { places.IsAtWork txn.now self.old.place }
        requires end { places.InTxn (runner_state self.old) places.IsToAbort }
        ensures { places.StepsTo (runner_state self.old) desk.old result.0 (steps_of result.1)
            (runner_state self.new) desk.new }
    {
        let why = desk.abort(txn);
        self.finish();
        let txn = *txn;
        (Step::Ran, Made::one(Said::Abort { txn, why }))
    }

    // Asks how its transaction ended.
    fn settle(&mut self, desk: &mut Desk, txn: &Txn) -> (Step, Made)
        requires may { places.MayStep (runner_state self.old) desk.old }
        requires place { self.old.place ≡ Place.Asked txn.now }
        ensures { places.StepsTo (runner_state self.old) desk.old result.0 (steps_of result.1)
            (runner_state self.new) desk.new }
    {
        let outcome = desk.settled(txn);
        let txn = *txn;
        let made = Made::one(Said::Settled { txn, outcome });
        if outcome.is_none() {
            return (Step::Waits, made);
        }
        self.finish();
        (Step::Ran, made)
    }

    // Makes the next call of its transaction for this ask.
    fn make(
        &mut self,
        desk: &mut Desk,
        txn: &Txn,
        ask: &Ask,
        at: usize,
        next: usize,
    ) -> (Step, Made)
        requires may { places.MayStep (runner_state self.old) desk.old }
        requires place { self.old.place ≡ Place.Next txn.now at }
        requires ask { places.InTxn (runner_state self.old) (places.IsAskAt ask.now at next) }
        ensures { places.StepsTo (runner_state self.old) desk.old result.0 (steps_of result.1)
            (runner_state self.new) desk.new }
    {
        match ask {
            Ask::Get { key } => {
                let amount = None;
                let key = *key;
                self.get(desk, txn, &Read { key, amount, next })
            }
            Ask::Put { key, value } => self.put(desk, txn, *key, value, next),
            Ask::Del { key } => self.del(desk, txn, *key, next),
            Ask::Add { key, amount } => {
                let amount = Some(*amount);
                let key = *key;
                self.get(desk, txn, &Read { key, amount, next })
            }
        }
    }

    // Makes the call that its script wants at this index of its transaction.
    fn go_on(&mut self, desk: &mut Desk, txn: &Txn, at: usize) -> (Step, Made)
        requires may { places.MayStep (runner_state self.old) desk.old }
        requires place { self.old.place ≡ Place.Next txn.now at }
        ensures { places.StepsTo (runner_state self.old) desk.old result.0 (steps_of result.1)
            (runner_state self.new) desk.new }
    {
        match self.wanted(at) {
            Wanted::Ask { ask, next } => self.make(desk, txn, &ask, at, next),
            Wanted::End { ending } => match ending {
                Ending::Commit => self.commit(desk, txn),
                Ending::Abort => self.abort(desk, txn),
            },
        }
    }

    // Makes the put of an `add`, or aborts where there is no sum.
    fn add(
        &mut self,
        desk: &mut Desk,
        txn: &Txn,
        key: Key,
        sum: &Option<Value>,
        next: usize,
    ) -> (Step, Made)
        requires may { places.MayStep (runner_state self.old) desk.old }
        requires place { self.old.place ≡ Place.Adding txn.now key sum.now next }
        ensures { places.StepsTo (runner_state self.old) desk.old result.0 (steps_of result.1)
            (runner_state self.new) desk.new }
    {
        match sum {
            Some(sum) => self.put(desk, txn, key, sum, next),
            None => self.abort(desk, txn),
        }
    }

    fn between(&mut self, desk: &mut Desk) -> (Step, Made)
        requires may { places.MayStep (runner_state self.old) desk.old }
        requires place { self.old.place ≡ Place.Between }
        ensures { places.StepsTo (runner_state self.old) desk.old result.0 (steps_of result.1)
            (runner_state self.new) desk.new }
    {
        if self.at < self.txns.len() {
            self.begin(desk)
        } else {
            self.sign_off(desk)
        }
    }

    // Makes the call that is next where it stands.
    fn call(&mut self, desk: &mut Desk) -> (Step, Made)
        requires { places.MayStep (runner_state self.old) desk.old }
        ensures { places.StepsTo (runner_state self.old) desk.old result.0 (steps_of result.1)
            (runner_state self.new) desk.new }
    {
        let place = self.place;
        match &place {
            Place::Between => self.between(desk),
            Place::Next { txn, ask } => self.go_on(desk, txn, *ask),
            Place::Waiting { txn, read } => self.poll(desk, txn, read),
            Place::Adding {
                txn,
                key,
                sum,
                next,
            } => self.add(desk, txn, *key, sum, *next),
            Place::Asked { txn } => self.settle(desk, txn),
            Place::Stopped => self.sign_off(desk),
            Place::Over => (Step::Done, Made::NONE),
        }
    }
}

impl Runner for ScriptRunner {
    ghost use Rattle.std.specs.Prelude.{◌≤◌, ◌++◌, List, All, false};
    ghost use Rattle.ob_desk.specs.Desk.{Call, Reply};
    ghost use Rattle.ob_session.specs.Steps.{Leads, IsOwn};
    ghost use Rattle.ob_session.specs.Clients.{said_by, stands_after, IsOneCall};
    ghost use Rattle.ob_session.specs.Agreeing.{Agrees};
    ghost use Rattle.ob_script.specs.Script.{ScriptTxn as Asked};
    ghost use Rattle.ob_script.specs.ScriptViews.{script_of};
    ghost use Rattle.ob_runner.specs.RunnerViews.{runner_state};
    ghost use Rattle.ob_runner.specs.Places.{Fits};
    ghost use Rattle.ob_runner.specs.Turns.{IsScriptTurn};

    ghost client = { λ r. r.client };

    ghost bound = { λ r. r.keys };

    ghost Plan = { List Asked };

    ghost plan = { λ r. script_of r.txns.items };

    ghost fits = { λ r said. Fits (runner_state r) said };

    ghost turn = { IsScriptTurn };

    /// Makes its script's next call, or none behind its sign-off. It stops the desk alone where a
    /// begin, a get, a put or a delete finds no memory, and makes that call again in its next step.
    fn step(&mut self, desk: &mut Desk) -> (Step, Made)
        requires bound { self.old.keys ≤ desk.old.setup.params.keys }
        requires agrees { (said : List (Call × Reply)) × Fits (runner_state self.old) said
            × Agrees desk.old self.old.client said }
        ensures client { self.new.client ≡ self.old.client }
        ensures bound { self.new.keys ≡ self.old.keys }
        ensures plan { script_of self.new.txns.items ≡ script_of self.old.txns.items }
        ensures made { Leads desk.old (steps_of result.1) desk.new }
        ensures one { (said : List (Call × Reply)) → Fits (runner_state self.old) said
            → IsOneCall said (steps_of result.1) }
        ensures turn { (said : List (Call × Reply)) → Fits (runner_state self.old) said
            → IsScriptTurn (script_of self.old.txns.items) self.old.client said
            (steps_of result.1) }
        ensures own { All (IsOwn self.old.client) (steps_of result.1) }
        ensures fits { (said : List (Call × Reply)) → Fits (runner_state self.old) said
            → Fits (runner_state self.new) (said ++ said_by self.old.client (steps_of result.1)) }
        ensures step { (said : List (Call × Reply)) → Fits (runner_state self.old) said
            → result.0 ≡ stands_after (said ++ said_by self.old.client (steps_of result.1)) }
    {
        self.call(desk)
    }
}
