//! The desk, over the running epoch and a closed one.

pub mod seen;

ghost use Rattle.std.specs.Prelude.{◌≡◌, ℕ, ◌+◌, ◌-◌, ◌<◌, ◌≤◌, length, true, IfOk, OnOk, OnErr, Some, None, [], map, vec_capacity, is_some};
ghost use Rattle.std.specs.Option.{option_and_then, option_map, option_or, unwrap_or};
ghost use Rattle.ob_order.specs.Works as works;
ghost use Rattle.ob_base.specs.Writes.{pair_of};
ghost use Rattle.ob_serial.specs.Views.{record_of};
ghost use Rattle.ob_desk.specs.Desk as desks;
ghost use Rattle.ob_desk.specs.Calls as calls;

use crate::calls::{Begun, Done, Got, Look, Txn};
use crate::clients::Client;
use crate::part::{
    Part, ask, count_live, count_waiting, draw, end, end_unasked, new_part, publish, restart, stop,
    why_in,
};
use crate::roll::{begin_client, client_in, count_here, enrol, settle, sign_off};
use ob_base::{Fault, Key, Memory, Params, Value, Write};
use ob_order::{EpochOrder, Read, Wrote};
use ob_serial::{EpochRecord, Outcome, Why};
use ob_shares::{Shares, add_name, make_room, new_uses, past};
use ob_versions::Order;
use std::alloc::Global;
use std::marker::Model;
use std::mem;

/// The transactions of the running epoch and of a closed one, with the clients that began them.
/// `other` is the closed epoch where there is one, else what the next epoch will be kept in.
#[derive(Drop)]
pub struct Desk {
    alloc: Global,
    shares: Shares,
    running: Part,
    other: Part,
    is_closed: bool,
    clients: Vec<Client>,
    stopped: Option<Fault>,
}

impl Model for Desk {
    ghost use Rattle.std.specs.Coded.{codes};
    ghost use Rattle.ob_order.specs.OrderModel.{bases_code};
    ghost use Rattle.ob_desk.specs.Desk as desk;

    ghost Value = { desk.DeskState };

    ghost coded = { Prim.hlevel (codes, bases_code) };

    ghost use Rattle.ob_desk.specs.Parts.{desk_of, ArePartsKept};

    ghost view = { λ d. desk_of d.shares d.clients.items d.stopped d.running d.is_closed d.other };

    ghost invariant = { λ d. ArePartsKept d.running d.other d.is_closed d.stopped };
}

impl Desk {
    /// A desk whose first epoch is this one, with so many batches left to take, for the clients of
    /// these numbers, each of which has these shares.
    ///
    /// # Errors
    /// Memory was wanting.
    pub fn new(
        alloc: Global,
        params: &Params,
        epoch: u64,
        left: u32,
        clients: &[u32],
        shares: Shares,
    ) -> Result<Desk, Memory>
        requires { desks.MayOpen (desks.setup_with params.now shares) epoch left clients.now }
        ensures { IfOk result (λ d. d
            ≡ desks.new_desk (desks.setup_with params.now shares) epoch left clients.now) }
    {
        // Made first: a want of memory then leaves no part to drop.
        let clients = enrol(alloc, clients)?;
        let uses = new_uses(alloc, params, &shares)?;
        let other_uses = new_uses(alloc, params, &shares)?;
        let order = Order::new(alloc, params, left)?;
        let other = Order::new(alloc, params, left)?;
        Ok(Desk {
            alloc,
            shares,
            running: new_part(alloc, epoch, order, uses),
            other: new_part(alloc, epoch, other, other_uses),
            is_closed: false,
            clients,
            stopped: None,
        })
    }

    /// Begins a client's next transaction: it draws the next ticket.
    ///
    /// # Errors
    /// Memory was wanting. All is as before.
    pub fn begin(&mut self, client: u32) -> Result<Begun, Memory>
        requires { desks.MayCall self.old (desks.Begin client) }
        ensures step { IfOk result
            (λ r. desks.DeskStep self.old (desks.Begin client) (calls.begun_reply r) self.new) }
        ensures err { OnErr result (self.new ≡ self.old) }
    {
        if let Some(fault) = self.stopped {
            return Ok(Begun::Stopped { fault });
        }
        let ticket = draw(&mut self.running, client)?;
        let txn = Txn {
            client,
            epoch: self.running.epoch,
            ticket,
        };
        begin_client(&mut self.clients, &txn);
        Ok(Begun::Txn { txn })
    }

    /// The client makes no more transactions.
    pub fn sign_off(&mut self, client: u32)
        requires { desks.MayCall self.old (desks.SignOff client) }
        ensures { desks.DeskStep self.old (desks.SignOff client) desks.Done self.new }
    {
        sign_off(&mut self.clients, client);
    }

    /// Takes a batch: the first keys in order of queuing, and pads, are in flight from now on.
    pub fn take_batch(&mut self, out: &mut [Option<Key>])
        requires may { desks.MayCall self.old desks.TakeBatch }
        requires places { length out.old ≡ self.old.setup.params.places }
        ensures { desks.DeskStep self.old desks.TakeBatch (desks.Batch out.new) self.new }
    {
        self.running.order.take_batch(out);
    }

    /// Delivers the values of the batch in flight.
    pub fn deliver(&mut self, keys: &[Option<Key>], values: &[Option<Value>])
        requires { desks.MayCall self.old (desks.Deliver keys.now values.now) }
        ensures { desks.DeskStep self.old (desks.Deliver keys.now values.now) desks.Done self.new }
    {
        self.running.order.deliver(keys, values);
    }

    // Why the transaction was aborted, where its epoch is running or closed.
    fn why(&self, txn: &Txn) -> Option<Why<Key>>
        ensures { result
            ≡ option_and_then (λ part. desks.why_at part txn.now.ticket)
            (desks.part_at self.now txn.now.epoch) }
    {
        if txn.epoch == self.running.epoch {
            return why_in(&self.running, txn.ticket);
        }
        if self.is_closed && txn.epoch == self.other.epoch {
            return why_in(&self.other, txn.ticket);
        }
        None
    }

    // How the client's last transaction ended, if it has.
    fn outcome(&self, txn: &Txn) -> Option<Outcome<Key>>
        ensures { result ≡ desks.outcome_at self.now txn.now }
    {
        if let Some(why) = self.why(txn) {
            return Some(Outcome::Aborted { why });
        }
        match client_in(&self.clients, txn.client) {
            Some(client) => client.outcome,
            None => None,
        }
    }

    // Why the client's last transaction was aborted, if it was.
    fn why_aborted(&self, txn: &Txn) -> Option<Why<Key>>
        ensures { result ≡ desks.aborted_why (desks.outcome_at self.now txn.now) }
    {
        match self.outcome(txn) {
            Some(Outcome::Aborted { why }) => Some(why),
            _ => None,
        }
    }

    // Aborts the ticket for this cause, and those that depend on it.
    fn end(&mut self, t: u64, why: Why<Key>)
        requires { works.goes_on self.old.running.order.works t ≡ true }
        ensures { self.new ≡ record self.old { running = desks.end_of self.old.running t why } }
    {
        end(&mut self.running, t, why);
    }

    /// A get: the value, or the key waits for a batch. Where it goes past its client's share, or
    /// the batches that are left have no place for it, the transaction is aborted.
    ///
    /// # Errors
    /// Memory was wanting. All is as before.
    pub fn get(&mut self, txn: &Txn, key: Key) -> Result<Got, Memory>
        requires { desks.MayCall self.old (desks.GetKey txn.now key) }
        ensures step { IfOk result
            (λ r. desks.DeskStep self.old (desks.GetKey txn.now key) (calls.got_reply r) self.new) }
        ensures err { OnErr result (self.new ≡ self.old) }
    {
        if let Some(why) = self.why_aborted(txn) {
            return Ok(Got::Aborted { why });
        }
        if let Some(keys) = past(self.shares.reads, &self.running.uses.reads, txn.client, key) {
            let why = Why::ShareReads { keys };
            self.end(txn.ticket, why);
            return Ok(Got::Aborted { why });
        }
        make_room(self.shares.reads, &mut self.running.uses.reads)?;
        let read = self.running.order.read(txn.ticket, key)?;
        add_name(
            self.shares.reads,
            &mut self.running.uses.reads,
            txn.client,
            key,
        );
        match read {
            Read::Value { value, .. } => Ok(Got::Value { value }),
            Read::Queued => Ok(Got::Queued),
            Read::Full { queued, left } => {
                let why = Why::ReadsFull { queued, left };
                self.end(txn.ticket, why);
                Ok(Got::Aborted { why })
            }
        }
    }

    /// The get that isn't answered yet, once more.
    #[tactic(auto, using(ob_order::proofs::Steps::live_above))]
    pub fn poll(&mut self, txn: &Txn) -> Got
        requires { desks.MayCall self.old (desks.Poll txn.now) }
        ensures step { desks.DeskStep self.old (desks.Poll txn.now) (calls.got_reply result)
            self.new }
    {
        if let Some(why) = self.why_aborted(txn) {
            return Got::Aborted { why };
        }
        let Some(key) = self.running.order.waiting(txn.ticket) else {
            return Got::Queued;
        };
        match self.running.order.again(txn.ticket, key) {
            Read::Value { value, .. } => Got::Value { value },
            _ => Got::Queued,
        }
    }

    /// A put. Where it goes past its client's share, a later ticket has read what it would cover,
    /// or the write batch has no place for the key, the transaction is aborted.
    ///
    /// # Errors
    /// Memory was wanting. All is as before.
    pub fn put(&mut self, txn: &Txn, key: Key, value: Value) -> Result<Done, Memory>
        requires { desks.MayCall self.old (desks.Write txn.now key (Some value)) }
        ensures step { IfOk result
            (λ r. desks.DeskStep self.old (desks.Write txn.now key (Some value))
            (calls.done_reply r) self.new) }
        ensures err { OnErr result (self.new ≡ self.old) }
    {
        self.write(txn, key, Some(value))
    }

    /// A delete, which is refused where a put is.
    ///
    /// # Errors
    /// Memory was wanting. All is as before.
    pub fn del(&mut self, txn: &Txn, key: Key) -> Result<Done, Memory>
        requires { desks.MayCall self.old (desks.Write txn.now key None) }
        ensures step { IfOk result
            (λ r. desks.DeskStep self.old (desks.Write txn.now key None) (calls.done_reply r)
            self.new) }
        ensures err { OnErr result (self.new ≡ self.old) }
    {
        self.write(txn, key, None)
    }

    // A put, or a delete where there is no value.
    fn write(&mut self, txn: &Txn, key: Key, value: Option<Value>) -> Result<Done, Memory>
        requires { desks.MayCall self.old (desks.Write txn.now key value) }
        ensures step { IfOk result
            (λ r. desks.DeskStep self.old (desks.Write txn.now key value) (calls.done_reply r)
            self.new) }
        ensures err { OnErr result (self.new ≡ self.old) }
    {
        if let Some(why) = self.why_aborted(txn) {
            return Ok(Done::Aborted { why });
        }
        if let Some(keys) = past(
            self.shares.writes,
            &self.running.uses.writes,
            txn.client,
            key,
        ) {
            let why = Why::ShareWrites { keys };
            self.end(txn.ticket, why);
            return Ok(Done::Aborted { why });
        }
        make_room(self.shares.writes, &mut self.running.uses.writes)?;
        let wrote = self.running.order.write(txn.ticket, key, value)?;
        add_name(
            self.shares.writes,
            &mut self.running.uses.writes,
            txn.client,
            key,
        );
        let why = match wrote {
            Wrote::Yes => return Ok(Done::Yes),
            Wrote::Conflict { key, reader } => Why::Conflict { key, reader },
            Wrote::Full { keys } => Why::WritesFull { keys },
        };
        self.end(txn.ticket, why);
        Ok(Done::Aborted { why })
    }

    /// Asks to commit: the transaction is committed once its epoch is durable, unless it is
    /// aborted before.
    pub fn commit(&mut self, txn: &Txn) -> Done
        requires { desks.MayCall self.old (desks.Commit txn.now) }
        ensures step { desks.DeskStep self.old (desks.Commit txn.now) (calls.done_reply result)
            self.new }
    {
        if let Some(why) = self.why_aborted(txn) {
            return Done::Aborted { why };
        }
        ask(&mut self.running, txn.ticket);
        Done::Yes
    }

    /// How the transaction ended, if it has.
    pub fn settled(&self, txn: &Txn) -> Option<Outcome<Key>>
        requires { desks.MayCall self.now (desks.Settled txn.now) }
        ensures { desks.DeskStep self.now (desks.Settled txn.now) (desks.IsSettled result)
            self.now }
    {
        self.outcome(txn)
    }

    /// Aborts the transaction. The cause is the earlier one where it was aborted already.
    pub fn abort(&mut self, txn: &Txn) -> Why<Key>
        requires { desks.MayCall self.old (desks.Abort txn.now) }
        ensures step { desks.DeskStep self.old (desks.Abort txn.now) (desks.Aborted result)
            self.new }
    {
        if let Some(why) = self.why_aborted(txn) {
            return why;
        }
        self.end(txn.ticket, Why::Asked);
        Why::Asked
    }

    /// The parameters.
    pub fn params(&self) -> &Params
        ensures { result.now ≡ self.now.setup.params }
    {
        self.running.order.params()
    }

    /// What the driver of epochs sees of the running one.
    pub fn look(&self) -> Look
        requires { desks.MayCall self.now desks.Looks }
        ensures { desks.DeskStep self.now desks.Looks (desks.Seen result) self.now }
    {
        Look {
            waiting: count_waiting(&self.running),
            live: count_live(&self.running),
            queued: self.running.order.queued(),
            left: self.running.order.left(),
            txns: self.running.order.txns(),
            clients: count_here(&self.clients),
        }
    }

    /// The first fault that the desk was stopped by, or in doubt by, if it was.
    pub fn stopped(&self) -> Option<Fault>
        ensures { desks.DeskStep self.now desks.IsStopped (desks.StoppedBy result) self.now }
    {
        self.stopped
    }

    // All that go on are stopped, and the first fault stays.
    fn halt(&mut self, fault: Fault)
        ensures { self.new
            ≡ record self.old {
              stop = option_or self.old.stop (Some fault);
              running =
                  desks.stop_part fault self.old.running;
            } }
    {
        stop(&mut self.running, fault);
        self.stopped = self.stopped.or(Some(fault));
    }

    // The closed epoch is over: those of it that aren't aborted end so.
    fn give_up(&mut self, otherwise: Outcome<Key>)
        requires { is_some self.old.stop ≡ true }
        ensures { self.new
            ≡ record self.old {
              closed = None;
              clients = unwrap_or
                  (option_map (λ c. desks.settle c otherwise self.old.clients) self.old.closed)
                  self.old.clients;
            } }
    {
        if self.is_closed {
            settle(&mut self.clients, &self.other, otherwise);
            self.is_closed = false;
        }
    }

    /// Stops the desk: each transaction that isn't aborted is aborted for this fault, all at once.
    /// A closed epoch is stopped too, but for want of memory.
    pub fn stop(&mut self, fault: Fault)
        ensures { desks.DeskStep self.old (desks.Stop fault) desks.Done self.new }
    {
        self.halt(fault);
        if !matches!(fault, Fault::Memory) {
            let why = Why::Stopped { fault };
            self.give_up(Outcome::Aborted { why });
        }
    }

    /// It isn't known whether the closed epoch is durable: those of it that aren't aborted are
    /// unsure, and those of the running one are stopped.
    pub fn unsure(&mut self, fault: Fault)
        requires { desks.MayCall self.old (desks.Unsure fault) }
        ensures { desks.DeskStep self.old (desks.Unsure fault) desks.Done self.new }
    {
        self.halt(fault);
        let epoch = self.other.epoch;
        self.give_up(Outcome::Unsure { epoch });
    }

    /// Closes the epoch: those that haven't asked to commit are aborted, and the next epoch runs.
    /// `out` gets the write batch, which has the last version of each key, in rising keys.
    pub fn close(&mut self, out: &mut Vec<Write>)
        requires may { desks.MayCall self.old desks.Close }
        requires room { self.old.setup.params.writes ≤ vec_capacity out.old }
        ensures step { desks.DeskStep self.old desks.Close
            (desks.Writes (map pair_of out.new.items)) self.new }
        ensures room { vec_capacity out.old ≤ vec_capacity out.new }
    {
        end_unasked(&mut self.running);
        self.running.order.last_writes(out);
        mem::swap(&mut self.running, &mut self.other);
        restart(&mut self.running, self.other.epoch + 1);
        self.is_closed = true;
    }

    /// The closed epoch is durable: its transactions that aren't aborted are committed. Gives its
    /// record. The epoch that runs has this number, and had so many batches at its begin.
    pub fn publish(&mut self, epoch: u64, left: u32) -> EpochRecord<Key>
        requires { desks.MayCall self.old (desks.Publish epoch left) }
        ensures { desks.DeskStep self.old (desks.Publish epoch left)
            (desks.Published (record_of result)) self.new }
    {
        let batches = self.running.order.params().batches;
        prove!(epoch == self.running.epoch && left == batches);
        settle(&mut self.clients, &self.other, Outcome::Committed);
        self.is_closed = false;
        publish(&mut self.other, self.alloc)
    }
}
