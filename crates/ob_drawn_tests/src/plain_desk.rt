//! A plain desk: each call goes by the rules of docs/TRANSACTIONS.md, over lists. A call that may
//! not be made is answered None.

use crate::plain::{Found, PlainEpoch, PlainTxn, note, past};
use crate::told::{Told, outcome_of};
use ob_base::{Key, Op, Params, Value, Write};
use ob_desk::{Look, Txn};
use ob_serial::{Outcome, Why};
use ob_shares::Shares;
use std::alloc::Global;
use std::mem;
use std::process::Abort;

/// How a transaction ended.
#[derive(Clone, Copy)]
pub struct Ended {
    pub txn: Txn,
    pub outcome: Outcome<Key>,
}

/// The running epoch, the closed one where there is one, every transaction that began, how those of
/// published epochs ended, and each write of a published epoch.
#[derive(Drop)]
pub struct PlainDesk {
    pub params: Params,
    pub shares: Shares,
    pub clients: u32,
    pub running: PlainEpoch,
    pub closed: PlainEpoch,
    pub is_closed: bool,
    pub begun: Vec<Txn>,
    pub ended: Vec<Ended>,
    pub store: Vec<Write>,
}

fn op_of(key: Key, found: &Found) -> Op<Key> {
    Op::Get {
        key,
        reply: found.value,
        source: found.source,
    }
}

fn set_of(key: Key, value: &Option<Value>) -> Op<Key> {
    match *value {
        Some(value) => Op::Put { key, value },
        None => Op::Del { key },
    }
}

impl PlainDesk {
    /// A desk of clients 1 to n, whose first epoch is number 1.
    pub fn new(
        alloc: Global,
        params: &Params,
        shares: Shares,
        clients: u32,
        left: u32,
    ) -> PlainDesk {
        PlainDesk {
            params: *params,
            shares,
            clients,
            running: PlainEpoch::new(alloc, 1, u64::from(left)),
            closed: PlainEpoch::new(alloc, 0, 0),
            is_closed: false,
            begun: Vec::new(alloc),
            ended: Vec::new(alloc),
            store: Vec::new(alloc),
        }
    }

    /// The client's last transaction.
    pub fn last(&self, client: u32) -> Option<Txn> {
        let mut last = None;
        for txn in &self.begun {
            if txn.client == client {
                last = Some(*txn);
            }
        }
        last
    }

    /// How the transaction ended, if it has: by its epoch's lists, or once that is published.
    pub fn outcome(&self, txn: &Txn) -> Option<Outcome<Key>> {
        let found = if txn.epoch == self.running.number {
            self.running.txn(txn.ticket)?
        } else if self.is_closed && txn.epoch == self.closed.number {
            self.closed.txn(txn.ticket)?
        } else {
            for end in &self.ended {
                if end.txn == *txn {
                    return Some(end.outcome);
                }
            }
            return None;
        };
        let why = found.why?;
        Some(Outcome::Aborted { why })
    }

    // The transaction, where it is its client's last one, runs, and isn't aborted.
    fn live(&self, txn: &Txn) -> Option<PlainTxn> {
        if self.last(txn.client) != Some(*txn) || txn.epoch != self.running.number {
            return None;
        }
        let live = self.running.txn(txn.ticket)?;
        if live.why.is_some() { None } else { Some(live) }
    }

    /// The key for which the transaction waits.
    pub fn waits_for(&self, txn: &Txn) -> Option<Key> {
        self.live(txn)?.waits
    }

    // Whether the transaction may do more: it waits for nothing, and hasn't asked to commit.
    fn is_free(&self, txn: &Txn) -> bool {
        match self.live(txn) {
            Some(live) => !live.asked && live.waits.is_none(),
            None => false,
        }
    }

    // Why the transaction, its client's last one, was aborted, if it was.
    fn aborted(&self, txn: &Txn) -> Option<Why<Key>> {
        if self.last(txn.client) != Some(*txn) {
            return None;
        }
        match self.outcome(txn)? {
            Outcome::Aborted { why } => Some(why),
            Outcome::Committed | Outcome::Unsure { .. } => None,
        }
    }

    pub fn begin(&mut self, rt: &impl Abort, client: u32) -> Option<Txn> {
        if client == 0 || client > self.clients {
            return None;
        }
        if let Some(last) = self.last(client) {
            let _outcome = self.outcome(&last)?;
        }
        let ticket = (self.running.txns.len() as u64).saturating_add(1);
        let txn = Txn {
            client,
            epoch: self.running.number,
            ticket,
        };
        self.begun.push(txn).expect(rt, "memory");
        let fresh = PlainTxn {
            ticket,
            client,
            why: None,
            asked: false,
            waits: None,
        };
        self.running.txns.push(fresh).expect(rt, "memory");
        Some(txn)
    }

    fn end(&mut self, txn: &Txn, why: Why<Key>) -> Told {
        self.running.abort(txn.ticket, why);
        (None, Some(why))
    }

    // The get waits for its key, which is queued once, where there is a place for it.
    fn queue(&mut self, rt: &impl Abort, txn: &Txn, key: Key) -> Told {
        if !self.running.queue.contains(&key) {
            let queued = self.running.queue.len() as u64;
            let left = self.running.left;
            if queued >= u64::from(self.params.places).saturating_mul(left) {
                return self.end(txn, Why::ReadsFull { queued, left });
            }
            self.running.queue.push(key).expect(rt, "memory");
        }
        self.running.wait_for(txn.ticket, Some(key));
        (None, None)
    }

    // The get is answered from the lists, where they have what it finds.
    fn answer(&mut self, rt: &impl Abort, txn: &Txn, key: Key) -> Option<Told> {
        let found = self.running.found(txn.ticket, key)?;
        self.running.add(rt, txn.ticket, op_of(key, &found));
        let Found { value, .. } = found;
        Some((Some(value), None))
    }

    pub fn get(&mut self, rt: &impl Abort, txn: &Txn, key: Key) -> Option<Told> {
        if let Some(why) = self.aborted(txn) {
            return Some((None, Some(why)));
        }
        if !self.is_free(txn) {
            return None;
        }
        if let Some(keys) = past(self.shares.reads, &self.running.read, txn.client, key) {
            return Some(self.end(txn, Why::ShareReads { keys }));
        }
        note(rt, &mut self.running.read, txn.client, key);
        if let Some(got) = self.answer(rt, txn, key) {
            return Some(got);
        }
        Some(self.queue(rt, txn, key))
    }

    pub fn poll(&mut self, rt: &impl Abort, txn: &Txn) -> Option<Told> {
        if let Some(why) = self.aborted(txn) {
            return Some((None, Some(why)));
        }
        let key = self.waits_for(txn)?;
        match self.answer(rt, txn, key) {
            Some(got) => Some(got),
            None => Some((None, None)),
        }
    }

    // Why the write batch or a later reader leaves no place for a write, if one does.
    fn refusal(&self, txn: &Txn, key: Key) -> Option<Why<Key>> {
        let reader = self.running.mark(txn.ticket, key);
        if reader > txn.ticket {
            return Some(Why::Conflict { key, reader });
        }
        let keys = u64::from(self.params.writes);
        if self.running.others_set(self.params.keys, key) >= keys {
            return Some(Why::WritesFull { keys });
        }
        None
    }

    /// A put, or a delete where there is no value.
    pub fn write(
        &mut self,
        rt: &impl Abort,
        txn: &Txn,
        key: Key,
        value: &Option<Value>,
    ) -> Option<Told> {
        if let Some(why) = self.aborted(txn) {
            return Some((None, Some(why)));
        }
        if !self.is_free(txn) {
            return None;
        }
        if let Some(keys) = past(self.shares.writes, &self.running.changed, txn.client, key) {
            return Some(self.end(txn, Why::ShareWrites { keys }));
        }
        note(rt, &mut self.running.changed, txn.client, key);
        if let Some(why) = self.refusal(txn, key) {
            return Some(self.end(txn, why));
        }
        self.running.add(rt, txn.ticket, set_of(key, value));
        Some((None, None))
    }

    pub fn commit(&mut self, txn: &Txn) -> Option<Told> {
        if let Some(why) = self.aborted(txn) {
            return Some((None, Some(why)));
        }
        if !self.is_free(txn) {
            return None;
        }
        self.running.ask(txn.ticket);
        Some((None, None))
    }

    /// Aborts the transaction: also one that waits.
    pub fn abort(&mut self, txn: &Txn) -> Option<Why<Key>> {
        if let Some(why) = self.aborted(txn) {
            return Some(why);
        }
        if self.live(txn)?.asked {
            return None;
        }
        self.end(txn, Why::Asked).1
    }

    pub fn settled(&self, txn: &Txn) -> Option<Option<Outcome<Key>>> {
        if self.last(txn.client) != Some(*txn) {
            return None;
        }
        Some(self.outcome(txn))
    }

    // Whether the transaction of the running epoch asked to commit, or waits for what isn't there.
    fn is_waiting(&self, txn: &PlainTxn) -> bool {
        match txn.waits {
            Some(key) => txn.asked || self.running.found(txn.ticket, key).is_none(),
            None => txn.asked,
        }
    }

    pub fn look(&self) -> Option<Look> {
        if self.is_closed {
            return None;
        }
        let mut waiting: u64 = 0;
        let mut live: u64 = 0;
        for txn in &self.running.txns {
            if txn.why.is_none() {
                live = live.saturating_add(1);
                waiting = waiting.saturating_add(u64::from(self.is_waiting(txn)));
            }
        }
        Some(Look {
            waiting,
            live,
            queued: self.running.queue.len() as u64,
            left: self.running.left,
            txns: self.running.txns.len() as u64,
            clients: u64::from(self.clients),
        })
    }

    /// The value of a key behind the published epochs.
    pub fn stored(&self, of: Key) -> Option<Value> {
        let mut stored = None;
        for write in &self.store {
            if write.key == of {
                stored = write.value;
            }
        }
        stored
    }

    /// Whether a batch may be taken.
    pub fn may_take(&self) -> bool {
        !self.is_closed && self.running.left > 0
    }

    /// A batch that asks for these keys is taken, and what the store has of them is delivered.
    /// Whether they are the first ones queued, and pads behind them.
    pub fn take(&mut self, rt: &impl Abort, alloc: Global, keys: &[Option<Key>]) -> bool {
        let queue = mem::replace(&mut self.running.queue, Vec::new(alloc));
        for (n, key) in queue.iter().enumerate() {
            if n >= keys.len() {
                self.running.queue.push(*key).expect(rt, "memory");
            }
        }
        for (n, key) in keys.iter().enumerate() {
            if queue.get(n).copied() != *key {
                return false;
            }
            if let Some(key) = *key {
                let value = self.stored(key);
                self.running
                    .bases
                    .push(Write { key, value })
                    .expect(rt, "memory");
            }
        }
        self.running.left = self.running.left.saturating_sub(1);
        true
    }

    /// Closes the epoch: its writes.
    pub fn close(&mut self, rt: &impl Abort, alloc: Global) -> Option<Vec<Write>> {
        if self.is_closed || self.running.left > 0 {
            return None;
        }
        self.running.end();
        let number = self.running.number.saturating_add(1);
        mem::swap(&mut self.running, &mut self.closed);
        self.running.restart(number, u64::from(self.params.batches));
        self.is_closed = true;
        Some(self.closed.last_set(rt, alloc, self.params.keys))
    }

    /// The closed epoch is durable: its writes are stored, and each of its transactions has ended.
    pub fn publish(&mut self, rt: &impl Abort, alloc: Global) {
        let writes = self.closed.last_set(rt, alloc, self.params.keys);
        for write in &writes {
            self.store.push(*write).expect(rt, "memory");
        }
        for txn in &self.closed.txns {
            let outcome = outcome_of(txn);
            let txn = Txn {
                client: txn.client,
                epoch: self.closed.number,
                ticket: txn.ticket,
            };
            self.ended.push(Ended { txn, outcome }).expect(rt, "memory");
        }
        self.is_closed = false;
    }
}
