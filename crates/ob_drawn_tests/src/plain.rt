//! One epoch of a plain desk: what its transactions did and which keys its clients named, as lists,
//! through which each answer is looked up, whatever that takes.

use crate::told::parts_of;
use ob_base::{Key, Op, Value, Write};
use ob_serial::Why;
use std::alloc::Global;
use std::process::Abort;

/// A transaction: why it was aborted, if it was, whether it asked to commit, and the key of its get
/// that isn't answered yet.
#[derive(Clone, Copy)]
pub struct PlainTxn {
    pub ticket: u64,
    pub client: u32,
    pub why: Option<Why<Key>>,
    pub asked: bool,
    pub waits: Option<Key>,
}

/// An operation that was answered, and the ticket of its transaction.
#[derive(Clone, Copy)]
pub struct Deed {
    pub ticket: u64,
    pub op: Op<Key>,
}

/// What a get finds, and the ticket whose it is: 0 for what the epoch began with.
#[derive(Clone, Copy)]
pub struct Found {
    pub value: Option<Value>,
    pub source: u64,
}

/// A key that a client named.
#[derive(Clone, Copy)]
pub struct Name {
    pub client: u32,
    pub key: Key,
}

/// An epoch: its batches that are left, its transactions in rising tickets, what they did in order,
/// the keys queued, the values delivered, and the keys that gets named, and puts and deletes.
#[derive(Drop)]
pub struct PlainEpoch {
    pub number: u64,
    pub left: u64,
    pub txns: Vec<PlainTxn>,
    pub deeds: Vec<Deed>,
    pub queue: Vec<Key>,
    pub bases: Vec<Write>,
    pub read: Vec<Name>,
    pub changed: Vec<Name>,
}

/// The share that a client would go past by naming the key, where it would.
pub fn past(share: Option<u32>, names: &[Name], client: u32, key: Key) -> Option<u64> {
    let keys = u64::from(share?);
    let mut many: u64 = 0;
    for name in names {
        if name.client == client {
            if name.key == key {
                return None;
            }
            many = many.saturating_add(1);
        }
    }
    if many < keys { None } else { Some(keys) }
}

/// The client named the key.
pub fn note(rt: &impl Abort, names: &mut Vec<Name>, client: u32, key: Key) {
    for name in names.as_slice() {
        if name.client == client && name.key == key {
            return;
        }
    }
    names.push(Name { client, key }).expect(rt, "memory");
}

// What an operation sets the key to, where it does: a value, or none for a delete.
fn set_by(op: &Op<Key>, of: Key) -> Option<Option<Value>> {
    let (key, set, _) = parts_of(op);
    if key == of { set } else { None }
}

impl PlainEpoch {
    /// An epoch that begins.
    pub fn new(alloc: Global, number: u64, left: u64) -> PlainEpoch {
        PlainEpoch {
            number,
            left,
            txns: Vec::new(alloc),
            deeds: Vec::new(alloc),
            queue: Vec::new(alloc),
            bases: Vec::new(alloc),
            read: Vec::new(alloc),
            changed: Vec::new(alloc),
        }
    }

    /// Another epoch begins in its place.
    pub fn restart(&mut self, number: u64, left: u64) {
        self.number = number;
        self.left = left;
        self.txns.clear();
        self.deeds.clear();
        self.queue.clear();
        self.bases.clear();
        self.read.clear();
        self.changed.clear();
    }

    /// The transaction of this ticket.
    pub fn txn(&self, ticket: u64) -> Option<PlainTxn> {
        for txn in &self.txns {
            if txn.ticket == ticket {
                return Some(*txn);
            }
        }
        None
    }

    /// Whether the ticket was drawn and isn't aborted.
    pub fn goes_on(&self, ticket: u64) -> bool {
        match self.txn(ticket) {
            Some(txn) => txn.why.is_none(),
            None => false,
        }
    }

    // The greatest ticket up to this one that goes on and has set the key, else 0.
    fn source(&self, ticket: u64, key: Key) -> u64 {
        let mut source: u64 = 0;
        for deed in &self.deeds {
            if deed.ticket <= ticket
                && set_by(&deed.op, key).is_some()
                && self.goes_on(deed.ticket)
            {
                source = source.max(deed.ticket);
            }
        }
        source
    }

    // What the ticket set the key to last.
    fn set_to(&self, ticket: u64, key: Key) -> Option<Value> {
        let mut value = None;
        for deed in &self.deeds {
            if deed.ticket == ticket {
                value = set_by(&deed.op, key).unwrap_or(value);
            }
        }
        value
    }

    /// What a get of the ticket finds. None where no version is there, and what the epoch began with
    /// wasn't delivered yet.
    pub fn found(&self, ticket: u64, key: Key) -> Option<Found> {
        let source = self.source(ticket, key);
        if source != 0 {
            let value = self.set_to(source, key);
            return Some(Found { value, source });
        }
        for base in &self.bases {
            if base.key == key {
                return Some(Found {
                    value: base.value,
                    source: 0,
                });
            }
        }
        None
    }

    /// The greatest ticket that has read what a write of this ticket would cover, else 0.
    pub fn mark(&self, ticket: u64, key: Key) -> u64 {
        let source = self.source(ticket, key);
        let mut mark: u64 = 0;
        for deed in &self.deeds {
            let (of, _, got) = parts_of(&deed.op);
            if of == key && matches!(got, Some((_, from)) if from == source) {
                mark = mark.max(deed.ticket);
            }
        }
        mark
    }

    /// How many keys below a limit but this one have versions.
    pub fn others_set(&self, limit: Key, key: Key) -> u64 {
        let mut many: u64 = 0;
        for other in 0..limit {
            if other != key && self.source(u64::MAX, other) != 0 {
                many = many.saturating_add(1);
            }
        }
        many
    }

    /// The last version of each key below a limit, in rising keys.
    pub fn last_set(&self, rt: &impl Abort, alloc: Global, limit: Key) -> Vec<Write> {
        let mut writes = Vec::new(alloc);
        for key in 0..limit {
            let source = self.source(u64::MAX, key);
            if source != 0 {
                let value = self.set_to(source, key);
                writes.push(Write { key, value }).expect(rt, "memory");
            }
        }
        writes
    }

    /// The ticket did this, and waits for no key any more.
    pub fn add(&mut self, rt: &impl Abort, ticket: u64, op: Op<Key>) {
        self.wait_for(ticket, None);
        self.deeds.push(Deed { ticket, op }).expect(rt, "memory");
    }

    /// The ticket waits for this key, or for none.
    pub fn wait_for(&mut self, ticket: u64, key: Option<Key>) {
        for txn in self.txns.iter_mut() {
            if txn.ticket == ticket {
                txn.waits = key;
            }
        }
    }

    /// The ticket asks to commit.
    pub fn ask(&mut self, ticket: u64) {
        for txn in self.txns.iter_mut() {
            if txn.ticket == ticket {
                txn.asked = true;
            }
        }
    }

    fn set_why(&mut self, ticket: u64, why: Why<Key>) {
        for txn in self.txns.iter_mut() {
            if txn.ticket == ticket {
                txn.why = Some(why);
            }
        }
    }

    // The source of an operation, where it is an aborted ticket.
    fn gone(&self, op: &Op<Key>) -> Option<u64> {
        match *op {
            Op::Get { source, .. } => {
                if source == 0 || self.goes_on(source) {
                    None
                } else {
                    Some(source)
                }
            }
            Op::Put { .. } | Op::Del { .. } => None,
        }
    }

    // The least aborted ticket from which this one has read.
    fn least_gone(&self, ticket: u64) -> Option<u64> {
        let mut least: Option<u64> = None;
        for deed in &self.deeds {
            if deed.ticket == ticket {
                if let Some(on) = self.gone(&deed.op) {
                    least = Some(least.unwrap_or(on).min(on));
                }
            }
        }
        least
    }

    /// The ticket is aborted, and in rising tickets each that has read from one that is aborted.
    pub fn abort(&mut self, ticket: u64, why: Why<Key>) {
        self.set_why(ticket, why);
        for n in 0..self.txns.len() as u64 {
            let reader = n.saturating_add(1);
            if self.goes_on(reader) {
                if let Some(on) = self.least_gone(reader) {
                    self.set_why(reader, Why::Depends { on });
                }
            }
        }
    }

    /// In rising tickets, those that haven't asked to commit are aborted.
    pub fn end(&mut self) {
        for n in 0..self.txns.len() as u64 {
            let ticket = n.saturating_add(1);
            if let Some(txn) = self.txn(ticket) {
                if txn.why.is_none() && !txn.asked {
                    self.abort(ticket, Why::EpochEnd);
                }
            }
        }
    }
}
