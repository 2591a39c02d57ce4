//! What a transaction did in its epoch, and the edits of one work in a list by ticket.

ghost use Rattle.std.specs.Prelude.{◌≡◌, ◌<◌, ◌≤◌, length, get_or, OnOk, OnErr, true, is_some};
ghost use Rattle.ob_order.specs.Works as works;
ghost use Rattle.ob_order.specs.Order.{fresh};

use crate::fate::Fate;
use ob_base::{Key, Memory, Op, Value};
use std::alloc::Global;
use std::marker::Model;

/// A transaction: its answered operations in order, how it stands, and the key of its get that
/// isn't answered yet. While it waits, its operations have room for the answer.
#[derive(Drop)]
pub struct Work {
    pub ops: Vec<Op<Key>>,
    pub fate: Fate,
    pub waiting: Option<Key>,
}

impl Model for Work {
    ghost use Rattle.ob_order.specs.Works as works;
    ghost use Rattle.std.specs.Prelude.{◌≡◌, ◌<◌, true, is_some, vec_len, vec_capacity};

    ghost Value = { works.Work };

    ghost view = { λ w. record { ops = w.ops.items; fate = w.fate; waiting = w.waiting } };

    ghost invariant = { λ w. is_some w.waiting ≡ true → vec_len w.ops < vec_capacity w.ops };
}

impl Work {
    /// Its operations as they were answered, in order.
    pub fn into_ops(self) -> Vec<Op<Key>>
        ensures { result.items ≡ self.ops }
    {
        self.ops
    }

    /// A transaction that begins.
    pub fn new(alloc: Global) -> Work
        ensures { result ≡ fresh }
    {
        Work {
            ops: Vec::new(alloc),
            fate: Fate::Going,
            waiting: None,
        }
    }

    // Appends an answered operation.
    fn push_op(&mut self, op: Op<Key>) -> Result<(), Memory>
        ensures ok { OnOk result (self.new ≡ works.add_op op self.old) }
        ensures err { OnErr result (self.new ≡ self.old) }
    {
        // The prover has to see this type named here.
        let _told: Option<Value> = None;
        self.ops.push(op)?;
        self.waiting = None;
        Ok(())
    }

    // Appends the answer that there is room for.
    fn push_awaited(&mut self, op: Op<Key>)
        requires { is_some self.old.waiting ≡ true }
        ensures { self.new ≡ works.add_op op self.old }
    {
        // The prover has to see this type named here.
        let _told: Option<Value> = None;
        self.ops.push_reserved(op);
        self.waiting = None;
    }

    // Waits for the key, with room for the answer.
    fn wait_for(&mut self, key: Key) -> Result<(), Memory>
        ensures ok { OnOk result (self.new ≡ works.wait_for key self.old) }
        ensures err { OnErr result (self.new ≡ self.old) }
    {
        // The prover has to see this type named here.
        let _told: Option<Value> = None;
        self.ops.reserve(1)?;
        self.waiting = Some(key);
        Ok(())
    }

    // Waits for this key, or for none, where there is room for an answer.
    fn wait_as(&mut self, waiting: Option<Key>)
        requires { is_some self.old.waiting ≡ true }
        ensures { self.new ≡ works.with_waiting waiting self.old }
    {
        self.waiting = waiting;
    }

    // Aborted in a call of its own.
    fn end(&mut self)
        ensures { self.new ≡ works.end_work self.old }
    {
        self.fate = Fate::Ended;
    }

    // Aborted because of this ticket.
    fn fall_to(&mut self, on: u64)
        ensures { self.new ≡ works.fall_to on self.old }
    {
        self.fate = Fate::Fell { on };
    }
}

/// Whether the ticket was drawn and is aborted.
pub fn is_gone(list: &[Work], t: u64) -> bool
    ensures { result ≡ works.is_gone list.now t }
{
    if t == 0 || t > list.len() as u64 {
        return false;
    }
    let work = &list[(t - 1) as usize];
    !matches!(work.fate, Fate::Going)
}

/// The source of a Get, where that ticket is aborted.
pub fn gone_source(list: &[Work], op: &Op<Key>) -> Option<u64>
    ensures { result ≡ works.source_in (works.is_gone list.now) op.now }
{
    match *op {
        Op::Get { source, .. } => {
            if is_gone(list, source) {
                Some(source)
            } else {
                None
            }
        }
        _ => None,
    }
}

/// The lesser of two, where there are two.
pub fn least_of(a: Option<u64>, b: Option<u64>) -> Option<u64>
    ensures { result ≡ works.least_of a b }
{
    match (a, b) {
        (None, b) => b,
        (Some(a), None) => Some(a),
        (Some(a), Some(b)) => Some(a.min(b)),
    }
}

/// The least source of these Gets that is aborted.
#[tactic(auto, using(crate::proofs::Tidies::least_source_more))]
pub fn least_gone(list: &[Work], ops: &[Op<Key>]) -> Option<u64>
    ensures { result ≡ works.least_source (works.is_gone list.now) ops.now }
{
    let mut least: Option<u64> = None;
    for op in ops {
        least = least_of(least, gone_source(list, op));
    }
    least
}

/// The least aborted source of one work.
pub fn fell_on(list: &[Work], n: usize) -> Option<u64>
    requires n_in { n < length list.now }
    ensures { (w : works.Work) → w ≡ get_or list.now n w
        → result ≡ works.least_source (works.is_gone list.now) w.ops }
{
    let work = &list[n];
    least_gone(list, &work.ops)
}

/// Appends an answered operation to ticket t's.
pub fn add_to(list: &mut Vec<Work>, t: usize, op: Op<Key>) -> Result<(), Memory>
    requires t_in { (0 < t) × (t ≤ length list.old.items) }
    ensures ok { OnOk result (list.new.items ≡ works.with_op list.old.items t op) }
    ensures err { OnErr result (list.new.items ≡ list.old.items) }
{
    list[t - 1].push_op(op)
}

/// Appends to ticket t's operations the answer that it waits for.
pub fn add_awaited(list: &mut Vec<Work>, t: usize, op: Op<Key>)
    requires t_in { (0 < t) × (t ≤ length list.old.items) }
    requires waits { is_some (works.waiting_at list.old.items t) ≡ true }
    ensures { list.new.items ≡ works.with_op list.old.items t op }
{
    list[t - 1].push_awaited(op);
}

/// Ticket t waits for the key.
pub fn make_wait(list: &mut Vec<Work>, t: usize, key: Key) -> Result<(), Memory>
    requires t_in { (0 < t) × (t ≤ length list.old.items) }
    ensures ok { OnOk result (list.new.items ≡ works.edit (works.wait_for key) list.old.items t) }
    ensures err { OnErr result (list.new.items ≡ list.old.items) }
{
    list[t - 1].wait_for(key)
}

/// Ticket t, which waits, waits for this key, or for none.
pub fn set_waiting(list: &mut Vec<Work>, t: usize, waiting: Option<Key>)
    requires t_in { (0 < t) × (t ≤ length list.old.items) }
    requires waits { is_some (works.waiting_at list.old.items t) ≡ true }
    ensures { list.new.items ≡ works.edit (works.with_waiting waiting) list.old.items t }
{
    list[t - 1].wait_as(waiting);
}

/// Ticket t is aborted in a call of its own.
pub fn end_in(list: &mut Vec<Work>, t: usize)
    requires t_in { (0 < t) × (t ≤ length list.old.items) }
    ensures { list.new.items ≡ works.edit works.end_work list.old.items t }
{
    list[t - 1].end();
}

/// Ticket t is aborted because of this one.
pub fn fall_in(list: &mut Vec<Work>, t: usize, on: u64)
    requires t_in { (0 < t) × (t ≤ length list.old.items) }
    ensures { list.new.items ≡ works.edit (works.fall_to on) list.old.items t }
{
    list[t - 1].fall_to(on);
}
