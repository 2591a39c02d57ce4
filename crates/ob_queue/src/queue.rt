//! The keys that an epoch is to read.

ghost use Rattle.std.specs.Prelude.{◌≡◌, ℕ, ◌-◌, ◌*◌, ◌==◌, ◌<◌, ◌≤◌, length, IfOk, OnOk, OnErr, []};
ghost use Rattle.std.specs.FinMap as finite;
ghost use Rattle.ob_order.specs.Order as rules;
ghost use Rattle.ob_queue.specs.Queues.{without_last};

use crate::bases::{Bases, put_all, value_of};
use crate::key_list::KeyList;
use ob_base::{Key, Memory, Params, Value};
use ob_order::fill;
use std::alloc::Global;
use std::collections::HashMap;
use std::marker::Model;

/// The keys that an epoch is to read: queued in order, in flight, and the values delivered.
/// Contracts see an epoch's state in which no transaction has begun.
#[derive(Drop)]
pub struct Queue {
    params: Params,
    left: u32,
    // The keys in flight, and behind them the queued ones.
    asked: KeyList,
    flying: usize,
    bases: Bases,
}

impl Model for Queue {
    ghost use Rattle.std.specs.FinMap as finite;
    ghost use Rattle.std.specs.Coded.{codes};
    ghost use Rattle.std.specs.Prelude.{◌≤◌, length};
    ghost use Rattle.std.specs.HashMap.{hash_map_len, spare};
    ghost use Rattle.ob_order.specs.OrderModel.{OrderModel, bases_code};
    ghost use Rattle.ob_queue.specs.Queues.{state_of, HasRoom};

    ghost Value = { OrderModel };

    ghost coded = { Prim.hlevel (codes, bases_code) };

    ghost view = { λ q. record { params = q.params; state = state_of q.left q.flying q.asked (finite.from_entries q.bases.entries) } };

    ghost invariant = { λ q. (q.flying ≤ length q.asked) × HasRoom q.params.places q.params.batches q.left q.flying (hash_map_len q.bases) (spare q.bases) };
}

impl Queue {
    /// The queue of an epoch that begins, with so many batches left to take.
    ///
    /// # Errors
    /// Memory was wanting.
    pub fn new(alloc: Global, params: &Params, left: u32) -> Result<Queue, Memory>
        requires { left ≤ params.now.batches }
        ensures params { IfOk result (λ q. q.params ≡ params.now) }
        ensures state { IfOk result (λ q. q.state ≡ rules.new_order left) }
    {
        // The prover has to see this type named here.
        let _told: Option<Value> = None;
        let values = params.places as usize * params.batches as usize;
        // Made first: a want of memory then leaves nothing to drop.
        let bases = HashMap::with_capacity(alloc, values)?;
        Ok(Queue {
            params: *params,
            left,
            asked: KeyList::new(alloc),
            flying: 0,
            bases,
        })
    }

    /// The next epoch begins, with so many batches left to take: all is as after `new`. It takes
    /// no memory.
    pub fn clear(&mut self, left: u32)
        requires { left ≤ self.old.params.batches }
        ensures { self.new ≡ record self.old { state = rules.new_order left } }
    {
        // The prover has to see this type named here.
        let _told: Option<Value> = None;
        self.asked.clear();
        self.flying = 0;
        self.bases.clear();
        self.left = left;
    }

    /// Whether the key is queued or in flight.
    pub fn is_asked_for(&self, key: Key) -> bool
        ensures { result ≡ rules.is_asked_for self.now.state key }
    {
        self.asked.contains(key)
    }

    /// Whether the batches that are left have no place for one more key.
    pub fn is_full(&self) -> bool
        ensures { result
            ≡ (length self.now.state.queue == self.now.params.places * self.now.state.left) }
    {
        self.queued() == u64::from(self.params.places) * u64::from(self.left)
    }

    /// Queues the key, where it is neither queued nor in flight.
    ///
    /// # Errors
    /// Memory was wanting. All is as before.
    pub fn ask(&mut self, key: Key) -> Result<(), Memory>
        ensures ok { OnOk result (self.new
            ≡ record self.old { state = rules.asked self.old.state key }) }
        ensures err { OnErr result (self.new ≡ self.old) }
    {
        if self.is_asked_for(key) {
            return Ok(());
        }
        self.asked.push(key)?;
        Ok(())
    }

    /// The key that was queued last is queued no more. It takes no memory.
    pub fn take_back(&mut self)
        requires { 0 < length self.old.state.queue }
        ensures { self.new ≡ record self.old { state = without_last self.old.state } }
    {
        self.asked.drop_last();
    }

    /// What was delivered for the key.
    pub fn base(&self, key: Key) -> Option<Option<Value>>
        ensures { result ≡ finite.get self.now.state.bases key }
    {
        value_of(&self.bases, key)
    }

    /// Takes a batch: the first keys in order of queuing are in flight from now on. It takes no
    /// memory.
    pub fn take_batch(&mut self, out: &mut [Option<Key>])
        requires some_left { 0 < self.old.state.left }
        requires none_flying { self.old.state.flying ≡ [] }
        requires places { length out.old ≡ self.old.params.places }
        ensures batch { out.new ≡ rules.batch_of self.old.params self.old.state }
        ensures state { self.new
            ≡ record self.old { state = rules.after_take self.old.params self.old.state } }
    {
        fill(out, &self.asked.as_slice()[self.flying..]);
        self.flying = out.len().min(self.asked.len());
        self.left -= 1;
    }

    /// The keys in flight have these values from now on. It takes no memory.
    pub fn deliver(&mut self, keys: &[Option<Key>], values: &[Option<Value>])
        requires batch { keys.now ≡ rules.batch_in_flight self.old.params self.old.state }
        requires each { length values.now ≡ length keys.now }
        ensures { self.new
            ≡ record self.old { state = rules.after_deliver self.old.state keys.now values.now } }
    {
        put_all(
            &mut self.bases,
            &self.asked.as_slice()[..self.flying],
            values,
        );
        self.asked.drop_front(self.flying);
        self.flying = 0;
    }

    /// The parameters.
    pub fn params(&self) -> &Params
        ensures { result.now ≡ self.now.params }
    {
        &self.params
    }

    /// How many keys are queued.
    pub fn queued(&self) -> u64
        ensures { result ≡ length self.now.state.queue }
    {
        (self.asked.len() - self.flying) as u64
    }

    /// How many keys are in flight.
    pub fn in_flight(&self) -> u64
        ensures { result ≡ length self.now.state.flying }
    {
        self.flying as u64
    }

    /// How many batches aren't taken yet.
    pub fn left(&self) -> u64
        ensures { result ≡ self.now.state.left }
    {
        u64::from(self.left)
    }
}
