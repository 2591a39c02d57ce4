//! What one epoch's order answers and leaves, whichever way it is kept.

ghost use Rattle.std.specs.Prelude.{◌≡◌, ◌+◌, ◌<◌, ◌≤◌, length, map, true, IfOk, OnOk, OnErr, is_some, Some, [], vec_capacity};
ghost use Rattle.std.specs.Option.{option_and_then};
ghost use Rattle.ob_order.specs.Works as works;
ghost use Rattle.ob_order.specs.Order as rules;
ghost use Rattle.ob_base.specs.Writes.{pair_of};

use crate::answers::{Read, Wrote};
use crate::fate::Fate;
use crate::work::Work;
use ob_base::{Key, Memory, Params, Value, Write};
use std::alloc::Global;

/// One epoch without its clients. Tickets count from 1.
pub trait EpochOrder: Drop {
    ghost use Rattle.ob_order.specs.OrderModel.{OrderModel};

    /// Its parameters, and how it stands.
    ghost model: { Self → OrderModel };

    /// An epoch that begins, with so many batches left to take.
    ///
    /// # Errors
    /// Memory was wanting.
    fn new(alloc: Global, params: &Params, left: u32) -> Result<Self, Memory>
    where
        Self: Sized,
        requires { left ≤ params.now.batches }
        ensures params { IfOk result (λ o. (model o).params ≡ params.now) }
        ensures state { IfOk result (λ o. (model o).state ≡ rules.new_order left) };

    /// The next epoch begins, with so many batches left to take: all is as after `new`.
    fn clear(&mut self, left: u32)
        requires { left ≤ (model self.old).params.batches }
        ensures { model self.new ≡ record (model self.old) { state = rules.new_order left } };

    /// Takes a batch: the first keys in order of queuing are in flight from now on.
    fn take_batch(&mut self, out: &mut [Option<Key>])
        requires some_left { 0 < (model self.old).state.left }
        requires none_flying { (model self.old).state.flying ≡ [] }
        requires places { length out.old ≡ (model self.old).params.places }
        ensures batch { out.new ≡ rules.batch_of (model self.old).params (model self.old).state }
        ensures state { model self.new ≡ record (model self.old)
            { state = rules.after_take (model self.old).params (model self.old).state } };

    /// The keys in flight have these values from now on.
    fn deliver(&mut self, keys: &[Option<Key>], values: &[Option<Value>])
        requires batch { keys.now
            ≡ rules.batch_in_flight (model self.old).params (model self.old).state }
        requires each { length values.now ≡ length keys.now }
        ensures { model self.new ≡ record (model self.old)
            { state = rules.after_deliver (model self.old).state keys.now values.now } };

    /// Draws the next ticket.
    ///
    /// # Errors
    /// Memory was wanting. All is as before.
    fn begin(&mut self) -> Result<u64, Memory>
        ensures ticket { IfOk result (λ t. t ≡ length (model self.old).state.works + 1) }
        ensures ok { OnOk result (model self.new ≡ record (model self.old)
            { state = rules.after_begin (model self.old).state }) }
        ensures err { OnErr result (model self.new ≡ model self.old) };

    /// A get of the key by ticket t, which isn't aborted: its own version of the key, else the
    /// newest one of an earlier ticket, else what was delivered for it. If there is none of these
    /// the key is queued, unless it is queued or in flight, and the ticket waits for it.
    ///
    /// # Errors
    /// Memory was wanting. All is as before.
    fn read(&mut self, t: u64, key: Key) -> Result<Read, Memory>
        requires live { works.goes_on (model self.old).state.works t ≡ true }
        ensures reply { IfOk result (λ r. r
            ≡ rules.read_reply (model self.old).params (model self.old).state t key) }
        ensures ok { IfOk result (λ r. model self.new ≡ record (model self.old)
            { state = rules.after_read (model self.old).state t key r }) }
        ensures err { OnErr result (model self.new ≡ model self.old) };

    /// The get of the key that ticket t, which isn't aborted, waits for, once more: a value, or
    /// Queued. It never queues a key.
    fn again(&mut self, t: u64, key: Key) -> Read
        requires live { works.goes_on (model self.old).state.works t ≡ true }
        requires waits { works.waiting_at (model self.old).state.works t ≡ Some key }
        ensures reply { result ≡ rules.again_reply (model self.old).state t key }
        ensures state { model self.new ≡ record (model self.old)
            { state = rules.after_again (model self.old).state t key result } };

    /// Whether a get of the key by ticket t, which was drawn, can be answered now.
    fn answerable(&self, t: u64, key: Key) -> bool
        requires { t ≤ length (model self.now).state.works }
        ensures { result ≡ is_some (rules.answer (model self.now).state t key) };

    /// A put of the key by ticket t, which isn't aborted, or a delete where there is no value.
    /// A later reader of the version that it would cover is a conflict, and otherwise too many
    /// other keys with a version make it full; then nothing changes.
    ///
    /// # Errors
    /// Memory was wanting. All is as before.
    fn write(&mut self, t: u64, key: Key, value: Option<Value>) -> Result<Wrote, Memory>
        requires live { works.goes_on (model self.old).state.works t ≡ true }
        ensures reply { IfOk result (λ r. r
            ≡ rules.write_reply (model self.old).params (model self.old).state t key) }
        ensures ok { IfOk result (λ r. model self.new ≡ record (model self.old)
            { state = rules.after_write (model self.old).state t key value r }) }
        ensures err { OnErr result (model self.new ≡ model self.old) };

    /// Aborts ticket t, which isn't aborted, and with it each that depends on it, directly or not.
    fn abort(&mut self, t: u64)
        requires live { works.goes_on (model self.old).state.works t ≡ true }
        ensures { model self.new ≡ record (model self.old)
            { state = rules.after_abort (model self.old).state t } };

    /// Aborts all that aren't aborted, at once and none because of another.
    fn stop(&mut self)
        ensures { model self.new ≡ record (model self.old)
            { state = rules.after_stop (model self.old).state } };

    /// The newest version of each key that has one, in rising keys.
    fn last_writes(&self, out: &mut Vec<Write>)
        requires room { (model self.now).params.writes ≤ vec_capacity out.old }
        ensures writes { map pair_of out.new.items
            ≡ works.last_writes (model self.now).params.keys (model self.now).state.works }
        ensures room { vec_capacity out.old ≤ vec_capacity out.new };

    /// Hands over what the transactions did, by ticket. None are left.
    fn finish(&mut self) -> Vec<Work>
        ensures works { result.items ≡ (model self.old).state.works }
        ensures state { model self.new ≡ record (model self.old)
            { state = rules.after_finish (model self.old).state } };

    /// How the ticket stands: none where it wasn't drawn.
    fn fate(&self, t: u64) -> Option<Fate>
        requires { 0 < t }
        ensures { result ≡ works.fate_at (model self.now).state.works t };

    /// The key of ticket t's get that isn't answered yet.
    fn waiting(&self, t: u64) -> Option<Key>
        requires { 0 < t }
        ensures { result ≡ works.waiting_at (model self.now).state.works t };

    /// The ticket because of which ticket t fell, where it fell with another's abort.
    fn depends(&self, t: u64) -> Option<u64>
        requires { 0 < t }
        ensures { result
            ≡ option_and_then (λ f. works.fell_on f)
            (works.fate_at (model self.now).state.works t) }
    {
        match self.fate(t) {
            Some(Fate::Fell { on }) => Some(on),
            _ => None,
        }
    }

    /// The parameters.
    fn params(&self) -> &Params
        ensures { result.now ≡ (model self.now).params };

    /// How many transactions have begun.
    fn txns(&self) -> u64
        ensures { result ≡ length (model self.now).state.works };

    /// How many keys are in flight.
    fn in_flight(&self) -> u64
        ensures { result ≡ length (model self.now).state.flying };

    /// How many keys are queued.
    fn queued(&self) -> u64
        ensures { result ≡ length (model self.now).state.queue };

    /// How many batches aren't taken yet.
    fn left(&self) -> u64
        ensures { result ≡ (model self.now).state.left };
}
