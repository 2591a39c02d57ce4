//! One epoch without its clients, over an index of its versions.

ghost use Rattle.std.specs.Prelude.{◌≡◌, ◌<◌, ◌≤◌, length, OnOk, OnErr, Some};
ghost use Rattle.ob_order.specs.Works as works;
ghost use Rattle.ob_order.specs.Order as rules;

use crate::ledger::Ledger;
use ob_base::{Key, Memory, Params, Value, Write};
use ob_order::{EpochOrder, Fate, Read, Version, Work, Wrote, push_write};
use ob_queue::Queue;
use std::alloc::Global;
use std::marker::Model;

/// One epoch over an index of its versions.
#[derive(Drop)]
pub struct Order {
    alloc: Global,
    ledger: Ledger,
    queue: Queue,
}

impl Model for Order {
    ghost use Rattle.std.specs.Coded.{codes};
    ghost use Rattle.ob_order.specs.OrderModel.{OrderModel, IsKept, bases_code};
    ghost use Rattle.std.specs.Prelude.{◌≡◌};

    ghost Value = { OrderModel };

    ghost coded = { Prim.hlevel (codes, bases_code) };

    ghost view = { λ o. record { params = o.queue.params; state = record o.queue.state { works = o.ledger.works } } };

    ghost invariant = { λ o. IsKept o.queue.params o.ledger.works × (o.ledger.keys ≡ o.queue.params.keys) };
}

impl Order {
    // What a get of the key by ticket t is answered from.
    fn answer(&self, t: u64, key: Key) -> Option<Version>
        ensures { result ≡ rules.answer self.now.state t key }
    {
        match self.ledger.newest(t, key) {
            Some(version) => Some(version),
            None => match self.queue.base(key) {
                Some(value) => Some(Version { source: 0, value }),
                None => None,
            },
        }
    }

    // A get by ticket t was answered with the version.
    fn note_get(&mut self, t: u64, key: Key, version: &Version) -> Result<(), Memory>
        requires in_range { (0 < t) × (t ≤ length self.old.state.works) }
        requires answered { rules.answer self.old.state t key ≡ Some version.now }
        ensures ok { OnOk result (self.new
            ≡ record self.old {
              state = rules.after_answer self.old.state t key version.now.value
                  version.now.source;
            }) }
        ensures err { OnErr result (self.new ≡ self.old) }
    {
        self.ledger.add_get(t, key, version)?;
        Ok(())
    }

    // A get by ticket t that had to wait was answered with the version.
    fn note_awaited(&mut self, t: u64, key: Key, version: &Version)
        requires in_range { (0 < t) × (t ≤ length self.old.state.works) }
        requires waits { works.waiting_at self.old.state.works t ≡ Some key }
        requires answered { rules.answer self.old.state t key ≡ Some version.now }
        ensures { self.new
            ≡ record self.old {
              state = rules.after_answer self.old.state t key version.now.value
                  version.now.source;
            } }
    {
        self.ledger.add_awaited(t, key, version);
    }

    // A get by ticket t has to wait for the key.
    fn note_wait(&mut self, t: u64, key: Key) -> Result<(), Memory>
        requires in_range { (0 < t) × (t ≤ length self.old.state.works) }
        ensures ok { OnOk result (self.new
            ≡ record self.old { state = rules.after_queued self.old.state t key }) }
        ensures err { OnErr result (self.new ≡ self.old) }
    {
        if self.queue.is_asked_for(key) {
            self.ledger.wait(t, key)?;
            return Ok(());
        }
        self.queue.ask(key)?;
        match self.ledger.wait(t, key) {
            Ok(()) => Ok(()),
            Err(memory) => {
                self.queue.take_back();
                Err(memory)
            }
        }
    }

    // The newest version of the key.
    fn last_version(&self, key: Key) -> Option<Version>
        ensures { result ≡ works.newest self.now.state.works (length self.now.state.works) key }
    {
        self.ledger.newest(self.ledger.len(), key)
    }
}

impl EpochOrder for Order {
    ghost model = { λ o. o };

    #[tactic(auto, using(ob_order::proofs::Keeps::kept_none))]
    fn new(alloc: Global, params: &Params, left: u32) -> Result<Self, Memory> {
        // Made first: a want of memory then leaves nothing to drop.
        let queue = Queue::new(alloc, params, left)?;
        Ok(Order {
            alloc,
            ledger: Ledger::new(alloc, params.keys),
            queue,
        })
    }

    fn clear(&mut self, left: u32) {
        self.ledger.clear();
        self.queue.clear(left);
    }

    fn take_batch(&mut self, out: &mut [Option<Key>]) {
        self.queue.take_batch(out);
    }

    fn deliver(&mut self, keys: &[Option<Key>], values: &[Option<Value>]) {
        self.queue.deliver(keys, values);
    }

    fn begin(&mut self) -> Result<u64, Memory> {
        self.ledger.begin()?;
        Ok(self.ledger.len())
    }

    #[tactic(auto, using(ob_order::proofs::Steps::live_above, ob_order::proofs::Steps::live_within))]
    fn read(&mut self, t: u64, key: Key) -> Result<Read, Memory> {
        if let Some(version) = self.answer(t, key) {
            self.note_get(t, key, &version)?;
            let Version { source, value } = version;
            return Ok(Read::Value { value, source });
        }
        if !self.queue.is_asked_for(key) && self.queue.is_full() {
            return Ok(Read::Full {
                queued: self.queue.queued(),
                left: self.queue.left(),
            });
        }
        self.note_wait(t, key)?;
        Ok(Read::Queued)
    }

    #[tactic(auto, using(ob_order::proofs::Steps::live_above, ob_order::proofs::Steps::live_within))]
    fn again(&mut self, t: u64, key: Key) -> Read {
        match self.answer(t, key) {
            Some(version) => {
                self.note_awaited(t, key, &version);
                let Version { source, value } = version;
                Read::Value { value, source }
            }
            None => Read::Queued,
        }
    }

    fn answerable(&self, t: u64, key: Key) -> bool {
        self.answer(t, key).is_some()
    }

    #[tactic(auto, using(ob_order::proofs::Steps::live_above, ob_order::proofs::Steps::live_within))]
    fn write(&mut self, t: u64, key: Key, value: Option<Value>) -> Result<Wrote, Memory> {
        if let Some(reader) = self.ledger.reader_above(t, key) {
            return Ok(Wrote::Conflict { key, reader });
        }
        if self.ledger.other_keys(key) == u64::from(self.queue.params().writes) {
            return Ok(Wrote::Full {
                keys: u64::from(self.queue.params().writes),
            });
        }
        self.ledger.add_write(t, key, value)?;
        Ok(Wrote::Yes)
    }

    #[tactic(auto, using(ob_order::proofs::Steps::live_above, ob_order::proofs::Steps::live_within))]
    fn abort(&mut self, t: u64) {
        self.ledger.abort(t);
    }

    fn stop(&mut self) {
        self.ledger.stop();
    }

    fn last_writes(&self, out: &mut Vec<Write>) {
        out.clear();
        for key in 0..self.queue.params().keys {
            push_write(out, key, self.last_version(key));
        }
    }

    #[tactic(auto, using(ob_order::proofs::Keeps::kept_none))]
    fn finish(&mut self) -> Vec<Work> {
        self.ledger.finish()
    }

    fn fate(&self, t: u64) -> Option<Fate> {
        self.ledger.fate(t)
    }

    fn waiting(&self, t: u64) -> Option<Key> {
        self.ledger.waiting(t)
    }

    fn params(&self) -> &Params {
        self.queue.params()
    }

    fn txns(&self) -> u64 {
        self.ledger.len()
    }

    fn in_flight(&self) -> u64 {
        self.queue.in_flight()
    }

    fn queued(&self) -> u64 {
        self.queue.queued()
    }

    fn left(&self) -> u64 {
        self.queue.left()
    }
}
