//! Random calls on a vault.

ghost use Rattle.std.specs.Prelude.{◌<◌};

use ob_base::{Key, Params, Value, Write};
use ob_plain_serial::Request;
use std::alloc::Global;
use std::process::Abort;

// Words that follow from a seed other than 0 (a xorshift generator).
#[derive(Drop)]
pub struct Random {
    pub state: u64,
}

impl Random {
    fn word(&mut self) -> u64 {
        self.state ^= self.state >> 12;
        self.state ^= self.state << 25;
        self.state ^= self.state >> 27;
        self.state.wrapping_mul(0x2545_F491_4F6C_DD1D)
    }

    /// A number below this one.
    pub fn below(&mut self, many: u32) -> u32
        requires { 0 < many }
        ensures { result < many }
    {
        (self.word() % many as u64) as u32
    }

    // No value at each fourth time, else one of 0 to 64 equal bytes.
    fn value(&mut self) -> Option<Value> {
        let byte = self.below(256) as u8;
        let len = self.below(65) as usize;
        if self.below(4) == 0 {
            return None;
        }
        Value::new(&[byte; 64][..len])
    }
}

// The places of a batch: distinct keys, and pads.
fn asks_of(rt: &impl Abort, alloc: Global, random: &mut Random, p: &Params) -> Vec<Option<Key>> {
    let mut asks = Vec::new(alloc);
    for _place in 0..p.places {
        let ask = Some(random.below(p.keys));
        let is_pad = random.below(4) == 0 || asks.contains(&ask);
        asks.push(if is_pad { None } else { ask })
            .expect(rt, "memory");
    }
    asks
}

// Writes of an epoch, in rising order of keys.
fn writes_of(rt: &impl Abort, alloc: Global, random: &mut Random, p: &Params) -> Vec<Write> {
    let mut writes = Vec::new(alloc);
    let step = (p.keys / p.writes).saturating_mul(2).max(1);
    let mut key = random.below(step);
    for _place in 0..p.writes {
        if key >= p.keys {
            return writes;
        }
        let value = random.value();
        writes.push(Write { key, value }).expect(rt, "memory");
        key = key.saturating_add(1 + random.below(step));
    }
    writes
}

// Adds the calls of an epoch.
fn add_epoch(
    rt: &impl Abort,
    alloc: Global,
    random: &mut Random,
    p: &Params,
    calls: &mut Vec<Request>,
) {
    for _batch in 0..p.batches {
        let asks = asks_of(rt, alloc, random, p);
        calls.push(Request::Fetch(asks)).expect(rt, "memory");
    }
    let writes = writes_of(rt, alloc, random, p);
    calls.push(Request::End(writes)).expect(rt, "memory");
}

/// The calls of so many epochs.
pub fn calls_of(
    rt: &impl Abort,
    alloc: Global,
    random: &mut Random,
    p: &Params,
    epochs: u32,
) -> Vec<Request> {
    let mut calls = Vec::new(alloc);
    for _epoch in 0..epochs {
        add_epoch(rt, alloc, random, p, &mut calls);
    }
    calls
}
