//! Texts of checkpoints whose tables look random.

ghost use Rattle.std.specs.Prelude.{◌<◌};

use ob_base::{Params, bucket_of, buckets, checkpoint_len};
use std::alloc::Global;
use std::process::Abort;

// A text that is spelled up to a place, with zeros behind it, and the state of numbers that look
// random.
#[derive(Drop)]
struct Text {
    bytes: Vec<u8>,
    place: usize,
    state: u64,
}

impl Text {
    fn below(&mut self, n: u64) -> u64
        requires { 0 < n }
        ensures { result < n }
    {
        self.state = self
            .state
            .wrapping_mul(6364136223846793005)
            .wrapping_add(1442695040888963407);
        (self.state >> 33) % n
    }

    // Adds the lowest bytes of a number, as many as are asked for, up to eight.
    fn put(&mut self, number: u64, width: usize) {
        let bytes = number.to_le_bytes();
        for i in 0..width.min(8) {
            if self.place < self.bytes.len() {
                self.bytes[self.place] = bytes[i];
                self.place += 1;
            }
        }
    }

    // Adds a number below a limit.
    fn draw(&mut self, limit: u64, width: usize)
        requires { 0 < limit }
    {
        let number = self.below(limit);
        self.put(number, width);
    }
}

// Spells a key, which is absent in one of three cases. The leaf of one that is present.
fn spell_key(p: &Params, text: &mut Text) -> Option<u32> {
    if text.below(3) == 0 {
        text.put(0, 8);
        text.put(0, 8);
        text.put(0, 5);
        return None;
    }
    text.put(1, 1);
    text.draw(1 << 30, 8);
    text.draw(1 << 30, 8);
    let leaf = text.below(1 << p.levels);
    text.put(leaf, 4);
    Some(leaf as u32)
}

// Spells all keys. Those that are present, each behind its leaf, the last ones first.
fn spell_keys(rt: &impl Abort, alloc: Global, p: &Params, text: &mut Text) -> Vec<(u32, u32)> {
    let mut loose = Vec::new(alloc);
    for k in 0..p.keys {
        if let Some(leaf) = spell_key(p, text) {
            loose.push((leaf, k)).ok().expect(rt, "memory");
        }
    }
    loose.sort().expect(rt, "memory");
    loose.reverse();
    loose
}

// Whether a bucket lies on the path of a leaf.
fn is_on_path(p: &Params, u: u32, leaf: u32) -> bool {
    for level in 0..p.levels + 1 {
        if leaf < 1 << p.levels && bucket_of(p, level, leaf) == u {
            return true;
        }
    }
    false
}

// The last of these keys, if it may lie in a bucket.
fn key_for(p: &Params, u: u32, loose: &mut Vec<(u32, u32)>) -> u32 {
    let Some(&(leaf, key)) = loose.last() else {
        return 0xffff_ffff;
    };
    if !is_on_path(p, u, leaf) {
        return 0xffff_ffff;
    }
    let _ = loose.pop();
    key
}

// Spells a bucket, in which some of these keys lie.
fn spell_bucket(p: &Params, u: u32, loose: &mut Vec<(u32, u32)>, text: &mut Text) {
    text.draw(2, 1);
    text.draw(1 << 30, 8);
    text.draw(1 << 30, 8);
    for _index in 0..p.real {
        text.put(u64::from(key_for(p, u, loose)), 4);
    }
    spell_slots(p, text);
}

// Spells the slots of a bucket's indexes, and which of the dummies are shown.
fn spell_slots(p: &Params, text: &mut Text) {
    let width = u64::from(p.real + p.dummies);
    let turn = text.below(width);
    for i in 0..width {
        let shown = text.below(2);
        text.put((i + turn) % width, 1);
        text.put(if i > u64::from(p.real) { shown } else { 0 }, 1);
    }
}

// Whether a key is one of these.
fn is_loose(loose: &[(u32, u32)], key: u32) -> bool {
    for row in loose {
        if row.1 == key {
            return true;
        }
    }
    false
}

// Spells a row of the stash.
fn spell_row(key: u32, text: &mut Text) {
    let len = text.below(65);
    text.put(u64::from(key), 4);
    text.put(len, 1);
    for i in 0..64 {
        let byte = text.below(256);
        text.put(if i < len { byte } else { 0 }, 1);
    }
}

// Spells the tables of an epoch that obey all rules.
fn spell(rt: &impl Abort, alloc: Global, p: &Params, epoch: u64, text: &mut Text) {
    text.put(epoch, 8);
    text.draw(1 << p.levels, 8);
    let mut loose = spell_keys(rt, alloc, p, text);
    for u in 0..buckets(p) {
        spell_bucket(p, u, &mut loose, text);
    }
    text.put(loose.len() as u64, 4);
    for k in 0..p.keys {
        if is_loose(&loose, k) {
            spell_row(k, text);
        }
    }
}

/// The text of tables that obey all rules.
pub fn some_text(rt: &impl Abort, alloc: Global, p: &Params, epoch: u64, seed: u64) -> Vec<u8> {
    let len = checkpoint_len(p) as usize;
    let mut text = Text {
        bytes: vec![in alloc; 0; len].expect(rt, "memory"),
        place: 0,
        state: seed,
    };
    spell(rt, alloc, p, epoch, &mut text);
    let Text { bytes, .. } = text;
    bytes
}
