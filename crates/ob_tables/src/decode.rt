//! Reading what a checkpoint keeps of a bucket.

ghost use Rattle.std.specs.Prelude.{◌≡◌, ◌<◌, ◌≤◌, ◌+◌, ◌*◌, ℕ, length, take, drop, count_by, slice_index, slice_index_or, MatchOption, IsTrue, ◌↔◌, Some, None, false};
ghost use Rattle.std.specs.List.{flat_map};
ghost use Rattle.std.specs.Int.{w32, to_le_bytes};
ghost use Rattle.ob_base.specs.Layout.{meta_len};
ghost use Rattle.ob_base.specs.Tree.{width};
ghost use Rattle.ob_tables.specs.Version.{Version, AreRanks, IsUnshown, MarksObey, EMPTY, key_bytes, index_bytes, ReadsVersion, Spells};

use crate::meta::Meta;
use arrayvec::ArrayVec;
use ob_base::{Key, Params, u32_at, u64_at};

// Slot and mark of each index.
#[derive(Drop)]
struct Indexes {
    ranks: ArrayVec<u8, 48>,
    used: ArrayVec<bool, 48>,
}

// What the bytes of a bucket say, whatever the rules.
#[derive(Drop)]
struct Parts {
    home: u8,
    generation: u64,
    base: u64,
    keys: ArrayVec<Option<Key>, 16>,
    ranks: ArrayVec<u8, 48>,
    used: ArrayVec<bool, 48>,
}

impl Meta {
    /// Reads what a checkpoint keeps of a bucket. None exactly where its home, a slot or a mark
    /// breaks its rule: the home is 0 or 1; the slots are those of the bucket, each once; a mark
    /// is 0 or 1, and 0 where the index holds a key, and there are fewer than `dummies` ones.
    pub fn decode(p: &Params, bytes: &[u8]) -> Option<Meta>
        requires { length bytes.now ≡ meta_len p.now }
        ensures { MatchOption result ((v : Version) → Spells p.now bytes.now v
            → ⊥) (λ v. Spells p.now bytes.now v) }
    {
        let Parts {
            home,
            generation,
            base,
            keys,
            ranks,
            used,
        } = read_parts(p, bytes)?;
        if !are_ranks(ranks.as_slice()) {
            return None;
        }
        if !marks_obey(p.dummies, keys.as_slice(), used.as_slice()) {
            return None;
        }
        Some(Meta {
            home,
            generation,
            base,
            keys,
            ranks,
            used,
        })
    }
}

// The parts that bytes spell: none where the home or a mark is neither 0 nor 1.
fn read_parts(p: &Params, bytes: &[u8]) -> Option<Parts>
    requires { length bytes.now ≡ meta_len p.now }
    ensures { MatchOption result ((v : Version) → Spells p.now bytes.now v
        → ⊥) (λ x. ReadsVersion p.now bytes.now
        (record {
          home = x.home;
          generation = x.generation;
          base = x.base;
          keys = x.keys.items;
          ranks = x.ranks.items;
          used = x.used.items;
        })) }
{
    let real = p.real as usize;
    let slots = real + p.dummies as usize;
    let home = bytes[0];
    if home > 1 {
        return None;
    }
    let Indexes { ranks, used } = read_indexes(bytes, 17 + 4 * real, slots)?;
    Some(Parts {
        home,
        generation: u64_at(bytes, 1),
        base: u64_at(bytes, 9),
        keys: read_keys(bytes, real),
        ranks,
        used,
    })
}

// The key that a number stands for.
fn key_of(number: u32) -> Option<Key>
    ensures spelled { key_bytes result ≡ to_le_bytes w32 number }
    ensures low { (k : ℕ) → result ≡ Some k → k < EMPTY }
{
    if number == 0xFFFF_FFFF {
        return None;
    }
    Some(number)
}

// The keys of the real indexes.
fn read_keys(bytes: &[u8], real: usize) -> ArrayVec<Option<Key>, 16>
    requires few { real ≤ 16 }
    requires long { 17 + 4 * real ≤ length bytes.now }
    ensures spelled { flat_map key_bytes result.items ≡ take (4 * real) (drop 17 bytes.now) }
    ensures many { length result.items ≡ real }
    ensures low { (j k : ℕ) → slice_index_or result.items j None ≡ Some k → k < EMPTY }
{
    let mut keys = ArrayVec::new();
    for j in 0..real {
        keys.push(key_of(u32_at(bytes, 17 + 4 * j)));
    }
    keys
}

// Slot and mark of each index from a place on: none exactly where a mark is neither 0 nor 1.
fn read_indexes(bytes: &[u8], at: usize, slots: usize) -> Option<Indexes>
    requires few { slots ≤ 48 }
    requires long { at + 2 * slots ≤ length bytes.now }
    ensures { MatchOption result ((j : ℕ) × (j < slots)
        × (1 < slice_index bytes.now (at + 2 * j + 1)))
        (λ x. (index_bytes x.ranks.items x.used.items ≡ take (2 * slots) (drop at bytes.now))
        × (length x.ranks.items ≡ slots) × (length x.used.items ≡ slots)) }
{
    let mut ranks = ArrayVec::new();
    let mut used = ArrayVec::new();
    for j in 0..slots {
        let mark = bytes[at + 2 * j + 1];
        if mark > 1 {
            return None;
        }
        ranks.push(bytes[at + 2 * j]);
        used.push(mark == 1);
    }
    Some(Indexes { ranks, used })
}

// Whether each index has a slot of the bucket, and no two have the same.
fn are_ranks(ranks: &[u8]) -> bool
    requires { length ranks.now ≤ 48 }
    ensures { IsTrue result ↔ AreRanks ranks.now }
{
    let mut taken = [false; 48];
    for rank in ranks {
        let slot = *rank as usize;
        if slot >= ranks.len() || taken[slot] {
            return false;
        }
        taken[slot] = true;
    }
    true
}

// Whether no index that holds a key was shown.
fn are_unshown(keys: &[Option<Key>], used: &[bool]) -> bool
    requires { length keys.now ≤ length used.now }
    ensures { IsTrue result ↔ IsUnshown keys.now used.now }
{
    for (j, key) in keys.iter().enumerate() {
        if key.is_some() && used[j] {
            return false;
        }
    }
    true
}

// Whether the marks are those of an epoch's end.
fn marks_obey(dummies: u32, keys: &[Option<Key>], used: &[bool]) -> bool
    requires { length keys.now ≤ length used.now }
    ensures { IsTrue result ↔ MarksObey dummies keys.now used.now }
{
    let shown = used.iter().filter(|shown| **shown).count();
    are_unshown(keys, used) && shown < dummies as usize
}
