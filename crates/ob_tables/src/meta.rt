//! What the proxy keeps of a bucket.

ghost use Rattle.std.specs.Prelude.{◌≡◌, ◌<◌, ◌≤◌, ◌-◌, ◌++◌, ℕ, map, not, replicate, length, slice_set, slice_index, slice_index_or, MatchOption, Some, None, true, false};
ghost use Rattle.std.specs.List.{find, range_with_len};
ghost use Rattle.ob_base.specs.Layout.{meta_len};
ghost use Rattle.ob_base.specs.Tree.{width};
ghost use Rattle.ob_tables.specs.Version.{Version, IsWhole, next_dummy, live_index, is_key, filled, sealed_anew, blank, rank_at, version_bytes, version_len, Spells, SpelledOnce};

use crate::rank::ranks;
use arrayvec::ArrayVec;
use ob_base::{Key, Params};
use std::marker::Model;

/// What the proxy keeps of a bucket: where and how its present version is sealed, the keys of its
/// real indexes, and of each index its physical slot and whether it was shown. Contracts see a
/// record of these.
#[derive(Drop)]
pub struct Meta {
    pub(crate) home: u8,
    pub(crate) generation: u64,
    pub(crate) base: u64,
    pub(crate) keys: ArrayVec<Option<Key>, 16>,
    pub(crate) ranks: ArrayVec<u8, 48>,
    pub(crate) used: ArrayVec<bool, 48>,
}

impl Model for Meta {
    ghost use Rattle.ob_tables.specs.Version.{Version as Kept, IsWhole};

    ghost Value = { Kept };

    ghost view = { λ m. record { home = m.home; generation = m.generation; base = m.base; keys = m.keys.items; ranks = m.ranks.items; used = m.used.items } };

    ghost invariant = { λ m. IsWhole (record { home = m.home; generation = m.generation; base = m.base; keys = m.keys.items; ranks = m.ranks.items; used = m.used.items }) };
}

impl Meta {
    // What is kept of a bucket before any version was written.
    pub(crate) fn blank(p: &Params) -> Meta
        ensures { result ≡ blank p.now }
    {
        let slots = (p.real + p.dummies) as usize;
        Meta {
            home: 0,
            generation: 0,
            base: 0,
            keys: no_keys(p.real as usize),
            ranks: own_ranks(slots),
            used: no_marks(slots),
        }
    }

    /// Which of the bucket's two places in the store holds it, 0 or 1.
    pub fn home(&self) -> u8
        ensures home { result ≡ self.now.home }
        ensures whole { IsWhole self.now }
    {
        self.home
    }

    /// The generation in which its slots are sealed.
    pub fn generation(&self) -> u64
        ensures { result ≡ self.now.generation }
    {
        self.generation
    }

    /// The number with which its first slot is sealed; the others have the numbers after it.
    pub fn base(&self) -> u64
        ensures { result ≡ self.now.base }
    {
        self.base
    }

    /// The key of each real index, if it holds one.
    pub fn keys(&self) -> &[Option<Key>]
        ensures keys { result.now ≡ self.now.keys }
        ensures few { length result.now ≤ 16 }
    {
        self.keys.as_slice()
    }

    /// The physical slot of each index.
    pub fn ranks(&self) -> &[u8]
        ensures ranks { result.now ≡ self.now.ranks }
        ensures few { length result.now ≤ 48 }
        ensures whole { IsWhole self.now }
    {
        self.ranks.as_slice()
    }

    /// Whether each index was shown.
    pub fn used(&self) -> &[bool]
        ensures used { result.now ≡ self.now.used }
        ensures few { length result.now ≤ 48 }
        ensures whole { IsWhole self.now }
    {
        self.used.as_slice()
    }

    /// The physical slot of an index.
    pub fn slot(&self, index: u8) -> u8
        requires { index < length self.now.ranks }
        ensures slot { result ≡ rank_at self.now index }
        ensures within { result < length self.now.ranks }
    {
        self.ranks.as_slice()[index as usize]
    }

    /// The lowest dummy index that wasn't shown: none exactly where each was.
    pub fn next_dummy(&self) -> Option<u8>
        ensures { result ≡ next_dummy self.now }
    {
        first_unused(self.used.as_slice(), self.keys.len())
    }

    /// The real index that holds the key: none exactly where no index does.
    pub fn live_index(&self, key: Key) -> Option<u8>
        ensures { result ≡ live_index self.now key }
    {
        first_with(self.keys.as_slice(), key)
    }

    /// Empties a real index: it holds no key any more.
    pub fn clear_key(&mut self, index: u8)
        requires { index < length self.old.keys }
        ensures { self.new ≡ record self.old { keys = slice_set self.old.keys index None } }
    {
        self.keys.as_mut_slice()[index as usize] = None;
    }

    /// Puts a key into a real index, whatever lay there.
    pub fn put_key(&mut self, index: u8, key: Key)
        requires { index < length self.old.keys }
        ensures { self.new
            ≡ record self.old { keys = slice_set self.old.keys index (Some key) } }
    {
        self.keys.as_mut_slice()[index as usize] = Some(key);
    }

    /// Notes that an index was shown.
    pub fn mark_used(&mut self, index: u8)
        requires { index < length self.old.used }
        ensures { self.new ≡ record self.old { used = slice_set self.old.used index true } }
    {
        self.used.as_mut_slice()[index as usize] = true;
    }

    /// Begins a version: the keys lie in the first real indexes, nothing was shown, and the words
    /// say the slots.
    pub fn fill(&mut self, home: u8, generation: u64, base: u64, keys: &[Key], words: &[u64])
        requires home { home < 2 }
        requires keys { length keys.now ≤ length self.old.keys }
        requires words { length words.now ≡ length self.old.ranks }
        ensures { self.new ≡ filled self.old home generation base keys.now words.now }
    {
        self.home = home;
        self.generation = generation;
        self.base = base;
        put_keys(self.keys.as_mut_slice(), keys);
        ranks(words, self.ranks.as_mut_slice());
        clear_marks(self.used.as_mut_slice());
    }

    /// Begins a version whose keys lie where they are: nothing was shown, and the words say the
    /// slots.
    pub fn seal_anew(&mut self, home: u8, generation: u64, base: u64, words: &[u64])
        requires home { home < 2 }
        requires words { length words.now ≡ length self.old.ranks }
        ensures { self.new ≡ sealed_anew self.old home generation base words.now }
    {
        self.home = home;
        self.generation = generation;
        self.base = base;
        ranks(words, self.ranks.as_mut_slice());
        clear_marks(self.used.as_mut_slice());
    }
}

// Puts the keys into the first of a bucket's real indexes, and none into the others.
fn put_keys(places: &mut [Option<Key>], keys: &[Key])
    requires { length keys.now ≤ length places.old }
    ensures { places.new
        ≡ map (λ k. Some k) keys.now ++ replicate (length places.old - length keys.now) None }
{
    for (j, place) in places.iter_mut().enumerate() {
        *place = keys.get(j).copied();
    }
}

// No mark is set.
pub(crate) fn clear_marks(used: &mut [bool])
    ensures { used.new ≡ replicate (length used.old) false }
{
    for mark in used.iter_mut() {
        *mark = false;
    }
}

// The first index from this one on that wasn't shown.
fn first_unused(used: &[bool], from: usize) -> Option<u8>
    requires few { length used.now ≤ 256 }
    requires from { from ≤ length used.now }
    ensures { result
        ≡ find (λ j. not (slice_index_or used.now j false))
        (range_with_len from (length used.now - from)) }
{
    for j in from..used.len() {
        if !used[j] {
            return Some(j as u8);
        }
    }
    None
}

// Whether a real index holds the key.
fn is_key(place: Option<Key>, key: Key) -> bool
    ensures { result ≡ is_key key place }
{
    match place {
        Some(k) => k == key,
        None => false,
    }
}

// The first real index that holds the key.
fn first_with(keys: &[Option<Key>], key: Key) -> Option<u8>
    requires { length keys.now ≤ 256 }
    ensures { result
        ≡ find (λ j. is_key key (slice_index_or keys.now j None))
        (range_with_len 0 (length keys.now)) }
{
    for j in 0..keys.len() {
        if is_key(keys[j], key) {
            return Some(j as u8);
        }
    }
    None
}

// Real indexes that hold no key.
fn no_keys(real: usize) -> ArrayVec<Option<Key>, 16>
    requires { real ≤ 16 }
    ensures { result.items ≡ replicate real None }
{
    let mut keys = ArrayVec::new();
    for _j in 0..real {
        keys.push(None);
    }
    keys
}

// Each index in the slot of its own number.
fn own_ranks(slots: usize) -> ArrayVec<u8, 48>
    requires { slots ≤ 48 }
    ensures { result.items ≡ range_with_len 0 slots }
{
    let mut ranks = ArrayVec::new();
    for j in 0..slots {
        ranks.push(j as u8);
    }
    ranks
}

// Indexes that weren't shown.
fn no_marks(slots: usize) -> ArrayVec<bool, 48>
    requires { slots ≤ 48 }
    ensures { result.items ≡ replicate slots false }
{
    let mut used = ArrayVec::new();
    for _j in 0..slots {
        used.push(false);
    }
    used
}

/// Bytes spell at most one version that obeys the rules.
pub fn spelled_once()
    ensures { SpelledOnce }
{}
