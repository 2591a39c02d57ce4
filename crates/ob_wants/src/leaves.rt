//! Labels that an attempt has shown.

ghost use Rattle.std.specs.Prelude.{◌≡◌, ◌<◌, ◌+◌, ◌-◌, ◌^◌, ◌==◌, ◌∷◌, ◌++◌, [], ℕ, List, cond, length, slice_index, OnOk, count_by};
ghost use Rattle.ob_base.specs.Tree.{passes};
ghost use Rattle.ob_wants.specs.Counted.{AreCounted};

use crate::tree::{bucket_on, passing};
use ob_base::{Params, buckets};
use std::alloc::{AllocError, Global};
use std::marker::Model;

/// Labels that an attempt has shown, and how often their paths pass each bucket of the tree that it
/// is for. Contracts see the labels.
#[derive(Drop)]
pub struct Leaves {
    labels: Vec<u16>,
    // The levels of the tree.
    levels: u32,
    // How often the paths pass each of the first so many buckets.
    passed: Vec<u64>,
}

impl Model for Leaves {
    ghost use Rattle.std.specs.Prelude.{ℕ, List};
    ghost use Rattle.ob_wants.specs.Counted.{AreCounted};

    ghost Value = { List ℕ };

    ghost view = { λ s. s.labels.items };

    ghost invariant = { λ s. AreCounted s.levels s.labels.items s.passed.items };
}

// One more path passes a bucket, if it is one of the list's.
fn add_pass(passed: &mut [u64], bucket: u32)
    requires { bucket < length passed.old → slice_index passed.old bucket < 2 ^ 64 - 1 }
    ensures same { length passed.new ≡ length passed.old }
    ensures more { (u : ℕ) → u < length passed.old → slice_index passed.new u
        ≡ slice_index passed.old u + cond (bucket == u) 1 0 }
{
    if (bucket as usize) < passed.len() {
        passed[bucket as usize] += 1;
    }
}

// One more path passes each bucket on it.
fn add_path(p: &Params, leaf: u16, passed: &mut [u64])
    requires { (u : ℕ) → u < length passed.old → slice_index passed.old u < 2 ^ 63 }
    ensures same { length passed.new ≡ length passed.old }
    ensures more { (u : ℕ) → u < length passed.old → slice_index passed.new u
        ≡ slice_index passed.old u + cond (passes p.now u leaf) 1 0 }
{
    for level in 0..p.levels + 1 {
        add_pass(passed, bucket_on(p, level, leaf));
    }
}

// One more path of a tree with so many levels; of another tree nothing is counted any more.
fn count_path(levels: u32, p: &Params, leaf: u16, passed: &mut Vec<u64>)
    requires { levels ≡ p.now.levels → (u : ℕ) → u < length passed.old.items
        → slice_index passed.old.items u < 2 ^ 63 }
    ensures { (leaves : List ℕ) → AreCounted levels leaves passed.old.items
        → AreCounted levels (leaves ++ leaf ∷ []) passed.new.items }
{
    if levels == p.levels {
        add_path(p, leaf, passed);
    } else {
        passed.clear();
    }
}

impl Leaves {
    /// No labels. It takes no memory.
    pub fn new(alloc: Global) -> Leaves
        ensures { result ≡ [] }
    {
        Leaves {
            labels: Vec::new(alloc),
            levels: 0,
            passed: Vec::new(alloc),
        }
    }

    /// Forgets them all.
    pub fn clear(&mut self)
        ensures { self.new ≡ [] }
    {
        self.labels.clear();
        self.passed.clear();
    }

    // Begins to count, where there is no label yet.
    fn begin(&mut self, alloc: Global, p: &Params) -> Result<(), AllocError>
        ensures { self.new ≡ self.old }
    {
        if self.labels.is_empty() {
            self.passed = vec![in alloc; 0; buckets(p) as usize]?;
            self.levels = p.levels;
        }
        Ok(())
    }

    /// Puts a label of a store's tree behind the others.
    pub fn push(&mut self, alloc: Global, p: &Params, leaf: u16) -> Result<(), AllocError>
        ensures { OnOk result (self.new ≡ self.old ++ leaf ∷ []) }
    {
        self.begin(alloc, p)?;
        self.labels.push(leaf)?;
        count_path(self.levels, p, leaf, &mut self.passed);
        Ok(())
    }

    /// How many of their paths in a store's tree pass the bucket.
    pub(crate) fn passing(&self, p: &Params, bucket: u32) -> u64
        ensures many { result ≡ count_by (passes p.now bucket) self.now }
        ensures few { result < 2 ^ 63 }
    {
        let index = bucket as usize;
        if self.levels != p.levels {
            return passing(p, bucket, &self.labels);
        }
        if index < self.passed.len() {
            self.passed[index]
        } else {
            passing(p, bucket, &self.labels)
        }
    }
}
