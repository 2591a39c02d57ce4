//! Filling lifted buckets, in one pass over the rows of the stash.

ghost use Rattle.std.specs.Prelude.{◌≡◌, ◌≢◌, ℕ, ◌<◌, ◌≤◌, ◌+◌, ◌*◌, ◌^◌, IfSome, MatchResult, None, filter, length, replicate};
ghost use Rattle.std.specs.FinMap as finite;
ghost use Rattle.ob_base.specs.Tree.{buckets, width};
ghost use Rattle.ob_tables.specs.Buckets.{is_lifted};
ghost use Rattle.ob_schedule.specs.Paths.{by_falling_level};
ghost use Rattle.ob_ring.specs.Arrays.{AreWhole};
ghost use Rattle.ob_ring.specs.Fetching.{IsBook};
ghost use Rattle.ob_ring.specs.Loops.{PutsTo, SealsOne, SealsTo, roomiest, roomy};
ghost use Rattle.ob_ring.specs.Passing.{asking_steps, upwards};

use crate::index::Index;
use crate::steps::Steps;
use ob_base::{Params, StashFull, bucket_of};
use ob_tables::{Book, Metas, Stash};
use std::sync::ledger::Ledger;

// The deepest lifted bucket of a leaf's path that has a real index left. Each bucket that is asked
// is a step, and so is the row that goes there.
fn find_room<C: Ledger>(
    p: &Params,
    metas: &Metas,
    index: &Index,
    leaf: u32,
    steps: &mut Steps<C>,
) -> Option<u32>
    requires whole { AreWhole p.now metas.now }
    requires leaf { leaf < 2 ^ p.now.levels }
    requires index { length index.now ≡ buckets p.now }
    ensures found { result ≡ roomiest p.now metas.now index.now leaf }
    ensures within { IfSome result (λ u. u < buckets p.now) }
    ensures cost { steps.new
        ≡ steps.old + asking_steps (roomy p.now metas.now index.now)
        (upwards p.now leaf (p.now.levels + 1)) }
{
    for up in 0..p.levels + 1 {
        let bucket = bucket_of(p, p.levels - up, leaf);
        steps.tick();
        if metas.is_lifted(bucket) && (index.get(bucket) as u32) < p.real {
            steps.tick();
            return Some(bucket);
        }
    }
    None
}

/// Puts rows of the stash into lifted buckets, in rising key order: each into the deepest one of
/// its path that has a real index left, at the next of these. The others stay. Answers how many it
/// put.
pub(crate) fn put_rows<C: Ledger>(
    p: &Params,
    book: &Book,
    metas: &mut Metas,
    stash: &Stash,
    index: &mut Index,
    steps: &mut Steps<C>,
) -> usize
    requires book { IsBook p.now book.now }
    requires whole { AreWhole p.now metas.old }
    requires low { (k : ℕ) → finite.get stash.now.rows k ≢ None → k < p.now.keys }
    requires index { index.old ≡ replicate (buckets p.now) 0 }
    ensures { PutsTo p.now book.now stash.now.rows metas.old metas.new index.new
        (finite.len stash.now.rows) steps.old steps.new result }
{
    let mut put: usize = 0;
    for i in 0..stash.len() {
        let (key, _) = stash.row(i);
        if let Some(entry) = book.get(key) {
            if let Some(bucket) = find_room(p, metas, index, entry.leaf, steps) {
                metas.get_mut(bucket).put_key(index.get(bucket), key);
                index.raise(bucket);
                put += 1;
            }
        }
    }
    put
}

// Seals a bucket anew, in its other place of the store.
fn seal_one(p: &Params, metas: &mut Metas, bucket: u32, words: &[u64], generation: u64, base: u64)
    requires whole { AreWhole p.now metas.old }
    requires bucket { bucket < buckets p.now }
    requires words { length words.now ≡ width p.now }
    ensures { SealsOne p.now metas.old metas.new bucket words.now generation base }
{
    let home = 1 - metas.get(bucket).home();
    metas
        .get_mut(bucket)
        .seal_anew(home, generation, base, words);
}

/// Seals the listed buckets anew, one after another, and clears their counts.
pub(crate) fn seal_all(
    p: &Params,
    metas: &mut Metas,
    index: &mut Index,
    words: &[u64],
    first: (u64, u64),
)
    requires whole { AreWhole p.now metas.old }
    requires listed { metas.old.order
        ≡ filter (λ u. is_lifted metas.old u) (by_falling_level (p.now.levels + 1)) }
    requires index { length index.old ≡ buckets p.now }
    requires words { length words.now ≡ length metas.old.order * width p.now }
    ensures { SealsTo p.now metas.old metas.new index.old index.new words.now first
        (length metas.old.order) }
{
    let width = (p.real + p.dummies) as usize;
    for i in 0..metas.order().len() {
        let bucket = metas.order()[i];
        let from = i * width;
        let base = first.1.wrapping_add(from as u64);
        seal_one(p, metas, bucket, &words[from..from + width], first.0, base);
        index.clear(bucket);
    }
}

/// What is answered where so many rows are left in a stash that may keep so many.
pub(crate) fn judge(left: usize, room: u32) -> Result<(), StashFull>
    ensures { MatchResult result (λ _. left ≤ room) (λ full. (full.rows ≡ left)
        × (room < full.rows)) }
{
    let rows = left as u64;
    if rows > room as u64 {
        return Err(StashFull { rows });
    }
    Ok(())
}
