//! Planning a read batch.

ghost use Rattle.std.specs.Prelude.{◌≡◌, ℕ, ◌<◌, ◌≤◌, ◌+◌, ◌*◌, ◌%◌, ◌^◌, ◌∷◌, [], length, IfSome, None, slice_index_or};
ghost use Rattle.ob_base.specs.Planned.{most_jobs};
ghost use Rattle.ob_ring.specs.Arrays.{AreWhole};
ghost use Rattle.ob_ring.specs.Fetching.{IsBook, kept_of, leaf_of_place, IsKeptFound, IsAskFound, IsFetched, GrowsBy, Fetches, own_entry, places_of};

use crate::found::Found;
use crate::path::{take_out, visit_path};
use ob_base::{Jobs, Key, Params, Place};
use ob_tables::{Book, Entry, Metas};

// The entry of the key that a place asks for.
fn kept(book: &Book, ask: Option<Key>) -> Option<Entry>
    requires { IfSome ask (λ k. k < length book.now) }
    ensures { result ≡ kept_of book.now ask }
{
    match ask {
        Some(key) => book.get(key),
        None => None,
    }
}

// The leaf that a place shows: the kept one, else its own.
fn leaf_of(kept: Option<Entry>, own: Entry) -> u32
    ensures { result ≡ leaf_of_place kept own }
{
    match kept {
        Some(entry) => entry.leaf,
        None => own.leaf,
    }
}

// Takes the key that a place asks for out of its bucket, if it is present; it keeps the place's
// entry.
fn fetch(
    p: &Params,
    book: &mut Book,
    metas: &mut Metas,
    ask: Option<Key>,
    own: Entry,
) -> Option<Found>
    requires book { IsBook p.now book.old }
    requires whole { AreWhole p.now metas.old }
    requires ask { IfSome ask (λ k. k < p.now.keys) }
    ensures { IsFetched p.now book.old book.new metas.old metas.new ask own result }
{
    match ask {
        Some(key) => match book.get(key) {
            Some(entry) => {
                book.set(key, own);
                take_out(p, metas, key, entry.leaf)
            }
            None => None,
        },
        None => None,
    }
}

/// Plans a place of a read batch.
pub(crate) fn plan_place(
    p: &Params,
    book: &mut Book,
    metas: &mut Metas,
    ask: Option<Key>,
    own: Entry,
    jobs: &mut Jobs,
)
    requires book { IsBook p.now book.old }
    requires whole { AreWhole p.now metas.old }
    requires ask { IfSome ask (λ k. k < p.now.keys) }
    requires own { own.leaf < 2 ^ p.now.levels }
    requires room { length jobs.old.jobs + (p.now.levels + 1) * (p.now.real + 1) ≤ jobs.old.room }
    requires few { jobs.old.room < 2 ^ 32 }
    requires places { length jobs.old.places < jobs.old.place_room }
    ensures grows { GrowsBy ((p.now.levels + 1) * (p.now.real + 1)) 1 jobs.old jobs.new }
    ensures plans { Fetches p.now book.old book.new metas.old metas.new jobs.old jobs.new
        ((ask, own) ∷ []) }
{
    let leaf = leaf_of(kept(book, ask), own);
    jobs.push_place(Place {
        leaf,
        first: jobs.jobs().len() as u32,
    });
    let found = fetch(p, book, metas, ask, own);
    visit_path(p, metas, leaf, found, ask, jobs);
}

// The entry that a present key keeps of the i-th place.
pub(crate) fn own_entry(p: &Params, words: &[u64], first: (u64, u64), i: usize) -> Entry
    requires { i < length words.now }
    ensures entry { result ≡ own_entry p.now words.now first i }
    ensures low { result.leaf < 2 ^ p.now.levels }
{
    Entry {
        generation: first.0,
        index: first.1.wrapping_add(i as u64),
        leaf: low_bits(p, words[i]),
    }
}

/// The low bits of a word, as many as the tree has levels: a leaf.
#[tactic(auto, using(ob_base::proofs::TreeLaws::one_shifted))]
pub(crate) fn low_bits(p: &Params, word: u64) -> u32
    ensures leaf { result ≡ word % 2 ^ p.now.levels }
    ensures low { result < 2 ^ p.now.levels }
{
    let leaves = 1 << p.levels;
    (word % leaves) as u32
}

/// Plans the places of a read batch.
pub(crate) fn plan_places(
    p: &Params,
    book: &mut Book,
    metas: &mut Metas,
    asks: &[Option<Key>],
    words: &[u64],
    first: (u64, u64),
    jobs: &mut Jobs,
)
    requires book { IsBook p.now book.old }
    requires whole { AreWhole p.now metas.old }
    requires asks { length asks.now ≡ p.now.places }
    requires keys { (i : ℕ) → IfSome (slice_index_or asks.now i None) (λ k. k < p.now.keys) }
    requires words { length words.now ≡ p.now.places }
    requires jobs { jobs.old
        ≡ record { jobs = []; places = []; room = most_jobs p.now; place_room = p.now.places } }
    ensures rooms { (jobs.new.room ≡ most_jobs p.now) × (jobs.new.place_room ≡ p.now.places) }
    ensures plans { Fetches p.now book.old book.new metas.old metas.new jobs.old jobs.new
        (places_of p.now asks.now words.now first (length asks.now)) }
{
    for i in 0..asks.len() {
        let own = own_entry(p, words, first, i);
        plan_place(p, book, metas, asks[i], own, jobs);
    }
}
