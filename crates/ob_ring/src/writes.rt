//! Writes of an epoch on the planner's tables.

ghost use Rattle.std.specs.Prelude.{◌≡◌, ◌≢◌, ℕ, ◌<◌, ◌≤◌, ◌^◌, ◌∷◌, [], length, IfSome, None, Some};
ghost use Rattle.std.specs.FinMap as finite;
ghost use Rattle.ob_ring.specs.Arrays.{AreWhole};
ghost use Rattle.ob_ring.specs.Picked.{spot_at};
ghost use Rattle.ob_ring.specs.Paths.{IsTakenOut};
ghost use Rattle.ob_ring.specs.Fetching.{IsBook, IsAskFound};
ghost use Rattle.ob_ring.specs.Writing.{entry_of, with_entry, with_value, Writes, write_at, writes_of};
ghost use Rattle.ob_tables.specs.Kept.{entry_at};

use crate::batch::own_entry;
use crate::found::Found;
use crate::path::take_out;
use ob_base::{Key, Params, Value, Write};
use ob_tables::{Book, Entry, Metas, Stash};

// Takes a key out of the bucket in which it lies, if it is present and lies in one.
fn drop_row(p: &Params, book: &Book, metas: &mut Metas, key: Key) -> Option<Found>
    requires book { IsBook p.now book.now }
    requires whole { AreWhole p.now metas.old }
    requires key { key < p.now.keys }
    ensures found { IsAskFound p.now metas.old book.now (Some key) result }
    ensures taken { IsTakenOut p.now metas.old metas.new (spot_at result) }
{
    match book.get(key) {
        Some(entry) => take_out(p, metas, key, entry.leaf),
        None => None,
    }
}

// A put's key keeps its place's entry, a del's keeps none.
fn entry_of(write: &Write, own: Entry) -> Option<Entry>
    ensures { result ≡ entry_of write.now.value own }
{
    match &write.value {
        Some(_) => Some(own),
        None => None,
    }
}

// The key keeps this entry, or none.
fn keep(book: &mut Book, key: Key, entry: Option<Entry>)
    requires { key < length book.old }
    ensures many { length book.new ≡ length book.old }
    ensures entries { (k : ℕ)
        → entry_at book.new k ≡ with_entry (λ i. entry_at book.old i) key entry k }
{
    match entry {
        Some(entry) => book.set(key, entry),
        None => book.forget(key),
    }
}

// The key has this value in the stash, or no row there.
fn set_row(p: &Params, stash: &mut Stash, key: Key, value: Option<Value>)
    requires key { key < p.now.keys }
    requires low { (k : ℕ) → finite.get stash.old.rows k ≢ None → k < p.now.keys }
    requires room { p.now.keys ≤ stash.old.room }
    ensures low { (k : ℕ) → finite.get stash.new.rows k ≢ None → k < p.now.keys }
    ensures room { stash.new.room ≡ stash.old.room }
    ensures rows { stash.new.rows ≡ with_value stash.old.rows key value }
{
    match value {
        Some(value) => stash.put(key, value),
        None => {
            let _ = stash.take(key);
        }
    }
}

/// Makes a write: a put sets the key's row in the stash, with the place's entry; a del forgets the
/// key. An old row in a bucket is dropped, and its index stays unread.
pub(crate) fn write_one(
    p: &Params,
    book: &mut Book,
    metas: &mut Metas,
    stash: &mut Stash,
    write: &Write,
    own: Entry,
)
    requires book { IsBook p.now book.old }
    requires whole { AreWhole p.now metas.old }
    requires key { write.now.key < p.now.keys }
    requires own { own.leaf < 2 ^ p.now.levels }
    requires low { (k : ℕ) → finite.get stash.old.rows k ≢ None → k < p.now.keys }
    requires room { p.now.keys ≤ stash.old.room }
    ensures low { (k : ℕ) → finite.get stash.new.rows k ≢ None → k < p.now.keys }
    ensures room { stash.new.room ≡ stash.old.room }
    ensures writes { Writes p.now book.old book.new metas.old metas.new stash.old.rows
        stash.new.rows ((write.now, own) ∷ []) }
{
    let _ = drop_row(p, book, metas, write.key);
    keep(book, write.key, entry_of(write, own));
    set_row(p, stash, write.key, write.value);
}

/// Makes an epoch's writes, the i-th with the i-th word.
pub(crate) fn write_all(
    p: &Params,
    book: &mut Book,
    metas: &mut Metas,
    stash: &mut Stash,
    writes: &[Write],
    words: &[u64],
    first: (u64, u64),
)
    requires book { IsBook p.now book.old }
    requires whole { AreWhole p.now metas.old }
    requires keys { (i : ℕ) → i < length writes.now → (write_at writes.now i).key < p.now.keys }
    requires words { length writes.now ≤ length words.now }
    requires low { (k : ℕ) → finite.get stash.old.rows k ≢ None → k < p.now.keys }
    requires room { p.now.keys ≤ stash.old.room }
    ensures low { (k : ℕ) → finite.get stash.new.rows k ≢ None → k < p.now.keys }
    ensures room { stash.new.room ≡ stash.old.room }
    ensures writes { Writes p.now book.old book.new metas.old metas.new stash.old.rows
        stash.new.rows (writes_of p.now writes.now words.now first (length writes.now)) }
{
    for i in 0..writes.len() {
        let own = own_entry(p, words, first, i);
        write_one(p, book, metas, stash, &writes[i], own);
    }
}
