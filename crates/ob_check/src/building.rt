//! The tables that a checkpoint's bytes tell.

ghost use Rattle.std.specs.Prelude.{◌≡◌, ◌<◌, ◌≤◌, ◌^◌, ℕ, map, take, drop, length, replicate, slice_set, None};
ghost use Rattle.std.specs.FinMap as finite;
ghost use Rattle.ob_base.specs.Layout.{checkpoint_len, meta_len};
ghost use Rattle.ob_base.specs.Tree.{below, buckets};
ghost use Rattle.ob_tables.specs.Version.{Spells};
ghost use Rattle.ob_cells.specs.Rules.{first_broken};
ghost use Rattle.ob_tables.specs.Content.{Obeys, content_of};
ghost use Rattle.ob_check.specs.Fields.{bucket_place, count_in, row_len_in, row_value_in};
ghost use Rattle.ob_check.specs.Fresh.{AreFresh, AreIdle};
ghost use Rattle.ob_check.specs.Reading.{content_in, entry_in, row_in, version_in};
ghost use Rattle.ob_check.specs.Rules.{rules};

use crate::places::{bucket_place, count_place, entry_place, row_place};
use ob_base::{Params, Value, buckets, meta_len, u32_at, u64_at};
use ob_tables::{Book, Entry, Meta, Metas, Stash, Tables};

// What is kept of a key.
fn entry_in(p: &Params, bytes: &[u8], k: u32) -> Option<Entry>
    requires k { k < p.now.keys }
    requires long { length bytes.now ≡ checkpoint_len p.now }
    ensures { result ≡ entry_in bytes.now k }
{
    let at = entry_place(p, k);
    if bytes[at] != 1 {
        return None;
    }
    Some(Entry {
        generation: u64_at(bytes, at + 1),
        index: u64_at(bytes, at + 9),
        leaf: u32_at(bytes, at + 17),
    })
}

// Keeps this of a key.
fn keep(book: &mut Book, k: u32, entry: Option<Entry>)
    requires k { k < length book.old }
    ensures { book.new ≡ slice_set book.old k entry }
{
    match entry {
        Some(entry) => book.set(k, entry),
        None => book.forget(k),
    }
}

// Reads what is kept of each key.
fn read_book(p: &Params, bytes: &[u8], book: &mut Book)
    requires long { length bytes.now ≡ checkpoint_len p.now }
    requires none { book.old ≡ replicate p.now.keys None }
    ensures { book.new ≡ map (entry_in bytes.now) (below p.now.keys) }
{
    for k in 0..p.keys {
        keep(book, k, entry_in(p, bytes, k));
    }
}

// Reads what is kept of a bucket.
fn read_meta(p: &Params, bytes: &[u8], u: u32) -> Meta
    requires u { u < buckets p.now }
    requires long { length bytes.now ≡ checkpoint_len p.now }
    requires spelled { Spells p.now (take (meta_len p.now) (drop (bucket_place p.now u) bytes.now))
        (version_in p.now bytes.now u) }
    ensures { result ≡ version_in p.now bytes.now u }
{
    let at = bucket_place(p, u);
    match Meta::decode(p, &bytes[at..at + meta_len(p) as usize]) {
        Some(meta) => meta,
        None => unreachable!(),
    }
}

// Reads what is kept of each bucket.
fn read_metas(p: &Params, bytes: &[u8], metas: &mut Metas)
    requires long { length bytes.now ≡ checkpoint_len p.now }
    requires many { length metas.old.versions ≡ buckets p.now }
    requires spelled { (u : ℕ) → u < buckets p.now
        → Spells p.now (take (meta_len p.now) (drop (bucket_place p.now u) bytes.now))
        (version_in p.now bytes.now u) }
    ensures { metas.new
        ≡ record metas.old { versions = map (version_in p.now bytes.now) (below (buckets p.now)) } }
{
    for u in 0..buckets(p) {
        metas.set(u, read_meta(p, bytes, u));
    }
}

// The value of a row.
fn value_in(p: &Params, bytes: &[u8], i: u32) -> Value
    requires i { i < p.now.room }
    requires long { length bytes.now ≡ checkpoint_len p.now }
    requires short { row_len_in p.now bytes.now i ≤ 64 }
    ensures { result ≡ row_value_in p.now bytes.now i }
{
    let at = row_place(p, i);
    let len = bytes[at + 4] as usize;
    match Value::new(&bytes[at + 5..at + 5 + len]) {
        Some(value) => value,
        None => unreachable!(),
    }
}

// Reads the stash's rows.
fn read_stash(p: &Params, bytes: &[u8], stash: &mut Stash)
    requires long { length bytes.now ≡ checkpoint_len p.now }
    requires kept { first_broken (rules p.now bytes.now) ≡ None }
    requires none { stash.old.rows ≡ finite.empty }
    requires room { stash.old.room ≡ p.now.keys }
    ensures { stash.new
        ≡ record stash.old {
          rows = finite.from_entries
              (map (row_in p.now bytes.now) (below (count_in p.now bytes.now)));
        } }
{
    for i in 0..u32_at(bytes, count_place(p)) {
        stash.put(u32_at(bytes, row_place(p, i)), value_in(p, bytes, i));
    }
}

/// Fills tables with what the bytes tell, which break no rule.
pub fn fill(p: &Params, bytes: &[u8], tables: Tables<Metas>) -> Tables<Metas>
    requires long { length bytes.now ≡ checkpoint_len p.now }
    requires kept { first_broken (rules p.now bytes.now) ≡ None }
    requires fresh { AreFresh p.now tables }
    ensures content { content_of result ≡ content_in p.now bytes.now }
    ensures obeys { Obeys p.now (content_of result) }
    ensures idle { AreIdle p.now result }
{
    let Tables {
        mut book,
        mut metas,
        mut stash,
        ..
    } = tables;
    read_book(p, bytes, &mut book);
    read_metas(p, bytes, &mut metas);
    read_stash(p, bytes, &mut stash);
    Tables {
        book,
        metas,
        stash,
        counter: u64_at(bytes, 8),
    }
}
