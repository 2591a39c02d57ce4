//! The bytes of a checkpoint, spelled.

ghost use Rattle.std.specs.Prelude.{◌≡◌, ◌≤◌, ◌<◌, ◌+◌, ◌*◌, ◌^◌, length, replicate, ℕ, List, Some};
ghost use Rattle.std.specs.List.{flat_map};
ghost use Rattle.std.specs.FinMap as finite;
ghost use Rattle.ob_base.specs.Layout.{checkpoint_len, meta_len};
ghost use Rattle.ob_base.specs.LittleEndian.{with_part};
ghost use Rattle.ob_base.specs.Tree.{buckets};
ghost use Rattle.ob_tables.specs.Version.{HasSlots, version_bytes, version_len};
ghost use Rattle.ob_tables.specs.Buckets.{version_at};
ghost use Rattle.ob_tables.specs.Content.{Obeys, content_of};
ghost use Rattle.ob_tables.specs.Spelling.{checkpoint_bytes, entry_bytes, row_bytes};
ghost use Rattle.ob_check.specs.Fields.{bucket_place, count_place, row_place};

use crate::places::{bucket_place, count_place, entry_place, row_place};
use ob_base::{Key, Params, Value, buckets, meta_len, set_u32, set_u64};
use ob_cells::put;
use ob_tables::{Book, Entry, Meta, Metas, Stash, Tables};

// What is kept of a key.
fn entry_bytes(entry: Option<Entry>) -> [u8; 21]
    ensures { result ≡ entry_bytes entry }
{
    let mut out = [0; 21];
    if let Some(entry) = entry {
        out[0] = 1;
        set_u64(&mut out, 1, entry.generation);
        set_u64(&mut out, 9, entry.index);
        set_u32(&mut out, 17, entry.leaf);
    }
    out
}

// A row of the stash.
fn row_bytes(key: Key, value: &Value) -> [u8; 69]
    ensures { result ≡ row_bytes (key, value.now) }
{
    let mut out = [0; 69];
    let bytes = value.as_slice();
    set_u32(&mut out, 0, key);
    out[4] = bytes.len() as u8;
    put(&mut out, 5, bytes);
    out
}

// Makes all bytes zeros.
fn clear(out: &mut [u8])
    ensures { out.new ≡ replicate (length out.old) 0 }
{
    for byte in out.iter_mut() {
        *byte = 0;
    }
}

// Writes what is kept of each key.
fn put_book(p: &Params, out: &mut [u8], book: &Book)
    requires long { length out.old ≡ checkpoint_len p.now }
    requires keys { length book.now ≡ p.now.keys }
    ensures { out.new ≡ with_part out.old 16 (flat_map entry_bytes book.now) }
{
    for k in 0..p.keys {
        put(out, entry_place(p, k), &entry_bytes(book.get(k)));
    }
}

// Writes what is kept of a bucket.
fn put_meta(out: &mut [u8], at: usize, len: usize, meta: &Meta)
    requires within { at + len ≤ length out.old }
    requires len { len ≡ version_len meta.now }
    requires marks { length meta.now.used ≡ length meta.now.ranks }
    ensures { out.new ≡ with_part out.old at (version_bytes meta.now) }
{
    meta.encode(&mut out[at..at + len]);
}

// Writes what is kept of each bucket.
fn put_metas(p: &Params, out: &mut [u8], metas: &Metas)
    requires long { length out.old ≡ checkpoint_len p.now }
    requires many { length metas.now.versions ≡ buckets p.now }
    requires slots { (u : ℕ) → u < buckets p.now
        → HasSlots p.now (version_at metas.now.versions u) }
    ensures { out.new
        ≡ with_part out.old (bucket_place p.now 0) (flat_map version_bytes metas.now.versions) }
{
    let len = meta_len(p) as usize;
    for u in 0..buckets(p) {
        put_meta(out, bucket_place(p, u), len, metas.get(u));
    }
}

// Writes the stash's rows.
fn put_rows(p: &Params, out: &mut [u8], stash: &Stash)
    requires long { length out.old ≡ checkpoint_len p.now }
    requires few { finite.len stash.now.rows ≤ p.now.room }
    requires short { (k : ℕ) (v : List ℕ) → finite.get stash.now.rows k ≡ Some v → length v ≤ 64 }
    ensures { out.new
        ≡ with_part out.old (row_place p.now 0)
        (flat_map row_bytes (finite.entries stash.now.rows)) }
{
    for i in 0..stash.len() {
        let (key, value) = stash.row(i);
        put(out, row_place(p, i as u32), &row_bytes(key, &value));
    }
}

/// Writes the checkpoint of the tables at an epoch.
pub fn spell(p: &Params, epoch: u64, tables: &Tables<Metas>, out: &mut [u8])
    requires long { length out.old ≡ checkpoint_len p.now }
    requires obeys { Obeys p.now (content_of tables.now) }
    ensures { out.new ≡ checkpoint_bytes p.now epoch (content_of tables.now) }
{
    clear(out);
    set_u64(out, 0, epoch);
    set_u64(out, 8, tables.counter);
    put_book(p, out, &tables.book);
    put_metas(p, out, &tables.metas);
    set_u32(out, count_place(p), tables.stash.len() as u32);
    put_rows(p, out, &tables.stash);
}
