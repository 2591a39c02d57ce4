//! The plain bytes of a slot; keys that leave the stash.

ghost use Rattle.std.specs.Prelude.{◌≡◌, ◌≢◌, ℕ, ◌<◌, ◌≤◌, ◌+◌, ◌∷◌, [], length, slice_index, None};
ghost use Rattle.std.specs.FinMap as finite;
ghost use Rattle.ob_base.specs.LittleEndian.{with_part};
ghost use Rattle.ob_ring.specs.Arrays.{AreWhole};
ghost use Rattle.ob_ring.specs.Plain.{row_plain, index_with, key_of_index, plain_for, without, without_buckets};

use ob_base::{Key, Params, set_u32};
use ob_tables::{Meta, Metas, Stash};

// The number that stands for no key.
const EMPTY: u32 = 0xFFFF_FFFF;

// Writes bytes over others.
fn write_part(all: &mut [u8], at: usize, bytes: &[u8])
    requires { at + length bytes.now ≤ length all.old }
    ensures { all.new ≡ with_part all.old at bytes.now }
{
    all[at..at + bytes.len()].copy_from_slice(bytes);
}

// The plain bytes of a row.
fn row_plain(key: u32, value: &[u8]) -> [u8; 96]
    requires { length value.now ≤ 64 }
    ensures { result ≡ row_plain key value.now }
{
    let mut plain = [0; 96];
    set_u32(&mut plain, 0, key);
    write_part(&mut plain, 4, &[value.len() as u8]);
    write_part(&mut plain, 5, value);
    plain
}

// The index that has a slot.
fn index_with(meta: &Meta, slot: u8) -> Option<u8>
    ensures { result ≡ index_with meta.now slot }
{
    let ranks = meta.ranks();
    for j in 0..ranks.len() {
        if ranks[j] == slot {
            return Some(j as u8);
        }
    }
    None
}

// The key that lies in a slot.
pub(crate) fn key_in(meta: &Meta, slot: u8) -> Option<Key>
    ensures { result ≡ key_of_index meta.now (index_with meta.now slot) }
{
    let j = index_with(meta, slot)?;
    match meta.keys().get(j as usize) {
        Some(key) => *key,
        None => None,
    }
}

/// The plain bytes of a slot in which this key lies, or none.
pub(crate) fn plain_for(stash: &Stash, key: Option<Key>) -> [u8; 96]
    ensures { result ≡ plain_for stash.now.rows key }
{
    match key {
        Some(key) => match stash.get(key) {
            Some(value) => row_plain(key, value.as_slice()),
            None => row_plain(key, &[]),
        },
        None => row_plain(EMPTY, &[]),
    }
}

// Takes a key's row out of the stash.
fn forget_key(p: &Params, stash: &mut Stash, key: Option<Key>)
    requires low { (k : ℕ) → finite.get stash.old.rows k ≢ None → k < p.now.keys }
    ensures low { (k : ℕ) → finite.get stash.new.rows k ≢ None → k < p.now.keys }
    ensures room { stash.new.room ≡ stash.old.room }
    ensures rows { stash.new.rows ≡ without stash.old.rows (key ∷ []) }
{
    if let Some(key) = key {
        let _ = stash.take(key);
    }
}

// Takes the rows of these keys out of the stash.
fn forget_keys(p: &Params, stash: &mut Stash, keys: &[Option<Key>])
    requires low { (k : ℕ) → finite.get stash.old.rows k ≢ None → k < p.now.keys }
    ensures low { (k : ℕ) → finite.get stash.new.rows k ≢ None → k < p.now.keys }
    ensures room { stash.new.room ≡ stash.old.room }
    ensures rows { stash.new.rows ≡ without stash.old.rows keys.now }
{
    for i in 0..keys.len() {
        forget_key(p, stash, keys[i]);
    }
}

/// Takes the rows that lie in the listed buckets out of the stash.
pub(crate) fn forget_buckets(p: &Params, metas: &Metas, stash: &mut Stash)
    requires whole { AreWhole p.now metas.now }
    requires low { (k : ℕ) → finite.get stash.old.rows k ≢ None → k < p.now.keys }
    requires within { (i : ℕ) → i < length metas.now.order
        → slice_index metas.now.order i < length metas.now.versions }
    ensures low { (k : ℕ) → finite.get stash.new.rows k ≢ None → k < p.now.keys }
    ensures room { stash.new.room ≡ stash.old.room }
    ensures rows { stash.new.rows
        ≡ without_buckets stash.old.rows metas.now.versions metas.now.order }
{
    let order = metas.order();
    for i in 0..order.len() {
        forget_keys(p, stash, metas.get(order[i]).keys());
    }
}
