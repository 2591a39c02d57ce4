//! The rules of the stash's count and rows.

ghost use Rattle.std.specs.Prelude.{◌≡◌, ◌<◌, ◌≤◌, ◌+◌, length, filter, slice_index, MatchResult, None, Some};
ghost use Rattle.std.specs.List.{flat_map};
ghost use Rattle.ob_base.specs.Layout.{checkpoint_len};
ghost use Rattle.ob_base.specs.Tree.{below, buckets};
ghost use Rattle.ob_cells.specs.Rules.{first_broken};
ghost use Rattle.ob_check.specs.Rules.{count_rules, is_loose, loose_keys, placed_in, row_rules};
ghost use Rattle.ob_check.specs.Marks.{AreMarked, rule_of};

use crate::broken::{Broken, check, first};
use crate::places::{count_place, entry_place, row_place};
use ob_base::{Params, u32_at};

// Whether a key is present and lies in no bucket.
fn is_loose(p: &Params, bytes: &[u8], placed: &[bool], k: u32) -> bool
    requires k { k < p.now.keys }
    requires long { length bytes.now ≡ checkpoint_len p.now }
    requires marked { AreMarked p.now.keys placed.now (placed_in p.now bytes.now (buckets p.now)) }
    ensures { result ≡ is_loose p.now bytes.now k }
{
    if bytes[entry_place(p, k)] != 1 {
        return false;
    }
    !placed[k as usize]
}

// One more, where the key is loose.
fn count_key(p: &Params, bytes: &[u8], placed: &[bool], k: u32, many: u32) -> u32
    requires k { k < p.now.keys }
    requires long { length bytes.now ≡ checkpoint_len p.now }
    requires marked { AreMarked p.now.keys placed.now (placed_in p.now bytes.now (buckets p.now)) }
    requires many { many ≡ length (filter (is_loose p.now bytes.now) (below k)) }
    requires few { many ≤ k }
    ensures many { result ≡ length (filter (is_loose p.now bytes.now) (below (k + 1))) }
    ensures few { result ≤ k + 1 }
{
    if is_loose(p, bytes, placed, k) {
        return many + 1;
    }
    many
}

/// How many keys are present and lie in no bucket.
pub fn count_loose(p: &Params, bytes: &[u8], placed: &[bool]) -> u32
    requires long { length bytes.now ≡ checkpoint_len p.now }
    requires marked { AreMarked p.now.keys placed.now (placed_in p.now bytes.now (buckets p.now)) }
    ensures many { result ≡ length (loose_keys p.now bytes.now) }
    ensures few { result ≤ p.now.keys }
{
    let mut many = 0;
    for k in 0..p.keys {
        many = count_key(p, bytes, placed, k, many);
    }
    many
}

/// Tests the count of the stash's rows, of which there are to be so many.
pub fn check_count(p: &Params, bytes: &[u8], loose: u32) -> Option<Broken>
    requires long { length bytes.now ≡ checkpoint_len p.now }
    requires loose { loose ≡ length (loose_keys p.now bytes.now) }
    ensures { rule_of result ≡ first_broken (count_rules p.now bytes.now) }
{
    let place = count_place(p);
    let count = u32_at(bytes, place);
    let one = check(place, count as u64, count == loose, loose as u64);
    let other = check(place, count as u64, count <= p.room, p.room as u64);
    first(one, other)
}

// Tests a row, which is to be that of a key.
fn check_row(p: &Params, bytes: &[u8], i: u32, k: u32) -> Option<Broken>
    requires i { i < p.now.room }
    requires long { length bytes.now ≡ checkpoint_len p.now }
    requires key { slice_index (loose_keys p.now bytes.now) i ≡ k }
    ensures { rule_of result ≡ first_broken (row_rules p.now bytes.now i) }
{
    let place = row_place(p, i);
    let key = u32_at(bytes, place);
    let len = bytes[place + 4];
    let one = check(place, key as u64, key == k, k as u64);
    let other = check(place + 4, len as u64, len <= 64, 0);
    first(one, other)
}

// Tests the row of a key, if it is loose, where the keys before it had so many rows.
fn check_key_row(p: &Params, bytes: &[u8], placed: &[bool], k: u32, i: u32) -> Result<u32, Broken>
    requires k { k < p.now.keys }
    requires long { length bytes.now ≡ checkpoint_len p.now }
    requires marked { AreMarked p.now.keys placed.now (placed_in p.now bytes.now (buckets p.now)) }
    requires few { length (loose_keys p.now bytes.now) ≤ p.now.room }
    requires rows { i ≡ length (filter (is_loose p.now bytes.now) (below k)) }
    requires kept { first_broken (flat_map (row_rules p.now bytes.now) (below i)) ≡ None }
    ensures { MatchResult result
        (λ n. (n ≡ length (filter (is_loose p.now bytes.now) (below (k + 1))))
        × (first_broken (flat_map (row_rules p.now bytes.now) (below n)) ≡ None))
        (λ b. rule_of (Some b)
        ≡ first_broken (flat_map (row_rules p.now bytes.now)
        (below (length (loose_keys p.now bytes.now))))) }
{
    if !is_loose(p, bytes, placed, k) {
        return Ok(i);
    }
    match check_row(p, bytes, i, k) {
        Some(broken) => Err(broken),
        None => Ok(i + 1),
    }
}

/// Tests the stash's rows.
pub fn check_rows(p: &Params, bytes: &[u8], placed: &[bool]) -> Option<Broken>
    requires long { length bytes.now ≡ checkpoint_len p.now }
    requires marked { AreMarked p.now.keys placed.now (placed_in p.now bytes.now (buckets p.now)) }
    requires few { length (loose_keys p.now bytes.now) ≤ p.now.room }
    ensures { rule_of result
        ≡ first_broken (flat_map (row_rules p.now bytes.now)
        (below (length (loose_keys p.now bytes.now)))) }
{
    let mut i = 0;
    for k in 0..p.keys {
        match check_key_row(p, bytes, placed, k, i) {
            Ok(n) => i = n,
            Err(broken) => return Some(broken),
        }
    }
    None
}
