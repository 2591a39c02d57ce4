//! The rules of the keys that lie in a bucket.

ghost use Rattle.std.specs.Prelude.{◌≡◌, ◌<◌, ◌≤◌, ◌+◌, ◌^◌, ℕ, List, length, IfNone};
ghost use Rattle.std.specs.List.{flat_map};
ghost use Rattle.ob_base.specs.Layout.{checkpoint_len};
ghost use Rattle.ob_base.specs.Tree.{below, buckets, passes};
ghost use Rattle.ob_check.specs.Fields.{number_in};
ghost use Rattle.ob_cells.specs.Rules.{first_broken};
ghost use Rattle.ob_check.specs.Rules.{key_rules, least_key, may_lie, may_stand, placed_before, placed_in};
ghost use Rattle.ob_check.specs.Marks.{AreMarked, HaveLeaves, rule_of};

use crate::broken::Broken;
use crate::marks::mark;
use crate::places::{entry_place, key_place};
use ob_base::{Params, bucket_of, u32_at};

// The number that stands for a real index without a key.
pub const EMPTY: u32 = 0xFFFF_FFFF;

// Whether the path of a leaf passes a bucket. Most keys lie near the leaves.
fn passes(p: &Params, u: u32, leaf: u32) -> bool
    requires { leaf < 2 ^ p.now.levels }
    ensures { result ≡ passes p.now u leaf }
{
    for above in 0..p.levels + 1 {
        if bucket_of(p, p.levels - above, leaf) == u {
            return true;
        }
    }
    false
}

// Whether a key may lie in a bucket, where those that are marked lie in earlier places.
fn may_lie(p: &Params, bytes: &[u8], u: u32, placed: &[bool], k: u32) -> bool
    requires k { k < p.now.keys }
    requires long { length bytes.now ≡ checkpoint_len p.now }
    requires leaves { HaveLeaves p.now bytes.now }
    requires room { length placed.now ≡ p.now.keys }
    ensures { (xs : List ℕ) → AreMarked p.now.keys placed.now xs
        → result ≡ may_lie p.now bytes.now u xs k }
{
    let at = entry_place(p, k);
    if bytes[at] != 1 {
        return false;
    }
    if !passes(p, u, u32_at(bytes, at + 17)) {
        return false;
    }
    !placed[k as usize]
}

// The least key that may lie in a bucket, else the number of none.
fn least_key(p: &Params, bytes: &[u8], u: u32, placed: &[bool]) -> u32
    requires long { length bytes.now ≡ checkpoint_len p.now }
    requires leaves { HaveLeaves p.now bytes.now }
    requires room { length placed.now ≡ p.now.keys }
    ensures { (xs : List ℕ) → AreMarked p.now.keys placed.now xs
        → result ≡ least_key p.now bytes.now u xs }
{
    for k in 0..p.keys {
        if may_lie(p, bytes, u, placed, k) {
            return k;
        }
    }
    EMPTY
}

// Whether a number may stand in the place of a bucket's key.
fn may_stand(p: &Params, bytes: &[u8], u: u32, placed: &[bool], number: u32) -> bool
    requires long { length bytes.now ≡ checkpoint_len p.now }
    requires leaves { HaveLeaves p.now bytes.now }
    requires room { length placed.now ≡ p.now.keys }
    ensures { (xs : List ℕ) → AreMarked p.now.keys placed.now xs
        → result ≡ may_stand p.now bytes.now u xs number }
{
    if number == EMPTY {
        return true;
    }
    if number >= p.keys {
        return false;
    }
    may_lie(p, bytes, u, placed, number)
}

// Tests a key of a bucket, and marks it.
fn check_key(p: &Params, bytes: &[u8], u: u32, placed: &mut [bool], j: u32) -> Option<Broken>
    requires u { u < buckets p.now }
    requires j { j < p.now.real }
    requires long { length bytes.now ≡ checkpoint_len p.now }
    requires leaves { HaveLeaves p.now bytes.now }
    requires marked { AreMarked p.now.keys placed.old (placed_before p.now bytes.now u j) }
    ensures rule { rule_of result ≡ first_broken (key_rules p.now bytes.now u j) }
    ensures marks { IfNone result
        (AreMarked p.now.keys placed.new (placed_before p.now bytes.now u (j + 1))) }
{
    let place = key_place(p, u, j);
    let number = u32_at(bytes, place);
    if !may_stand(p, bytes, u, placed, number) {
        return Some(Broken {
            place,
            kept: number as u64,
            least: least_key(p, bytes, u, placed) as u64,
        });
    }
    mark(placed, number);
    None
}

/// Tests the keys of a bucket, and marks them.
pub fn check_keys(p: &Params, bytes: &[u8], u: u32, placed: &mut [bool]) -> Option<Broken>
    requires u { u < buckets p.now }
    requires long { length bytes.now ≡ checkpoint_len p.now }
    requires leaves { HaveLeaves p.now bytes.now }
    requires marked { AreMarked p.now.keys placed.old (placed_in p.now bytes.now u) }
    ensures rule { rule_of result
        ≡ first_broken (flat_map (key_rules p.now bytes.now u) (below p.now.real)) }
    ensures marks { IfNone result
        (AreMarked p.now.keys placed.new (placed_in p.now bytes.now (u + 1))) }
{
    for j in 0..p.real {
        match check_key(p, bytes, u, placed, j) {
            Some(broken) => return Some(broken),
            None => {}
        }
    }
    None
}
