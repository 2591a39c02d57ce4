//! The rules of a bucket's home, slots and marks.

ghost use Rattle.std.specs.Prelude.{◌≡◌, ◌<◌, ◌≤◌, ◌+◌, ◌∷◌, [], ℕ, List, length};
ghost use Rattle.std.specs.List.{flat_map};
ghost use Rattle.ob_base.specs.Layout.{checkpoint_len};
ghost use Rattle.ob_base.specs.Tree.{below, buckets, width};
ghost use Rattle.ob_check.specs.Fields.{rank_in, mark_in};
ghost use Rattle.ob_cells.specs.Rules.{first_broken};
ghost use Rattle.ob_check.specs.Rules.{home_rules, holds_key, index_rules, least_rank, may_mark, may_rank, ranks_in, shown_in};
ghost use Rattle.ob_check.specs.Marks.{AreMarked, rule_of};

use crate::broken::{Broken, check, first};
use crate::keys::EMPTY;
use crate::marks::{least_rank, mark, may_rank};
use crate::places::{bucket_place, index_place, key_place};
use ob_base::{Params, u32_at};

/// Tests a bucket's home.
pub fn check_home(p: &Params, bytes: &[u8], u: u32) -> Option<Broken>
    requires u { u < buckets p.now }
    requires long { length bytes.now ≡ checkpoint_len p.now }
    ensures { rule_of result ≡ first_broken (home_rules p.now bytes.now u) }
{
    let place = bucket_place(p, u);
    let home = bytes[place];
    check(place, home as u64, home <= 1, 0)
}

// Whether an index holds a key.
fn holds_key(p: &Params, bytes: &[u8], u: u32, i: u32) -> bool
    requires u { u < buckets p.now }
    requires long { length bytes.now ≡ checkpoint_len p.now }
    ensures { result ≡ holds_key p.now bytes.now u i }
{
    if i >= p.real {
        return false;
    }
    u32_at(bytes, key_place(p, u, i)) != EMPTY
}

// Whether a mark may stand there, where so many others are set.
fn may_mark(p: &Params, holds: bool, shown: u32, mark: u8) -> bool
    requires { shown ≤ 48 }
    ensures { result ≡ may_mark p.now holds shown mark }
{
    if mark == 0 {
        return true;
    }
    if mark != 1 {
        return false;
    }
    if holds {
        return false;
    }
    shown + 1 < p.dummies
}

// Tests a rank, where the marked ones are taken.
fn check_rank(p: &Params, place: usize, taken: &[bool], rank: u8) -> Option<Broken>
    requires { width p.now ≤ length taken.now }
    ensures { (n : ℕ) (xs : List ℕ) → width p.now ≤ n → AreMarked n taken.now xs
        → rule_of result
        ≡ first_broken (record {
          place = place;
          kept = rank;
          obeys = may_rank p.now xs rank;
          least = least_rank p.now xs;
        } ∷ []) }
{
    if may_rank(p, taken, rank) {
        return None;
    }
    Some(Broken {
        place,
        kept: rank as u64,
        least: least_rank(p, taken),
    })
}

// Tests an index of a bucket, where these ranks are taken, and so many indexes before it were
// shown.
fn check_index(
    p: &Params,
    bytes: &[u8],
    u: u32,
    i: u32,
    taken: &[bool],
    shown: u32,
) -> Option<Broken>
    requires u { u < buckets p.now }
    requires i { i < width p.now }
    requires long { length bytes.now ≡ checkpoint_len p.now }
    requires taken { AreMarked 48 taken.now (ranks_in p.now bytes.now u i) }
    requires shown { shown ≡ shown_in p.now bytes.now u i }
    requires few { shown ≤ i }
    ensures { rule_of result ≡ first_broken (index_rules p.now bytes.now u i) }
{
    let place = index_place(p, u, i);
    let rank = bytes[place];
    let mark = bytes[place + 1];
    let one = check_rank(p, place, taken, rank);
    let marks = may_mark(p, holds_key(p, bytes, u, i), shown, mark);
    let other = check(place + 1, mark as u64, marks, 0);
    first(one, other)
}

// One more, where the index was shown.
fn count_shown(p: &Params, bytes: &[u8], u: u32, i: u32, shown: u32) -> u32
    requires u { u < buckets p.now }
    requires i { i < width p.now }
    requires long { length bytes.now ≡ checkpoint_len p.now }
    requires shown { shown ≡ shown_in p.now bytes.now u i }
    requires few { shown ≤ i }
    ensures shown { result ≡ shown_in p.now bytes.now u (i + 1) }
    ensures few { result ≤ i + 1 }
{
    if bytes[index_place(p, u, i) + 1] == 1 {
        return shown + 1;
    }
    shown
}

// Marks an index's rank.
fn take_rank(p: &Params, bytes: &[u8], u: u32, i: u32, taken: &mut [bool])
    requires u { u < buckets p.now }
    requires i { i < width p.now }
    requires long { length bytes.now ≡ checkpoint_len p.now }
    requires taken { AreMarked 48 taken.old (ranks_in p.now bytes.now u i) }
    ensures { AreMarked 48 taken.new (ranks_in p.now bytes.now u (i + 1)) }
{
    mark(taken, bytes[index_place(p, u, i)] as u32);
}

/// Tests the indexes of a bucket.
pub fn check_indexes(p: &Params, bytes: &[u8], u: u32, taken: &mut [bool]) -> Option<Broken>
    requires u { u < buckets p.now }
    requires long { length bytes.now ≡ checkpoint_len p.now }
    requires taken { AreMarked 48 taken.old (ranks_in p.now bytes.now u 0) }
    ensures { rule_of result
        ≡ first_broken (flat_map (index_rules p.now bytes.now u) (below (width p.now))) }
{
    let mut shown = 0;
    for i in 0..p.real + p.dummies {
        match check_index(p, bytes, u, i, taken, shown) {
            Some(broken) => return Some(broken),
            None => {}
        }
        take_rank(p, bytes, u, i, taken);
        shown = count_shown(p, bytes, u, i, shown);
    }
    None
}
