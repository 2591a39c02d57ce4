//! All rules of a checkpoint, in the order of its bytes.

ghost use Rattle.std.specs.Prelude.{◌≡◌, ◌≤◌, length, IfNone};
ghost use Rattle.ob_base.specs.Layout.{checkpoint_len};
ghost use Rattle.ob_base.specs.Tree.{buckets};
ghost use Rattle.ob_cells.specs.Rules.{first_broken};
ghost use Rattle.ob_check.specs.Rules.{placed_in, rules, stash_rules};
ghost use Rattle.ob_check.specs.Marks.{AreMarked, rule_of};

use crate::broken::Broken;
use crate::buckets::check_buckets;
use crate::entries::{check_counter, check_entries};
use crate::stash::{check_count, check_rows, count_loose};
use ob_base::Params;

// Tests the stash, where the keys that lie in buckets are marked.
fn check_stash(p: &Params, bytes: &[u8], placed: &[bool]) -> Option<Broken>
    requires long { length bytes.now ≡ checkpoint_len p.now }
    requires marked { AreMarked p.now.keys placed.now (placed_in p.now bytes.now (buckets p.now)) }
    ensures { rule_of result ≡ first_broken (stash_rules p.now bytes.now) }
{
    match check_count(p, bytes, count_loose(p, bytes, placed)) {
        Some(broken) => return Some(broken),
        None => {}
    }
    check_rows(p, bytes, placed)
}

/// Tests all rules in the order of the bytes: the first that is broken. No number is marked yet.
pub fn check_all(p: &Params, bytes: &[u8], placed: &mut [bool]) -> Option<Broken>
    requires long { length bytes.now ≡ checkpoint_len p.now }
    requires marked { AreMarked p.now.keys placed.old (placed_in p.now bytes.now 0) }
    ensures { rule_of result ≡ first_broken (rules p.now bytes.now) }
{
    match check_counter(p, bytes) {
        Some(broken) => return Some(broken),
        None => {}
    }
    match check_entries(p, bytes) {
        Some(broken) => return Some(broken),
        None => {}
    }
    match check_buckets(p, bytes, placed) {
        Some(broken) => return Some(broken),
        None => {}
    }
    check_stash(p, bytes, placed)
}
