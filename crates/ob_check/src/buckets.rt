//! The rules of all buckets of a checkpoint.

ghost use Rattle.std.specs.Prelude.{◌≡◌, ◌<◌, ◌+◌, length, IfNone};
ghost use Rattle.std.specs.List.{flat_map};
ghost use Rattle.ob_base.specs.Layout.{checkpoint_len};
ghost use Rattle.ob_base.specs.Tree.{below, buckets};
ghost use Rattle.ob_cells.specs.Rules.{first_broken};
ghost use Rattle.ob_check.specs.Rules.{bucket_rules, placed_in};
ghost use Rattle.ob_check.specs.Marks.{AreMarked, HaveLeaves, rule_of};

use crate::broken::Broken;
use crate::indexes::{check_home, check_indexes};
use crate::keys::check_keys;
use ob_base::{Params, buckets};

// Tests a bucket, and marks its keys.
fn check_bucket(p: &Params, bytes: &[u8], u: u32, placed: &mut [bool]) -> Option<Broken>
    requires u { u < buckets p.now }
    requires long { length bytes.now ≡ checkpoint_len p.now }
    requires leaves { HaveLeaves p.now bytes.now }
    requires marked { AreMarked p.now.keys placed.old (placed_in p.now bytes.now u) }
    ensures rule { rule_of result ≡ first_broken (bucket_rules p.now bytes.now u) }
    ensures marks { IfNone result
        (AreMarked p.now.keys placed.new (placed_in p.now bytes.now (u + 1))) }
{
    match check_home(p, bytes, u) {
        Some(broken) => return Some(broken),
        None => {}
    }
    match check_keys(p, bytes, u, placed) {
        Some(broken) => return Some(broken),
        None => {}
    }
    let mut taken = [false; 48];
    check_indexes(p, bytes, u, &mut taken)
}

/// Tests all buckets, and marks their keys.
pub fn check_buckets(p: &Params, bytes: &[u8], placed: &mut [bool]) -> Option<Broken>
    requires long { length bytes.now ≡ checkpoint_len p.now }
    requires leaves { HaveLeaves p.now bytes.now }
    requires marked { AreMarked p.now.keys placed.old (placed_in p.now bytes.now 0) }
    ensures rule { rule_of result
        ≡ first_broken (flat_map (bucket_rules p.now bytes.now) (below (buckets p.now))) }
    ensures marks { IfNone result
        (AreMarked p.now.keys placed.new (placed_in p.now bytes.now (buckets p.now))) }
{
    for u in 0..buckets(p) {
        match check_bucket(p, bytes, u, placed) {
            Some(broken) => return Some(broken),
            None => {}
        }
    }
    None
}
