//! Buckets and leaves of the tree of Ring ORAM.

ghost use Rattle.std.specs.Prelude.{◌≡◌, ◌≤◌, ◌<◌, ◌^◌};
ghost use Rattle.ob_base.specs.Tree.{buckets, bucket_of, reversed};

use crate::params::Params;

/// How many buckets the tree has: `2^(levels + 1) - 1`.
#[tactic(auto, unfolding(crate::specs::Tree::buckets))]
pub fn buckets(p: &Params) -> u32
    ensures buckets { result ≡ buckets p.now }
    ensures few { result < 2 ^ 17 }
{
    (2 << p.levels) - 1
}

/// The bucket of a level that the path of a leaf goes through. Buckets are numbered from the
/// root, 0, level by level.
pub fn bucket_of(p: &Params, level: u32, leaf: u32) -> u32
    requires level { level ≤ p.now.levels }
    requires leaf { leaf < 2 ^ p.now.levels }
    ensures bucket { result ≡ bucket_of p.now level leaf }
    ensures within { result < buckets p.now }
{
    (1 << level) - 1 + (leaf >> (p.levels - level))
}

/// The low bits of a number, as many as there are levels, turned round: a leaf. Successive
/// numbers give the order in which Ring ORAM evicts paths.
pub fn reverse(p: &Params, c: u64) -> u32
    ensures leaf { result ≡ reversed p.now.levels c }
    ensures within { result < 2 ^ p.now.levels }
{
    let mut rest = c;
    let mut turned: u32 = 0;
    for _bit in 0..p.levels {
        turned = turned * 2 + (rest % 2) as u32;
        rest /= 2;
    }
    turned
}
