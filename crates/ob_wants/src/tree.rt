//! Paths of the tree.

ghost use Rattle.std.specs.Prelude.{◌≡◌, ◌≤◌, ◌++◌, OnOk, count_by};
ghost use Rattle.ob_base.specs.Tree.{bucket_of, path, passes};

use ob_base::Params;
use std::alloc::AllocError;

/// The bucket of a level that the path of a leaf goes through.
pub(crate) fn bucket_on(p: &Params, level: u32, leaf: u16) -> u32
    requires { level ≤ p.now.levels }
    ensures { result ≡ bucket_of p.now level leaf }
{
    (1 << level) - 1 + (leaf as u32 >> (p.levels - level))
}

/// Puts the buckets of a leaf's path, from the root on, behind the list.
pub(crate) fn push_path(p: &Params, leaf: u16, list: &mut Vec<u32>) -> Result<(), AllocError>
    ensures { OnOk result (list.new.items ≡ list.old.items ++ path p.now leaf) }
{
    for level in 0..p.levels + 1 {
        list.push(bucket_on(p, level, leaf))?;
    }
    Ok(())
}

// Whether the path of a leaf goes through a bucket.
fn passes(p: &Params, bucket: u32, leaf: u16) -> bool
    ensures { result ≡ passes p.now bucket leaf }
{
    for level in 0..p.levels + 1 {
        if bucket_on(p, level, leaf) == bucket {
            return true;
        }
    }
    false
}

/// How many of these leaves have a path through the bucket.
pub(crate) fn passing(p: &Params, bucket: u32, leaves: &[u16]) -> u64
    ensures { result ≡ count_by (passes p.now bucket) leaves.now }
{
    let mut many = 0;
    for leaf in leaves {
        many += passes(p, bucket, *leaf) as u64;
    }
    many
}
