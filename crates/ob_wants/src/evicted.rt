//! The paths that an end evicts.

ghost use Rattle.std.specs.Prelude.{◌≡◌, ◌+◌, ◌%◌, ◌^◌, ◌++◌, ◌∷◌, [], cond, IfOk, OnOk};
ghost use Rattle.ob_base.specs.Tree.{reversed};
ghost use Rattle.ob_schedule.specs.Paths.{eviction_path, is_one_of};
ghost use Rattle.ob_schedule.specs.Holes.{firsts};

use crate::tree::push_path;
use ob_base::{Params, reverse};
use std::alloc::{AllocError, Global};

// The leaf of a path, by its number.
#[tactic(auto, using(ob_base::proofs::Bounds::leaves_le))]
fn leaf_evicted(p: &Params, number: u64) -> u16
    ensures { result ≡ reversed p.now.levels number }
{
    reverse(p, number) as u16
}

/// The buckets of the paths that are evicted next, path by path.
pub(crate) fn evicted_buckets(
    alloc: Global,
    p: &Params,
    counter: u32,
) -> Result<Vec<u32>, AllocError>
    ensures { IfOk result (λ list. list.items ≡ eviction_path p.now counter) }
{
    let mut list = Vec::new(alloc);
    for i in 0..p.evictions {
        push_path(p, leaf_evicted(p, counter as u64 + i as u64), &mut list)?;
    }
    Ok(list)
}

// Puts a number behind the list, unless it is one of it.
fn push_first(list: &mut Vec<u32>, number: u32) -> Result<(), AllocError>
    ensures { OnOk result (list.new.items
        ≡ cond (is_one_of list.old.items number) list.old.items (list.old.items ++ number ∷ [])) }
{
    if list.contains(&number) {
        return Ok(());
    }
    list.push(number)?;
    Ok(())
}

/// Each number at its first place.
pub(crate) fn firsts_of(alloc: Global, list: &[u32]) -> Result<Vec<u32>, AllocError>
    ensures { IfOk result (λ out. out.items ≡ firsts list.now) }
{
    let mut out = Vec::new(alloc);
    for u in list {
        push_first(&mut out, *u)?;
    }
    Ok(out)
}

/// How many paths were evicted after an epoch more, modulo the number of leaves.
#[tactic(auto, using(ob_base::proofs::TreeLaws::one_shifted))]
pub(crate) fn next_counter(p: &Params, counter: u32) -> u32
    ensures { result ≡ (counter + p.now.evictions) % 2 ^ p.now.levels }
{
    ((counter as u64 + p.evictions as u64) % (1 << p.levels)) as u32
}
