//! Planning the lifts of an epoch's end.

ghost use Rattle.std.specs.Prelude.{◌≡◌, ◌<◌, ◌≤◌, ◌+◌, ◌*◌, ◌^◌, ◌∷◌, ◌++◌, [], length, filter};
ghost use Rattle.std.specs.List.{range_with_len};
ghost use Rattle.ob_base.specs.Tree.{buckets, path};
ghost use Rattle.ob_base.specs.Planned.{most_jobs};
ghost use Rattle.ob_tables.specs.Buckets.{is_lifted};
ghost use Rattle.ob_schedule.specs.Paths.{eviction_path, by_falling_level};
ghost use Rattle.ob_ring.specs.FlatTable.{after_final};
ghost use Rattle.ob_ring.specs.Arrays.{AreWhole};
ghost use Rattle.ob_ring.specs.Picked.{Grows, Plans, final_picked};

use crate::reads::lift;
use ob_base::{Jobs, Params, bucket_of, reverse};
use ob_tables::Metas;

// Reads a bucket out, unless that was done.
fn lift_standing(p: &Params, metas: &mut Metas, bucket: u32, jobs: &mut Jobs)
    requires whole { AreWhole p.now metas.old }
    requires bucket { bucket < buckets p.now }
    requires room { length jobs.old.jobs + p.now.real ≤ jobs.old.room }
    ensures grows { Grows p.now.real jobs.old jobs.new }
    ensures plans { Plans p.now metas.old metas.new jobs.old jobs.new
        (λ t. final_picked p.now t (bucket ∷ [])) (λ t. after_final p.now t (bucket ∷ [])) }
{
    if !metas.is_lifted(bucket) {
        lift(p, metas, bucket, jobs);
    }
}

// Reads the buckets of a path out, from the root on.
fn lift_path(p: &Params, metas: &mut Metas, leaf: u32, jobs: &mut Jobs)
    requires whole { AreWhole p.now metas.old }
    requires leaf { leaf < 2 ^ p.now.levels }
    requires room { length jobs.old.jobs + (p.now.levels + 1) * p.now.real ≤ jobs.old.room }
    ensures grows { Grows ((p.now.levels + 1) * p.now.real) jobs.old jobs.new }
    ensures plans { Plans p.now metas.old metas.new jobs.old jobs.new
        (λ t. final_picked p.now t (path p.now leaf)) (λ t. after_final p.now t (path p.now leaf)) }
{
    for level in 0..p.levels + 1 {
        lift_standing(p, metas, bucket_of(p, level, leaf), jobs);
    }
}

/// Reads the buckets of the paths out that are evicted next.
pub(crate) fn lift_paths(p: &Params, metas: &mut Metas, counter: u64, jobs: &mut Jobs)
    requires whole { AreWhole p.now metas.old }
    requires counter { counter < 2 ^ p.now.levels }
    requires none { length jobs.old.jobs ≡ 0 }
    requires room { jobs.old.room ≡ most_jobs p.now }
    ensures grows { Grows (most_jobs p.now) jobs.old jobs.new }
    ensures plans { Plans p.now metas.old metas.new jobs.old jobs.new
        (λ t. final_picked p.now t (eviction_path p.now counter))
        (λ t. after_final p.now t (eviction_path p.now counter)) }
{
    for i in 0..p.evictions {
        lift_path(p, metas, reverse(p, counter + i as u64), jobs);
    }
}

// Puts the lifted ones of so many buckets, from this one on, behind the list.
fn list_level(metas: &mut Metas, first: u32, many: u32)
    requires within { first + many ≤ length metas.old.versions }
    requires room { length metas.old.order + many ≤ length metas.old.versions }
    requires few { length metas.old.versions < 2 ^ 32 }
    ensures { metas.new
        ≡ record metas.old {
          order = metas.old.order ++ filter (λ u. is_lifted metas.old u)
              (range_with_len first many);
        } }
{
    for i in 0..many {
        if metas.is_lifted(first + i) {
            metas.push_order(first + i);
        }
    }
}

/// Lists the lifted buckets by falling level, then rising number.
#[tactic(auto, using(ob_base::proofs::TreeLaws::one_shifted))]
pub(crate) fn list_lifted(p: &Params, metas: &mut Metas)
    requires whole { AreWhole p.now metas.old }
    ensures { metas.new
        ≡ record metas.old {
          order = filter (λ u. is_lifted metas.old u)
              (by_falling_level (p.now.levels + 1));
        } }
{
    metas.clear_order();
    for i in 0..p.levels + 1 {
        let many = 1 << (p.levels - i);
        list_level(metas, many - 1, many);
    }
}
