//! The reads of a place, and those of an end.

ghost use Rattle.std.specs.Prelude.{◌≡◌, ◌≤◌, ◌++◌, map, OnOk, IfOk};
ghost use Rattle.std.specs.List.{flat_map};
ghost use Rattle.ob_schedule.specs.Holes.{lift_holes, visit_holes, place_holes};
ghost use Rattle.ob_schedule.specs.Schedule.{counts_now};
ghost use Rattle.ob_wants.specs.Visits.{hole_of_visit};
ghost use Rattle.ob_wants.specs.Occasions.{holes_on};
ghost use Rattle.ob_wants.specs.Shown.{standing_of};
ghost use Rattle.ob_schedule.specs.Standing.{public_known};
ghost use Rattle.ob_schedule.specs.Wants.{end_holes};

use crate::evicted::{evicted_buckets, firsts_of};
use crate::leaves::Leaves;
use crate::occasion::Occasion;
use crate::standing::StandingPlain;
use crate::tree::push_path;
use crate::visit::Visit;
use ob_base::Params;
use std::alloc::{AllocError, Global};
use std::collections::VecDeque;

// Puts the reads that lift a bucket, after so many of its version, behind the list.
fn push_lift(
    p: &Params,
    bucket: u32,
    from: u64,
    visits: &mut VecDeque<Visit>,
) -> Result<(), AllocError>
    requires { from ≤ 32 }
    ensures { OnOk result (map hole_of_visit visits.new.items
        ≡ map hole_of_visit visits.old.items ++ lift_holes p.now bucket from) }
{
    for i in 0..p.real {
        visits.push_back(Visit {
            bucket,
            number: from + i as u64,
        })?;
    }
    Ok(())
}

// Puts the reads of a bucket that a path passes, after so many of its version, behind the list.
fn push_visit(
    p: &Params,
    bucket: u32,
    count: u64,
    visits: &mut VecDeque<Visit>,
) -> Result<(), AllocError>
    ensures { OnOk result (map hole_of_visit visits.new.items
        ≡ map hole_of_visit visits.old.items ++ visit_holes p.now bucket count) }
{
    if count >= p.dummies as u64 {
        return Ok(());
    }
    visits.push_back(Visit {
        bucket,
        number: count,
    })?;
    if count + 1 == p.dummies as u64 {
        push_lift(p, bucket, count + 1, visits)?;
        return Ok(());
    }
    Ok(())
}

// Puts the reads of a bucket on an occasion, after so many of its version, behind the list.
fn push_reads(
    p: &Params,
    occasion: Occasion,
    bucket: u32,
    count: u64,
    visits: &mut VecDeque<Visit>,
) -> Result<(), AllocError>
    ensures { OnOk result (map hole_of_visit visits.new.items
        ≡ map hole_of_visit visits.old.items ++ holes_on p.now occasion bucket count) }
{
    if count >= p.dummies as u64 {
        return Ok(());
    }
    match occasion {
        Occasion::Passed => push_visit(p, bucket, count, visits),
        Occasion::Lifted => push_lift(p, bucket, count, visits),
    }
}

// Puts the reads of these buckets on an occasion behind the list.
fn push_all(
    p: &Params,
    occasion: Occasion,
    standing: &StandingPlain,
    leaves: &Leaves,
    buckets: &[u32],
    visits: &mut VecDeque<Visit>,
) -> Result<(), AllocError>
    ensures { OnOk result (map hole_of_visit visits.new.items
        ≡ map hole_of_visit visits.old.items ++ flat_map
        (λ u. holes_on p.now occasion u
        (counts_now p.now (public_known p.now (standing_of standing.now) leaves.now) u))
        buckets.now) }
{
    for bucket in buckets {
        push_reads(
            p,
            occasion,
            *bucket,
            standing.count(p, leaves, *bucket),
            visits,
        )?;
    }
    Ok(())
}

/// The reads of a place with this label.
pub fn place_visits(
    alloc: Global,
    p: &Params,
    standing: &StandingPlain,
    leaves: &Leaves,
    leaf: u16,
) -> Result<VecDeque<Visit>, AllocError>
    ensures { IfOk result (λ visits. map hole_of_visit visits.items
        ≡ place_holes p.now (counts_now p.now
        (public_known p.now (standing_of standing.now) leaves.now)) leaf) }
{
    let mut buckets = Vec::new(alloc);
    push_path(p, leaf, &mut buckets)?;
    let mut visits = VecDeque::new(alloc);
    push_all(p, Occasion::Passed, standing, leaves, &buckets, &mut visits)?;
    Ok(visits)
}

/// The reads of the final lifts.
pub fn final_visits(
    alloc: Global,
    p: &Params,
    standing: &StandingPlain,
    leaves: &Leaves,
) -> Result<VecDeque<Visit>, AllocError>
    ensures { IfOk result (λ visits. map hole_of_visit visits.items
        ≡ end_holes p.now (standing_of standing.now) leaves.now) }
{
    let evicted = evicted_buckets(alloc, p, standing.counter)?;
    let buckets = firsts_of(alloc, &evicted)?;
    let mut visits = VecDeque::new(alloc);
    push_all(p, Occasion::Lifted, standing, leaves, &buckets, &mut visits)?;
    Ok(visits)
}
