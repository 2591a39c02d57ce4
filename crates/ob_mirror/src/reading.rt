//! Cells of the first half are read, and not looked at.

ghost use Rattle.std.specs.Prelude.{◌≤◌, ◌<◌, ◌+◌, ◌^◌, OnErr};
ghost use Rattle.ob_base.specs.Causes.{Rose};
ghost use Rattle.ob_store.specs.Told.{Does};
ghost use Rattle.ob_mirror.specs.Joins.{IsOnlyRead, reads_from};

use ob_base::Failed;
use ob_store::{Store, Watch, read_noted};

// Reads so many cells from `base` on, and looks at none.
//
// # Errors
// The lane refused a read, and its count rose.
fn read_each<A: Store, W: Watch>(
    first: &A,
    lane: &mut A::Lane,
    base: u64,
    count: u64,
    watch: &mut W,
) -> Result<(), Failed>
    requires fits { base + count < 2 ^ 64 }
    ensures later { A.lane_faults lane.old ≤ A.lane_faults lane.new }
    ensures does { Does (reads_from base count) (A.lane_seen lane.old) (A.lane_seen lane.new)
        (W.trace watch.old) (W.trace watch.new) result }
    ensures cause { OnErr result (Rose (A.lane_faults lane.old) (A.lane_faults lane.new)) }
{
    for cell in 0..count {
        let mut bytes = [0; 128];
        match read_noted(first, lane, base + cell, &mut bytes, watch) {
            Ok(()) => {}
            Err(Failed) => return Err(Failed),
        }
    }
    Ok(())
}

/// Reads so many cells of a store from `base` on, in rising order, and looks at none: what follows
/// doesn't depend on them. Each read is shown, whatever it answered.
///
/// # Errors
/// It failed, and its count of faults rose. It is as it was.
pub fn read_cells<A: Store, W: Watch>(
    first: &mut A,
    base: u64,
    count: u64,
    watch: &mut W,
) -> Result<(), Failed>
    requires fits { base + count < 2 ^ 64 }
    ensures first { IsOnlyRead (A.disk first.old) (A.disk first.new) }
    ensures does { Does (reads_from base count) (A.disk first.old).seen (A.disk first.new).seen
        (W.trace watch.old) (W.trace watch.new) result }
    ensures cause { OnErr result (Rose (A.disk first.old).faults (A.disk first.new).faults) }
{
    let mut lane = match first.lane() {
        Ok(lane) => lane,
        Err(Failed) => return Err(Failed),
    };
    let read = read_each(&*first, &mut lane, base, count, watch);
    first.absorb(lane);
    read
}
