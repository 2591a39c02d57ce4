//! A second half is made from the first.

ghost use Rattle.std.specs.Prelude.{◌≡◌, ◌≤◌, ◌⊎◌, ◌∷◌, [], ◌++◌, OnOk, OnErr};
ghost use Rattle.ob_base.specs.Causes.{Rose};
ghost use Rattle.ob_store.specs.declared.event.Event.TheVariants as event;
ghost use Rattle.ob_store.specs.Images.{Passes, SameOff};
ghost use Rattle.ob_store.specs.Calls.{GoesOn};
ghost use Rattle.ob_store.specs.Told.{Does};
ghost use Rattle.ob_mirror.specs.Joins.{HasCells, IsOnlyRead, IsCopy, NotesAsFar, cell_writes, reads_from};

use ob_base::Failed;
use ob_store::{Store, Watch, read_noted};

// Copies the first so many cells. Each read is shown.
//
// # Errors
// The first half refused a read, and the lane's count rose; or the second a write, and its own did.
fn copy_cells<A: Store, B: Store, W: Watch>(
    first: &A,
    lane: &mut A::Lane,
    second: &mut B,
    cells: u64,
    watch: &mut W,
) -> Result<(), Failed>
    requires free { (B.disk second.old).out ≡ 0 }
    ensures later { A.lane_faults lane.old ≤ A.lane_faults lane.new }
    ensures reads { Does (reads_from 0 cells) (A.lane_seen lane.old) (A.lane_seen lane.new)
        (W.trace watch.old) (W.trace watch.new) result }
    ensures writes { NotesAsFar (cell_writes cells) (B.disk second.old).seen
        (B.disk second.new).seen result }
    ensures goes { GoesOn (B.disk second.old) (B.disk second.new) }
    ensures out { (B.disk second.new).out ≡ 0 }
    ensures tells { OnOk result ((B.disk second.old).tells → (B.disk second.new).tells) }
    ensures rest { (B.disk second.old).tells
        → SameOff 0 cells (B.disk second.new).cells (B.disk second.old).cells }
    ensures passes { Passes (SameOff 0 cells) (B.disk second.old) (B.disk second.new) }
    ensures copied { OnOk result (HasCells cells (A.disk first.now) (B.disk second.old)
        (B.disk second.new)) }
    ensures cause { OnErr result (Rose (A.lane_faults lane.old) (A.lane_faults lane.new)
        ⊎ Rose (B.disk second.old).faults (B.disk second.new).faults) }
{
    for cell in 0..cells {
        let mut bytes = [0; 128];
        match read_noted(first, lane, cell, &mut bytes, watch) {
            Ok(()) => {}
            Err(Failed) => return Err(Failed),
        }
        match second.write(cell, &bytes) {
            Ok(()) => {}
            Err(Failed) => return Err(Failed),
        }
    }
    Ok(())
}

/// Copies the first so many cells of a store to a second one, and makes sure of them there. Of the
/// first they are read, in rising order, and nothing else is asked of it. Each read is shown,
/// whatever it answered; what is asked of the second is not.
///
/// # Errors
/// One of them failed, and its count of faults rose. The first is as it was. What the second has
/// in these cells is not told.
pub fn join<A: Store, B: Store, W: Watch>(
    first: &mut A,
    second: &mut B,
    cells: u64,
    watch: &mut W,
) -> Result<(), Failed>
    requires free { (B.disk second.old).out ≡ 0 }
    ensures first { IsOnlyRead (A.disk first.old) (A.disk first.new) }
    ensures first_does { Does (reads_from 0 cells) (A.disk first.old).seen (A.disk first.new).seen
        (W.trace watch.old) (W.trace watch.new) result }
    ensures second { GoesOn (B.disk second.old) (B.disk second.new) }
    ensures second_seen { NotesAsFar (cell_writes cells ++ event.Sync ∷ []) (B.disk second.old).seen
        (B.disk second.new).seen result }
    ensures second_out { (B.disk second.new).out ≤ (B.disk second.old).out }
    ensures second_tells { OnOk result ((B.disk second.old).tells → (B.disk second.new).tells) }
    ensures second_rest { (B.disk second.old).tells
        → SameOff 0 cells (B.disk second.new).cells (B.disk second.old).cells }
    ensures second_passes { Passes (SameOff 0 cells) (B.disk second.old) (B.disk second.new) }
    ensures copied { OnOk result (IsCopy cells (A.disk first.new) (B.disk second.new)) }
    ensures cause { OnErr result (Rose (A.disk first.old).faults (A.disk first.new).faults
        ⊎ Rose (B.disk second.old).faults (B.disk second.new).faults) }
{
    let mut lane = match first.lane() {
        Ok(lane) => lane,
        Err(Failed) => return Err(Failed),
    };
    let copied = copy_cells(&*first, &mut lane, second, cells, watch);
    first.absorb(lane);
    match copied {
        Ok(()) => second.sync(),
        Err(Failed) => Err(Failed),
    }
}
