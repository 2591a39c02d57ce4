//! Reading a run of cells, and testing nothing.

ghost use Rattle.std.specs.Prelude.{◌≡◌, ◌<◌, ◌≤◌, ◌+◌, ◌^◌, [], ◌∷◌, length, OnOk};
ghost use Rattle.ob_base.specs.Causes.{HasCause};
ghost use Rattle.ob_store.specs.Images.{Same, Passes};
ghost use Rattle.ob_store.specs.Calls.{Serves, IsFailed, Keeps, Holds};
ghost use Rattle.ob_store.specs.Told.{Does};
ghost use Rattle.ob_cells.specs.Orders.{read_notes};

use ob_base::Failed;
use ob_store::{Store, Watch, read_noted};

// Reads the cells from a cell on through a lane.
fn read_through<S: Store, W: Watch>(
    store: &S,
    lane: &mut S::Lane,
    base: u64,
    cells: &mut [[u8; 128]],
    watch: &mut W,
) -> Result<(), Failed>
    requires fits { base + length cells.old < 2 ^ 64 }
    ensures bytes { (S.disk store.now).tells
        → OnOk result (Holds base cells.new (S.disk store.now).cells) }
    ensures cause { HasCause (S.lane_faults lane.old) (S.lane_faults lane.new) result }
    ensures does { Does (read_notes base (length cells.old)) (S.lane_seen lane.old)
        (S.lane_seen lane.new) (W.trace watch.old) (W.trace watch.new) result }
{
    for i in 0..cells.len() {
        read_noted(store, lane, base + i as u64, &mut cells[i], watch)?;
    }
    Ok(())
}

/// Reads the cells from a cell on, in rising order, and tests nothing of them. Each read is shown,
/// whatever it answered.
///
/// # Errors
/// The store failed, and its count of faults rose. What `cells` has is not told.
pub fn read_cells<S: Store, W: Watch>(
    store: &mut S,
    base: u64,
    cells: &mut [[u8; 128]],
    watch: &mut W,
) -> Result<(), Failed>
    requires fits { base + length cells.old < 2 ^ 64 }
    ensures serves { Serves IsFailed (S.disk store.old) (S.disk store.new) result }
    ensures bytes { (S.disk store.old).tells
        → OnOk result (Holds base cells.new (S.disk store.old).cells) }
    ensures keeps { Keeps (S.disk store.old) (S.disk store.new) }
    ensures passes { Passes Same (S.disk store.old) (S.disk store.new) }
    ensures does { Does (read_notes base (length cells.old)) (S.disk store.old).seen
        (S.disk store.new).seen (W.trace watch.old) (W.trace watch.new) result }
{
    let mut lane = store.lane()?;
    let outcome = read_through(store, &mut lane, base, cells, watch);
    store.absorb(lane);
    outcome
}
