//! A run of cells written.

ghost use Rattle.std.specs.Prelude.{◌≡◌, ◌<◌, ◌+◌, ◌^◌, length, OnOk};
ghost use Rattle.ob_store.specs.Images.{SameOff, Passes};
ghost use Rattle.ob_store.specs.Calls.{Serves, IsFailed, Holds};
ghost use Rattle.ob_store.specs.Runs.{write_notes};
ghost use Rattle.ob_store.specs.Told.{Does};

use crate::{Store, Watch, write_noted};
use ob_base::Failed;

/// Writes the cells from `base` on, in rising order, and makes not sure of them. A crash at any
/// moment of it changes no other cell. Each write is shown, whatever it answered.
///
/// # Errors
/// The store failed at a write. What the cells of the run have is not told.
pub fn write_run<S: Store, W: Watch>(
    store: &mut S,
    base: u64,
    rows: &[[u8; 128]],
    watch: &mut W,
) -> Result<(), Failed>
    requires none_out { (S.disk store.old).out ≡ 0 }
    requires fits { base + length rows.now < 2 ^ 64 }
    ensures serves { Serves IsFailed (S.disk store.old) (S.disk store.new) result }
    ensures written { (S.disk store.old).tells
        → OnOk result (Holds base rows.now (S.disk store.new).cells) }
    ensures rest { (S.disk store.old).tells
        → SameOff base (length rows.now) (S.disk store.new).cells (S.disk store.old).cells }
    ensures passes { Passes (SameOff base (length rows.now)) (S.disk store.old) (S.disk store.new) }
    ensures does { Does (write_notes base (length rows.now)) (S.disk store.old).seen
        (S.disk store.new).seen (W.trace watch.old) (W.trace watch.new) result }
{
    for (i, row) in rows.iter().enumerate() {
        write_noted(store, base + i as u64, row, watch)?;
    }
    Ok(())
}
