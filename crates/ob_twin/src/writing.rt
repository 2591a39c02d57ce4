//! Writing a cell, and making sure of it.

ghost use Rattle.std.specs.Prelude.{◌≡◌, OnOk, OnErr};
ghost use Rattle.ob_store.specs.Images.{IsSynced, SameBut, LeavesOnly, Passes};
ghost use Rattle.ob_store.specs.Calls.{Serves, IsFailed};
ghost use Rattle.ob_store.specs.Told.{Does};
ghost use Rattle.ob_twin.specs.Clear.{IsWritten};
ghost use Rattle.ob_twin.specs.Orders.{through_notes, WriteDoes};

use ob_base::Failed;
use ob_store::{Store, Watch, sync_noted, write_noted};

/// Writes a cell, and makes sure of it. The write is made, whatever is answered.
///
/// # Errors
/// The store failed, and its count of faults rose: at the sync, and the cell has these bytes; or at
/// the write, and what it then holds is the store's own doing.
pub fn write_out<S: Store, W: Watch>(
    store: &mut S,
    cell: u64,
    bytes: &[u8; 128],
    watch: &mut W,
) -> Result<(), Failed>
    requires none_out { (S.disk store.old).out ≡ 0 }
    ensures serves { Serves IsFailed (S.disk store.old) (S.disk store.new) result }
    ensures written { (S.disk store.old).tells
        → OnOk result ((S.disk store.new).cells cell ≡ bytes.now) }
    ensures refused { (S.disk store.new).tells
        → OnErr result (IsWritten cell bytes.now (S.disk store.new).seen
        (S.disk store.new).cells) }
    ensures rest { (S.disk store.old).tells
        → SameBut cell (S.disk store.new).cells (S.disk store.old).cells }
    ensures durable { (S.disk store.old).tells → OnOk result (IsSynced (S.disk store.new)) }
    ensures passes { Passes (SameBut cell) (S.disk store.old) (S.disk store.new) }
    ensures any_moment { IsSynced (S.disk store.old)
        → LeavesOnly (S.disk store.old) (S.disk store.new)
        (λ c. SameBut cell c (S.disk store.old).cells) }
    ensures does { Does (through_notes cell) (S.disk store.old).seen (S.disk store.new).seen
        (W.trace watch.old) (W.trace watch.new) result }
    ensures told { WriteDoes cell (S.disk store.old).seen (S.disk store.new).seen
        (W.trace watch.old) (W.trace watch.new) result }
{
    write_noted(store, cell, bytes, watch)?;
    sync_noted(store, watch)
}
