//! A cell written and synced.

ghost use Rattle.std.specs.Prelude.{◌≡◌, [], ◌∷◌, OnOk};
ghost use Rattle.ob_store.specs.declared.watch.Note.{Note};
ghost use Rattle.ob_store.specs.Images.{IsSynced, SameBut, LeavesOnly, Passes};
ghost use Rattle.ob_store.specs.Calls.{Serves, IsFailed};
ghost use Rattle.ob_store.specs.Told.{Does};

use crate::{Note, Store, Watch, sync_noted, write_noted};
use ob_base::Failed;

/// Writes a cell and makes sure of it. A crash at any moment of it changes no other cell. The write
/// is shown whatever it answered, the sync where it succeeds.
///
/// # Errors
/// The store failed at the write or at the sync. What the cell has is not told.
pub fn write_through<S: Store, W: Watch>(
    store: &mut S,
    cell: u64,
    bytes: &[u8; 128],
    watch: &mut W,
) -> Result<(), Failed>
    requires { (S.disk store.old).out ≡ 0 }
    ensures serves { Serves IsFailed (S.disk store.old) (S.disk store.new) result }
    ensures written { (S.disk store.old).tells
        → OnOk result ((S.disk store.new).cells cell ≡ bytes.now) }
    ensures rest { (S.disk store.old).tells
        → SameBut cell (S.disk store.new).cells (S.disk store.old).cells }
    ensures durable { (S.disk store.old).tells → OnOk result (IsSynced (S.disk store.new)) }
    ensures passes { Passes (SameBut cell) (S.disk store.old) (S.disk store.new) }
    ensures any_moment { IsSynced (S.disk store.old)
        → LeavesOnly (S.disk store.old) (S.disk store.new)
        (λ c. SameBut cell c (S.disk store.old).cells) }
    ensures does { Does (Note.Write cell ∷ Note.Sync ∷ []) (S.disk store.old).seen
        (S.disk store.new).seen (W.trace watch.old) (W.trace watch.new) result }
{
    write_noted(store, cell, bytes, watch)?;
    sync_noted(store, watch)
}
