//! Calls that are shown to a watch.

ghost use Rattle.std.specs.Prelude.{◌≡◌, [], ◌∷◌, OnOk};
ghost use Rattle.ob_store.specs.declared.watch.Note.{Note};
ghost use Rattle.ob_store.specs.Images.{IsSynced, SameBut, Tears, Shrinks, Elapses};
ghost use Rattle.ob_store.specs.Calls.{Serves, IsFailed, Keeps, TellsOn};
ghost use Rattle.ob_base.specs.Causes.{HasCause};
ghost use Rattle.ob_store.specs.Told.{Tells, if_well};

use crate::{Note, Store, Watch};
use ob_base::Failed;

/// Shows the write of a cell, and makes it: a trace is never behind its store.
///
/// # Errors
/// The store failed. What the cell has is not told.
#[tactic(auto, using(crate::proofs::Showing::shows_none))]
pub fn write_noted<S: Store, W: Watch>(
    store: &mut S,
    cell: u64,
    bytes: &[u8; 128],
    watch: &mut W,
) -> Result<(), Failed>
    requires { (S.disk store.old).out ≡ 0 }
    ensures serves { Serves IsFailed (S.disk store.old) (S.disk store.new) result }
    ensures written { (S.disk store.old).tells
        → OnOk result ((S.disk store.new).cells cell ≡ bytes.now) }
    ensures rest { (S.disk store.old).tells
        → SameBut cell (S.disk store.new).cells (S.disk store.old).cells }
    ensures crash { Tears cell (S.disk store.old) (S.disk store.new) }
    ensures time { Elapses (S.disk store.old) (S.disk store.new) }
    ensures told { Tells (Note.Write cell ∷ []) (Note.Write cell ∷ []) (S.disk store.old).seen
        (S.disk store.new).seen (W.trace watch.old) (W.trace watch.new) }
{
    watch.note(Note::Write(cell));
    store.write(cell, bytes)
}

/// Makes sure of what was written, and shows the sync where it succeeds.
///
/// # Errors
/// The store failed. Nothing is sure that was not before.
#[tactic(auto, using(crate::proofs::Showing::shows_none))]
pub fn sync_noted<S: Store, W: Watch>(store: &mut S, watch: &mut W) -> Result<(), Failed>
    requires { (S.disk store.old).out ≡ 0 }
    ensures serves { Serves IsFailed (S.disk store.old) (S.disk store.new) result }
    ensures durable { (S.disk store.old).tells → OnOk result (IsSynced (S.disk store.new)) }
    ensures keeps { Keeps (S.disk store.old) (S.disk store.new) }
    ensures crash { Shrinks (S.disk store.old) (S.disk store.new) }
    ensures time { Elapses (S.disk store.old) (S.disk store.new) }
    ensures told { Tells (Note.Sync ∷ []) (if_well result (Note.Sync ∷ [])) (S.disk store.old).seen
        (S.disk store.new).seen (W.trace watch.old) (W.trace watch.new) }
{
    store.sync()?;
    watch.note(Note::Sync);
    Ok(())
}

/// Reads a cell, and shows the read, whatever it answered.
///
/// # Errors
/// The store failed, and the lane's count of faults rose. What `out` has is not told.
pub fn read_noted<S: Store, W: Watch>(
    store: &S,
    lane: &mut S::Lane,
    cell: u64,
    out: &mut [u8; 128],
    watch: &mut W,
) -> Result<(), Failed>
    ensures bytes { (S.disk store.now).tells
        → OnOk result (out.new ≡ (S.disk store.now).cells cell) }
    ensures tells { TellsOn (S.lane_seen lane.old) (S.lane_seen lane.new) (S.lane_faults lane.old)
        (S.lane_faults lane.new) }
    ensures cause { HasCause (S.lane_faults lane.old) (S.lane_faults lane.new) result }
    ensures told { Tells (Note.Read cell ∷ []) (Note.Read cell ∷ []) (S.lane_seen lane.old)
        (S.lane_seen lane.new) (W.trace watch.old) (W.trace watch.new) }
{
    let outcome = store.read(lane, cell, out);
    watch.note(Note::Read(cell));
    outcome
}
