//! The store: cells that outlive a crash as the disk model says.

ghost use Rattle.std.specs.Prelude.{◌≡◌, ◌≤◌, ◌+◌, ◌-◌, ℕ, [], ◌∷◌, List, Option, OnOk, OnErr, IfOk};
ghost use Rattle.ob_base.specs.Causes.{HasCause};
ghost use Rattle.ob_store.specs.declared.event.Event.{Event};
ghost use Rattle.ob_store.specs.Disk.{Disk, Image, Clock, NotAfter};
ghost use Rattle.ob_store.specs.Images.{IsSynced, SameBut, Tears, Shrinks, Elapses};
ghost use Rattle.ob_store.specs.Calls.{GoesOn, Serves, IsFailed, Keeps, Notes, NotesLane, TellsOn, IsFreshLane, AddsFaults};

use ob_base::Failed;

/// Cells of 128 bytes, numbered from 0. They are read through lanes: where the store is `Sync` and
/// its lanes are `Send`, by several threads at once.
///
/// Between two syncs a written cell may hold any bytes once a crash comes; the other cells stay.
/// After a sync that succeeds a crash leaves what a read gives. A write that fails counts as
/// written, and a sync that fails makes nothing sure.
pub trait Store {
    /// What reads, on one thread at a time.
    type Lane: Drop;

    /// All that the store tells.
    ghost disk: { Self → Disk };

    /// How often a lane has failed.
    ghost lane_faults: { Self.Lane → ℕ };

    /// The reads of a lane, where it tells them.
    ghost lane_seen: { Self.Lane → Option (List Event) };

    /// Makes a lane, which is out until it is absorbed.
    ///
    /// # Errors
    /// The store failed, and its count of faults rose. No lane is out more than before.
    fn lane(&mut self) -> Result<Self::Lane, Failed>
        ensures goes { GoesOn (disk self.old) (disk self.new) }
        ensures fresh { IfOk result (λ lane. lane_faults lane ≡ 0) }
        ensures fresh_seen { IfOk result
            (λ lane. IsFreshLane (disk self.old).seen (lane_seen lane)) }
        ensures keeps { Keeps (disk self.old) (disk self.new) }
        ensures crash { Shrinks (disk self.old) (disk self.new) }
        ensures time { Elapses (disk self.old) (disk self.new) }
        ensures seen { Notes [] (disk self.old).seen (disk self.new).seen }
        ensures out { OnOk result ((disk self.new).out ≤ (disk self.old).out + 1) }
        ensures out_err { OnErr result ((disk self.new).out ≤ (disk self.old).out) }
        ensures cause { HasCause (disk self.old).faults (disk self.new).faults result };

    /// Reads a cell.
    ///
    /// # Errors
    /// The store failed, and the lane's count of faults rose. What `out` has is not told.
    fn read(&self, lane: &mut Self::Lane, cell: u64, out: &mut [u8; 128]) -> Result<(), Failed>
        ensures bytes { (disk self.now).tells → OnOk result (out.new ≡ (disk self.now).cells cell) }
        ensures seen { Notes (Event.Read cell ∷ []) (lane_seen lane.old) (lane_seen lane.new) }
        ensures tells { TellsOn (lane_seen lane.old) (lane_seen lane.new) (lane_faults lane.old)
            (lane_faults lane.new) }
        ensures cause { HasCause (lane_faults lane.old) (lane_faults lane.new) result };

    /// Takes a lane back, with its reads and its count of faults.
    fn absorb(&mut self, lane: Self::Lane)
        ensures goes { GoesOn (disk self.old) (disk self.new) }
        ensures keeps { Keeps (disk self.old) (disk self.new) }
        ensures crash { Shrinks (disk self.old) (disk self.new) }
        ensures time { Elapses (disk self.old) (disk self.new) }
        ensures seen { NotesLane (lane_seen lane) (disk self.old).seen (disk self.new).seen }
        ensures out { (disk self.new).out ≤ (disk self.old).out - 1 }
        ensures faults { AddsFaults (lane_faults lane) (disk self.old).faults
            (disk self.new).faults };

    /// Writes a cell.
    ///
    /// # Errors
    /// The store failed, and its count of faults rose. What the cell has is not told.
    fn write(&mut self, cell: u64, bytes: &[u8; 128]) -> Result<(), Failed>
        requires { (disk self.old).out ≡ 0 }
        ensures serves { Serves IsFailed (disk self.old) (disk self.new) result }
        ensures written { (disk self.old).tells
            → OnOk result ((disk self.new).cells cell ≡ bytes.now) }
        ensures rest { (disk self.old).tells
            → SameBut cell (disk self.new).cells (disk self.old).cells }
        ensures crash { Tears cell (disk self.old) (disk self.new) }
        ensures time { Elapses (disk self.old) (disk self.new) }
        ensures seen { Notes (Event.Write cell ∷ []) (disk self.old).seen (disk self.new).seen };

    /// Makes sure of what was written: after it, a crash leaves what a read gives.
    ///
    /// # Errors
    /// The store failed, and its count of faults rose. Nothing is sure that was not before.
    fn sync(&mut self) -> Result<(), Failed>
        requires { (disk self.old).out ≡ 0 }
        ensures serves { Serves IsFailed (disk self.old) (disk self.new) result }
        ensures durable { (disk self.old).tells → OnOk result (IsSynced (disk self.new)) }
        ensures keeps { Keeps (disk self.old) (disk self.new) }
        ensures crash { Shrinks (disk self.old) (disk self.new) }
        ensures time { Elapses (disk self.old) (disk self.new) }
        ensures seen { Notes (Event.Sync ∷ []) (disk self.old).seen (disk self.new).seen };

    /// This moment is one of those since an earlier one.
    ghost counts_now: { (store : Self) (t : Clock) (c : Image) → NotAfter t (disk store).moment → (disk store).may_leave c → (disk store).left_since t c };

    /// Since this moment there is no other.
    ghost only_now: { (store : Self) (c : Image) → (disk store).left_since (disk store).moment c → (disk store).may_leave c };

    /// What a read gives, a crash may leave.
    ghost includes_reads: { (store : Self) → (disk store).tells → (disk store).leaves → (disk store).may_leave (disk store).cells };
}
