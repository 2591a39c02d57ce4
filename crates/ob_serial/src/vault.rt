//! The vault: a map by epochs over a store.

ghost use Rattle.std.specs.Prelude.{◌≡◌, ◌<◌, ◌≤◌, ◌+◌, ◌^◌, ℕ, List, Bool, false, length, map, IfErr, IfOk};
ghost use Rattle.std.specs.List.Sorted.{IsStrictlyIncreasing};
ghost use denote.Param.Send.{IsSync};

use ob_base::{Fault, Key, Params, Value, Write};
use ob_store::Watch;
use std::thread::Threads;

/// Why the end of an epoch was refused.
#[derive(Clone, Copy, Debug, PartialEq, Eq)]
pub enum EndErr {
    /// Before its last write: every later image is at the old epoch.
    Before(Fault),
    /// At its last write or at the sync after it: the image is at the old epoch or at the new one.
    Unsure(Fault),
}

/// A map of committed values, kept in a store by epochs. An epoch has a number of read batches,
/// and then one batch of writes, which ends it.
///
/// After any refusal of `fetch` or `end` the vault is spent: it serves no more, and the store has
/// to be opened again. Both are lent the runtime `rt`, by whose threads they may read.
pub trait Vault {
    ghost use Rattle.std.specs.Prelude.{All};
    ghost use Rattle.ob_base.specs.declared.params.Params.{Params as Parameters};
    ghost use Rattle.ob_store.specs.declared.watch.Note.{Note};
    ghost use Rattle.ob_store.specs.Disk.{Disk, Image};
    ghost use Rattle.ob_store.specs.Images.{IsImageOf, LeavesOnly};
    ghost use Rattle.ob_store.specs.Calls.{GoesOn, IsStoreFault};
    ghost use Rattle.ob_store.specs.Lines.{Shows};
    ghost use Rattle.ob_base.specs.Causes.{Rose};
    ghost use Rattle.ob_serial.specs.Vaults.{VaultState, VaultCounts, VaultCall, VaultAnswer, Fetch, End, Standing, counts_of, counts_next, vault_next, IsAnswer, MayStand, MayStandIn, StandsIn, StandAlike, AreBelow, AreDistinct};
    ghost use Rattle.ob_serial.specs.VaultViews.{writes_of, fetch_answer, end_answer, IsFetchFault, IsEndFault, IsStoreEnd};

    /// The parameters of its store.
    ghost params: { Self → Parameters };

    /// The last epoch that ended, the batches that are left, and whether it is spent.
    ghost counts: { Self → VaultCounts };

    /// It holds this. Where the store tells nothing of its cells it may be that nothing is told of
    /// the map.
    ghost holds: { Self → VaultState → Type 0 };

    /// It holds this, and each image that a crash may leave, and what reads give, stands for what
    /// this allows.
    ghost sound: { Self → VaultState → Type 0 };

    /// What an image of its store stands for.
    ghost stands: { Self → Image → Standing → Type 0 };

    /// What its store tells, with the references that the vault was lent.
    ghost disk: { Self → Disk };

    /// A call with its answer and the notes shown, in the vault's own terms.
    ghost called: { Self → VaultCall → VaultAnswer → List Note → Self → Type 0 };

    /// The last epoch that ended, below `2^62`.
    fn epoch(&self) -> u64
        ensures epoch { result ≡ (counts self.now).epoch }
        ensures few { result < 2 ^ 62 };

    /// How many batches of the running epoch are left.
    fn left(&self) -> u32
        ensures { result ≡ (counts self.now).left };

    /// Whether a call was refused.
    fn spent(&self) -> bool
        ensures { result ≡ (counts self.now).spent };

    /// Reads the values of a batch of distinct keys into `out`: None for a pad and for a key that
    /// is absent. One batch less is left.
    ///
    /// # Errors
    /// The store failed, and its count of faults rose; or a cell is damaged, or a number is worn.
    /// The vault is spent.
    fn fetch<R: Threads + Sync, W: Watch>(
        &mut self,
        rt: &R,
        asks: &[Option<Key>],
        out: &mut [Option<Value>],
        watch: &mut W,
    ) -> Result<(), Fault>
        requires sync { IsSync R.row }
        requires serves { (counts self.old).spent ≡ false }
        requires some_left { 0 < (counts self.old).left }
        requires whole { length asks.now ≡ (params self.old).places }
        requires room { length out.old ≡ (params self.old).places }
        requires keys { AreBelow (params self.old).keys asks.now }
        requires distinct { AreDistinct asks.now }
        ensures params { params self.new ≡ params self.old }
        ensures counts { counts self.new
            ≡ counts_next (params self.old).batches (counts self.old) (Fetch asks.now)
            (fetch_answer out.new result) }
        ensures answered { (v : VaultState) → holds self.old v
            → IsAnswer v.content (Fetch asks.now) (fetch_answer out.new result) }
        ensures holds { (v : VaultState) → holds self.old v
            → holds self.new (vault_next v (Fetch asks.now) (fetch_answer out.new result)) }
        ensures sound { (v : VaultState) → sound self.old v
            → sound self.new (vault_next v (Fetch asks.now) (fetch_answer out.new result)) }
        // A crash at any moment of it leaves an image of what the vault held.
        ensures images { (v : VaultState) → sound self.old v
            → LeavesOnly (disk self.old) (disk self.new)
            (StandsIn (stands self.old) (MayStandIn v (Fetch asks.now))) }
        ensures alike { StandAlike (stands self.old) (stands self.new) }
        ensures goes { GoesOn (disk self.old) (disk self.new) }
        ensures faults { IfErr result IsFetchFault }
        ensures cause { IfErr result (λ fault. IsStoreFault fault
            → Rose (disk self.old).faults (disk self.new).faults) }
        ensures called { (notes : List Note) × Shows notes (W.trace watch.old) (W.trace watch.new)
            × called self.old (Fetch asks.now) (fetch_answer out.new result) notes self.new };

    /// Ends the running epoch with these writes, in rising order of keys: the map has them from
    /// now on, whatever crashes.
    ///
    /// # Errors
    /// The store failed, and its count of faults rose; or, before anything was written, a cell is
    /// damaged, too many rows would be left in the stash, or the epoch is worn. The vault is spent.
    fn end<R: Threads + Sync, W: Watch>(
        &mut self,
        rt: &R,
        writes: &[Write],
        watch: &mut W,
    ) -> Result<(), EndErr>
        requires sync { IsSync R.row }
        requires serves { (counts self.old).spent ≡ false }
        requires none_left { (counts self.old).left ≡ 0 }
        requires few { length writes.now ≤ (params self.old).writes }
        requires rising { IsStrictlyIncreasing (map (λ w. w.key) writes.now) }
        requires keys { All (λ w. w.key < (params self.old).keys) writes.now }
        ensures params { params self.new ≡ params self.old }
        ensures counts { counts self.new
            ≡ counts_next (params self.old).batches (counts self.old) (End (writes_of writes.now))
            (end_answer result) }
        ensures holds { (v : VaultState) → holds self.old v
            → holds self.new (vault_next v (End (writes_of writes.now)) (end_answer result)) }
        ensures sound { (v : VaultState) → sound self.old v
            → sound self.new (vault_next v (End (writes_of writes.now)) (end_answer result)) }
        // A crash at any moment of it leaves an image of what the vault held, or of what it then
        // holds.
        ensures images { (v : VaultState) → sound self.old v
            → LeavesOnly (disk self.old) (disk self.new)
            (StandsIn (stands self.old) (MayStandIn v (End (writes_of writes.now)))) }
        ensures alike { StandAlike (stands self.old) (stands self.new) }
        ensures goes { GoesOn (disk self.old) (disk self.new) }
        ensures faults { IfErr result (IsEndFault ((counts self.old).epoch + 1)) }
        ensures cause { IfErr result (λ refused. IsStoreEnd refused
            → Rose (disk self.old).faults (disk self.new).faults) }
        ensures called { (notes : List Note) × Shows notes (W.trace watch.old) (W.trace watch.new)
            × called self.old (End (writes_of writes.now)) (end_answer result) notes self.new };

    /// What it holds agrees with what it tells of itself.
    ghost agrees: { (vault : Self) (v : VaultState) → holds vault v → (counts_of v ≡ counts vault) × (v.batches ≡ (params vault).batches) };

    /// A sound vault holds what it is sound at.
    ghost sound_holds: { (vault : Self) (v : VaultState) → sound vault v → holds vault v };

    /// Each image that a crash may leave of a sound vault stands for what that allows, and so does
    /// what reads of its store give.
    ghost rests: { (vault : Self) (v : VaultState) (image : Image) → sound vault v → IsImageOf (disk vault) image → StandsIn (stands vault) (MayStand v) image };
}
