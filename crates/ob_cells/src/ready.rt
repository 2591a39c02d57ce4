//! Writing cells that were sealed before.

ghost use Rattle.std.specs.Prelude.{◌≡◌, ◌<◌, ◌≤◌, ◌+◌, ◌^◌, ℕ, List, length};
ghost use Rattle.ob_store.specs.Calls.{Serves, IsFailed};
ghost use Rattle.ob_store.specs.Runs.{write_notes};
ghost use Rattle.ob_store.specs.Told.{Does};
ghost use Rattle.ob_cells.specs.Writes.{WritesRun};
ghost use Rattle.ob_cells.specs.Windows.{AreSlotsSealed};

use ob_base::Failed;
use ob_seal::Sealer;
use ob_store::{Store, Watch, write_noted};

/// Writes cells that were sealed under the next numbers from a cell on, in rising order, and takes
/// a number for each. Else as `write_sealed`.
///
/// # Errors
/// The store failed, and its count of faults rose. Some of the first numbers were taken.
pub fn write_ready<S: Store, W: Watch>(
    store: &mut S,
    sealer: &mut Sealer,
    base: u64,
    slots: &[[u8; 128]],
    watch: &mut W,
) -> Result<(), Failed>
    requires none_out { (S.disk store.old).out ≡ 0 }
    requires fits { base + length slots.now < 2 ^ 64 }
    requires room { sealer.old.next + length slots.now ≤ 2 ^ 62 }
    ensures serves { Serves IsFailed (S.disk store.old) (S.disk store.new) result }
    ensures run { (plain : ℕ → List ℕ) → AreSlotsSealed sealer.old.keys base sealer.old.generation
        sealer.old.next plain slots.now → WritesRun base (length slots.now) plain sealer.old
        sealer.new (S.disk store.old) (S.disk store.new) result }
    ensures does { Does (write_notes base (length slots.now)) (S.disk store.old).seen
        (S.disk store.new).seen (W.trace watch.old) (W.trace watch.new) result }
{
    for i in 0..slots.len() {
        sealer.take();
        write_noted(store, base + i as u64, &slots[i], watch)?;
    }
    Ok(())
}
