//! Closed gates for the log of the epoch behind one that ends.

ghost use Rattle.std.specs.Prelude.{◌≡◌, ◌<◌, ◌%◌, ℕ, suc, OnOk};
ghost use Rattle.ob_pads.specs.Seals.{IsUnsealed};
ghost use Rattle.ob_schedule.specs.Schedule.{log_gates, writes_of};
ghost use Rattle.ob_seal.specs.declared.keys.Keys.{Keys};
ghost use Rattle.ob_stand.specs.Ends.{IsEndOf, RingEnd};
ghost use Rattle.ob_stand.specs.Stands.{RingStanding};
ghost use Rattle.ob_store.specs.Calls.{IsFailed, Serves};
ghost use Rattle.ob_store.specs.Images.{Passes};
ghost use Rattle.ob_store.specs.Told.{Does};
ghost use Rattle.ob_end.specs.EndWrites.{SameFirst, ShutsGates};

use ob_base::{Failed, Params, log_gate};
use ob_store::{Store, Watch, write_noted};
use ob_twin::closed_gate;

/// Writes the gates of a log area closed, in ascending order.
pub fn shut_gates<S: Store, W: Watch>(
    store: &mut S,
    p: &Params,
    area: u8,
    watch: &mut W,
) -> Result<(), Failed>
    requires none_out { (S.disk store.old).out ≡ 0 }
    requires area { area < 2 }
    ensures serves { Serves IsFailed (S.disk store.old) (S.disk store.new) result }
    ensures shuts { (keys : Keys) (s : RingStanding) (end : RingEnd) → IsEndOf p.now s end
        → area ≡ suc (suc s.epoch) % 2
        → ShutsGates keys p.now s end (S.disk store.old) (S.disk store.new) result }
    ensures first { (S.disk store.old).tells
        → SameFirst (S.disk store.new).cells (S.disk store.old).cells }
    ensures moments { Passes SameFirst (S.disk store.old) (S.disk store.new) }
    // Each cell is as it was, or a gate.
    ensures unsealed { (S.disk store.old).tells → OnOk result ((cell : ℕ)
        → IsUnsealed (S.disk store.old).cells (S.disk store.new).cells cell) }
    ensures does { Does (writes_of (log_gates p.now area)) (S.disk store.old).seen
        (S.disk store.new).seen (W.trace watch.old) (W.trace watch.new) result }
{
    let closed = closed_gate();
    for batch in 0..p.batches {
        write_noted(store, log_gate(p, area, batch), &closed, watch)?;
    }
    Ok(())
}
