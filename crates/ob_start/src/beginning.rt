//! A generation, begun.

ghost use Rattle.std.specs.Prelude.{◌≡◌, ◌<◌, ◌^◌, suc, OnOk, IfOk, IfErr};
ghost use Rattle.ob_store.specs.Images.{IsSynced};
ghost use Rattle.ob_store.specs.Calls.{Serves, IsStoreFault};
ghost use Rattle.ob_store.specs.Told.{Does};
ghost use Rattle.ob_twin.specs.Keyed.{tagging};
ghost use Rattle.ob_twin.specs.Clear.{InClearBy};
ghost use Rattle.ob_twin.specs.Register.{StandsAt, KeepsAt, SameOutside};
ghost use Rattle.ob_twin.specs.Opening.{GatesAre};
ghost use Rattle.ob_start.specs.Orders.{begin_notes};
ghost use Rattle.ob_start.specs.Beginning.{BeginLeaves, BeginStops, IsBeginFault, IsWornFault, gates_begun};

use ob_base::{Failed, Fault, NUMBER_LIMIT};
use ob_seal::Sealer;
use ob_store::{Store, Watch, sync_noted};
use ob_twin::{Gates, Twin};

/// Makes sure of what was written before, and begins the next generation, whose number it gives.
///
/// # Errors
/// The next generation would be `2^62`, and nothing was done; or the store failed, and its count of
/// faults rose. Until the sync succeeds a crash leaves what it might have left before; from then
/// on, where the register stood at the generation, it stands there or at the next one.
pub fn begin<S: Store, W: Watch>(
    store: &mut S,
    sealer: &Sealer,
    gates: &mut Gates,
    generation: u64,
    watch: &mut W,
) -> Result<u64, Fault>
    requires none_out { (S.disk store.old).out ≡ 0 }
    requires small { generation < 2 ^ 62 }
    requires told { (S.disk store.old).tells
        → GatesAre gates.old.generation 1 (S.disk store.old).cells }
    ensures serves { Serves IsStoreFault (S.disk store.old) (S.disk store.new) result }
    ensures faults { IfErr result (IsBeginFault generation) }
    ensures untouched { IfErr result (λ refused. IsWornFault refused → (store.new ≡ store.old)
        × (watch.new ≡ watch.old)) }
    ensures next { IfOk result (λ next. (next ≡ suc generation) × (next < 2 ^ 62)) }
    ensures gates { gates.new ≡ gates_begun generation gates.old result }
    ensures known { (S.disk store.old).tells
        → OnOk result (GatesAre gates.new.generation 1 (S.disk store.new).cells) }
    ensures rest { (S.disk store.old).tells
        → SameOutside 1 (S.disk store.new).cells (S.disk store.old).cells }
    // Each byte that it leaves in the clear is of a gate or of a number's body.
    ensures clear { (S.disk store.new).tells → InClearBy (tagging sealer.now.keys)
        (S.disk store.new).seen (S.disk store.old).cells (S.disk store.new).cells result }
    ensures durable { (S.disk store.old).tells → OnOk result (IsSynced (S.disk store.new)) }
    // Where the register stood at the generation, it stands at the next one once it is done.
    ensures stands { (S.disk store.old).tells
        → StandsAt (tagging sealer.now.keys) 1 (S.disk store.old).cells generation
        → OnOk result (KeepsAt (tagging sealer.now.keys) 1 (S.disk store.old).cells (suc generation)
        (S.disk store.new).cells) }
    ensures leaves { BeginLeaves S.disk sealer.now.keys generation store.old store.new result }
    ensures does { Does (begin_notes gates.old.generation (suc generation)) (S.disk store.old).seen
        (S.disk store.new).seen (W.trace watch.old) (W.trace watch.new) result }
    // It sets its register's gate and leaves the other one; refused by its store, it leaves them
    // by how many of its notes weren't shown.
    ensures stops { BeginStops sealer.now.keys gates.old.generation (suc generation)
        (S.disk store.old) (S.disk store.new) (W.trace watch.old) (W.trace watch.new) result }
{
    let next = generation + 1;
    if next >= NUMBER_LIMIT {
        return Err(Fault::Worn {
            number: NUMBER_LIMIT,
        });
    }
    match sync_noted(store, watch) {
        Ok(()) => {}
        Err(Failed) => return Err(Fault::StoreFault { unsure: None }),
    }
    match Twin::GENERATION.set(store, sealer, gates, next, watch) {
        Ok(()) => Ok(next),
        Err(_) => Err(Fault::StoreFault { unsure: None }),
    }
}
