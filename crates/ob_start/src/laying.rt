//! Registers of a new store.

ghost use Rattle.std.specs.Prelude.{◌≡◌, ◌⊎◌, ◌<◌, ◌^◌, [], ◌∷◌, true, OnOk, replicate};
ghost use Rattle.ob_store.specs.Images.{IsSynced, Passes, LeavesOnly};
ghost use Rattle.ob_store.specs.Calls.{Serves, IsFailed};
ghost use Rattle.ob_store.specs.Told.{Does};
ghost use Rattle.ob_twin.specs.Bodies.{Tagging};
ghost use Rattle.ob_twin.specs.Clear.{InClearBy};
ghost use Rattle.ob_twin.specs.Keyed.{tagging};
ghost use Rattle.ob_twin.specs.Register.{first_of, StandsAt, SameOutside};
ghost use Rattle.ob_twin.specs.Reading.{NoneOpen};
ghost use Rattle.ob_twin.specs.Orders.{set_notes};
ghost use Rattle.ob_start.specs.Clear.{LaidInClearBy, ShutBy};
ghost use Rattle.ob_start.specs.Laying.{SameHead, HasNoHead, IsTornHead, AreShut, SameButThese, LieBehind, IsOpenAlone};
ghost use Rattle.ob_start.specs.Orders.{writes_of, register_gates, shut_notes, lay_notes};

use ob_base::Failed;
use ob_seal::Sealer;
use ob_store::{Store, Watch, sync_noted, write_noted};
use ob_twin::{Gates, Twin, closed_gate, write_out};

// Writes each of these gates closed.
fn shut<S: Store, W: Watch>(store: &mut S, gates: &[u64], watch: &mut W) -> Result<(), Failed>
    requires none_out { (S.disk store.old).out ≡ 0 }
    requires behind { LieBehind 0 gates.now }
    ensures serves { Serves IsFailed (S.disk store.old) (S.disk store.new) result }
    ensures shut { (S.disk store.old).tells
        → OnOk result (AreShut gates.now (S.disk store.new).cells) }
    ensures rest { (S.disk store.old).tells
        → SameButThese gates.now (S.disk store.new).cells (S.disk store.old).cells }
    ensures clear { (S.disk store.new).tells
        → ShutBy (S.disk store.new).seen (S.disk store.old).cells (S.disk store.new).cells result }
    ensures passes { Passes SameHead (S.disk store.old) (S.disk store.new) }
    ensures does { Does (writes_of gates.now) (S.disk store.old).seen (S.disk store.new).seen
        (W.trace watch.old) (W.trace watch.new) result }
{
    let closed = closed_gate();
    for gate in gates {
        write_noted(store, *gate, &closed, watch)?;
    }
    Ok(())
}

// Writes the gates of both registers and these closed, and makes sure of them.
fn shut_gates<S: Store, W: Watch>(store: &mut S, more: &[u64], watch: &mut W) -> Result<(), Failed>
    requires none_out { (S.disk store.old).out ≡ 0 }
    requires behind { LieBehind 8 more.now }
    ensures serves { Serves IsFailed (S.disk store.old) (S.disk store.new) result }
    ensures registers { (S.disk store.old).tells
        → OnOk result (AreShut register_gates (S.disk store.new).cells) }
    ensures more { (S.disk store.old).tells
        → OnOk result (AreShut more.now (S.disk store.new).cells) }
    ensures head { (S.disk store.old).tells
        → OnOk result (SameHead (S.disk store.new).cells (S.disk store.old).cells) }
    ensures clear { (tag : Tagging) → (S.disk store.new).tells → InClearBy tag
        (S.disk store.new).seen (S.disk store.old).cells (S.disk store.new).cells result }
    ensures passes { Passes SameHead (S.disk store.old) (S.disk store.new) }
    ensures does { Does (shut_notes more.now) (S.disk store.old).seen (S.disk store.new).seen
        (W.trace watch.old) (W.trace watch.new) result }
{
    shut(store, &[2, 4, 6, 8], watch)?;
    shut(store, more, watch)?;
    sync_noted(store, watch)
}

/// Sets a register that has no open gate to its first number.
///
/// # Errors
/// The store failed, and its count of faults rose. At which number the register stands is not told,
/// but each of its cells is as it was, or has what a register writes there; but for one whose write
/// the store refused.
pub fn set_first<S: Store, W: Watch>(
    twin: Twin,
    store: &mut S,
    sealer: &Sealer,
    n: u64,
    watch: &mut W,
) -> Result<(), Failed>
    requires none_out { (S.disk store.old).out ≡ 0 }
    requires small { n < 2 ^ 62 }
    requires closed { (S.disk store.old).tells → NoneOpen (first_of twin) (S.disk store.old).cells }
    ensures serves { Serves IsFailed (S.disk store.old) (S.disk store.new) result }
    ensures stands { (S.disk store.old).tells
        → OnOk result (StandsAt (tagging sealer.now.keys) (first_of twin) (S.disk store.new).cells
        n) }
    ensures rest { (S.disk store.old).tells
        → SameOutside (first_of twin) (S.disk store.new).cells (S.disk store.old).cells }
    // Each byte that it leaves in the clear is of a gate or of a number's body.
    ensures clear { (S.disk store.new).tells → InClearBy (tagging sealer.now.keys)
        (S.disk store.new).seen (S.disk store.old).cells (S.disk store.new).cells result }
    ensures passes { Passes (SameOutside (first_of twin)) (S.disk store.old) (S.disk store.new) }
    ensures durable { (S.disk store.old).tells → OnOk result (IsSynced (S.disk store.new)) }
    ensures gates { (S.disk store.old).tells
        → OnOk result (IsOpenAlone (first_of twin) n (S.disk store.new).cells) }
    ensures does { Does (set_notes true (first_of twin) n) (S.disk store.old).seen
        (S.disk store.new).seen (W.trace watch.old) (W.trace watch.new) result }
{
    match twin.set(store, sealer, &mut Gates::new(), n, watch) {
        Ok(()) => Ok(()),
        Err(_) => Err(Failed),
    }
}

/// Begins a store: no head, a sync; the gates of both registers and these further ones closed, a
/// sync; generation 1. From the first sync on no image that a crash may leave is a store.
///
/// # Errors
/// The store failed, and its count of faults rose. What its cells have is not told.
pub fn lay_registers<S: Store, W: Watch>(
    store: &mut S,
    sealer: &Sealer,
    more_gates: &[u64],
    watch: &mut W,
) -> Result<(), Failed>
    requires none_out { (S.disk store.old).out ≡ 0 }
    requires behind { LieBehind 8 more_gates.now }
    ensures serves { Serves IsFailed (S.disk store.old) (S.disk store.new) result }
    ensures generation { (S.disk store.old).tells
        → OnOk result (StandsAt (tagging sealer.now.keys) 1 (S.disk store.new).cells 1) }
    ensures gates { (S.disk store.old).tells
        → OnOk result (IsOpenAlone 1 1 (S.disk store.new).cells) }
    ensures epoch { (S.disk store.old).tells → OnOk result (NoneOpen 5 (S.disk store.new).cells) }
    ensures shut { (S.disk store.old).tells
        → OnOk result (AreShut more_gates.now (S.disk store.new).cells) }
    ensures blank { (S.disk store.old).tells
        → OnOk result ((S.disk store.new).cells 0 ≡ replicate 128 0) }
    // Each byte that it leaves in the clear is of a gate, of a number's body, or a head's zero.
    ensures clear { (S.disk store.new).tells → LaidInClearBy (λ head. head ≡ replicate 128 0)
        (tagging sealer.now.keys) (S.disk store.new).seen (S.disk store.old).cells
        (S.disk store.new).cells result }
    ensures durable { (S.disk store.old).tells → OnOk result (IsSynced (S.disk store.new)) }
    // A crash at any moment leaves a torn head, or no store.
    ensures crash { (S.disk store.old).tells
        → LeavesOnly (S.disk store.old) (S.disk store.new) (λ c. IsTornHead (S.disk store.old) c
        ⊎ HasNoHead c) }
    ensures does { Does (lay_notes more_gates.now) (S.disk store.old).seen (S.disk store.new).seen
        (W.trace watch.old) (W.trace watch.new) result }
{
    write_out(store, 0, &[0; 128], watch)?;
    shut_gates(store, more_gates, watch)?;
    set_first(Twin::GENERATION, store, sealer, 1, watch)
}
