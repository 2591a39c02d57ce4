//! Setting a register.

ghost use Rattle.std.specs.Prelude.{◌≡◌, ◌≢◌, ◌<◌, ◌+◌, ◌%◌, ◌^◌, ◌⊎◌, ◌≤◌, ℕ, [], OnOk, OnErr, IfErr, IsTrue, if◌then◌else◌};
ghost use Rattle.ob_store.specs.Disk.{Image};
ghost use Rattle.ob_store.specs.Images.{IsSynced, SameBut, LeavesOnly, Passes};
ghost use Rattle.ob_store.specs.Calls.{Serves, IsFailed};
ghost use Rattle.ob_store.specs.Told.{Does};
ghost use Rattle.ob_twin.specs.Bodies.{closed_gate, open_gate};
ghost use Rattle.ob_twin.specs.Clear.{IsClosing, IsLaying, SetLeft};
ghost use Rattle.ob_twin.specs.Register.{first_of, body_at, gate_at, place_of, IsOpen, IsUnder, StandsAt, KeepsAt, IsPrepared, IsPut, SameOutside, SameTwo, IsTornOnly};
ghost use Rattle.ob_twin.specs.Opening.{known_of, gates_set, is_closed_first, GatesAre};
ghost use Rattle.ob_twin.specs.Refused.{IsSetFault, SetLeaves};
ghost use Rattle.ob_twin.specs.Orders.{through_notes, prepare_notes, set_notes, SetDoes, WriteDoes, unsure_of};
ghost use Rattle.ob_twin.specs.Stages.{AreSetStages, SetMoments, StagesLaid};
ghost use Rattle.ob_twin.specs.Stops.{IsSettingLeft, SetStops, StopsShort};

use crate::bytes::{closed_gate, open_gate, plain_of};
use crate::known::{is_closed_first, known_of, set_known, with_mark};
use crate::{Gates, SetErr, Stamper, Twin, write_out};
use ob_base::{Failed, Fault};
use ob_store::{Store, Watch};

// Closes the gate of a place, where that is needed.
fn close<S: Store, W: Watch>(
    store: &mut S,
    closes: bool,
    gate: u64,
    watch: &mut W,
) -> Result<(), Failed>
    requires none_out { (S.disk store.old).out ≡ 0 }
    requires told { (S.disk store.old).tells → (IsTrue closes → ⊥)
        → (S.disk store.old).cells gate ≢ open_gate }
    ensures serves { Serves IsFailed (S.disk store.old) (S.disk store.new) result }
    ensures shut { (S.disk store.old).tells
        → OnOk result ((S.disk store.new).cells gate ≢ open_gate) }
    ensures gate { (S.disk store.old).tells
        → OnOk result ((S.disk store.new).cells gate
        ≡ (if closes then closed_gate else (S.disk store.old).cells gate)) }
    ensures refused { (S.disk store.new).tells
        → OnErr result (IsClosing closes gate (S.disk store.new).seen (S.disk store.old).cells
        (S.disk store.new).cells) }
    ensures rest { (S.disk store.old).tells
        → SameBut gate (S.disk store.new).cells (S.disk store.old).cells }
    ensures durable { (S.disk store.old).tells → IsSynced (S.disk store.old)
        → OnOk result (IsSynced (S.disk store.new)) }
    ensures any_moment { IsSynced (S.disk store.old)
        → LeavesOnly (S.disk store.old) (S.disk store.new)
        (λ c. IsTornOnly closes gate c (S.disk store.old).cells) }
    ensures passes { Passes (SameBut gate) (S.disk store.old) (S.disk store.new) }
    ensures does { Does (if closes then through_notes gate else []) (S.disk store.old).seen
        (S.disk store.new).seen (W.trace watch.old) (W.trace watch.new) result }
    ensures shown { OnErr result (IsTrue closes × WriteDoes gate (S.disk store.old).seen
        (S.disk store.new).seen (W.trace watch.old) (W.trace watch.new) result) }
{
    if closes {
        return write_out(store, gate, &closed_gate(), watch);
    }
    Ok(())
}

// Writes the body behind a closed gate.
fn lay_body<S: Store, T: Stamper, W: Watch>(
    store: &mut S,
    stamper: &T,
    closes: bool,
    first: u64,
    n: u64,
    watch: &mut W,
) -> Result<(), Failed>
    requires none_out { (S.disk store.old).out ≡ 0 }
    requires small { n < 2 ^ 62 }
    requires low { first < 16 }
    requires told { (S.disk store.old).tells → (IsTrue closes → ⊥)
        → IsOpen first (S.disk store.old).cells (place_of n) → ⊥ }
    ensures serves { Serves IsFailed (S.disk store.old) (S.disk store.new) result }
    ensures done { (S.disk store.old).tells
        → OnOk result (IsPrepared (T.tag stamper.now) first (S.disk store.old).cells n
        (S.disk store.new).cells) }
    // Refused, the gate was being closed, or the body written behind it.
    ensures refused { (S.disk store.new).tells
        → OnErr result (IsClosing closes (gate_at first (place_of n)) (S.disk store.new).seen
        (S.disk store.old).cells (S.disk store.new).cells
        ⊎ IsLaying (T.tag stamper.now) closes first n (S.disk store.new).seen
        (S.disk store.old).cells (S.disk store.new).cells) }
    ensures rest { (S.disk store.old).tells
        → SameTwo (body_at first (place_of n)) (gate_at first (place_of n)) (S.disk store.new).cells
        (S.disk store.old).cells }
    ensures passes { Passes (SameOutside first) (S.disk store.old) (S.disk store.new) }
    ensures durable { (S.disk store.old).tells → OnOk result (IsSynced (S.disk store.new)) }
    ensures any_moment { (m : ℕ) → n ≡ m + 1 → (S.disk store.old).tells
        → (IsTrue closes → IsOpen first (S.disk store.old).cells (place_of n))
        → IsSynced (S.disk store.old)
        → StandsAt (T.tag stamper.now) first (S.disk store.old).cells m
        → LeavesOnly (S.disk store.old) (S.disk store.new)
        (KeepsAt (T.tag stamper.now) first (S.disk store.old).cells m) }
    ensures does { Does (prepare_notes closes first n) (S.disk store.old).seen
        (S.disk store.new).seen (W.trace watch.old) (W.trace watch.new) result }
    // It comes in two stages.
    ensures stages { AreSetStages S.disk (T.tag stamper.now) closes first n (StagesLaid result)
        store.old store.new }
    ensures stops { OnErr result (StopsShort (set_notes closes first n)
        (prepare_notes closes first n)
        (IsSettingLeft (T.tag stamper.now) closes first n (S.disk store.old)) (S.disk store.old)
        (S.disk store.new) (W.trace watch.old) (W.trace watch.new)) }
{
    let body = first + 2 * (n % 2);
    close(store, closes, body + 1, watch)?;
    write_out(store, body, &stamper.stamp(body, &plain_of(n)), watch)
}

// The epoch of which a refused opening of its gate leaves open whether it ended.
fn unsure_of(twin: Twin, n: u64) -> Option<u64>
    ensures { result ≡ unsure_of twin n }
{
    match twin {
        Twin::GENERATION => None,
        Twin::EPOCH => Some(n),
    }
}

impl Twin {
    /// Sets the number: the gate of its place is written closed, unless it is known to be closed
    /// and the other is open; then the body; then the gate open; each made sure of before the next.
    /// So once it is done each image that a crash may leave stands at the new number, and at every
    /// moment before at the old number or the new one.
    ///
    /// # Errors
    /// The store failed, and its count of faults rose. Before: each image stands at the old number.
    /// Unsure: each stands at the old number or the new one.
    pub fn set<S: Store, T: Stamper, W: Watch>(
        self,
        store: &mut S,
        stamper: &T,
        gates: &mut Gates,
        n: u64,
        watch: &mut W,
    ) -> Result<(), SetErr>
        requires none_out { (S.disk store.old).out ≡ 0 }
        requires small { n < 2 ^ 62 }
        requires told { (S.disk store.old).tells
            → GatesAre (known_of self gates.old) (first_of self) (S.disk store.old).cells }
        ensures serves { Serves (IsSetFault self n) (S.disk store.old) (S.disk store.new) result }
        ensures faults { IfErr result (IsSetFault self n) }
        // Once it is done, the number's body, each byte of it, stands under an open gate.
        ensures done { (S.disk store.old).tells
            → OnOk result (IsPut (T.tag stamper.now) (first_of self) (S.disk store.old).cells n
            (S.disk store.new).cells) }
        // Refused, each of its cells is as it was, or has what it writes there, by how far it came;
        // but for one whose write the store refused.
        ensures refused { (S.disk store.new).tells
            → IfErr result (SetLeft (T.tag stamper.now)
            (is_closed_first (known_of self gates.old) (place_of n)) (first_of self) n
            (S.disk store.new).seen (S.disk store.old).cells (S.disk store.new).cells) }
        // No other cell changes.
        ensures rest { (S.disk store.old).tells
            → SameOutside (first_of self) (S.disk store.new).cells (S.disk store.old).cells }
        // A crash at any moment leaves no other cell changed.
        ensures passes { Passes (SameOutside (first_of self)) (S.disk store.old)
            (S.disk store.new) }
        ensures durable { (S.disk store.old).tells → OnOk result (IsSynced (S.disk store.new)) }
        // It closes its gate, lays the body and opens the gate, and at each moment of these leaves the
        // gates by how many notes lack then; once it is done, each image stands at the new number.
        ensures moments { SetMoments S.disk (T.tag stamper.now)
            (is_closed_first (known_of self gates.old) (place_of n)) (first_of self) n store.old
            store.new result }
        // A crash at any moment leaves the old number or the new one; the old one where it was
        // refused before the gate.
        ensures old_or_new { (m : ℕ) → n ≡ m + 1 → (S.disk store.old).tells
            → IsSynced (S.disk store.old)
            → StandsAt (T.tag stamper.now) (first_of self) (S.disk store.old).cells m
            → LeavesOnly (S.disk store.old) (S.disk store.new)
            (SetLeaves (T.tag stamper.now) (first_of self) (S.disk store.old).cells m n result) }
        ensures gates { gates.new ≡ gates_set self n gates.old result }
        ensures tell { (S.disk store.old).tells
            → OnOk result (GatesAre (known_of self gates.new) (first_of self)
            (S.disk store.new).cells) }
        // The order of its writes and syncs. It is unsure only where the gate was written.
        ensures does { SetDoes (is_closed_first (known_of self gates.old) (place_of n))
            (first_of self) n (S.disk store.old).seen (S.disk store.new).seen (W.trace watch.old)
            (W.trace watch.new) result }
        // Refused, it leaves its gate by how many of its notes weren't shown, and the other gate.
        ensures stops { SetStops (T.tag stamper.now)
            (is_closed_first (known_of self gates.old) (place_of n)) (first_of self) n
            (S.disk store.old) (S.disk store.new) (W.trace watch.old) (W.trace watch.new) result }
    {
        let known = known_of(self, gates);
        let place = n % 2;
        let closes = is_closed_first(known, place);
        let first = self.first();
        match lay_body(store, stamper, closes, first, n, watch) {
            Ok(()) => {}
            Err(Failed) => return Err(SetErr::Before(Fault::StoreFault { unsure: None })),
        }
        match write_out(store, first + 2 * place + 1, &open_gate(), watch) {
            Ok(()) => {}
            Err(Failed) => {
                return Err(SetErr::Unsure(Fault::StoreFault {
                    unsure: unsure_of(self, n),
                }));
            }
        }
        set_known(self, gates, with_mark(known, place));
        Ok(())
    }
}
