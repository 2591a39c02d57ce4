//! A batch that was taken of the desk, read while clients go on, and delivered.

ghost use Rattle.std.specs.Prelude.{◌≡◌, ◌<◌, ◌++◌, [], ◌∷◌, length, false, OnOk, IfOk, IfErr};
ghost use Rattle.ob_io.specs.Streams.{Flow};
ghost use Rattle.ob_serial.specs.Vaults.{VaultCounts};
ghost use Rattle.ob_serial.specs.VaultKinds.{kind_of};
ghost use Rattle.ob_desk.specs.Desk as desks;
ghost use Rattle.ob_desk.specs.Desk.{DeskState};
ghost use Rattle.ob_desk.specs.Beats.{BeatKind};
ghost use Rattle.ob_desk.specs.declared.calls.Look.{Look as Seen};
ghost use Rattle.ob_hall.specs.Passes.{IsPassOf, IsOutOfTurn};
ghost use Rattle.ob_conduct.specs.Acts.{look_calls, MayAct, IsToFetch};
ghost use Rattle.ob_driver.specs.Resting.{params_of, noted_by, IsInTurn, IsDriver, IsOut};
ghost use Rattle.ob_driver.specs.Turning.{MakesTurn};
ghost use Rattle.ob_driver.specs.Places.{MakesEntries, EndsItsTurn, IsTurnAt, MakesFromItsTurn};
ghost use Rattle.ob_driver.specs.Inside.{IsLooking};
ghost use Rattle.ob_driver.specs.Driven.{side, DoneOnce, FailsOnce};
ghost use Rattle.ob_driver.specs.declared.round.Round.TheVariants as rounds;

use crate::asking::{deliver_batch, read_batch, take_batch};
use crate::noting::leave;
use crate::round::Round;
use ob_base::{Fault, Key, Value};
use ob_conduct::RunErr;
use ob_desk::Desk;
use ob_hall::{Driven, Hall, Pass};
use ob_serial::Vault;
use ob_store::Watch;
use std::snapshot::Snapshot;
use std::sync::Wait;
use std::thread::Threads;

// Takes a batch, and ends the turn with that.
fn take(hall: &Hall, pass: &mut Pass, mut desk: Desk, asks: &mut Vec<Option<Key>>)
    requires turn { IsInTurn hall.now pass.old desk }
    requires may { desks.MayCall desk desks.TakeBatch }
    requires places { length asks.old.items ≡ desk.setup.params.places }
    ensures taken { (mid : DeskState) × desks.TakeStep desk asks.new.items mid }
    ensures made { MakesTurn pass.old pass.new
        (noted_by pass.old ++ (desks.TakeBatch, desks.Batch asks.new.items) ∷ []) }
    ensures ends { EndsItsTurn pass.old pass.new }
    ensures places { length asks.new.items ≡ length asks.old.items }
    ensures ear { pass.new.ear ≡ pass.old.ear }
    ensures own { IsPassOf hall.now pass.new }
    ensures idle { IsOutOfTurn pass.new }
{
    take_batch(&mut desk, asks);
    let batch = Snapshot::of(&*asks);
    leave(hall, pass, desk, Driven::TakeBatch { batch });
}

// Delivers the values of the batch, in a turn, which stands behind so many as `turns` says.
fn deliver<R: Wait>(
    rt: &R,
    hall: &Hall,
    pass: &mut Pass,
    asks: &Vec<Option<Key>>,
    found: &Vec<Option<Value>>,
    turns: &mut u64,
)
    requires out { (c : VaultCounts) × IsOut hall.now pass.old c asks.now.items }
    requires whole { length found.now.items ≡ length asks.now.items }
    ensures made { MakesTurn pass.old pass.new
        ((desks.Deliver asks.now.items found.now.items, desks.Done) ∷ []) }
    ensures stand { MakesEntries pass.old turns.old pass.new turns.new }
    ensures ear { pass.new.ear ≡ pass.old.ear }
    ensures own { IsPassOf hall.now pass.new }
    ensures idle { IsOutOfTurn pass.new }
{
    let (mut desk, count) = hall.enter_behind(rt, pass, *turns);
    deliver_batch(&mut desk, asks, found);
    let keys = Snapshot::of(asks);
    let values = Snapshot::of(found);
    leave(hall, pass, desk, Driven::Deliver { keys, values });
    *turns = count;
    hall.wake();
}

/// Stops the desk with a fault, in a turn, which stands behind so many as `turns` says.
pub fn stop<R: Wait>(rt: &R, hall: &Hall, pass: &mut Pass, fault: Fault, turns: &mut u64)
    requires driver { IsDriver hall.now pass.old }
    requires idle { IsOutOfTurn pass.old }
    ensures made { MakesTurn pass.old pass.new ((desks.Stop fault, desks.Done) ∷ []) }
    ensures stand { MakesEntries pass.old turns.old pass.new turns.new }
    ensures ear { pass.new.ear ≡ pass.old.ear }
    ensures own { IsPassOf hall.now pass.new }
    ensures idle { IsOutOfTurn pass.new }
{
    let (mut desk, count) = hall.enter_behind(rt, pass, *turns);
    desk.stop(fault);
    leave(hall, pass, desk, Driven::Stop { fault });
    *turns = count;
    hall.wake();
}

/// Takes a batch and ends the turn; the vault reads it while no turn is held; and it is delivered
/// in another turn. Where the watch broke in it the desk is stopped in one more. Answers that
/// something was done.
///
/// # Errors
/// The vault refused, and the desk is stopped with its fault; or the watch broke, and the desk is
/// stopped.
pub fn fetch<R: Threads + Wait + Sync, V: Vault, W: Watch>(
    rt: &R,
    hall: &Hall,
    pass: &mut Pass,
    desk: Desk,
    vault: &mut V,
    watch: &mut W,
    asks: &mut Vec<Option<Key>>,
    found: &mut Vec<Option<Value>>,
    turns: &mut u64,
) -> Result<Round, RunErr>
    requires params { V.params vault.old ≡ params_of hall.now }
    requires looking { IsLooking hall.now pass.old desk (V.counts vault.old) }
    requires some_left { 0 < (V.counts vault.old).left }
    requires whole { (W.trace watch.old).broken ≡ false }
    requires places { length asks.old.items ≡ (params_of hall.now).places }
    requires room { length found.old.items ≡ (params_of hall.now).places }
    requires turns { IsTurnAt pass.old turns.old }
    ensures params { V.params vault.new ≡ params_of hall.now }
    ensures places { length asks.new.items ≡ (params_of hall.now).places }
    ensures room { length found.new.items ≡ (params_of hall.now).places }
    ensures stand { MakesFromItsTurn pass.old turns.old pass.new turns.new }
    ensures acts { IfOk result (λ round. round ≡ rounds.Acted) }
    // Behind a look at which it may be done this is a thing that the driver does.
    ensures fetched { (beat : BeatKind) (look : Seen) (flow : Flow)
        → noted_by pass.old ≡ look_calls look → MayAct beat look → IsToFetch look
        → OnOk result (DoneOnce (kind_of V.Vault) beat hall.now
        (side pass.old vault.old (W.trace watch.old) flow) (V.counts vault.old)
        (side pass.new vault.new (W.trace watch.new) flow) (V.counts vault.new) rounds.Acted) }
    ensures refused { (beat : BeatKind) (look : Seen) (flow : Flow)
        → noted_by pass.old ≡ look_calls look → MayAct beat look → IsToFetch look
        → IfErr result (λ err. FailsOnce (kind_of V.Vault) beat hall.now
        (side pass.old vault.old (W.trace watch.old) flow) (V.counts vault.old)
        (side pass.new vault.new (W.trace watch.new) flow) err) }
{
    take(hall, pass, desk, asks);
    match read_batch(rt, vault, watch, asks, found) {
        Ok(()) => {
            deliver(rt, hall, pass, asks, found, turns);
            if watch.broken() {
                stop(rt, hall, pass, Fault::SinkFault, turns);
                return Err(RunErr::Unwatched);
            }
            Ok(Round::Acted)
        }
        Err(fault) => {
            stop(rt, hall, pass, fault, turns);
            Err(RunErr::Fault(fault))
        }
    }
}
