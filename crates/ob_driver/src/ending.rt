//! The end of an epoch: from the look to the close in one turn, and its publish in another.

ghost use Rattle.std.specs.Prelude.{◌≡◌, ◌≤◌, ◌<◌, ◌+◌, ◌^◌, ◌++◌, [], ◌∷◌, All, List, Option, None, ℕ, suc, length, map, false, OnOk, OnErr, IfOk, IfErr, vec_capacity};
ghost use Rattle.std.specs.List.Sorted.{IsStrictlyIncreasing};
ghost use Rattle.ob_base.specs.Writes.{pair_of};
ghost use Rattle.ob_io.specs.Streams.{Flow};
ghost use Rattle.ob_serial.specs.Vaults.{VaultCounts};
ghost use Rattle.ob_serial.specs.Views.{record_of};
ghost use Rattle.ob_serial.specs.VaultKinds.{kind_of};
ghost use Rattle.ob_desk.specs.Desk as desks;
ghost use Rattle.ob_desk.specs.Desk.{DeskState};
ghost use Rattle.ob_desk.specs.Beats.{BeatKind};
ghost use Rattle.ob_desk.specs.declared.calls.Look.{Look as Seen};
ghost use Rattle.ob_turn.specs.BellCalls.{Raises};
ghost use Rattle.ob_hall.specs.Passes.{IsPassOf, IsOutOfTurn};
ghost use Rattle.ob_conduct.specs.Acts.{Batch, look_calls, close_calls, stop_for, fault_in, MayAct, IsToEnd};
ghost use Rattle.ob_conduct.specs.declared.run_err.RunErr.TheVariants as failed;
ghost use Rattle.ob_conduct.specs.Scenes.{scene};
ghost use Rattle.ob_conduct.specs.Ready.{IsBetweenActs, IsDueRecord};
ghost use Rattle.ob_driver.specs.Resting.{params_of, noted_by, IsInTurn, IsBetweenTurns, IsEnding};
ghost use Rattle.ob_driver.specs.Turning.{MakesTurn};
ghost use Rattle.ob_driver.specs.Places.{MakesEntries, EndsItsTurn, IsTurnAt, MakesFromItsTurn};
ghost use Rattle.ob_driver.specs.Inside.{counts_ended, IsLooking, ReadsInside, RefusesInside, StopsInside, Ends, EndRefused};
ghost use Rattle.ob_driver.specs.Rooms.{HasRoom};
ghost use Rattle.ob_driver.specs.Driven.{side, FailsOnce, EndedOnce};

use crate::asking::{deliver_batch, end, read_batch, take_batch};
use crate::fetching::stop;
use crate::noting::{leave, note};
use crate::room::Room;
use ob_base::{Fault, Key, Params, Value, Write};
use ob_conduct::RunErr;
use ob_desk::Desk;
use ob_hall::{Driven, Hall, Pass};
use ob_serial::{EndErr, EpochRecord, Vault};
use ob_store::Watch;
use std::snapshot::Snapshot;
use std::sync::Wait;
use std::thread::Threads;

// Takes a batch, reads it and delivers it, within the turn.
//
// # Errors
// The vault refused the batch, which is taken.
fn read_inside<R: Threads + Sync, V: Vault, W: Watch>(
    rt: &R,
    hall: &Hall,
    pass: &mut Pass,
    desk: &mut Desk,
    vault: &mut V,
    watch: &mut W,
    asks: &mut Vec<Option<Key>>,
    found: &mut Vec<Option<Value>>,
) -> Result<(), Fault>
    requires params { V.params vault.old ≡ params_of hall.now }
    requires turn { IsInTurn hall.now pass.old desk.old }
    requires ready { IsBetweenActs (params_of hall.now) desk.old (V.counts vault.old) }
    requires goes_on { desk.old.stop ≡ None }
    requires whole { (W.trace watch.old).broken ≡ false }
    requires some_left { 0 < (V.counts vault.old).left }
    requires places { length asks.old.items ≡ (params_of hall.now).places }
    requires room { length found.old.items ≡ (params_of hall.now).places }
    ensures params { V.params vault.new ≡ params_of hall.now }
    ensures places { length asks.new.items ≡ (params_of hall.now).places }
    ensures room { length found.new.items ≡ (params_of hall.now).places }
    ensures read { OnOk result ((batch : Batch)
        × ReadsInside (kind_of V.Vault) hall.now pass.old
        (scene desk.old vault.old (W.trace watch.old)) (batch ∷ []) pass.new
        (scene desk.new vault.new (W.trace watch.new)) (V.counts vault.new)) }
    ensures less { OnOk result ((V.counts vault.new).left < (V.counts vault.old).left) }
    ensures refused { IfErr result (λ fault. RefusesInside (kind_of V.Vault) hall.now pass.old
        (scene desk.old vault.old (W.trace watch.old)) [] fault pass.new
        (scene desk.new vault.new (W.trace watch.new))) }
{
    take_batch(desk, asks);
    let batch = Snapshot::of(&*asks);
    note(hall, pass, Driven::TakeBatch { batch });
    match read_batch(rt, vault, watch, asks, found) {
        Ok(()) => {}
        Err(fault) => return Err(fault),
    }
    deliver_batch(desk, asks, found);
    let keys = Snapshot::of(&*asks);
    let values = Snapshot::of(&*found);
    note(hall, pass, Driven::Deliver { keys, values });
    Ok(())
}

// Reads each batch that is left, within the turn.
//
// # Errors
// The vault refused a batch, which is taken; or the watch broke, and the last batch is delivered.
fn read_left<R: Threads + Sync, V: Vault, W: Watch>(
    rt: &R,
    hall: &Hall,
    pass: &mut Pass,
    desk: &mut Desk,
    vault: &mut V,
    watch: &mut W,
    asks: &mut Vec<Option<Key>>,
    found: &mut Vec<Option<Value>>,
) -> Result<(), RunErr>
    requires params { V.params vault.old ≡ params_of hall.now }
    requires turn { IsInTurn hall.now pass.old desk.old }
    requires ready { IsBetweenActs (params_of hall.now) desk.old (V.counts vault.old) }
    requires goes_on { desk.old.stop ≡ None }
    requires whole { (W.trace watch.old).broken ≡ false }
    requires places { length asks.old.items ≡ (params_of hall.now).places }
    requires room { length found.old.items ≡ (params_of hall.now).places }
    ensures params { V.params vault.new ≡ params_of hall.now }
    ensures places { length asks.new.items ≡ (params_of hall.now).places }
    ensures room { length found.new.items ≡ (params_of hall.now).places }
    ensures read { OnOk result ((batches : List Batch)
        × ReadsInside (kind_of V.Vault) hall.now pass.old
        (scene desk.old vault.old (W.trace watch.old)) batches pass.new
        (scene desk.new vault.new (W.trace watch.new)) (V.counts vault.new)
        × ((W.trace watch.new).broken ≡ false)) }
    ensures none_left { OnOk result ((V.counts vault.new).left ≡ 0) }
    ensures refused { IfErr result (λ err. StopsInside (kind_of V.Vault) hall.now pass.old
        (scene desk.old vault.old (W.trace watch.old)) err pass.new
        (scene desk.new vault.new (W.trace watch.new))) }
{
    while vault.left() > 0 {
        match read_inside(rt, hall, pass, desk, vault, watch, asks, found) {
            Ok(()) => {}
            Err(fault) => return Err(RunErr::Fault(fault)),
        }
        if watch.broken() {
            return Err(RunErr::Unwatched);
        }
    }
    Ok(())
}

// Stops the desk, and ends the turn with that.
fn stop_inside(hall: &Hall, pass: &mut Pass, mut desk: Desk, fault: Fault)
    requires turn { IsInTurn hall.now pass.old desk }
    ensures made { MakesTurn pass.old pass.new
        (noted_by pass.old ++ (desks.Stop fault, desks.Done) ∷ []) }
    ensures ends { EndsItsTurn pass.old pass.new }
    ensures ear { pass.new.ear ≡ pass.old.ear }
    ensures own { IsPassOf hall.now pass.new }
    ensures idle { IsOutOfTurn pass.new }
{
    desk.stop(fault);
    leave(hall, pass, desk, Driven::Stop { fault });
    hall.wake();
}

// Closes the epoch, and ends the turn with that.
fn shut(hall: &Hall, pass: &mut Pass, mut desk: Desk, writes: &mut Vec<Write>)
    requires turn { IsInTurn hall.now pass.old desk }
    requires may { desks.MayCall desk desks.Close }
    requires room { desk.setup.params.writes ≤ vec_capacity writes.old }
    ensures closed { (mid : DeskState)
        × desks.CloseStep desk (map pair_of writes.new.items) mid }
    ensures made { MakesTurn pass.old pass.new
        (noted_by pass.old ++ close_calls (map pair_of writes.new.items)) }
    ensures ends { EndsItsTurn pass.old pass.new }
    ensures room { vec_capacity writes.old ≤ vec_capacity writes.new }
    ensures ear { pass.new.ear ≡ pass.old.ear }
    ensures own { IsPassOf hall.now pass.new }
    ensures idle { IsOutOfTurn pass.new }
{
    desk.close(writes);
    let made = Snapshot::of(&*writes);
    leave(hall, pass, desk, Driven::Close { writes: made });
    hall.wake();
}

// Raises the bell to the epoch that the vault ended, and publishes it in a turn, which stands
// behind so many as `turns` says.
fn publish<R: Wait>(
    rt: &R,
    params: &Params,
    hall: &Hall,
    pass: &mut Pass,
    ended: u64,
    turns: &mut u64,
) -> EpochRecord<Key>
    requires params { params.now ≡ params_of hall.now }
    requires ending { (c : VaultCounts) × (writes : List (ℕ × Option (List ℕ)))
        × IsEnding hall.now pass.old c writes × (ended ≡ suc c.epoch) }
    requires few { ended < 2 ^ 62 }
    ensures due { (c : VaultCounts) (writes : List (ℕ × Option (List ℕ)))
        → IsEnding hall.now pass.old c writes
        → IsDueRecord (suc c.epoch) writes (record_of result) }
    ensures made { MakesTurn pass.old pass.new ((
      desks.Publish (ended + 1) params.now.batches,
      desks.Published (record_of result),
    ) ∷ []) }
    ensures stand { MakesEntries pass.old turns.old pass.new turns.new }
    ensures raised { Raises pass.old.ear pass.new.ear ended }
    ensures own { IsPassOf hall.now pass.new }
    ensures idle { IsOutOfTurn pass.new }
{
    hall.raise(pass, ended);
    let (mut desk, count) = hall.enter_behind(rt, pass, *turns);
    let (epoch, left) = (ended + 1, params.batches);
    let record = desk.publish(epoch, left);
    let told = Snapshot::of(&record);
    leave(hall, pass, desk, Driven::Publish { epoch, left, told });
    *turns = count;
    hall.wake();
    record
}

// Tells the desk that the end of its closed epoch is in doubt, in a turn, which stands behind so
// many as `turns` says.
fn doubt<R: Wait>(rt: &R, hall: &Hall, pass: &mut Pass, fault: Fault, turns: &mut u64)
    requires ending { (c : VaultCounts) × (writes : List (ℕ × Option (List ℕ)))
        × IsEnding hall.now pass.old c writes }
    ensures made { MakesTurn pass.old pass.new ((desks.Unsure fault, desks.Done) ∷ []) }
    ensures stand { MakesEntries pass.old turns.old pass.new turns.new }
    ensures ear { pass.new.ear ≡ pass.old.ear }
    ensures own { IsPassOf hall.now pass.new }
    ensures idle { IsOutOfTurn pass.new }
{
    let (mut desk, count) = hall.enter_behind(rt, pass, *turns);
    desk.unsure(fault);
    leave(hall, pass, desk, Driven::Unsure { fault });
    *turns = count;
    hall.wake();
}

// Tells the desk of an end that was refused, or is in doubt, in a turn. Answers with its fault.
fn give_up<R: Wait>(
    rt: &R,
    hall: &Hall,
    pass: &mut Pass,
    refused: EndErr,
    turns: &mut u64,
) -> RunErr
    requires ending { (c : VaultCounts) × (writes : List (ℕ × Option (List ℕ)))
        × IsEnding hall.now pass.old c writes }
    ensures fault { result ≡ failed.Fault (fault_in refused) }
    ensures made { MakesTurn pass.old pass.new ((stop_for refused, desks.Done) ∷ []) }
    ensures stand { MakesEntries pass.old turns.old pass.new turns.new }
    ensures ear { pass.new.ear ≡ pass.old.ear }
    ensures own { IsPassOf hall.now pass.new }
    ensures idle { IsOutOfTurn pass.new }
{
    match refused {
        EndErr::Before(fault) => {
            stop(rt, hall, pass, fault, turns);
            RunErr::Fault(fault)
        }
        EndErr::Unsure(fault) => {
            doubt(rt, hall, pass, fault, turns);
            RunErr::Fault(fault)
        }
    }
}

// The vault ends the epoch that was closed, with its writes, while no turn is held; and then it is
// published in a turn, or the desk is told of what came of it.
fn tell<R: Threads + Wait + Sync, V: Vault, W: Watch>(
    rt: &R,
    params: &Params,
    hall: &Hall,
    pass: &mut Pass,
    vault: &mut V,
    watch: &mut W,
    writes: &Vec<Write>,
    turns: &mut u64,
) -> Result<EpochRecord<Key>, RunErr>
    requires params { (V.params vault.old ≡ params_of hall.now)
        × (params.now ≡ params_of hall.now) }
    requires ending { IsEnding hall.now pass.old (V.counts vault.old)
        (map pair_of writes.now.items) }
    requires vault { ((V.counts vault.old).spent ≡ false) × ((V.counts vault.old).left ≡ 0)
        × ((W.trace watch.old).broken ≡ false) }
    requires writes { (length writes.now.items ≤ (params_of hall.now).writes)
        × IsStrictlyIncreasing (map (λ w. w.key) writes.now.items)
        × All (λ w. w.key < (params_of hall.now).keys) writes.now.items }
    ensures params { V.params vault.new ≡ params_of hall.now }
    ensures ended { (d : DeskState) → IfOk result (λ told. Ends (kind_of V.Vault)
        (suc (V.counts vault.old).epoch) (map pair_of writes.now.items) pass.old
        (scene d vault.old (W.trace watch.old)) (record_of told) pass.new
        (scene d vault.new (W.trace watch.new))) }
    ensures counts { OnOk result (V.counts vault.new
        ≡ counts_ended (params_of hall.now).batches (V.counts vault.old)) }
    ensures raised { OnOk result
        (Raises pass.old.ear pass.new.ear (suc (V.counts vault.old).epoch)) }
    ensures ear { OnErr result (pass.new.ear ≡ pass.old.ear) }
    ensures refused { (d : DeskState) → IfErr result (λ err. EndRefused (kind_of V.Vault)
        (suc (V.counts vault.old).epoch) (map pair_of writes.now.items) pass.old
        (scene d vault.old (W.trace watch.old)) err pass.new
        (scene d vault.new (W.trace watch.new))) }
    ensures stand { MakesEntries pass.old turns.old pass.new turns.new }
    ensures own { IsPassOf hall.now pass.new }
    ensures idle { IsOutOfTurn pass.new }
{
    match end(rt, vault, watch, writes) {
        Ok(()) => {
            let ended = vault.epoch();
            Ok(publish(rt, params, hall, pass, ended, turns))
        }
        Err(refused) => Err(give_up(rt, hall, pass, refused, turns)),
    }
}

/// Reads the batches that are left and closes the epoch, all within the turn, in which no client's
/// call stands, and ends it; the vault ends the epoch with its writes while no turn is held; and it
/// is published in another turn. `turns` says how many turns there are with this one, and then how
/// many up to the last one.
///
/// # Errors
/// The vault refused, and the desk is stopped with its fault, or in doubt; or the watch broke
/// before the close, and the desk is stopped.
pub fn end_epoch<R: Threads + Wait + Sync, V: Vault, W: Watch>(
    rt: &R,
    params: &Params,
    hall: &Hall,
    pass: &mut Pass,
    mut desk: Desk,
    vault: &mut V,
    watch: &mut W,
    room: &mut Room,
    turns: &mut u64,
) -> Result<EpochRecord<Key>, RunErr>
    requires params { (V.params vault.old ≡ params_of hall.now)
        × (params.now ≡ params_of hall.now) }
    requires looking { IsLooking hall.now pass.old desk (V.counts vault.old) }
    requires goes_on { desk.stop ≡ None }
    requires whole { (W.trace watch.old).broken ≡ false }
    requires room { HasRoom (params_of hall.now) room.old }
    requires turns { IsTurnAt pass.old turns.old }
    ensures params { V.params vault.new ≡ params_of hall.now }
    ensures room { HasRoom (params_of hall.now) room.new }
    ensures stand { MakesFromItsTurn pass.old turns.old pass.new turns.new }
    ensures rests { OnOk result (IsBetweenTurns hall.now pass.new (V.counts vault.new)) }
    // Behind a look at which it may be done.
    ensures ended { (beat : BeatKind) (look : Seen) (flow : Flow)
        → noted_by pass.old ≡ look_calls look → MayAct beat look → IsToEnd look
        → IfOk result (λ told. EndedOnce (kind_of V.Vault) beat hall.now
        (side pass.old vault.old (W.trace watch.old) flow) (V.counts vault.old)
        (side pass.new vault.new (W.trace watch.new) flow) (V.counts vault.new)
        (record_of told)) }
    ensures refused { (beat : BeatKind) (look : Seen) (flow : Flow)
        → noted_by pass.old ≡ look_calls look → MayAct beat look → IsToEnd look
        → IfErr result (λ err. FailsOnce (kind_of V.Vault) beat hall.now
        (side pass.old vault.old (W.trace watch.old) flow) (V.counts vault.old)
        (side pass.new vault.new (W.trace watch.new) flow) err) }
{
    let (asks, found) = (&mut room.asks, &mut room.found);
    match read_left(rt, hall, pass, &mut desk, vault, watch, asks, found) {
        Ok(()) => {
            shut(hall, pass, desk, &mut room.writes);
            tell(rt, params, hall, pass, vault, watch, &room.writes, turns)
        }
        Err(err) => {
            stop_inside(hall, pass, desk, err.fault());
            Err(err)
        }
    }
}
