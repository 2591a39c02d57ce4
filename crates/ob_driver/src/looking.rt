//! The driver's look, and what it does at it.

ghost use Rattle.std.specs.Prelude.{◌≡◌, None, false, OnOk, IfOk, IfErr};
ghost use Rattle.ob_io.specs.Streams.{outflow};
ghost use Rattle.ob_serial.specs.VaultKinds.{kind_of};
ghost use Rattle.ob_desk.specs.Beats.{BeatKind, beat_kind};
ghost use Rattle.ob_desk.specs.declared.calls.Look.{Look as Seen};
ghost use Rattle.ob_conduct.specs.Acts.{look_calls, MayAct, IsToEnd};
ghost use Rattle.ob_driver.specs.Inside.{IsLooking};
ghost use Rattle.ob_driver.specs.Resting.{params_of, noted_by, IsBetweenTurns};
ghost use Rattle.ob_driver.specs.Rooms.{HasRoom};
ghost use Rattle.ob_driver.specs.Places.{MakesEntries, IsTurnAt, MakesFromItsTurn};
ghost use Rattle.ob_driver.specs.declared.round.Round.TheVariants as rounds;
ghost use Rattle.ob_driver.specs.Driven.{side, DoneOnce, FailsOnce};
ghost use Rattle.ob_driver.specs.Drives.{IsOverAt};

use crate::ending::end_epoch;
use crate::fetching::{fetch, stop};
use crate::noting::{leave, note};
use crate::plan::{Plan, decide};
use crate::room::Room;
use crate::round::Round;
use ob_base::{Failed, Fault, Params};
use ob_conduct::RunErr;
use ob_desk::{Beat, Desk};
use ob_hall::{Driven, Hall, Pass};
use ob_io::Sink;
use ob_report::text;
use ob_serial::Vault;
use ob_store::Watch;
use std::sync::Wait;
use std::thread::Threads;

// Closes the epoch within the turn, ends and publishes it, and then writes its lines; where the
// watch broke in it the desk is stopped behind that. Answers that something was done.
fn end_and_tell<R: Threads + Wait + Sync, V: Vault, W: Watch, O: Sink>(
    rt: &R,
    params: &Params,
    hall: &Hall,
    pass: &mut Pass,
    desk: Desk,
    vault: &mut V,
    watch: &mut W,
    output: &mut O,
    room: &mut Room,
    turns: &mut u64,
) -> Result<Round, RunErr>
    requires params { (V.params vault.old ≡ params_of hall.now)
        × (params.now ≡ params_of hall.now) }
    requires looking { IsLooking hall.now pass.old desk (V.counts vault.old) }
    requires goes_on { desk.stop ≡ None }
    requires whole { (W.trace watch.old).broken ≡ false }
    requires room { HasRoom (params_of hall.now) room.old }
    requires turns { IsTurnAt pass.old turns.old }
    ensures params { V.params vault.new ≡ params_of hall.now }
    ensures room { HasRoom (params_of hall.now) room.new }
    ensures stand { MakesFromItsTurn pass.old turns.old pass.new turns.new }
    ensures acts { IfOk result (λ round. round ≡ rounds.Acted) }
    ensures ended { (beat : BeatKind) (look : Seen) → noted_by pass.old ≡ look_calls look
        → MayAct beat look → IsToEnd look → OnOk result (DoneOnce (kind_of V.Vault) beat hall.now
        (side pass.old vault.old (W.trace watch.old) (outflow O.Sink output.old))
        (V.counts vault.old)
        (side pass.new vault.new (W.trace watch.new) (outflow O.Sink output.new))
        (V.counts vault.new) rounds.Acted) }
    ensures refused { (beat : BeatKind) (look : Seen) → noted_by pass.old ≡ look_calls look
        → MayAct beat look → IsToEnd look
        → IfErr result (λ err. FailsOnce (kind_of V.Vault) beat hall.now
        (side pass.old vault.old (W.trace watch.old) (outflow O.Sink output.old))
        (V.counts vault.old)
        (side pass.new vault.new (W.trace watch.new) (outflow O.Sink output.new)) err) }
{
    let told = match end_epoch(rt, params, hall, pass, desk, vault, watch, room, turns) {
        Ok(told) => told,
        Err(err) => return Err(err),
    };
    match text(&told, output) {
        Ok(()) => {
            if watch.broken() {
                stop(rt, hall, pass, Fault::SinkFault, turns);
                return Err(RunErr::Unwatched);
            }
            Ok(Round::Acted)
        }
        Err(Failed) => {
            stop(rt, hall, pass, Fault::SinkFault, turns);
            Err(RunErr::Fault(Fault::SinkFault))
        }
    }
}

/// The driver looks once, in a turn, and acts at most once. `turns` says how many turns the caller
/// was told of, behind which the driver's stand; and then how many there are up to its last one.
///
/// # Errors
/// The desk was found stopped; or the vault refused, the watch broke or the output failed, and the
/// desk is stopped.
pub fn look_once<R: Threads + Wait + Sync, V: Vault, W: Watch, B: Beat, O: Sink>(
    rt: &R,
    params: &Params,
    hall: &Hall,
    pass: &mut Pass,
    vault: &mut V,
    watch: &mut W,
    beat: &mut B,
    output: &mut O,
    room: &mut Room,
    turns: &mut u64,
) -> Result<Round, RunErr>
    requires params { (V.params vault.old ≡ params_of hall.now)
        × (params.now ≡ params_of hall.now) }
    requires rests { IsBetweenTurns hall.now pass.old (V.counts vault.old) }
    requires whole { (W.trace watch.old).broken ≡ false }
    requires room { HasRoom (params_of hall.now) room.old }
    ensures params { V.params vault.new ≡ params_of hall.now }
    ensures room { HasRoom (params_of hall.now) room.new }
    ensures anchors { B.anchors beat.new ≡ B.anchors beat.old }
    ensures stand { MakesEntries pass.old turns.old pass.new turns.new }
    ensures acted { IfOk result (λ round. DoneOnce (kind_of V.Vault)
        (beat_kind B.passes B.exact) hall.now
        (side pass.old vault.old (W.trace watch.old) (outflow O.Sink output.old))
        (V.counts vault.old)
        (side pass.new vault.new (W.trace watch.new) (outflow O.Sink output.new))
        (V.counts vault.new) round) }
    ensures over { IfOk result (λ round. round ≡ rounds.Over → IsOverAt hall.now pass.new) }
    ensures failed { IfErr result (λ err. FailsOnce (kind_of V.Vault)
        (beat_kind B.passes B.exact) hall.now
        (side pass.old vault.old (W.trace watch.old) (outflow O.Sink output.old))
        (V.counts vault.old)
        (side pass.new vault.new (W.trace watch.new) (outflow O.Sink output.new)) err) }
{
    let (desk, count) = hall.enter_behind(rt, pass, *turns);
    *turns = count;
    let fault = desk.stopped();
    if let Some(found) = fault {
        leave(hall, pass, desk, Driven::IsStopped { fault });
        return Err(RunErr::Fault(found));
    }
    note(hall, pass, Driven::IsStopped { fault });
    let look = desk.look();
    match decide(beat, &look) {
        Plan::Over => {
            leave(hall, pass, desk, Driven::Looks { look });
            Ok(Round::Over)
        }
        Plan::Rest => {
            leave(hall, pass, desk, Driven::Looks { look });
            Ok(Round::Rested)
        }
        Plan::Fetch => {
            note(hall, pass, Driven::Looks { look });
            let (asks, found) = (&mut room.asks, &mut room.found);
            fetch(rt, hall, pass, desk, vault, watch, asks, found, turns)
        }
        Plan::End => {
            note(hall, pass, Driven::Looks { look });
            end_and_tell(
                rt, params, hall, pass, desk, vault, watch, output, room, turns,
            )
        }
    }
}
