//! The driver's run: its looks, up to the end.

ghost use Rattle.std.specs.Prelude.{◌≡◌, ◌∷◌, [], true, false, MatchBool, OnOk, IfErr};
ghost use Rattle.ob_io.specs.Streams.{outflow};
ghost use Rattle.ob_serial.specs.VaultKinds.{kind_of};
ghost use Rattle.ob_desk.specs.Beats.{beat_kind};
ghost use Rattle.ob_hall.specs.Passes.{IsRaised};
ghost use Rattle.ob_driver.specs.Resting.{params_of, IsBetweenTurns};
ghost use Rattle.ob_driver.specs.Rooms.{HasRoom};
ghost use Rattle.ob_driver.specs.Driven.{side};
ghost use Rattle.ob_driver.specs.Places.{AreInRounds};
ghost use Rattle.ob_driver.specs.Drives.{DoneThings, FailsThings, IsOverAt, IsFirstPass, RunsOut, RunFails};
ghost use Rattle.ob_driver.specs.declared.round.Round.TheVariants as rounds;

use crate::hands::Hands;
use crate::looking::look_once;
use crate::room::Room;
use crate::round::Round;
use ob_base::Params;
use ob_conduct::RunErr;
use ob_desk::Beat;
use ob_hall::{Hall, Pass};
use ob_io::Sink;
use ob_serial::Vault;
use ob_store::Watch;
use std::sync::Wait;
use std::thread::Threads;

// Whether the run is over.
fn is_over(round: Round) -> bool
    ensures { MatchBool result (round ≡ rounds.Over) (round ≡ rounds.Over → ⊥) }
{
    match round {
        Round::Over => true,
        Round::Acted | Round::Rested => false,
    }
}

// Sleeps until a client asks that hadn't yet, or a while, where neither the driver nor a client
// made by hand did anything.
fn pause<R: Wait>(rt: &R, hall: &Hall, round: Round, ran: bool, asked: u64) {
    if matches!(round, Round::Rested) && !ran {
        hall.rest(rt, asked);
    }
}

// Rounds, up to the end of the run: the clients made by hand make their steps, and then the driver
// looks. Each turn of a round stands behind those before it.
//
// # Errors
// The desk was found stopped; or the vault refused, the watch broke or the output failed, and the
// desk is stopped.
fn drive_on<R: Threads + Wait + Sync, V: Vault, W: Watch, B: Beat, O: Sink, H: Hands>(
    rt: &R,
    params: &Params,
    hall: &Hall,
    pass: &mut Pass,
    hands: &mut H,
    vault: &mut V,
    watch: &mut W,
    beat: &mut B,
    output: &mut O,
    room: &mut Room,
) -> Result<(), RunErr>
    requires params { (V.params vault.old ≡ params_of hall.now)
        × (params.now ≡ params_of hall.now) }
    requires rests { IsBetweenTurns hall.now pass.old (V.counts vault.old) }
    requires whole { (W.trace watch.old).broken ≡ false }
    requires room { HasRoom (params_of hall.now) room.old }
    requires hands { H.ready hall.now hands.old }
    ensures params { V.params vault.new ≡ params_of hall.now }
    ensures room { HasRoom (params_of hall.now) room.new }
    ensures anchors { B.anchors beat.new ≡ B.anchors beat.old }
    ensures hands { H.ready hall.now hands.new }
    ensures done { OnOk result (DoneThings (kind_of V.Vault)
        (beat_kind B.passes B.exact) hall.now
        (AreInRounds (H.round hall.now) hands.old hands.new pass.old pass.new)
        (side pass.old vault.old (W.trace watch.old) (outflow O.Sink output.old))
        (V.counts vault.old)
        (side pass.new vault.new (W.trace watch.new) (outflow O.Sink output.new))
        (V.counts vault.new)) }
    ensures over { OnOk result (IsOverAt hall.now pass.new) }
    ensures failed { IfErr result (λ err. FailsThings (kind_of V.Vault)
        (beat_kind B.passes B.exact) hall.now
        (AreInRounds (H.round hall.now) hands.old hands.new pass.old pass.new)
        (side pass.old vault.old (W.trace watch.old) (outflow O.Sink output.old))
        (V.counts vault.old)
        (side pass.new vault.new (W.trace watch.new) (outflow O.Sink output.new)) err) }
{
    let mut turns: u64 = 0;
    for _ in rt.forever() {
        let asked = hall.asked();
        let ran = hands.step_all(rt, hall, &mut turns);
        let round = match look_once(
            rt, params, hall, pass, vault, watch, beat, output, room, &mut turns,
        ) {
            Ok(round) => round,
            Err(err) => return Err(err),
        };
        if is_over(round) {
            return Ok(());
        }
        pause(rt, hall, round, ran, asked);
    }
    unreachable!()
}

/// Raises the bell to the epoch that the vault's opening found, by the driver's pass, which has
/// made no call.
pub fn announce<V: Vault>(params: &Params, hall: &Hall, pass: &mut Pass, vault: &V)
    requires first { IsFirstPass hall.now pass.old params.now (V.counts vault.now) }
    ensures found { IsRaised pass.old pass.new (V.counts vault.now).epoch }
    ensures rests { IsBetweenTurns hall.now pass.new (V.counts vault.now) }
    ensures params { params.now ≡ params_of hall.now }
{
    let _params = params;
    hall.raise(pass, vault.epoch());
}

/// Drives the epochs of a hall by the driver's pass: the bell is raised to the epoch that the
/// vault's opening found, and then the driver looks, and acts at its looks, until each client has
/// signed off and no transaction waits for its epoch's end. Between its looks the clients made by
/// hand make their steps. Each epoch's lines are written once it is durable.
///
/// # Errors
/// The desk was found stopped, for want of memory; or the vault refused, the watch broke or the
/// output failed, and the desk is stopped. It takes no memory: the room is made before.
pub fn drive_epochs<R: Threads + Wait + Sync, V: Vault, W: Watch, B: Beat, O: Sink, H: Hands>(
    rt: &R,
    params: &Params,
    hall: &Hall,
    pass: &mut Pass,
    hands: &mut H,
    vault: &mut V,
    watch: &mut W,
    beat: &mut B,
    output: &mut O,
    room: &mut Room,
) -> Result<(), RunErr>
    requires params { V.params vault.old ≡ params.now }
    requires first { IsFirstPass hall.now pass.old params.now (V.counts vault.old) }
    requires whole { (W.trace watch.old).broken ≡ false }
    requires room { HasRoom params.now room.old }
    requires hands { H.ready hall.now hands.old }
    ensures params { V.params vault.new ≡ params.now }
    ensures room { HasRoom params.now room.new }
    ensures anchors { B.anchors beat.new ≡ B.anchors beat.old }
    ensures hands { H.ready hall.now hands.new }
    ensures done { OnOk result (RunsOut (kind_of V.Vault)
        (beat_kind B.passes B.exact) hall.now
        (AreInRounds (H.round hall.now) hands.old hands.new pass.old pass.new)
        (side pass.old vault.old (W.trace watch.old) (outflow O.Sink output.old))
        (V.counts vault.old)
        (side pass.new vault.new (W.trace watch.new) (outflow O.Sink output.new))
        (V.counts vault.new)) }
    ensures failed { IfErr result (λ err. RunFails (kind_of V.Vault)
        (beat_kind B.passes B.exact) hall.now
        (AreInRounds (H.round hall.now) hands.old hands.new pass.old pass.new)
        (side pass.old vault.old (W.trace watch.old) (outflow O.Sink output.old))
        (V.counts vault.old)
        (side pass.new vault.new (W.trace watch.new) (outflow O.Sink output.new)) err) }
{
    announce(params, hall, pass, vault);
    drive_on(
        rt, params, hall, pass, hands, vault, watch, beat, output, room,
    )
}
