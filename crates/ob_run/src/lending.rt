//! The driver's run, by references that go into a closure and come back.

ghost use Rattle.std.specs.Prelude.{◌≡◌, false};
ghost use Rattle.ob_io.specs.Streams.{outflow};
ghost use Rattle.ob_serial.specs.VaultKinds.{kind_of};
ghost use Rattle.ob_desk.specs.Beats.{beat_kind};
ghost use Rattle.ob_driver.specs.Driven.{side};
ghost use Rattle.ob_driver.specs.Places.{AreInRounds};
ghost use Rattle.ob_driver.specs.Rooms.{HasRoom};
ghost use Rattle.ob_driver.specs.Drives.{IsFirstPass};
ghost use Rattle.ob_run.specs.Serving.{DriverEnds};

use ob_base::Params;
use ob_conduct::RunErr;
use ob_desk::Beat;
use ob_driver::{Hands, Room, drive_epochs};
use ob_hall::{Hall, Pass};
use ob_io::Sink;
use ob_serial::Vault;
use ob_store::Watch;
use std::sync::Wait;
use std::thread::Threads;

/// What the driver works on.
#[derive(Drop)]
pub(crate) struct Lent<'p, 'v, 'w, 'b, 'o, V: Vault, W: Watch, B: Beat, O: Sink> {
    pub(crate) pass: &'p mut Pass,
    pub(crate) vault: &'v mut V,
    pub(crate) watch: &'w mut W,
    pub(crate) beat: &'b mut B,
    pub(crate) output: &'o mut O,
}

impl<'p, 'v, 'w, 'b, 'o, V: Vault, W: Watch, B: Beat, O: Sink> Lent<
    'p,
    'v,
    'w,
    'b,
    'o,
    V,
    W,
    B,
    O,
> {
    /// Gives the references back.
    pub(crate) fn into_parts(self) -> (&'p mut Pass, &'v mut V, &'w mut W, &'b mut B, &'o mut O)
        ensures pass_name { result.0.ghost_name ≡ self.entry.pass.ghost_name }
        ensures vault_name { result.1.ghost_name ≡ self.entry.vault.ghost_name }
        ensures watch_name { result.2.ghost_name ≡ self.entry.watch.ghost_name }
        ensures beat_name { result.3.ghost_name ≡ self.entry.beat.ghost_name }
        ensures output_name { result.4.ghost_name ≡ self.entry.output.ghost_name }
        ensures pass { result.0.now ≡ self.entry.pass.now }
        ensures vault { result.1.now ≡ self.entry.vault.now }
        ensures watch { result.2.now ≡ self.entry.watch.now }
        ensures beat { result.3.now ≡ self.entry.beat.now }
        ensures output { result.4.now ≡ self.entry.output.now }
    {
        let Lent {
            pass,
            vault,
            watch,
            beat,
            output,
        } = self;
        (pass, vault, watch, beat, output)
    }
}

/// The driver's run.
pub(crate) fn drive_lent<
    'p,
    'v,
    'w,
    'b,
    'o,
    R: Threads + Wait + Sync,
    V: Vault,
    W: Watch,
    B: Beat,
    O: Sink,
    H: Hands,
>(
    rt: &R,
    params: &Params,
    hall: &Hall,
    lent: Lent<'p, 'v, 'w, 'b, 'o, V, W, B, O>,
    hands: &mut H,
    room: &mut Room,
) -> (Lent<'p, 'v, 'w, 'b, 'o, V, W, B, O>, Result<(), RunErr>)
    requires params { V.params lent.vault.now ≡ params.now }
    requires first { IsFirstPass hall.now lent.pass.now params.now
        (V.counts lent.vault.now) }
    requires whole { (W.trace lent.watch.now).broken ≡ false }
    requires room { HasRoom params.now room.old }
    requires hands { H.ready hall.now hands.old }
    ensures hands { H.ready hall.now hands.new }
    ensures pass_name { result.0.pass.ghost_name ≡ lent.entry.pass.ghost_name }
    ensures vault_name { result.0.vault.ghost_name ≡ lent.entry.vault.ghost_name }
    ensures watch_name { result.0.watch.ghost_name ≡ lent.entry.watch.ghost_name }
    ensures beat_name { result.0.beat.ghost_name ≡ lent.entry.beat.ghost_name }
    ensures output_name { result.0.output.ghost_name ≡ lent.entry.output.ghost_name }
    ensures params { V.params result.0.vault.now ≡ params.now }
    ensures anchors { B.anchors result.0.beat.now ≡ B.anchors lent.entry.beat.now }
    ensures ends { DriverEnds (kind_of V.Vault) (beat_kind B.passes B.exact) hall.now
        (AreInRounds (H.round hall.now) hands.old hands.new lent.entry.pass.now result.0.pass.now)
        (side lent.entry.pass.now lent.entry.vault.now (W.trace lent.entry.watch.now)
        (outflow O.Sink lent.entry.output.now))
        (V.counts lent.entry.vault.now)
        (side result.0.pass.now result.0.vault.now (W.trace result.0.watch.now)
        (outflow O.Sink result.0.output.now))
        (V.counts result.0.vault.now) result.1 }
{
    let Lent {
        pass,
        vault,
        watch,
        beat,
        output,
    } = lent;
    let result = drive_epochs(
        rt, params, hall, pass, hands, vault, watch, beat, output, room,
    );
    let lent = Lent {
        pass,
        vault,
        watch,
        beat,
        output,
    };
    (lent, result)
}
