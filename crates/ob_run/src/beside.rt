//! The driver beside the clients' threads.

ghost use Rattle.std.specs.Prelude.{◌≡◌, ◌≤◌, All, [], false, length, vec_capacity};
ghost use Rattle.ob_io.specs.Streams.{outflow};
ghost use Rattle.ob_serial.specs.VaultKinds.{kind_of};
ghost use Rattle.ob_desk.specs.Beats.{beat_kind};
ghost use Rattle.ob_driver.specs.Driven.{side};
ghost use Rattle.ob_driver.specs.Rooms.{HasRoom};
ghost use Rattle.ob_driver.specs.Drives.{IsFirstPass};
ghost use Rattle.ob_threads.specs.Served.{words, IsClient};
ghost use Rattle.ob_threads.specs.Starts.{Each, HasItsPlace};
ghost use Rattle.ob_run.specs.Crews.{AreOut};
ghost use Rattle.ob_run.specs.Serving.{DriverEnds};
ghost use denote.Param.Send.{IsSend, IsSync};

use crate::crew::Team;
use crate::lending::{Lent, drive_lent};
use ob_base::Params;
use ob_conduct::RunErr;
use ob_desk::Beat;
use ob_hall::Hall;
use ob_io::Sink;
use ob_serial::Vault;
use ob_session::Runner;
use ob_store::Watch;
use ob_threads::start_all;
use std::alloc::Global;
use std::sync::Wait;
use std::sync::atomic::AtomicBool;
use std::thread::Threads;
use std::{mem, thread};

/// The team's clients that have a flag go to threads of their own, and the driver drives the epochs
/// meanwhile. All threads are done behind it, and its crew is to be joined.
pub(crate) fn in_scope<
    'p,
    'v,
    'w,
    'b,
    'o,
    't,
    U: Runner + Send,
    R: Threads + Wait + Sync,
    V: Vault,
    W: Watch,
    B: Beat,
    O: Sink,
>(
    rt: &R,
    alloc: Global,
    params: &Params,
    hall: &Hall,
    lent: Lent<'p, 'v, 'w, 'b, 'o, V, W, B, O>,
    flags: &[AtomicBool],
    team: &'t mut Team<U>,
) -> (
    Lent<'p, 'v, 'w, 'b, 'o, V, W, B, O>,
    &'t mut Team<U>,
    Result<(), RunErr>,
)
    requires params { V.params lent.vault.now ≡ params.now }
    requires first { IsFirstPass hall.now lent.pass.now params.now (V.counts lent.vault.now) }
    requires whole { (W.trace lent.watch.now).broken ≡ false }
    requires driver { HasRoom params.now team.old.room }
    requires clients { All (IsClient (words U.client U.bound U.plan U.fits U.turn) hall.now)
        team.old.waiting.items }
    requires none { team.old.crew.started.items ≡ [] }
    requires room { length team.old.waiting.items ≤ vec_capacity team.old.crew.started }
    ensures pass_name { result.0.pass.ghost_name ≡ lent.entry.pass.ghost_name }
    ensures vault_name { result.0.vault.ghost_name ≡ lent.entry.vault.ghost_name }
    ensures watch_name { result.0.watch.ghost_name ≡ lent.entry.watch.ghost_name }
    ensures beat_name { result.0.beat.ghost_name ≡ lent.entry.beat.ghost_name }
    ensures output_name { result.0.output.ghost_name ≡ lent.entry.output.ghost_name }
    ensures team_name { result.1.ghost_name ≡ team.entry.ghost_name }
    ensures params { V.params result.0.vault.now ≡ params.now }
    ensures anchors { B.anchors result.0.beat.now ≡ B.anchors lent.entry.beat.now }
    ensures started { result.1.now.waiting.items ≡ [] }
    ensures placed { Each (HasItsPlace (words U.client U.bound U.plan U.fits U.turn) hall.now)
        team.old.waiting.items result.1.now.crew.started.items }
    ensures ends { DriverEnds (kind_of V.Vault) (beat_kind B.passes B.exact) hall.now
        (AreOut (words U.client U.bound U.plan U.fits U.turn) hall.now (length flags.now)
        team.old.waiting.items result.1.now.crew.started.items lent.entry.pass.now
        result.0.pass.now)
        (side lent.entry.pass.now lent.entry.vault.now (W.trace lent.entry.watch.now)
        (outflow O.Sink lent.entry.output.now))
        (V.counts lent.entry.vault.now)
        (side result.0.pass.now result.0.vault.now (W.trace result.0.watch.now)
        (outflow O.Sink result.0.output.now))
        (V.counts result.0.vault.now) result.2 }
{
    thread::scope(
        thread::scope_env(),
        rt,
        |scope| -> (Lent<V, W, B, O>, &mut Team<U>, Result<(), RunErr>)
            requires { (V.params lent.vault.now ≡ params.now)
                × (IsFirstPass hall.now lent.pass.now params.now (V.counts lent.vault.now))
                × (All (IsClient (words U.client U.bound U.plan U.fits U.turn) hall.now)
                team.now.waiting.items)
                × (team.now.crew.started.items ≡ [])
                × (length team.now.waiting.items ≤ vec_capacity team.now.crew.started)
                × (HasRoom params.now team.now.room)
                × ((W.trace lent.watch.now).broken ≡ false)
                × IsSend U.row × IsSync R.row }
            ensures { (result.0.pass.ghost_name ≡ lent.entry.pass.ghost_name)
                × (result.0.vault.ghost_name ≡ lent.entry.vault.ghost_name)
                × (result.0.watch.ghost_name ≡ lent.entry.watch.ghost_name)
                × (result.0.beat.ghost_name ≡ lent.entry.beat.ghost_name)
                × (result.0.output.ghost_name ≡ lent.entry.output.ghost_name)
                × (result.1.ghost_name ≡ team.entry.ghost_name)
                × (V.params result.0.vault.now ≡ params.entry.now)
                × (B.anchors result.0.beat.now ≡ B.anchors lent.entry.beat.now)
                × (result.1.now.waiting.items ≡ [])
                × (Each (HasItsPlace (words U.client U.bound U.plan U.fits U.turn) hall.entry.now)
                team.entry.now.waiting.items result.1.now.crew.started.items)
                × (DriverEnds (kind_of V.Vault) (beat_kind B.passes B.exact) hall.entry.now
                (AreOut (words U.client U.bound U.plan U.fits U.turn) hall.entry.now
                (length flags.entry.now) team.entry.now.waiting.items
                result.1.now.crew.started.items lent.entry.pass.now result.0.pass.now)
                (side lent.entry.pass.now lent.entry.vault.now (W.trace lent.entry.watch.now)
                (outflow O.Sink lent.entry.output.now))
                (V.counts lent.entry.vault.now)
                (side result.0.pass.now result.0.vault.now (W.trace result.0.watch.now)
                (outflow O.Sink result.0.output.now))
                (V.counts result.0.vault.now) result.2) }
        {
            let clients = mem::replace(&mut team.waiting, Vec::new(alloc));
            start_all(scope, rt, hall, flags, clients, &mut team.crew.started);
            let (lent, result) = drive_lent(rt, params, hall, lent, &mut team.crew, &mut team.room);
            (lent, team, result)
        },
    )
}
