//! The driver and the clients of a hall, from before the first call to the end.

ghost use Rattle.std.specs.Prelude.{◌≡◌, ◌≤◌, All, [], false, length, vec_capacity, IfOk};
ghost use Rattle.ob_io.specs.Streams.{outflow};
ghost use Rattle.ob_serial.specs.VaultKinds.{kind_of};
ghost use Rattle.ob_desk.specs.Beats.{beat_kind};
ghost use Rattle.ob_driver.specs.Driven.{side};
ghost use Rattle.ob_driver.specs.Rooms.{HasRoom};
ghost use Rattle.ob_driver.specs.Drives.{IsFirstPass};
ghost use Rattle.ob_threads.specs.Served.{words, IsClient, IsLater};
ghost use Rattle.ob_threads.specs.Starts.{Each, HasItsPlace};
ghost use Rattle.ob_run.specs.Crews.{AreOut};
ghost use Rattle.ob_run.specs.Serving.{DriverEnds, ServeEnds};

use crate::beside::in_scope;
use crate::crew::{Crew, Team};
use crate::lending::Lent;
use ob_base::{Fault, Memory, Params};
use ob_conduct::RunErr;
use ob_desk::Beat;
use ob_driver::Room;
use ob_hall::{Hall, Pass};
use ob_io::Sink;
use ob_serial::Vault;
use ob_session::Runner;
use ob_store::Watch;
use ob_threads::{Client, join_all};
use std::alloc::Global;
use std::mem;
use std::sync::Wait;
use std::sync::atomic::AtomicBool;
use std::thread::Threads;

// Room for the driver, flags, none of which is set, and room for the clients.
struct Places<U: Runner> {
    room: Room,
    flags: Vec<AtomicBool>,
    crew: Crew<U>,
    back: Vec<Client<U>>,
}

// As many flags.
fn unset(alloc: Global, count: usize) -> Result<Vec<AtomicBool>, Memory>
    ensures { IfOk result (λ v. length v.items ≡ count) }
{
    let mut flags = Vec::new(alloc);
    for _ in 0..count {
        flags.push(AtomicBool::new(false))?;
    }
    Ok(flags)
}

// Room for a driver of these parameters, so many flags, and room for so many clients.
fn make_places<U: Runner>(
    alloc: Global,
    params: &Params,
    clients: usize,
    flags: usize,
) -> Result<Places<U>, Memory>
    ensures driver { IfOk result (λ p. HasRoom params.now p.room) }
    ensures flags { IfOk result (λ p. length p.flags.items ≡ flags) }
    ensures none { IfOk result (λ p. (p.crew.started.items ≡ []) × (p.back.items ≡ [])) }
    ensures room { IfOk result (λ p. (clients ≤ vec_capacity p.crew.started)
        × (clients ≤ vec_capacity p.back)) }
{
    let room = Room::new(alloc, params)?;
    let flags = unset(alloc, flags)?;
    let started = Vec::with_capacity(alloc, clients)?;
    let Ok(back) = Vec::with_capacity(alloc, clients) else {
        started.destroy_empty();
        return Err(Memory);
    };
    let crew = Crew { started };
    Ok(Places {
        room,
        flags,
        crew,
        back,
    })
}

// Ends a loan.
fn finish<T>(_last: &mut T)
    ensures { _last.new ≡ _last.old }
{}

// Drives the epochs of a hall beside the team's clients, and leaves its crew to be joined.
fn drive_beside<U: Runner + Send, R: Threads + Wait + Sync, V: Vault, W: Watch, B: Beat, O: Sink>(
    rt: &R,
    alloc: Global,
    params: &Params,
    hall: &Hall,
    pass: &mut Pass,
    vault: &mut V,
    watch: &mut W,
    beat: &mut B,
    output: &mut O,
    flags: &[AtomicBool],
    team: &mut Team<U>,
) -> Result<(), RunErr>
    requires params { V.params vault.old ≡ params.now }
    requires first { IsFirstPass hall.now pass.old params.now (V.counts vault.old) }
    requires whole { (W.trace watch.old).broken ≡ false }
    requires driver { HasRoom params.now team.old.room }
    requires clients { All (IsClient (words U.client U.bound U.plan U.fits U.turn) hall.now)
        team.old.waiting.items }
    requires none { team.old.crew.started.items ≡ [] }
    requires room { length team.old.waiting.items ≤ vec_capacity team.old.crew.started }
    ensures params { V.params vault.new ≡ params.now }
    ensures anchors { B.anchors beat.new ≡ B.anchors beat.old }
    ensures started { team.new.waiting.items ≡ [] }
    ensures placed { Each (HasItsPlace (words U.client U.bound U.plan U.fits U.turn) hall.now)
        team.old.waiting.items team.new.crew.started.items }
    ensures ends { DriverEnds (kind_of V.Vault) (beat_kind B.passes B.exact) hall.now
        (AreOut (words U.client U.bound U.plan U.fits U.turn) hall.now (length flags.now)
        team.old.waiting.items team.new.crew.started.items pass.old pass.new)
        (side pass.old vault.old (W.trace watch.old) (outflow O.Sink output.old))
        (V.counts vault.old)
        (side pass.new vault.new (W.trace watch.new) (outflow O.Sink output.new))
        (V.counts vault.new) result }
{
    let lent = Lent {
        pass,
        vault,
        watch,
        beat,
        output,
    };
    let (lent, last, result) = in_scope(rt, alloc, params, hall, lent, flags, team);
    finish(last);
    let (pass, vault, watch, beat, output) = lent.into_parts();
    finish(output);
    finish(beat);
    finish(watch);
    finish(vault);
    finish(pass);
    result
}

/// Drives the epochs of a hall beside its clients, up to the end: each of the first ones, so many
/// as starts are to be tried, in a thread of its own; the others by hand, and so is each whose
/// thread the system refuses: in each round those made by hand make a step, in order, and then the
/// driver does one thing. All clients come back.
///
/// # Errors
/// Those of the driver; and memory was wanting, before anything was done: then no client made a
/// call.
pub fn serve<U: Runner + Send, R: Threads + Wait + Sync, V: Vault, W: Watch, B: Beat, O: Sink>(
    rt: &R,
    alloc: Global,
    params: &Params,
    hall: &Hall,
    pass: &mut Pass,
    clients: &mut Vec<Client<U>>,
    vault: &mut V,
    watch: &mut W,
    beat: &mut B,
    output: &mut O,
    starts: usize,
) -> Result<(), RunErr>
    requires params { V.params vault.old ≡ params.now }
    requires first { IsFirstPass hall.now pass.old params.now (V.counts vault.old) }
    requires whole { (W.trace watch.old).broken ≡ false }
    requires clients { All (IsClient (words U.client U.bound U.plan U.fits U.turn) hall.now)
        clients.old.items }
    ensures params { V.params vault.new ≡ params.now }
    ensures anchors { B.anchors beat.new ≡ B.anchors beat.old }
    // Each is in its place, as it was or later.
    ensures back { Each (IsLater (words U.client U.bound U.plan U.fits U.turn) hall.now)
        clients.old.items clients.new.items }
    ensures ends { ServeEnds (kind_of V.Vault) (beat_kind B.passes B.exact)
        (words U.client U.bound U.plan U.fits U.turn) hall.now starts
        (side pass.old vault.old (W.trace watch.old) (outflow O.Sink output.old))
        (V.counts vault.old) clients.old.items
        (side pass.new vault.new (W.trace watch.new) (outflow O.Sink output.new))
        (V.counts vault.new) clients.new.items result }
{
    let Ok(places) = make_places(alloc, params, clients.len(), starts) else {
        return Err(RunErr::Fault(Fault::Memory));
    };
    let Places {
        room,
        flags,
        crew,
        back,
    } = places;
    let waiting = mem::replace(clients, back);
    let mut team = Team {
        waiting,
        crew,
        room,
    };
    let result = drive_beside(
        rt,
        alloc,
        params,
        hall,
        pass,
        vault,
        watch,
        beat,
        output,
        flags.as_slice(),
        &mut team,
    );
    let Team {
        waiting,
        crew: Crew { started },
        room: _room,
    } = team;
    waiting.destroy_empty();
    join_all(rt, hall, started, clients);
    result
}
