//! A run by threads.

ghost use Rattle.std.specs.Prelude.{◌≡◌, ◌≤◌, ◌+◌, ℕ, suc, All, length, map, [], ◌∷◌, false, vec_capacity, IfOk};
ghost use Rattle.ob_io.specs.Streams.{outflow};
ghost use Rattle.ob_serial.specs.VaultKinds.{kind_of};
ghost use Rattle.ob_desk.specs.Desk.{DeskState, Setup, MayOpen, new_desk, setup_with};
ghost use Rattle.ob_desk.specs.Beats.{beat_kind};
ghost use Rattle.ob_hall.specs.Passes.{opening_of, IsPassOf, IsOutOfTurn};
ghost use Rattle.ob_hall.specs.Opening.{ArePasses};
ghost use Rattle.ob_hall.specs.Closing.{AreAll, IsWholeHistory};
ghost use Rattle.ob_conduct.specs.Scenes.{scene, run_state, runner_kind};
ghost use Rattle.ob_run.specs.Ends.{IsQuiet};
ghost use Rattle.ob_run.specs.Threaded.{InThreads};

use crate::by_hand::let_go;
use crate::seating::{seat_all, take_apart};
use crate::serving::serve;
use ob_base::{Fault, Memory, Params};
use ob_conduct::RunErr;
use ob_desk::{Beat, Desk};
use ob_hall::{Hall, Pass};
use ob_io::Sink;
use ob_serial::Vault;
use ob_session::Runner;
use ob_store::Watch;
use ob_threads::Client;
use std::alloc::Global;
use std::sync::Wait;
use std::thread::Threads;

// A hall that none has called, the driver's pass, those of the clients, in their order, and room
// for the clients with their runners.
struct Opened<U: Runner> {
    hall: Hall,
    driver: Pass,
    passes: Vec<Pass>,
    seated: Vec<Client<U>>,
}

// A hall round the desk, for these clients.
fn open_hall<U: Runner>(alloc: Global, desk: Desk, clients: &[u32]) -> Result<Opened<U>, Memory>
    requires opens { (setup : Setup) × (epoch : ℕ) × (left : ℕ)
        × MayOpen setup epoch left clients.now
        × (desk ≡ new_desk setup epoch left clients.now) }
    ensures desk { IfOk result (λ o. opening_of o.hall ≡ desk) }
    ensures passes { IfOk result (λ o. ArePasses o.hall clients.now (o.driver ∷ o.passes.items)) }
    ensures none { IfOk result (λ o. o.seated.items ≡ []) }
    ensures room { IfOk result (λ o. (length clients.now ≤ vec_capacity o.seated)
        × (length clients.now + 1 ≤ vec_capacity o.passes)) }
{
    let Ok(seated) = Vec::with_capacity(alloc, clients.len()) else {
        let_go(desk);
        return Err(Memory);
    };
    let Ok((hall, mut passes)) = Hall::new(alloc, desk, clients) else {
        seated.destroy_empty();
        return Err(Memory);
    };
    let driver = passes.remove(0);
    Ok(Opened {
        hall,
        driver,
        passes,
        seated,
    })
}

// Takes the clients apart, gives their runners back, and closes the hall.
fn close_hall<U: Runner>(
    hall: Hall,
    driver: Pass,
    clients: Vec<Client<U>>,
    mut passes: Vec<Pass>,
    runners: &mut Vec<U>,
)
    requires own { All (IsPassOf hall) (driver ∷ map (λ c. c.0) clients.items) }
    requires idle { All IsOutOfTurn (driver ∷ map (λ c. c.0) clients.items) }
    requires all { AreAll hall (driver ∷ map (λ c. c.0) clients.items) }
    requires none { (runners.old.items ≡ []) × (passes.items ≡ []) }
    requires room { (length clients.items ≤ vec_capacity runners.old)
        × (length clients.items + 1 ≤ vec_capacity passes) }
    ensures runners { runners.new.items ≡ map (λ c. c.1) clients.items }
    ensures whole { (d : DeskState)
        × IsWholeHistory hall (driver ∷ map (λ c. c.0) clients.items) d }
{
    passes.push_reserved(driver);
    take_apart(clients, runners, &mut passes);
    let desk = hall.close(passes);
    let_go(desk);
}

// Serves the clients of a hall that none has called, the first ones in threads, and closes it.
fn serve_hall<U: Runner + Send, R: Threads + Wait + Sync, V: Vault, W: Watch, B: Beat, O: Sink>(
    rt: &R,
    alloc: Global,
    params: &Params,
    opened: Opened<U>,
    runners: &mut Vec<U>,
    vault: &mut V,
    watch: &mut W,
    beat: &mut B,
    output: &mut O,
    starts: usize,
) -> Result<(), RunErr>
    requires params { V.params vault.old ≡ params.now }
    requires serves { (V.counts vault.old).spent ≡ false }
    requires whole { (W.trace watch.old).broken ≡ false }
    requires fresh { opening_of opened.hall
        ≡ new_desk (setup_with params.now (opening_of opened.hall).setup.shares) (suc (V.counts vault.old).epoch)
        (V.counts vault.old).left (map U.client runners.old.items) }
    requires opens { MayOpen (setup_with params.now (opening_of opened.hall).setup.shares) (suc (V.counts vault.old).epoch)
        (V.counts vault.old).left (map U.client runners.old.items) }
    requires passes { ArePasses opened.hall (map U.client runners.old.items)
        (opened.driver ∷ opened.passes.items) }
    requires none { opened.seated.items ≡ [] }
    requires room { (length runners.old.items ≤ vec_capacity opened.seated)
        × (length runners.old.items + 1 ≤ vec_capacity opened.passes) }
    requires below { All (λ u. U.bound u ≤ params.now.keys) runners.old.items }
    requires none_made { All (λ u. U.fits u []) runners.old.items }
    requires quiet { IsQuiet U.turn }
    ensures params { V.params vault.new ≡ params.now }
    ensures beat { B.anchors beat.new ≡ B.anchors beat.old }
    ensures done { (d : DeskState)
        × InThreads starts (kind_of V.Vault) (runner_kind U.client U.bound U.plan U.fits U.turn)
        (beat_kind B.passes B.exact)
        (run_state (scene (opening_of opened.hall) vault.old (W.trace watch.old))
        runners.old.items (outflow O.Sink output.old))
        (run_state (scene d vault.new (W.trace watch.new)) runners.new.items
        (outflow O.Sink output.new)) result }
{
    let Opened {
        hall,
        mut driver,
        mut passes,
        mut seated,
    } = opened;
    seat_all(runners, &mut passes, &mut seated);
    let result = serve(
        rt,
        alloc,
        params,
        &hall,
        &mut driver,
        &mut seated,
        vault,
        watch,
        beat,
        output,
        starts,
    );
    close_hall(hall, driver, seated, passes, runners);
    result
}

/// Runs the clients over the vault from the desk as it was made, the first ones in threads, so many
/// as starts are to be tried: a hall is made round the desk, and closed at the end. Those whose
/// thread the system refuses, and the others, are made by hand: in each round each of these makes a
/// step, in order, and then the driver does one thing.
pub fn run_in_threads<
    U: Runner + Send,
    R: Threads + Wait + Sync,
    V: Vault,
    W: Watch,
    B: Beat,
    O: Sink,
>(
    rt: &R,
    alloc: Global,
    params: &Params,
    desk: Desk,
    clients: &[u32],
    runners: &mut Vec<U>,
    vault: &mut V,
    watch: &mut W,
    beat: &mut B,
    output: &mut O,
    starts: usize,
) -> Result<(), RunErr>
    requires params { V.params vault.old ≡ params.now }
    requires serves { (V.counts vault.old).spent ≡ false }
    requires whole { (W.trace watch.old).broken ≡ false }
    requires clients { clients.now ≡ map U.client runners.old.items }
    requires fresh { desk
        ≡ new_desk (setup_with params.now desk.setup.shares) (suc (V.counts vault.old).epoch)
        (V.counts vault.old).left (map U.client runners.old.items) }
    requires opens { MayOpen (setup_with params.now desk.setup.shares) (suc (V.counts vault.old).epoch)
        (V.counts vault.old).left (map U.client runners.old.items) }
    requires below { All (λ u. U.bound u ≤ params.now.keys) runners.old.items }
    requires none_made { All (λ u. U.fits u []) runners.old.items }
    requires quiet { IsQuiet U.turn }
    ensures params { V.params vault.new ≡ params.now }
    ensures anchors { (V.disk vault.new).anchors ≡ (V.disk vault.old).anchors }
    ensures beat { B.anchors beat.new ≡ B.anchors beat.old }
    ensures done { (d : DeskState)
        × InThreads starts (kind_of V.Vault) (runner_kind U.client U.bound U.plan U.fits U.turn)
        (beat_kind B.passes B.exact)
        (run_state (scene desk vault.old (W.trace watch.old)) runners.old.items
        (outflow O.Sink output.old))
        (run_state (scene d vault.new (W.trace watch.new)) runners.new.items
        (outflow O.Sink output.new)) result }
{
    let Ok(opened) = open_hall(alloc, desk, clients) else {
        return Err(RunErr::Fault(Fault::Memory));
    };
    serve_hall(
        rt, alloc, params, opened, runners, vault, watch, beat, output, starts,
    )
}
