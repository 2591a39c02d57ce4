//! Opening a ring store.

ghost use Rattle.std.specs.Prelude.{◌≡◌, ◌⊎◌, ◌≤◌, ℕ, suc, Err, IfOk, IfErr, MatchResult, OnOk, OnErr, Option, is_ok};
ghost use Rattle.ob_store.specs.Calls.{Serves, IsStoreFault};
ghost use Rattle.ob_pads.specs.Lives.{LeavesUnopened, Opens};
ghost use Rattle.ob_stand.specs.Stands.{RingStanding, Stands};
ghost use Rattle.ob_recover.specs.Finds.{IsFoundInRing, ObeysFound};
ghost use Rattle.ob_twin.specs.Clear.{InClearBy};
ghost use Rattle.ob_twin.specs.Keyed.{tagging};
ghost use Rattle.ob_twin.specs.Register.{StandsAt};
ghost use Rattle.ob_recover.specs.Life.{LifeAct, LifeState, WordId};
ghost use Rattle.ob_start.specs.Registers.{HaveOpen};
ghost use Rattle.ob_opening.specs.OpeningActs.{IsLeftAt, OpensInLife};
ghost use Rattle.ob_opening.specs.Openings.{IsOpeningOf, IsToldOpening, IsOpenFault, IsOpenRefusal, OpensWhatStood};
ghost use Rattle.ob_opening.specs.OpeningParts.{AreRooms, FoundDoes, FoundRefused, FoundStays, IsFoundFault, IsFoundRefusal};
ghost use Rattle.ob_opening.specs.OpeningRuns.{BeginsAt, IsAtStart, IsRingOpened, OpeningLeaves, RefusedDoes, RefusedWrites, StartsTape, next_notes};
ghost use Rattle.ob_opening.specs.OpeningStops.{OpeningStops, StopsAt};

use crate::opening::Opening;
use crate::rooms::{Rooms, rooms_for};
use ob_base::{Fault, Memory, Params};
use ob_lanes::Lanes;
use ob_recover::{Found, find, replay};
use ob_seal::{Keys, Sealer, Tape};
use ob_start::begin;
use ob_store::Watch;
use std::alloc::Global;
use std::thread::Threads;

// Begins the next generation, and shows each recorded batch again.
fn open_found<S: Lanes, R: Threads + Sync, T: Tape, W: Watch>(
    rt: &R,
    store: &mut S,
    tape: &mut T,
    keys: &Keys,
    p: &Params,
    found: Found,
    mut rooms: Rooms<S::Lane>,
    watch: &mut W,
) -> Result<Opening<S::Lane>, Fault>
    requires none_out { (S.disk store.old).out ≡ 0 }
    requires unstarted { T.present tape.old ≡ 0 }
    requires obeys { ObeysFound p.now found }
    requires gates { (S.disk store.old).tells
        → IsFoundInRing keys.now p.now (S.disk store.old).cells found }
    requires some { HaveOpen found.gates }
    requires rooms { AreRooms p.now rooms.crew.lanes rooms }
    ensures serves { Serves IsStoreFault (S.disk store.old) (S.disk store.new) result }
    ensures faults { IfErr result (IsFoundFault found.generation) }
    ensures refused { (S.disk store.old).tells
        → IfErr result (IsFoundRefusal keys.now p.now (S.disk store.old).cells found) }
    ensures is { IfOk result (IsOpeningOf keys.now p.now found) }
    ensures lanes { IfOk result (λ o. o.crew.lanes ≡ rooms.crew.lanes) }
    ensures told { (S.disk store.old).tells
        → IfOk result (IsToldOpening keys.now p.now (S.disk store.old).cells (S.disk store.new)
        found) }
    ensures stood { (S.disk store.old).tells
        → StandsAt (tagging keys.now) 1 (S.disk store.old).cells found.generation
        → OnOk result (StandsAt (tagging keys.now) 1 (S.disk store.new).cells
        (suc found.generation)) }
    ensures leaves { OpeningLeaves S.disk keys.now p.now store.old store.new result }
    ensures clear { (S.disk store.new).tells → InClearBy (tagging keys.now) (S.disk store.new).seen
        (S.disk store.old).cells (S.disk store.new).cells result }
    ensures begins { OnOk result (BeginsAt S.disk keys.now (next_notes found) found.generation
        store.old store.new) }
    ensures tape { OnOk result (IsAtStart (T.present tape.new) (T.drawn tape.new)
        (suc found.generation)) }
    ensures begins_err { IfErr result (FoundRefused S.disk keys.now rooms.crew.lanes p.now found
        store.old store.new tape.old tape.new (T.present tape.new) (T.drawn tape.new)
        (W.trace watch.old) (W.trace watch.new)) }
    ensures stays { IfErr result (FoundStays store.old store.new tape.old tape.new watch.old
        watch.new (T.present tape.new) found.generation) }
    ensures does { FoundDoes rooms.crew.lanes p.now found (S.disk store.old).seen
        (S.disk store.new).seen (W.trace watch.old) (W.trace watch.new) result }
    ensures stops { IfErr result (StopsAt (next_notes found) keys.now rooms.crew.lanes p.now found
        (S.disk store.old) (S.disk store.new) (W.trace watch.old) (W.trace watch.new)) }
{
    let mut gates = found.gates;
    let epoch = found.epoch;
    let known = Sealer::new(keys, 0);
    let generation = match begin(store, &known, &mut gates, found.generation, watch) {
        Ok(generation) => generation,
        Err(fault) => return Err(fault),
    };
    tape.start(generation);
    let sealer = Sealer::new(keys, generation);
    let (ring, left) = match replay(
        rt,
        store,
        &mut rooms.crew,
        &sealer,
        p,
        &mut rooms.jobs,
        found,
        watch,
    ) {
        Ok(replayed) => replayed,
        Err(fault) => return Err(fault),
    };
    let Rooms {
        jobs,
        crew,
        bench,
        sheet,
        words,
        index,
    } = rooms;
    Ok(Opening {
        params: *p,
        gates,
        sealer,
        epoch,
        left,
        ring,
        jobs,
        crew,
        bench,
        sheet,
        words,
        index,
    })
}

/// Opens a ring store of these parameters, as `head` gave them, from cell 1 on: finds what it
/// holds, makes sure of what was written before, begins the next generation, starts the tape with
/// it, and shows each recorded read batch again, with the record's own words under their own
/// generation. The tape wasn't started before. There may be so many lanes at once. All the room
/// that a vault over the opening needs is made first.
///
/// # Errors
/// Memory was wanting, before anything was written; or the store failed, and its count of faults
/// rose; or, with nothing written yet, what `find` refuses, or the next generation would be `2^62`;
/// or, in the generation begun, what `replay` finds damaged.
pub fn prepare<S: Lanes, R: Threads + Sync, T: Tape, W: Watch>(
    rt: &R,
    alloc: Global,
    store: &mut S,
    tape: &mut T,
    keys: &Keys,
    p: &Params,
    lanes: usize,
    watch: &mut W,
) -> Result<Opening<S::Lane>, Fault>
    requires none_out { (S.disk store.old).out ≡ 0 }
    requires unstarted { T.present tape.old ≡ 0 }
    requires lanes { (1 ≤ lanes) × (lanes ≤ 16) }
    ensures serves { Serves IsStoreFault (S.disk store.old) (S.disk store.new) result }
    ensures faults { IfErr result IsOpenFault }
    ensures refused { (S.disk store.old).tells
        → IfErr result (IsOpenRefusal keys.now p.now (S.disk store.old).cells) }
    ensures opened { IfOk result (IsRingOpened S.disk keys.now lanes p.now store.old store.new
        (W.trace watch.old) (W.trace watch.new)) }
    // Where the store stood, the opening has what it stood for, and the store stands for it still,
    // in the next generation, whatever crashes.
    ensures stands { (s : RingStanding) → (S.disk store.old).tells
        → Stands keys.now p.now s (S.disk store.old).cells
        → OpensWhatStood keys.now p.now s (S.disk store.new) result }
    // A crash leaves what it might have left before, until the first sync succeeded; from then on
    // what was read, at the old generation or the next one.
    ensures leaves { OpeningLeaves S.disk keys.now p.now store.old store.new result }
    // The tape is started once the next generation is in every image.
    ensures tape { IfOk result (λ o. IsAtStart (T.present tape.new) (T.drawn tape.new)
        o.sealer.generation) }
    ensures tape_err { OnErr result ((tape.new ≡ tape.old)
        ⊎ StartsTape S.disk keys.now p.now store.old store.new (T.present tape.new)
        (T.drawn tape.new)) }
    // But for a store that failed and for a batch that is damaged in the generation begun, a
    // refused opening wrote nothing.
    ensures unwritten { IfErr result (RefusedWrites S.disk keys.now p.now store.old store.new
        tape.old tape.new (T.present tape.new) (T.drawn tape.new)) }
    ensures does_err { IfErr result (RefusedDoes keys.now lanes p.now (S.disk store.old)
        (S.disk store.new) (W.trace watch.old) (W.trace watch.new)) }
    // Refused, it leaves the gates of the epoch's register as they were, and those of the
    // generations' one by how many of the notes lack with which the next generation begins.
    ensures stops { IfErr result (OpeningStops keys.now lanes p.now (S.disk store.old)
        (S.disk store.new) (W.trace watch.old) (W.trace watch.new)) }
    // Of a store whose life has reached this state, perhaps with an act in flight, the acts are
    // what was found of that, the next generation, and a repeat of each batch of the log; the first
    // of them where it was refused.
    ensures acts { (word_of : WordId → ℕ) (s : LifeState) (pending : Option LifeAct)
        → (S.disk store.old).tells
        → IsLeftAt keys.now p.now word_of s pending (S.disk store.old).cells
        → OpensInLife keys.now lanes p.now word_of s pending (S.disk store.old)
        (S.disk store.new) (W.trace watch.old) (W.trace watch.new) (is_ok result) }
    // In the store's life over its pads it is an act that gives a sealer, or that opens nothing.
    ensures act { (S.disk store.new).tells → MatchResult result
        (λ opening. Opens keys.now (S.disk store.old) (S.disk store.new) opening.sealer)
        (λ refused. LeavesUnopened keys.now (S.disk store.old) (S.disk store.new)) }
{
    let mut rooms: Rooms<S::Lane> = match rooms_for(alloc, p, lanes) {
        Ok(rooms) => rooms,
        Err(Memory) => return Err(Fault::Memory),
    };
    let found = match find(alloc, store, keys, p, &mut rooms.sheet, watch) {
        Ok(found) => found,
        Err(fault) => return Err(fault),
    };
    open_found(rt, store, tape, keys, p, found, rooms, watch)
}
