//! Reading what hands claim.

ghost use Rattle.std.specs.Prelude.{◌≡◌, ◌<◌, ◌≤◌, ℕ, length, [], ◌∷◌, IfErr};
ghost use denote.Param.Send.{IsSend, IsSync};
ghost use Rattle.ob_base.specs.Planned.{job_at};
ghost use Rattle.ob_store.specs.declared.event.Event.TheVariants as event;
ghost use Rattle.ob_store.specs.Disk.{Image};
ghost use Rattle.ob_store.specs.Calls.{Notes};
ghost use Rattle.ob_lanes.specs.JobReads.{IsJobRead, IsDamagedFault, IsSlotRead};
ghost use Rattle.ob_lanes.specs.Hands.{ArePlacesRead, ArePlacesReady, IsHandDone, IsHandRead, IsHandReady, IsPlaceRead, IsPlaceReady, hand_at};

use crate::window::{UNREAD, WINDOW, claim_some, open_cells, places_at_once, read_cells};
use crate::{Hand, Outcome, SealedJobs, Slot};
use ob_base::{Failed, Fault, Job};
use ob_claims::{Claims, Round};
use ob_seal::Sealer;
use ob_store::Store;
use std::thread::{Threads, join_mut};

/// Opens a job's cell, which is sealed with the job's identity: its plain bytes, or how the cell is
/// damaged.
pub fn open_cell(sealer: &Sealer, job: &Job, bytes: &[u8; 128]) -> Outcome
    ensures value { (image : Image) → bytes.now ≡ image job.now.cell
        → IsJobRead sealer.now.keys image job.now result }
    ensures faults { IfErr result IsDamagedFault }
{
    match sealer.unseal(job.cell, Some((job.generation, job.number)), bytes) {
        Ok(opened) => Ok(opened.plain),
        Err(damaged) => Err(Fault::from(damaged)),
    }
}

/// Reads the job at a place by a lane, and opens its cell. It is the store's fault where the lane
/// could not read.
pub fn read_slot<S: Store>(store: &S, lane: &mut S::Lane, asked: &SealedJobs, place: usize) -> Slot
    requires within { place < length asked.now.jobs.now }
    ensures place { result.place ≡ place }
    ensures read { IsSlotRead asked.now.sealer.now.keys (S.disk store.now) (S.lane_faults lane.old)
        (S.lane_faults lane.new) (job_at asked.now.jobs.now place) result }
    ensures seen { Notes (event.Read (job_at asked.now.jobs.now place).cell ∷ [])
        (S.lane_seen lane.old) (S.lane_seen lane.new) }
    ensures later { S.lane_faults lane.old ≤ S.lane_faults lane.new }
{
    let job = &asked.jobs[place];
    let mut bytes = [0; 128];
    let outcome = match store.read(lane, job.cell, &mut bytes) {
        Ok(()) => open_cell(asked.sealer, job, &bytes),
        Err(Failed) => Err(Fault::StoreFault { unsure: None }),
    };
    Slot { place, outcome }
}

// Claims places and reads their jobs until none is left, or the hand's part is full.
fn read_claimed<S: Store>(
    store: &S,
    hand: &mut Hand<S::Lane>,
    claims: &Claims,
    round: &Round,
    asked: &SealedJobs,
)
    requires ready { IsHandReady claims.now round.now hand.old }
    requires jobs { round.now.count ≡ length asked.now.jobs.now }
    ensures read { IsHandRead (S.disk store.now) S.lane_seen S.lane_faults claims.now round.now
        asked.now hand.old hand.new }
    ensures ended { IsHandDone round.now hand.new }
{
    let mut places = [0; WINDOW];
    let mut cells = [UNREAD; WINDOW];
    while hand.part.len() < hand.part.capacity() {
        let most = places_at_once(&hand.part, asked.jobs.len());
        let many = claim_some(claims, &mut hand.seat, round, &mut places, most);
        read_cells(store, &mut hand.lane, asked, &places, many, &mut cells);
        open_cells(&mut hand.part, asked, &places, many, &cells);
        if many < most {
            return;
        }
    }
}

fn read_place<S: Store>(
    store: &S,
    place: &mut Option<Hand<S::Lane>>,
    claims: &Claims,
    round: &Round,
    asked: &SealedJobs,
)
    requires ready { IsPlaceReady claims.now round.now place.old }
    requires jobs { round.now.count ≡ length asked.now.jobs.now }
    ensures { IsPlaceRead (S.disk store.now) S.lane_seen S.lane_faults claims.now round.now
        asked.now place.old place.new }
{
    if let Some(hand) = place {
        read_claimed(store, hand, claims, round, asked);
    }
}

/// Each hand claims places of the round, one after another, reads the job at each, and opens its
/// cell, whatever became of the others, until none is left or its part is full; in a thread of its
/// own where one can be started.
#[cycle(hands)]
pub fn read_hands<S: Store + Sync, R: Threads + Sync>(
    rt: &R,
    store: &S,
    hands: &mut [Option<Hand<S::Lane>>],
    claims: &Claims,
    round: &Round,
    asked: &SealedJobs,
)
where
    S::Lane: Send,
    requires ready { (i : ℕ) → i < length hands.old
        → IsPlaceReady claims.now round.now (hand_at hands.old i) }
    requires jobs { round.now.count ≡ length asked.now.jobs.now }
    ensures many { length hands.new ≡ length hands.old }
    ensures each { (i : ℕ) → i < length hands.old
        → IsPlaceRead (S.disk store.now) S.lane_seen S.lane_faults claims.now round.now asked.now
        (hand_at hands.old i) (hand_at hands.new i) }
{
    if hands.len() < 2 {
        read_hands_in_turn(store, hands, claims, round, asked);
        return;
    }
    let (first, rest) = hands.split_at_mut(1);
    read_apart(rt, store, first, rest, claims, round, asked);
}

// Some hands in a thread of their own, and the others from the calling thread on: that starts all
// threads, one behind the other, so that none waits until another one runs.
#[cycle(hands)]
fn read_apart<S: Store + Sync, R: Threads + Sync>(
    rt: &R,
    store: &S,
    first: &mut [Option<Hand<S::Lane>>],
    rest: &mut [Option<Hand<S::Lane>>],
    claims: &Claims,
    round: &Round,
    asked: &SealedJobs,
)
where
    S::Lane: Send,
    requires first { ArePlacesReady claims.now round.now asked.now first.old }
    requires rest { ArePlacesReady claims.now round.now asked.now rest.old }
    ensures first { ArePlacesRead (S.disk store.now) S.lane_seen S.lane_faults claims.now round.now
        asked.now first.old first.new }
    ensures rest { ArePlacesRead (S.disk store.now) S.lane_seen S.lane_faults claims.now round.now
        asked.now rest.old rest.new }
{
    let mut apart = ||
        requires { ArePlacesReady claims.now round.now asked.now first.now }
        ensures { ArePlacesRead (S.disk store.entry.now) S.lane_seen S.lane_faults claims.entry.now
            round.entry.now asked.entry.now first.entry.now first.exit.now }
    { read_hands_in_turn(store, first, claims, round, asked) };
    let mut here = ||
        requires { IsSync R.row × IsSync S.row × IsSend S.Lane.row
            × ArePlacesReady claims.now round.now asked.now rest.now }
        ensures { ArePlacesRead (S.disk store.entry.now) S.lane_seen S.lane_faults claims.entry.now
            round.entry.now asked.entry.now rest.entry.now rest.exit.now }
    { read_hands(rt, store, rest, claims, round, asked) };
    join_mut(rt, &mut apart, &mut here);
}

/// The same by the calling thread alone, hand by hand: for a store whose reads wait for nothing, so
/// that to start a thread takes longer than few reads do.
pub fn read_hands_in_turn<S: Store>(
    store: &S,
    hands: &mut [Option<Hand<S::Lane>>],
    claims: &Claims,
    round: &Round,
    asked: &SealedJobs,
)
    requires ready { (i : ℕ) → i < length hands.old
        → IsPlaceReady claims.now round.now (hand_at hands.old i) }
    requires jobs { round.now.count ≡ length asked.now.jobs.now }
    ensures many { length hands.new ≡ length hands.old }
    ensures each { (i : ℕ) → i < length hands.old
        → IsPlaceRead (S.disk store.now) S.lane_seen S.lane_faults claims.now round.now asked.now
        (hand_at hands.old i) (hand_at hands.new i) }
{
    for i in 0..hands.len() {
        read_place(store, &mut hands[i], claims, round, asked);
    }
}
