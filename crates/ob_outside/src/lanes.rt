//! Jobs read by several lanes at once: each reads through its own file, so nothing of the store is
//! sent to a thread.

ghost use Rattle.std.specs.Prelude.{◌≡◌, ◌<◌, ◌≤◌, ℕ, length};
ghost use Rattle.ob_base.specs.Planned.{job_at};
ghost use Rattle.ob_store.specs.Disk.{silent};
ghost use Rattle.ob_lanes.specs.Hands.{IsHandDone, IsHandReady, IsPlaceReady, hand_at};
ghost use Rattle.ob_lanes.specs.JobReads.{IsSlotRead};
ghost use Rattle.ob_outside.specs.Tries.{IsHandTried, IsPlaceTried};

use crate::cell::read_cell;
use crate::store::{FileLane, FileStore};
use ob_base::{Failed, Fault};
use ob_claims::{Claims, Round};
use ob_lanes::{Hand, Lanes, SealedJobs, Slot, open_cell};
use std::fs::File;
use std::rt::Files;
use std::thread;
use std::thread::Threads;

fn read_slot(lane: &mut FileLane, asked: &SealedJobs, place: usize) -> Slot
    requires within { place < length asked.now.jobs.now }
    ensures place { result.place ≡ place }
    ensures read { IsSlotRead asked.now.sealer.now.keys (silent 0) lane.old.faults lane.new.faults
        (job_at asked.now.jobs.now place) result }
    ensures later { lane.old.faults ≤ lane.new.faults }
{
    let job = &asked.jobs[place];
    let mut bytes = [0; 128];
    let outcome = match read_cell(&lane.file, job.cell, &mut bytes) {
        Ok(()) => open_cell(asked.sealer, job, &bytes),
        Err(Failed) => {
            lane.faults = lane.faults.saturating_add(1);
            Err(Fault::StoreFault { unsure: None })
        }
    };
    Slot { place, outcome }
}

fn read_claimed(hand: &mut Hand<FileLane>, claims: &Claims, round: &Round, asked: &SealedJobs)
    requires ready { IsHandReady claims.now round.now hand.old }
    requires jobs { round.now.count ≡ length asked.now.jobs.now }
    ensures read { IsHandTried 0 claims.now round.now asked.now hand.old hand.new }
    ensures done { IsHandDone round.now hand.new }
{
    while hand.part.len() < hand.part.capacity() {
        let Some(place) = claims.next(&mut hand.seat, round) else {
            return;
        };
        let slot = read_slot(&mut hand.lane, asked, place);
        hand.part.push_reserved(slot);
    }
}

fn read_place(
    place: &mut Option<Hand<FileLane>>,
    claims: &Claims,
    round: &Round,
    asked: &SealedJobs,
)
    requires ready { IsPlaceReady claims.now round.now place.old }
    requires jobs { round.now.count ≡ length asked.now.jobs.now }
    ensures { IsPlaceTried 0 claims.now round.now asked.now place.old place.new }
{
    if let Some(hand) = place {
        read_claimed(hand, claims, round, asked);
    }
}

fn read_hands<R: Threads + Sync>(
    rt: &R,
    hands: &mut [Option<Hand<FileLane>>],
    claims: &Claims,
    round: &Round,
    asked: &SealedJobs,
)
    requires ready { (i : ℕ) → i < length hands.old
        → IsPlaceReady claims.now round.now (hand_at hands.old i) }
    requires jobs { round.now.count ≡ length asked.now.jobs.now }
    ensures many { length hands.new ≡ length hands.old }
    ensures each { (i : ℕ) → i < length hands.old
        → IsPlaceTried 0 claims.now round.now asked.now (hand_at hands.old i)
        (hand_at hands.new i) }
{
    let threads = hands.len().max(1);
    thread::for_each_mut(
        rt,
        hands,
        threads,
        &|_, place: &mut Option<Hand<FileLane>>|
            requires { IsPlaceReady claims.now round.now place.old
                × (round.now.count ≡ length asked.now.jobs.now) }
            ensures { IsPlaceTried 0 claims.entry.now round.entry.now asked.entry.now place.old
                place.new }
        { read_place(place, claims, round, asked) },
    );
}

impl<R: Files<File = File> + Sync> Lanes for FileStore<R> {
    fn read_parts<T: Threads + Sync>(
        &self,
        rt: &T,
        hands: &mut [Option<Hand<FileLane>>],
        claims: &Claims,
        round: &Round,
        asked: &SealedJobs,
    ) {
        read_hands(rt, hands, claims, round, asked);
    }
}
