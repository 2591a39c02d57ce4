//! A batch of jobs, shared by lanes and read by them.

ghost use Rattle.std.specs.Prelude.{◌≡◌, ◌≤◌, ◌<◌, ℕ, [], length, vec_capacity, OnErr, OnOk};
ghost use Rattle.ob_store.specs.Images.{Same, Passes};
ghost use Rattle.ob_store.specs.Calls.{Serves, IsFailed, Keeps, Notes};
ghost use Rattle.ob_lanes.specs.Hands.{IsPlaceRead, IsPlaceReady, hand_at};
ghost use Rattle.ob_lanes.specs.JobReads.{cells_of};
ghost use Rattle.ob_lanes.specs.Rooms.{AreAsLarge, AreSlotsRead, AreReaders, jobs_of, lanes_of};
ghost use Rattle.ob_lanes.specs.Rounds.{AreLent};
ghost use Rattle.ob_lanes.specs.Shares.{AreShared};

use crate::round::{gather, make_hands, take_all};
use crate::{Lanes, Readers, SealedJobs};
use ob_base::{Failed, Job};
use ob_claims::Round;
use ob_seal::Sealer;
use std::thread::Threads;

// Opens a round of so many places, of which none is claimed.
fn open_round<L>(readers: &mut Readers<L>, count: usize) -> Round
    requires ready { AreReaders readers.old }
    requires few { count ≤ jobs_of readers.old }
    ensures lent { AreLent result readers.new readers.new }
    ensures count { result.count ≡ count }
    ensures parts { readers.new.seat.me.0.parts ≡ readers.old.seat.me.0.parts }
    ensures rest { readers.new ≡ record readers.old { seat = readers.new.seat } }
{
    readers.claims.clear(&mut readers.seat);
    match readers.claims.open(&mut readers.seat, count as u64) {
        Ok(round) => round,
        Err(_) => unreachable!(),
    }
}

// The hands read what they claim.
fn read_held<S: Lanes, R: Threads + Sync>(
    rt: &R,
    store: &S,
    readers: &mut Readers<S::Lane>,
    round: &Round,
    asked: &SealedJobs,
)
    requires few { length readers.old.hands.items ≤ 16 }
    requires ready { (i : ℕ) → i < length readers.old.hands.items
        → IsPlaceReady readers.old.claims round.now (hand_at readers.old.hands.items i) }
    requires jobs { round.now.count ≡ length asked.now.jobs.now }
    ensures many { length readers.new.hands.items ≡ length readers.old.hands.items }
    ensures each { (i : ℕ) → i < length readers.old.hands.items
        → IsPlaceRead (S.disk store.now) S.lane_seen S.lane_faults readers.old.claims round.now
        asked.now (hand_at readers.old.hands.items i) (hand_at readers.new.hands.items i) }
    ensures room { vec_capacity readers.new.hands ≡ vec_capacity readers.old.hands }
    ensures rest { readers.new ≡ record readers.old { hands = readers.new.hands } }
{
    store.read_parts(
        rt,
        readers.hands.as_mut_slice(),
        &readers.claims,
        round,
        asked,
    );
}

/// Reads each job, whatever the others gave, and opens its cell, which is sealed with its identity:
/// what it gave stands in its slot. The readers' lanes, as many as there are jobs where these are
/// fewer, but at least one, read at once, each in a thread of its own where one can be started, and
/// each takes the next job when it is done with its last one. All lanes are made before a cell is
/// read, and all are taken back, the first one first. No memory is taken.
///
/// # Errors
/// The store refused a lane, and its count of faults rose. Nothing was read.
pub fn read_jobs<S: Lanes, R: Threads + Sync>(
    rt: &R,
    store: &mut S,
    readers: &mut Readers<S::Lane>,
    sealer: &Sealer,
    jobs: &[Job],
) -> Result<(), Failed>
    requires ready { AreReaders readers.old }
    requires few { length jobs.now ≤ jobs_of readers.old }
    ensures serves { Serves IsFailed (S.disk store.old) (S.disk store.new) result }
    ensures keeps { Keeps (S.disk store.old) (S.disk store.new) }
    ensures passes { Passes Same (S.disk store.old) (S.disk store.new) }
    ensures read { OnOk result (AreSlotsRead sealer.now.keys (S.disk store.old)
        (S.disk store.old).faults (S.disk store.new).faults jobs.now readers.new.slots.items) }
    ensures seen { OnOk result (AreShared (lanes_of readers.old) (cells_of jobs.now)
        (S.disk store.old).seen (S.disk store.new).seen) }
    ensures unseen { OnErr result (Notes [] (S.disk store.old).seen (S.disk store.new).seen) }
    ensures readers { AreAsLarge readers.old readers.new }
{
    let round = open_round(readers, jobs.len());
    let asked = SealedJobs { sealer, jobs };
    let many = readers.parts.len().min(jobs.len()).max(1);
    match make_hands(store, many, readers, &round) {
        Ok(()) => {}
        Err(Failed) => {
            take_all(store, readers, &round, &asked);
            return Err(Failed);
        }
    }
    read_held(rt, store, readers, &round, &asked);
    gather(store, readers, &round, &asked);
    Ok(())
}
