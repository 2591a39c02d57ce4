//! Hands of a mirror, whose jobs are read by the first half and, where that failed, by the second.

ghost use Rattle.std.specs.Prelude.{◌≡◌, ◌≢◌, ◌≤◌, ◌<◌, ◌+◌, ◌∷◌, [], ◌++◌, ℕ, length, take, if◌then◌else◌};
ghost use Rattle.ob_base.specs.Planned.{job_at};
ghost use Rattle.ob_store.specs.Calls.{Notes};
ghost use Rattle.ob_store.specs.declared.event.Event.TheVariants as event;
ghost use Rattle.ob_lanes.specs.Hands.{IsPlaceReady, hand_at, slot_places, reads_of, slot_at};
ghost use Rattle.ob_mirror.specs.Both.{saturating_sum};
ghost use Rattle.ob_mirror.specs.Reading.{AreMended, IsMended, IsParted, IsPlaceMended, IsPlaceReadOfEither, HasPlacesOfJobs, TellLanes, TellPlaces, failed_in, is_refused, lane_at, with_refusals};

use crate::lane::{MirrorLane, SecondLane};
use ob_base::Fault;
use ob_claims::{Claims, Round};
use ob_lanes::{Hand, Lanes, Outcome, SealedJobs, Slot, read_slot};
use ob_store::{Event, Store};
use std::thread::Threads;

/// Places for the hands of both halves. By a value of this type their size is known.
#[derive(Drop)]
pub struct Places<L, M> {
    firsts: [Option<Hand<L>>; 16],
    seconds: [Option<SecondLane<M>>; 16],
}

impl<L, M> Places<L, M> {
    /// Places with no hand.
    pub fn new() -> Places<L, M> {
        Places {
            firsts: Default::default(),
            seconds: Default::default(),
        }
    }
}

/// What the hands of a phase claim from, and the jobs.
#[derive(Drop)]
pub struct Phase<'a, 'j> {
    pub claims: &'a Claims,
    pub round: &'a Round,
    pub asked: &'a SealedJobs<'j>,
}

// Whether the read of a job was refused.
fn was_refused(outcome: &Outcome) -> bool
    ensures { result ≡ is_refused outcome.now }
{
    matches!(outcome, Err(Fault::StoreFault { .. }))
}

// How many reads failed, with one more where it did.
fn counted(failed: u64, refused: bool) -> u64
    ensures { result ≡ (if refused then saturating_sum failed 1 else failed) }
{
    if refused {
        failed.saturating_add(1)
    } else {
        failed
    }
}

// Reads the job again whose read was refused.
fn read_slot_again<B: Store>(
    store: &B,
    second: &mut SecondLane<B::Lane>,
    asked: &SealedJobs,
    slot: Slot,
) -> Slot
    requires within { slot.place < length asked.now.jobs.now }
    ensures mended { IsMended asked.now (B.disk store.now) (B.lane_faults second.old.lane)
        (B.lane_faults second.new.lane) slot result }
    ensures reads { Notes (reads_of asked.now (slot_places (failed_in (slot ∷ []))))
        (B.lane_seen second.old.lane) (B.lane_seen second.new.lane) }
    ensures later { B.lane_faults second.old.lane ≤ B.lane_faults second.new.lane }
    ensures failed { second.new.failed ≡ with_refusals (result ∷ []) second.old.failed }
    ensures log { second.new.reads ≡ second.old.reads }
{
    if !was_refused(&slot.outcome) {
        return slot;
    }
    let again = read_slot(store, &mut second.lane, asked, slot.place);
    second.failed = counted(second.failed, was_refused(&again.outcome));
    again
}

// The same at a place of a part. The read is one of both halves, whichever served it.
fn again_at<B: Store>(
    store: &B,
    second: &mut SecondLane<B::Lane>,
    asked: &SealedJobs,
    part: &mut [Slot],
    i: usize,
)
    requires here { i < length part.old }
    requires within { (slot_at part.old i).place < length asked.now.jobs.now }
    ensures many { length part.new ≡ length part.old }
    ensures mended { IsMended asked.now (B.disk store.now) (B.lane_faults second.old.lane)
        (B.lane_faults second.new.lane) (slot_at part.old i) (slot_at part.new i) }
    ensures others { (j : ℕ) → j ≢ i → slot_at part.new j ≡ slot_at part.old j }
    ensures front { take (i + 1) part.new ≡ take i part.old ++ slot_at part.new i ∷ [] }
    ensures reads { Notes (reads_of asked.now (slot_places (failed_in (slot_at part.old i ∷ []))))
        (B.lane_seen second.old.lane) (B.lane_seen second.new.lane) }
    ensures later { B.lane_faults second.old.lane ≤ B.lane_faults second.new.lane }
    ensures failed { second.new.failed
        ≡ with_refusals (slot_at part.new i ∷ []) second.old.failed }
    ensures log { second.new.reads.events ≡ second.old.reads.events
        ++ event.Read (job_at asked.now.jobs.now (slot_at part.old i).place).cell ∷ [] }
{
    let cell = asked.jobs[part[i].place].cell;
    second.reads = second.reads.noted(&Event::Read(cell));
    part[i] = read_slot_again(store, second, asked, part[i]);
}

// The same in a whole part.
fn read_again<B: Store>(
    store: &B,
    second: &mut SecondLane<B::Lane>,
    asked: &SealedJobs,
    part: &mut [Slot],
)
    requires within { (i : ℕ) → i < length part.old
        → (slot_at part.old i).place < length asked.now.jobs.now }
    ensures { AreMended asked.now (B.disk store.now) B.lane_seen B.lane_faults part.old part.new
        second.old second.new }
{
    for i in 0..part.len() {
        again_at(store, second, asked, part, i);
    }
}

fn part_place<A: Store, B: Store>(
    place: &mut Option<Hand<MirrorLane<A, B>>>,
) -> (Option<Hand<A::Lane>>, Option<SecondLane<B::Lane>>)
    ensures parted { IsParted place.old result.0 result.1 }
    ensures told { TellLanes A.lane_seen A.lane_faults B.lane_seen result.0 result.1 }
{
    match place.take() {
        Some(hand) => {
            let Hand { lane, seat, part } = hand;
            let MirrorLane { first, second } = lane;
            let lane = first;
            (Some(Hand { lane, seat, part }), Some(second))
        }
        None => (None, None),
    }
}

fn join_place<A: Store, B: Store>(
    store: &B,
    first: Option<Hand<A::Lane>>,
    second: Option<SecondLane<B::Lane>>,
    asked: &SealedJobs,
) -> Option<Hand<MirrorLane<A, B>>>
    requires within { HasPlacesOfJobs asked.now first }
    requires told { TellPlaces A.lane_seen A.lane_faults B.lane_seen asked.now first second }
    ensures joined { IsPlaceMended asked.now (B.disk store.now) B.lane_seen B.lane_faults first
        second result }
{
    match (first, second) {
        (Some(hand), Some(mut second)) => {
            let Hand {
                lane,
                seat,
                mut part,
            } = hand;
            read_again(store, &mut second, asked, part.as_mut_slice());
            let lane = MirrorLane {
                first: lane,
                second,
            };
            Some(Hand { lane, seat, part })
        }
        _ => None,
    }
}

// Moves a hand out.
fn part_at<A: Store, B: Store>(
    hands: &mut [Option<Hand<MirrorLane<A, B>>>],
    firsts: &mut [Option<Hand<A::Lane>>],
    seconds: &mut [Option<SecondLane<B::Lane>>],
    i: usize,
)
    requires hand { i < length hands.old }
    requires first { i < length firsts.old }
    requires second { i < length seconds.old }
    ensures many { length hands.new ≡ length hands.old }
    ensures many_firsts { length firsts.new ≡ length firsts.old }
    ensures many_seconds { length seconds.new ≡ length seconds.old }
    ensures parted { IsParted (hand_at hands.old i) (hand_at firsts.new i) (lane_at seconds.new i) }
    ensures told { TellLanes A.lane_seen A.lane_faults B.lane_seen (hand_at firsts.new i)
        (lane_at seconds.new i) }
    ensures hands { (j : ℕ) → j ≢ i → hand_at hands.new j ≡ hand_at hands.old j }
    ensures firsts { (j : ℕ) → j ≢ i → hand_at firsts.new j ≡ hand_at firsts.old j }
    ensures seconds { (j : ℕ) → j ≢ i → lane_at seconds.new j ≡ lane_at seconds.old j }
{
    let (one, two) = part_place(&mut hands[i]);
    firsts[i] = one;
    seconds[i] = two;
}

// Moves the hands out.
fn part_all<A: Store, B: Store>(
    hands: &mut [Option<Hand<MirrorLane<A, B>>>],
    firsts: &mut [Option<Hand<A::Lane>>],
    seconds: &mut [Option<SecondLane<B::Lane>>],
)
    requires firsts { length firsts.old ≡ length hands.old }
    requires seconds { length hands.old ≤ length seconds.old }
    ensures many { length hands.new ≡ length hands.old }
    ensures many_firsts { length firsts.new ≡ length hands.old }
    ensures many_seconds { length seconds.new ≡ length seconds.old }
    ensures parted { (i : ℕ) → i < length hands.old → IsParted (hand_at hands.old i)
        (hand_at firsts.new i) (lane_at seconds.new i) }
    ensures told { (i : ℕ) → i < length hands.old → TellLanes A.lane_seen A.lane_faults B.lane_seen
        (hand_at firsts.new i) (lane_at seconds.new i) }
{
    for i in 0..hands.len() {
        part_at(hands, firsts, seconds, i);
    }
}

// Moves a hand back, what failed read again.
fn join_at<A: Store, B: Store>(
    store: &B,
    firsts: &mut [Option<Hand<A::Lane>>],
    seconds: &mut [Option<SecondLane<B::Lane>>],
    hands: &mut [Option<Hand<MirrorLane<A, B>>>],
    asked: &SealedJobs,
    i: usize,
)
    requires hand { i < length hands.old }
    requires first { i < length firsts.old }
    requires second { i < length seconds.old }
    requires within { HasPlacesOfJobs asked.now (hand_at firsts.old i) }
    requires told { TellPlaces A.lane_seen A.lane_faults B.lane_seen asked.now (hand_at firsts.old i)
        (lane_at seconds.old i) }
    ensures many { length hands.new ≡ length hands.old }
    ensures many_firsts { length firsts.new ≡ length firsts.old }
    ensures many_seconds { length seconds.new ≡ length seconds.old }
    ensures joined { IsPlaceMended asked.now (B.disk store.now) B.lane_seen B.lane_faults
        (hand_at firsts.old i) (lane_at seconds.old i) (hand_at hands.new i) }
    ensures hands { (j : ℕ) → j ≢ i → hand_at hands.new j ≡ hand_at hands.old j }
    ensures firsts { (j : ℕ) → j ≢ i → hand_at firsts.new j ≡ hand_at firsts.old j }
    ensures seconds { (j : ℕ) → j ≢ i → lane_at seconds.new j ≡ lane_at seconds.old j }
{
    hands[i] = join_place(store, firsts[i].take(), seconds[i].take(), asked);
}

// Moves them back.
fn join_all<A: Store, B: Store>(
    store: &B,
    firsts: &mut [Option<Hand<A::Lane>>],
    seconds: &mut [Option<SecondLane<B::Lane>>],
    hands: &mut [Option<Hand<MirrorLane<A, B>>>],
    asked: &SealedJobs,
)
    requires firsts { length hands.old ≤ length firsts.old }
    requires seconds { length hands.old ≤ length seconds.old }
    requires within { (i : ℕ) → i < length hands.old → HasPlacesOfJobs asked.now (hand_at firsts.old i) }
    requires told { (i : ℕ) → i < length hands.old → TellPlaces A.lane_seen A.lane_faults B.lane_seen asked.now
        (hand_at firsts.old i) (lane_at seconds.old i) }
    ensures many { length hands.new ≡ length hands.old }
    ensures joined { (i : ℕ) → i < length hands.old → IsPlaceMended asked.now (B.disk store.now)
        B.lane_seen B.lane_faults (hand_at firsts.old i) (lane_at seconds.old i)
        (hand_at hands.new i) }
{
    for i in 0..hands.len() {
        join_at(store, firsts, seconds, hands, asked, i);
    }
}

/// Each hand claims jobs and reads them: the first half's lanes all of them, in threads where these
/// can be started, and then the second half's on this thread those that failed.
pub fn read_both<A: Lanes, B: Store, R: Threads + Sync>(
    rt: &R,
    _places: &Places<A::Lane, B::Lane>,
    first: &A,
    second: &B,
    hands: &mut [Option<Hand<MirrorLane<A, B>>>],
    phase: &Phase,
)
    requires few { length hands.old ≤ 16 }
    requires ready { (i : ℕ) → i < length hands.old
        → IsPlaceReady phase.now.claims.now phase.now.round.now (hand_at hands.old i) }
    requires jobs { phase.now.round.now.count ≡ length phase.now.asked.now.jobs.now }
    ensures many { length hands.new ≡ length hands.old }
    ensures each { (i : ℕ) → i < length hands.old → IsPlaceReadOfEither A.lane_seen A.lane_faults
        B.lane_seen B.lane_faults (A.disk first.now) (B.disk second.now) phase.now.claims.now
        phase.now.round.now phase.now.asked.now (hand_at hands.old i) (hand_at hands.new i) }
{
    let mut places: Places<A::Lane, B::Lane> = Places::new();
    let many = hands.len();
    let firsts = &mut places.firsts[..many];
    let seconds = &mut places.seconds[..many];
    part_all(hands, firsts, seconds);
    first.read_parts(rt, firsts, phase.claims, phase.round, phase.asked);
    join_all(second, firsts, seconds, hands, phase.asked);
}
