//! Lanes made before a phase, and taken back behind it.

ghost use Rattle.std.specs.Prelude.{◌≡◌, ◌≤◌, ◌<◌, ◌+◌, ◌-◌, [], ◌∷◌, ◌++◌, All, length, vec_capacity, Some, OnErr, OnOk};
ghost use Rattle.ob_base.specs.Causes.{Rose};
ghost use Rattle.ob_store.specs.Images.{Same, Passes};
ghost use Rattle.ob_store.specs.Calls.{GoesOn, Keeps, Notes};
ghost use Rattle.ob_claims.specs.ClaimCalls.{HasCome, HasEveryPart, IsAllClaimed, IsClaimSeat, parts_made};
ghost use Rattle.ob_lanes.specs.Placing.{AreSlotsPlaced, AreLeftRead};
ghost use Rattle.ob_lanes.specs.Rooms.{jobs_of};
ghost use Rattle.ob_lanes.specs.Rounds.{AreGathered, AreLent, AreHandsOut, IsBack, IsFreshHand, IsLentHand, IsReturned, IsTaken, hand_in, hands_in};

use crate::reading::read_slot;
use crate::{Hand, Readers, SealedJobs, Slot};
use ob_base::Failed;
use ob_claims::Round;
use ob_store::Store;

// Makes so many lanes, and gives each a part of the claims' seat and an empty part.
//
// # Errors
// The store refused a lane, and its count of faults rose. The hands made are there.
pub(crate) fn make_hands<S: Store>(
    store: &mut S,
    many: usize,
    readers: &mut Readers<S::Lane>,
    round: &Round,
) -> Result<(), Failed>
    requires lent { AreLent round.now readers.old readers.old }
    requires none { readers.old.hands.items ≡ [] }
    requires room { many ≤ vec_capacity readers.old.hands }
    requires some { many ≤ length readers.old.parts.items }
    requires seats { many < readers.old.seat.me.0.parts }
    ensures goes { GoesOn (S.disk store.old) (S.disk store.new) }
    ensures keeps { Keeps (S.disk store.old) (S.disk store.new) }
    ensures passes { Passes Same (S.disk store.old) (S.disk store.new) }
    ensures seen { Notes [] (S.disk store.old).seen (S.disk store.new).seen }
    ensures out { (S.disk store.new).out
        ≤ (S.disk store.old).out + length (hands_in readers.new.hands.items) }
    ensures fresh { All (IsFreshHand S.lane_seen S.lane_faults (S.disk store.new).seen)
        (hands_in readers.new.hands.items) }
    ensures ready { All (IsLentHand readers.old.claims round.now)
        (hands_in readers.new.hands.items) }
    ensures lent { AreLent round.now readers.old readers.new }
    ensures all { OnOk result (length readers.new.hands.items ≡ many) }
    ensures cause { OnErr result (Rose (S.disk store.old).faults (S.disk store.new).faults) }
{
    for _ in 0..many {
        let lane = match store.lane() {
            Ok(lane) => lane,
            Err(Failed) => return Err(Failed),
        };
        let mut part = readers.parts.remove(0);
        part.clear();
        let seat = readers.claims.split(&mut readers.seat);
        readers.hands.push_reserved(Some(Hand { lane, seat, part }));
    }
    Ok(())
}

// Puts what was read of each job in its place.
fn place_all(part: &[Slot], slots: &mut [Slot])
    requires within { All (λ s. s.place < length slots.old) part.now }
    ensures placed { AreSlotsPlaced part.now (length part.now) slots.old slots.new }
{
    for i in 0..part.len() {
        slots[part[i].place] = part[i];
    }
}

// The same over lists.
fn place_in(part: &Vec<Slot>, slots: &mut Vec<Slot>)
    requires within { All (λ s. s.place < length slots.old.items) part.now.items }
    ensures placed { AreSlotsPlaced part.now.items (length part.now.items) slots.old.items
        slots.new.items }
{
    place_all(part.as_slice(), slots.as_mut_slice());
}

// Takes a hand's lane and seat back, where one is: what it has read is put in its places, and its
// part behind the others.
fn take_back<S: Store>(store: &mut S, place: Option<Hand<S::Lane>>, readers: &mut Readers<S::Lane>)
    requires own { IsClaimSeat readers.old.claims readers.old.seat }
    requires its { IsReturned readers.old place }
    requires room { length readers.old.parts.items + 1 ≤ vec_capacity readers.old.parts }
    ensures goes { GoesOn (S.disk store.old) (S.disk store.new) }
    ensures keeps { Keeps (S.disk store.old) (S.disk store.new) }
    ensures passes { Passes Same (S.disk store.old) (S.disk store.new) }
    ensures out { (S.disk store.new).out ≤ (S.disk store.old).out - length (hand_in place) }
    ensures back { IsBack S.lane_seen S.lane_faults place (S.disk store.old) (S.disk store.new) }
    ensures taken { IsTaken place readers.old readers.new }
{
    if let Some(Hand { lane, seat, part }) = place {
        readers.claims.join(&mut readers.seat, seat);
        place_in(&part, &mut readers.slots);
        store.absorb(lane);
        readers.parts.push_reserved(part);
    }
}

// Takes all hands back, the first one first.
pub(crate) fn take_all<S: Store>(
    store: &mut S,
    readers: &mut Readers<S::Lane>,
    round: &Round,
    asked: &SealedJobs,
)
    requires hands { AreHandsOut (S.disk store.old) S.lane_seen S.lane_faults round.now asked.now
        readers.old }
    ensures goes { GoesOn (S.disk store.old) (S.disk store.new) }
    ensures keeps { Keeps (S.disk store.old) (S.disk store.new) }
    ensures passes { Passes Same (S.disk store.old) (S.disk store.new) }
    ensures out { (S.disk store.new).out
        ≤ (S.disk store.old).out - length readers.old.hands.items }
    ensures back { AreGathered asked.now (length readers.old.hands.items) (S.disk store.old)
        (S.disk store.new) readers.old readers.new }
    ensures none { readers.new.hands.items ≡ [] }
    ensures unread { All (λ hand. hand.part.items ≡ []) (hands_in readers.old.hands.items)
        → Notes [] (S.disk store.old).seen (S.disk store.new).seen }
{
    while !readers.hands.is_empty() {
        let place = readers.hands.remove(0);
        take_back(store, place, readers);
    }
}

// Reads what no lane has claimed, once all seats are joined, straight into its places.
fn read_left<S: Store>(
    store: &S,
    lane: &mut S::Lane,
    readers: &mut Readers<S::Lane>,
    round: &Round,
    asked: &SealedJobs,
)
    requires own { IsClaimSeat readers.old.claims readers.old.seat }
    requires come { HasCome readers.old.seat round.now }
    requires start { round.now.start ≡ 0 }
    requires jobs { round.now.count ≡ length asked.now.jobs.now }
    requires slots { length asked.now.jobs.now ≤ jobs_of readers.old }
    ensures own { IsClaimSeat readers.new.claims readers.new.seat }
    ensures all { HasEveryPart readers.old.claims readers.old.seat
        → IsAllClaimed readers.new.seat round.now }
    ensures left { AreLeftRead (S.disk store.now) S.lane_seen S.lane_faults asked.now lane.old
        lane.new readers.old readers.new }
    ensures later { S.lane_faults lane.old ≤ S.lane_faults lane.new }
    ensures parts { readers.new.seat.me.0.parts ≡ readers.old.seat.me.0.parts }
    ensures rest { readers.new ≡ record readers.old {
      seat = readers.new.seat;
      slots = readers.new.slots;
    } }
{
    while let Some(place) = readers.claims.next(&mut readers.seat, round) {
        readers.slots[place] = read_slot(store, lane, asked, place);
    }
}

// Takes the last hand out.
fn pop_hand<L>(hands: &mut Vec<Option<Hand<L>>>) -> Hand<L>
    requires there { length (hands_in hands.old.items) ≡ length hands.old.items }
    requires some { 1 ≤ length hands.old.items }
    ensures popped { hands.old.items ≡ hands.new.items ++ Some result ∷ [] }
    ensures room { vec_capacity hands.new ≡ vec_capacity hands.old }
{
    let Some(place) = hands.pop() else {
        unreachable!();
    };
    match place {
        Some(hand) => hand,
        None => unreachable!(),
    }
}

// Takes all hands back, the first one first. What no lane has claimed is read by the last one's
// before that is taken back.
pub(crate) fn gather<S: Store>(
    store: &mut S,
    readers: &mut Readers<S::Lane>,
    round: &Round,
    asked: &SealedJobs,
)
    requires hands { AreHandsOut (S.disk store.old) S.lane_seen S.lane_faults round.now asked.now
        readers.old }
    requires some { 1 ≤ length readers.old.hands.items }
    requires every { readers.old.seat.me.0.parts + length readers.old.hands.items
        ≡ parts_made readers.old.claims }
    ensures goes { GoesOn (S.disk store.old) (S.disk store.new) }
    ensures keeps { Keeps (S.disk store.old) (S.disk store.new) }
    ensures passes { Passes Same (S.disk store.old) (S.disk store.new) }
    ensures out { (S.disk store.new).out
        ≤ (S.disk store.old).out - length readers.old.hands.items }
    ensures back { AreGathered asked.now (length readers.old.hands.items) (S.disk store.old)
        (S.disk store.new) readers.old readers.new }
    ensures none { readers.new.hands.items ≡ [] }
    ensures all { IsAllClaimed readers.new.seat round.now }
{
    let Hand {
        mut lane,
        seat,
        part,
    } = pop_hand(&mut readers.hands);
    take_all(store, readers, round, asked);
    readers.claims.join(&mut readers.seat, seat);
    place_in(&part, &mut readers.slots);
    read_left(store, &mut lane, readers, round, asked);
    store.absorb(lane);
    readers.parts.push_reserved(part);
}
