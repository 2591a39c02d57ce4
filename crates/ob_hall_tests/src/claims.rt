//! Claims: rounds of one seat, and rounds of many threads.

ghost use Rattle.std.specs.Prelude.{◌≡◌, ◌≤◌, ◌<◌, ◌+◌, [], All, length, vec_capacity};
ghost use Rattle.ob_claims.specs.ClaimCalls.{IsClaimSeat, HasCome, HasEveryPart};
ghost use Rattle.ob_hall_tests.specs.Claiming.{IsThreads};

use crate::insist;
use crate::shared::{needs_send, needs_sync};
use ob_claims::{ClaimSeat, Claims, Round};
use std::alloc::Global;
use std::process::Abort;
use std::sync::atomic::AtomicU64;
use std::sync::atomic::Ordering::SeqCst;
use std::thread;
use std::thread::Threads;

const THREADS: usize = 16;

// The most numbers of a round.
const MOST: u64 = 50;

// Whether five claims in a round of so many numbers give its places in order, and then none, to the
// seat that has all parts.
fn claims_in_order(claims: &Claims, seat: &mut ClaimSeat, count: u64) -> bool
    requires own { IsClaimSeat claims.now seat.old }
    requires all { HasEveryPart claims.now seat.old }
    ensures own { IsClaimSeat claims.now seat.new }
    ensures all { HasEveryPart claims.now seat.new }
{
    let Ok(round) = claims.open(seat, count) else {
        return false;
    };
    let mut well = true;
    for place in 0..5 {
        let wanted = if (place as u64) < count {
            Some(place)
        } else {
            None
        };
        well &= claims.next(seat, &round) == wanted;
    }
    well
}

// Whether the seat that has all parts claims each number of three rounds once, and the counter
// stands behind the first two of them by their numbers, and at 0 once it is cleared.
fn claims_alone(claims: &Claims, seat: &mut ClaimSeat) -> bool
    requires own { IsClaimSeat claims.now seat.old }
    requires all { HasEveryPart claims.now seat.old }
    ensures own { IsClaimSeat claims.now seat.new }
    ensures all { HasEveryPart claims.now seat.new }
{
    let three = claims_in_order(claims, seat, 3);
    let two = claims_in_order(claims, seat, 2);
    let settled = claims.settle(seat);
    let none = claims_in_order(claims, seat, 0);
    claims.clear(seat);
    let cleared = claims.settle(seat);
    three && two && none && settled == 5 && cleared == 0
}

// Claims what is left of a round: counts the places, and adds up their bits.
fn claim_all(
    claims: &Claims,
    seat: &mut ClaimSeat,
    round: &Round,
    many: &AtomicU64,
    bits: &AtomicU64,
)
    requires own { IsClaimSeat claims.now seat.old }
    requires opened { HasCome seat.old round.now }
    ensures own { IsClaimSeat claims.now seat.new }
    ensures parts { seat.new.me.0.parts ≡ seat.old.me.0.parts }
{
    while let Some(place) = claims.next(seat, round) {
        let bit: u64 = 1 << (place as u64 % 64);
        many.fetch_add(1, SeqCst);
        bits.fetch_add(bit, SeqCst);
    }
}

// Each of the seats claims in a thread of its own.
fn claim_by_threads<R: Threads + Sync>(
    rt: &R,
    claims: &Claims,
    seats: &mut [ClaimSeat],
    round: &Round,
    many: &AtomicU64,
    bits: &AtomicU64,
)
    requires threads { All (λ s. IsThreads claims.now s) seats.old }
    requires opened { All (λ s. HasCome s round.now) seats.old }
    ensures many { length seats.new ≡ length seats.old }
    ensures threads { All (λ s. IsThreads claims.now s) seats.new }
{
    thread::for_each_mut(
        rt,
        seats,
        THREADS,
        &|_, seat: &mut ClaimSeat|
            requires { IsThreads claims.now seat.old × HasCome seat.old round.now }
            ensures { IsThreads claims.entry.now seat.new }
        { claim_all(claims, seat, round, many, bits) },
    );
}

// Takes a part off for each thread.
fn split_all(claims: &Claims, seat: &mut ClaimSeat, seats: &mut Vec<ClaimSeat>)
    requires own { IsClaimSeat claims.now seat.old }
    requires parts { seat.old.me.0.parts ≡ 17 }
    requires none { seats.old.items ≡ [] }
    requires room { 16 ≤ vec_capacity seats.old }
    ensures own { IsClaimSeat claims.now seat.new }
    ensures parts { seat.new.me.0.parts ≡ 1 }
    ensures threads { All (λ s. IsThreads claims.now s) seats.new.items }
    ensures reached { All (λ s. s.me.0.reached ≡ seat.old.me.0.reached) seats.new.items }
    ensures many { length seats.new.items ≡ 16 }
    ensures capacity { vec_capacity seats.new ≡ vec_capacity seats.old }
{
    for _ in 0..THREADS {
        seats.push_reserved(claims.split(seat));
    }
}

// Takes the threads' seats in.
fn join_all(claims: &Claims, seat: &mut ClaimSeat, seats: &mut Vec<ClaimSeat>)
    requires own { IsClaimSeat claims.now seat.old }
    requires parts { seat.old.me.0.parts ≡ 1 }
    requires threads { All (λ s. IsThreads claims.now s) seats.old.items }
    requires many { length seats.old.items ≡ 16 }
    ensures own { IsClaimSeat claims.now seat.new }
    ensures parts { seat.new.me.0.parts ≡ 17 }
    ensures none { seats.new.items ≡ [] }
    ensures capacity { vec_capacity seats.new ≡ vec_capacity seats.old }
{
    while let Some(other) = seats.pop() {
        claims.join(seat, other);
    }
}

// Whether so many claims were counted, and the sum of their bits is that of the places below so
// many: then each of these was claimed once, since no fewer bits have that sum, and no others. Both
// are set to 0.
fn is_each_once(many: &AtomicU64, bits: &AtomicU64, count: u64) -> bool {
    let claimed = many.swap(0, SeqCst);
    let sum = bits.swap(0, SeqCst);
    if count >= 64 {
        return false;
    }
    let behind: u64 = 1 << count;
    claimed == count && sum.saturating_add(1) == behind
}

// A round of so many numbers, claimed by all threads: whether each of its places was claimed once,
// and the counter stands behind it by what the threads may claim past its end.
fn is_round_claimed<R: Threads + Sync>(
    rt: &R,
    claims: &Claims,
    seat: &mut ClaimSeat,
    seats: &mut Vec<ClaimSeat>,
    many: &AtomicU64,
    bits: &AtomicU64,
    count: u64,
) -> bool
    requires own { IsClaimSeat claims.now seat.old }
    requires all { HasEveryPart claims.now seat.old }
    requires parts { seat.old.me.0.parts ≡ 17 }
    requires none { seats.old.items ≡ [] }
    requires room { 16 ≤ vec_capacity seats.old }
    ensures own { IsClaimSeat claims.now seat.new }
    ensures all { HasEveryPart claims.now seat.new }
    ensures parts { seat.new.me.0.parts ≡ 17 }
    ensures none { seats.new.items ≡ [] }
    ensures room { vec_capacity seats.new ≡ vec_capacity seats.old }
{
    let before = claims.settle(seat);
    let Ok(round) = claims.open(seat, count) else {
        return false;
    };
    split_all(claims, seat, seats);
    claim_by_threads(rt, claims, seats.as_mut_slice(), &round, many, bits);
    join_all(claims, seat, seats);
    let more = claims.settle(seat).saturating_sub(before);
    let last = count.saturating_add(THREADS as u64);
    more >= count && more <= last && is_each_once(many, bits, count)
}

// Whether each of so many rounds is claimed; the counter is cleared before each of a hundred.
fn are_rounds_claimed<R: Threads + Sync>(
    rt: &R,
    claims: &Claims,
    seat: &mut ClaimSeat,
    seats: &mut Vec<ClaimSeat>,
    rounds: u64,
) -> bool
    requires own { IsClaimSeat claims.now seat.old }
    requires all { HasEveryPart claims.now seat.old }
    requires parts { seat.old.me.0.parts ≡ 17 }
    requires none { seats.old.items ≡ [] }
    requires room { 16 ≤ vec_capacity seats.old }
    ensures none { seats.new.items ≡ [] }
{
    let (many, bits) = (AtomicU64::new(0), AtomicU64::new(0));
    let mut well = true;
    for round in 0..rounds {
        if round % 100 == 0 {
            claims.clear(seat);
        }
        well &= is_round_claimed(rt, claims, seat, seats, &many, &bits, round % MOST + 1);
    }
    well
}

// The same of new claims: alone, and by all threads.
fn claims_well<R: Threads + Sync + Abort>(rt: &R, alloc: Global) -> bool {
    let Ok((claims, mut seat)) = Claims::new(alloc, THREADS as u64 + 1) else {
        panic!(rt; "no memory")
    };
    let Ok(mut seats) = Vec::with_capacity(alloc, THREADS) else {
        panic!(rt; "no memory")
    };
    let alone = claims_alone(&claims, &mut seat);
    let well = are_rounds_claimed(rt, &claims, &mut seat, &mut seats, 1_000);
    seats.destroy_empty();
    alone && well
}

#[test]
fn a_seat_and_threads_claim_each_number_of_each_round_once(rt: HostRuntime) {
    insist(&rt, claims_well(&rt, rt.alloc()), 0);
}

fn claims_are_shared(claims: &Claims, round: &Round, seat: &ClaimSeat) {
    needs_sync(claims);
    needs_sync(round);
    needs_send(seat);
}
