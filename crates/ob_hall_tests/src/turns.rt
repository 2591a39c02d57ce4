//! Turns, alone and by threads.

ghost use Rattle.std.specs.Prelude.{◌≡◌, ◌+◌, ◌-◌, ◌^◌, ◌++◌, [], ◌∷◌, ℕ, List, length, map, min, ◌<◌, slice_index_or};
ghost use Rattle.std.specs.List.{All};
ghost use Rattle.ob_hall_tests.specs.declared.turns.Added.{Added};
ghost use Rattle.ob_turn.specs.History.{entry};
ghost use Rattle.ob_turn.specs.TurnCalls.{IsTurnSeat, IsIdle, IsSame};

use crate::insist;
use ob_base::Memory;
use ob_turn::{Guard, Stepped, Turn, TurnSeat, close};
use std::alloc::Global;
use std::marker::Model;
use std::snapshot::Snapshot;
use std::sync::Wait;
use std::thread;
use std::thread::Threads;

/// A number that turns add to.
#[derive(Drop)]
pub struct Counter {
    value: u64,
}

impl Model for Counter {
    ghost use Rattle.std.specs.Prelude.{ℕ};

    ghost Value = { ℕ };

    ghost view = { λ c. c.value };
}

/// An addition, and the sum that it answered.
#[derive(Clone, Copy)]
pub struct Added {
    by: u64,
    now: u64,
}

impl Stepped<Added> for Counter {
    ghost use Rattle.std.specs.Prelude.{◌≡◌, ◌+◌, ◌-◌, ◌^◌, min};

    ghost steps = { λ _ x e y. (y ≡ min (x + e.by) (2 ^ 64 - 1)) × (e.now ≡ y) };
}

impl Counter {
    fn add(&mut self, by: u64) -> u64
        ensures { (self.new ≡ min (self.old + by) (2 ^ 64 - 1)) × (result ≡ self.new) }
    {
        self.value = self.value.saturating_add(by);
        self.value
    }
}

// A turn of any number of calls is one entry of the history: the calls noted, and the last.
fn add_all<R: Wait>(
    rt: &R,
    turn: &Turn<Counter, Added>,
    seat: &mut TurnSeat<Counter, Added>,
    amounts: &[u64],
    last: u64,
)
    requires own { IsTurnSeat turn.now seat.old }
    requires idle { IsIdle seat.old }
    ensures own { IsTurnSeat turn.now seat.new }
    ensures idle { IsIdle seat.new }
    ensures parts { seat.new.me.0.parts ≡ seat.old.me.0.parts }
    ensures one_entry { (calls : List Added) × (map (λ c. c.by) calls ≡ amounts.now ++ last ∷ [])
        × (seat.new.me.0.mine ≡ seat.old.me.0.mine ++ entry seat.old.me.0.by calls ∷ []) }
{
    let mut value = turn.take(rt, seat);
    for amount in amounts {
        let now = value.add(*amount);
        let made = Added { by: *amount, now };
        turn.note(seat, Snapshot::of(&made));
    }
    let now = value.add(last);
    let made = Added { by: last, now };
    turn.put(seat, value, Snapshot::of(&made));
}

// Two additions in one turn, by its guard.
fn add_two<R: Wait>(
    rt: &R,
    turn: &Turn<Counter, Added>,
    seat: &mut TurnSeat<Counter, Added>,
    first: u64,
    second: u64,
)
    requires own { IsTurnSeat turn.now seat.old }
    requires idle { IsIdle seat.old }
    ensures own { IsTurnSeat turn.now seat.new }
    ensures idle { IsIdle seat.new }
    ensures parts { seat.new.me.0.parts ≡ seat.old.me.0.parts }
{
    let mut guard = Guard::enter(rt, turn, seat);
    let now = guard.value.add(first);
    guard.note(Snapshot::of(&Added { by: first, now }));
    let now = guard.value.add(second);
    Guard::leave(guard, Snapshot::of(&Added { by: second, now }));
}

// One caller's turns: one of four additions, and so many of two.
fn work<R: Wait>(
    rt: &R,
    turn: &Turn<Counter, Added>,
    seat: &mut TurnSeat<Counter, Added>,
    times: u32,
)
    requires own { IsTurnSeat turn.now seat.old }
    requires idle { IsIdle seat.old }
    ensures own { IsTurnSeat turn.now seat.new }
    ensures idle { IsIdle seat.new }
    ensures parts { seat.new.me.0.parts ≡ seat.old.me.0.parts }
{
    add_all(rt, turn, seat, &[1, 2, 3], 4);
    for _ in 0..times {
        add_two(rt, turn, seat, 10, 20);
    }
}

// Each seat works in a thread of its own.
fn work_each<R: Threads + Wait + Sync>(
    rt: &R,
    turn: &Turn<Counter, Added>,
    seats: &mut [TurnSeat<Counter, Added>],
    times: u32,
)
    requires own { All (λ s. IsTurnSeat turn.now s) seats.old }
    requires idle { All (λ s. IsIdle s) seats.old }
    ensures length { length seats.new ≡ length seats.old }
    ensures own { All (λ s. IsTurnSeat turn.now s) seats.new }
    ensures idle { All (λ s. IsIdle s) seats.new }
    ensures parts { (k : ℕ) (d : _) → k < length seats.old
        → (slice_index_or seats.new k d).me.0.parts ≡ (slice_index_or seats.old k d).me.0.parts }
{
    thread::for_each_mut(
        rt,
        seats,
        64,
        &|_, seat: &mut TurnSeat<Counter, Added>|
            requires { IsTurnSeat turn.now seat.old × IsIdle seat.old }
            ensures { IsTurnSeat turn.entry.now seat.new × IsIdle seat.new
                × (seat.new.me.0.parts ≡ seat.old.me.0.parts) }
        { work(rt, turn, seat, times) },
    );
}

// The sum of one caller and so many others, each of which takes so many turns of two additions.
fn sum_of<R: Threads + Wait + Sync>(
    rt: &R,
    alloc: Global,
    others: u32,
    times: u32,
) -> Result<u64, Memory> {
    let callers = others.saturating_add(1);
    let (turn, mut seats) = Turn::new(alloc, Counter { value: 0 }, callers)?;
    work_each(rt, &turn, seats.as_mut_slice(), times);
    Ok(close(turn, seats).value)
}

const SUMS: &[(u32, u32, u64)] = &[(0, 1, 40), (4, 300, 45_050), (63, 1000, 1_920_640)];

#[test]
fn threads_that_add_in_turns_reach_the_sum(rt: HostRuntime) {
    for (i, (others, times, sum)) in SUMS.iter().enumerate() {
        let reached = sum_of(&rt, rt.alloc(), *others, *times)
            .ok()
            .expect(&rt, "memory");
        insist(&rt, reached == *sum, i);
    }
}
