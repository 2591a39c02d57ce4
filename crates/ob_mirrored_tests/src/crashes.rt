//! Crashes of both halves: each stands alone, with each epoch that was reported.

use crate::playing::{Call, Halves, NONE, TWO_ALONE, expect_next, insist, let_both_go, ran};
use ob_top_calls::{Noting, let_noting_go, noted_after};
use std::process::Abort;
use std::sync::Wait;
use std::thread::Threads;

// A run of two epochs.
const TWO: Call = Call {
    words: "run S K --mirror F",
    ..TWO_ALONE
};

// How many writes and syncs stand before the run in the first half, and in the second with the
// join's.
const FIRST_BEGAN: usize = 72;

const SECOND_BEGAN: usize = 110;

// How many of them the first epoch makes with the opening.
const ONE: usize = 56;

// Whether an epoch has ended that makes so many writes and syncs, the last two of which are its gate
// and the sync behind it, where a crash comes behind so many.
fn has_ended(steps: usize, moment: usize, filling: Option<u8>) -> bool {
    moment >= steps || (moment.saturating_add(1) == steps && filling != Some(0))
}

// A half alone behind crashes at a moment of the run, which makes so many writes and syncs.
fn stands_alone<R: AllocGlobal + Threads + Wait + Sync + Abort>(
    rt: &R,
    half: &Noting,
    began: usize,
    moment: usize,
    all: usize,
) {
    for &filling in &[None, Some(0), Some(0xA5)] {
        let behind = began.saturating_add(moment);
        let left = noted_after(rt.alloc(), half, behind, filling);
        let mut left = left.expect(rt, "memory");
        let one = has_ended(ONE, moment, filling) as u64;
        let two = has_ended(all, moment, filling) as u64;
        expect_next(rt, &mut left, one.saturating_add(two));
        let_noting_go(left);
    }
}

// Both halves of such a run, behind each moment of it.
fn expect_each<R: AllocGlobal + Threads + Wait + Sync + Abort>(rt: &R) {
    let halves = ran(rt, NONE, NONE, &TWO);
    let all = halves.first.store.moments().saturating_sub(FIRST_BEGAN);
    let second = halves.second.store.moments();
    insist(rt, second == all.saturating_add(SECOND_BEGAN), "as many");
    for moment in 0..all.saturating_add(1) {
        stands_alone(rt, &halves.first, FIRST_BEGAN, moment, all);
        stands_alone(rt, &halves.second, SECOND_BEGAN, moment, all);
    }
    let_both_go(halves);
}

#[test]
fn each_half_alone_finds_what_was_reported(rt: HostRuntime) {
    expect_each(&rt);
}
