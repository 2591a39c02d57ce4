//! Each half of a mirror alone, behind a crash.

use crate::calls::mirror_plays;
use crate::spy::{Spy, let_go};
use crate::steps::{NONE, holds, insist, insist_at, new_spy};
use ob_mem::MemStore;
use ob_mirror::join;
use ob_store::Blind;
use std::alloc::Global;
use std::process::Abort;

// What a crash leaves of four cells before two writes with a sync behind each, and behind each of
// these calls, where it fills what isn't sure with a `U`.
static LEFT: [&str; 5] = ["1234", "1U34", "1934", "193U", "1937"];

// How many writes and syncs stand before them in the first half, and in the second with the join's.
const FIRST_BEGAN: usize = 5;

const SECOND_BEGAN: usize = 10;

// Whether a store is so filled. It lets the store go.
fn held(mut store: MemStore, bytes: &str) -> bool {
    holds(&mut store, bytes)
}

// A half alone, behind a crash at each moment.
fn stands_alone(rt: &impl Abort, half: &Spy, began: usize) {
    let filling = [b'U'; 128];
    let fillings = [(0, filling), (1, filling), (2, filling), (3, filling)];
    for i in 0..LEFT.len() {
        let left = half.store.crash(began.saturating_add(i), &fillings);
        insist_at(rt, held(left.expect(rt, "memory"), LEFT[i]), i);
    }
}

// Both halves of a mirror stand alone.
fn stand_alone(rt: &impl Abort, alloc: Global) {
    let mut first = new_spy(rt, alloc, b"1234", NONE);
    let mut second = new_spy(rt, alloc, b"0909", NONE);
    let joined = join(&mut first, &mut second, 4, &mut Blind).is_ok();
    mirror_plays(rt, &mut first, &mut second, "W19 S W37 S");
    stands_alone(rt, &first, FIRST_BEGAN);
    stands_alone(rt, &second, SECOND_BEGAN);
    let_go(first);
    let_go(second);
    insist(rt, joined, "a join");
}

#[test]
fn each_half_stands_alone_at_each_moment(rt: HostRuntime) {
    stand_alone(&rt, rt.alloc());
}
