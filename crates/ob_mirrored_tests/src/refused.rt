//! Runs over a mirror of which a call fails, in either half or in both.

ghost use Rattle.std.specs.Prelude.{◌≡◌};
ghost use Rattle.ob_mem.specs.Memory.{disk_of_store};

use crate::playing::{
    Call, Halves, NONE, PUT, asked, blank, expect, expect_alone, expect_next, insist, let_both_go,
    ran, run_over,
};
use ob_mem::{Fail, MemSink};
use ob_top_calls::{CELLS, Noting};
use std::process::Abort;
use std::sync::Wait;
use std::thread::Threads;

// How many writes and syncs the run of an epoch makes.
const WRITES: u64 = 46;

const SYNCS: u64 = 10;

// What is found behind a run of an epoch that a call refuses, or nearly does.
#[derive(Clone, Copy)]
enum Found {
    // The first half goes on alone, behind so many epochs.
    First(u64),
    // The second one does.
    Second(u64),
    // The second one was asked for the read of this cell and no other, and goes on behind an epoch.
    Served(u64),
    // The second one was asked for so much.
    Copied(u64),
    // It isn't looked at.
    Any,
}

// What such a run answers.
fn told_of(found: Found) -> (u8, &'static str) {
    match found {
        Found::Served(_) => (PUT.status, PUT.told),
        Found::First(1) | Found::Second(1) => (5, "fault: store, epoch 1 unsure/"),
        _ => (5, "fault: store/"),
    }
}

// Whether a store was asked for the read of this cell and no other.
fn reads_one(text: &str, cell: u64) -> bool {
    let mut reads = 0u64;
    for line in text.lines() {
        if let Some(number) = line.strip_prefix("R ") {
            if number.parse::<u64>().unwrap_or(u64::MAX) != cell {
                return false;
            }
            reads = reads.saturating_add(1);
        }
    }
    reads == 1
}

// Looks at what is found.
fn look<R: AllocGlobal + Threads + Wait + Sync + Abort>(rt: &R, halves: &mut Halves, found: Found)
    requires first { (disk_of_store halves.old.first.store).out ≡ 0 }
    requires second { (disk_of_store halves.old.second.store).out ≡ 0 }
{
    match found {
        Found::First(ended) => expect_next(rt, &mut halves.first, ended),
        Found::Second(ended) => expect_next(rt, &mut halves.second, ended),
        Found::Served(cell) => {
            insist(rt, reads_one(asked(rt, &halves.second), cell), "one read");
            expect_next(rt, &mut halves.second, 1);
        }
        Found::Copied(lines) => {
            let copied = asked(rt, &halves.second).lines().count();
            insist(rt, copied as u64 == lines, "the cells before it");
        }
        Found::Any => {}
    }
}

// A run of an epoch by these words over two halves, of which these calls fail.
fn play<R: AllocGlobal + Threads + Wait + Sync + Abort>(
    rt: &R,
    words: &'static str,
    first_fails: Fail,
    second_fails: Fail,
    found: Found,
) {
    let (status, told) = told_of(found);
    let call = Call {
        words,
        script: PUT.script,
        status,
        told,
    };
    let mut halves = ran(rt, first_fails, second_fails, &call);
    look(rt, &mut halves, found);
    let_both_go(halves);
}

// The second's call fails, the last one or another: then the first stands, with the epoch where that
// was the last one.
fn second_fails<R: AllocGlobal + Threads + Wait + Sync + Abort>(rt: &R, fail: Fail, last: bool) {
    play(rt, PUT.words, NONE, fail, Found::First(last as u64));
}

// The first's call fails: then the second stands.
fn first_fails<R: AllocGlobal + Threads + Wait + Sync + Abort>(rt: &R, fail: Fail, last: bool) {
    play(rt, PUT.words, fail, NONE, Found::Second(last as u64));
}

// Each write and each sync of the second, the copy's first, and each of the first behind its format.
fn each_fails<R: AllocGlobal + Threads + Wait + Sync + Abort>(rt: &R) {
    let copied = CELLS as u64;
    for n in 0..copied + WRITES {
        second_fails(rt, Fail::Write(n), n + 1 == copied + WRITES);
    }
    for n in 0..WRITES {
        first_fails(rt, Fail::Write(62 + n), n + 1 == WRITES);
    }
    for n in 0..SYNCS + 1 {
        second_fails(rt, Fail::Sync(n), n == SYNCS);
    }
    for n in 0..SYNCS {
        first_fails(rt, Fail::Sync(10 + n), n + 1 == SYNCS);
    }
}

#[test]
fn each_write_and_sync_that_fails_is_told(rt: HostRuntime) {
    each_fails(&rt);
}

// The cells that the first half reads behind its opening, in this order: six of the first batch; nine
// of the second one, and four of the lifts.
static READS: [u64; 19] = [
    41, 46, 56, 42, 47, 57, 43, 39, 40, 48, 44, 45, 58, 54, 55, 49, 50, 64, 65,
];

// One of these reads fails of the first half: the second serves it, and has no other read, by one lane
// and by four. Behind the join's writes the second refuses it too.
fn each_read_fails<R: AllocGlobal + Threads + Wait + Sync + Abort>(rt: &R) {
    for place in 0..READS.len() {
        let cell = READS[place];
        // the format's 62 writes are among them
        let writes: u64 = if place < 6 { 66 } else { 68 };
        let first = Fail::Read { cell, writes };
        let served = Found::Served(cell);
        play(rt, "run S K --lanes 1 --mirror F", first, NONE, served);
        play(rt, "run S K --lanes 4 --mirror F", first, NONE, served);
        let writes = writes.saturating_add(47);
        play(
            rt,
            PUT.words,
            first,
            Fail::Read { cell, writes },
            Found::Any,
        );
    }
}

#[test]
fn a_read_that_the_first_refuses_is_served_by_the_second(rt: HostRuntime) {
    each_read_fails(&rt);
}

// A read of the copy fails, or of the register before it.
fn each_copy_fails<R: AllocGlobal + Threads + Wait + Sync + Abort>(rt: &R) {
    for cell in 0..CELLS as u64 {
        // the register's cells are read before the first one is copied
        let copied = if cell >= 5 && cell <= 8 { 0 } else { cell };
        let fail = Fail::Read { cell, writes: 62 };
        play(rt, PUT.words, fail, NONE, Found::Copied(copied));
    }
}

#[test]
fn a_read_that_fails_before_both_are_joined_is_told(rt: HostRuntime) {
    each_copy_fails(&rt);
}

// What is told of a first half that is no store, of a second one that is too small or missing, and of
// a script that is none.
const NO_STORE: Call = Call {
    status: 3,
    told: "fault: not a store/",
    ..PUT
};

const NO_SECOND: Call = Call {
    status: 5,
    told: "fault: store/",
    ..PUT
};

const NO_SCRIPT: Call = Call {
    script: "begin",
    status: 2,
    told: "fault: script line 1/",
    ..PUT
};

// A first half that is no store is told, behind its head's read and before the second is asked.
fn expect_no_store<R: AllocGlobal + Threads + Wait + Sync + Abort>(rt: &R) {
    let mut none: Option<MemSink> = None;
    let empty = blank(rt, CELLS, NONE);
    let second = blank(rt, CELLS, NONE);
    let halves = run_over(rt, empty, second, &NO_STORE, &mut none);
    insist(rt, asked(rt, &halves.first) == "R 0\n", "its head");
    insist(rt, asked(rt, &halves.second) == "", "nothing");
    let_both_go(halves);
}

// A second half of a cell less is told, and none, and leaves the first one.
fn expect_too_small<R: AllocGlobal + Threads + Wait + Sync + Abort>(rt: &R, first: &mut Noting)
    requires { (disk_of_store first.old.store).out ≡ 0 }
{
    let mut none: Option<MemSink> = None;
    let mut small: Option<Noting> = Some(blank(rt, CELLS - 1, NONE));
    expect(rt, first, &mut small, &NO_SECOND, &mut none);
    expect_alone(rt, first, &NO_SECOND);
    expect_next(rt, first, 0);
}

// A script that is none leaves both.
fn expect_refused<R: AllocGlobal + Threads + Wait + Sync + Abort>(rt: &R) {
    let mut halves = ran(rt, NONE, NONE, &NO_SCRIPT);
    expect_next(rt, &mut halves.second, 0);
    expect_too_small(rt, &mut halves.first);
    let_both_go(halves);
}

#[test]
fn what_refuses_a_run_leaves_the_halves(rt: HostRuntime) {
    expect_no_store(&rt);
    expect_refused(&rt);
}
