//! Runs that are cut off twice: a failing call or a crash, the next run cut off too, and a third.

ghost use Rattle.std.specs.Prelude.{◌≡◌};
ghost use Rattle.ob_mem.specs.Memory.{disk_of_store};

use crate::playing::{ONE_EPOCH, PUT, RUN, STEPS, expect, formatted, insist, left_after};
use ob_mem::{Fail, MemStore};
use ob_top_calls::{END, let_go};
use std::process::Abort;
use std::sync::Wait;
use std::thread::Threads;

/// A run of two epochs, the first of this number, of which the second one reads what was put.
pub fn expect_next<R: AllocGlobal + Threads + Wait + Sync + Abort>(
    rt: &R,
    store: &mut MemStore,
    epoch: u64,
    found: bool,
)
    requires { (disk_of_store store.old).out ≡ 0 }
    ensures { (disk_of_store store.new).out ≡ 0 }
{
    let got = if found { "= hi" } else { "absent" };
    let next = epoch.saturating_add(1);
    let told = format!(in rt.alloc();
        "epoch {epoch}/txn 1 client 1 committed/epoch {next}/txn 1 client 1 committed/get 5 {got}/"
    );
    let told = told.expect(rt, "memory");
    let script = "client 1/begin/commit/begin/get 5/commit/";
    expect(rt, store, RUN, script, 0, told.as_str());
}

/// What the cells have that aren't sure, by its number: what they got last, or a byte throughout.
pub fn filling_of(n: usize) -> Option<u8> {
    match n {
        0 => None,
        1 => Some(0),
        _ => Some(0xA5),
    }
}

// The filling of zeros.
const ZEROS: usize = 1;

// Whether an epoch has ended that makes so many writes and syncs, the last two of which are its
// gate and the sync behind it, where a crash comes behind so many.
fn has_ended(steps: usize, moment: usize, filling: usize) -> bool {
    moment >= steps || (moment.saturating_add(1) == steps && filling != ZEROS)
}

/// A store behind the next run: how many writes and syncs it had before that, how many that run
/// made up to its first epoch's end and in all, that epoch's number, and whether the key was found.
/// And whether it was in doubt before that run that the epoch before had ended.
#[derive(Drop)]
pub struct Next {
    store: MemStore,
    before: usize,
    first: usize,
    all: usize,
    epoch: u64,
    found: bool,
    in_doubt: bool,
}

// Lets it go.
fn let_next_go(next: Next) {
    let Next { store, .. } = next;
    let_go(store);
}

// How many writes and syncs an epoch of this number makes behind what a store has.
fn steps_of<R: AllocGlobal + Threads + Wait + Sync + Abort>(
    rt: &R,
    store: &MemStore,
    epoch: u64,
) -> usize {
    let told = format!(in rt.alloc(); "epoch {epoch}/txn 1 client 1 committed/");
    let told = told.expect(rt, "memory");
    let mut copy = left_after(rt, store, END, None);
    expect(
        rt,
        &mut copy,
        RUN,
        "client 1/begin/commit",
        0,
        told.as_str(),
    );
    let steps = copy.moments();
    let_go(copy);
    steps
}

// The next run, whose first epoch has this number.
fn next_of<R: AllocGlobal + Threads + Wait + Sync + Abort>(
    rt: &R,
    mut store: MemStore,
    epoch: u64,
    found: bool,
    in_doubt: bool,
) -> Next
    requires { (disk_of_store store).out ≡ 0 }
{
    let (before, first) = (store.moments(), steps_of(rt, &store, epoch));
    expect_next(rt, &mut store, epoch, found);
    let all = store.moments().saturating_sub(before);
    Next {
        store,
        before,
        first,
        all,
        epoch,
        found,
        in_doubt,
    }
}

// The third run, where a crash comes behind so many writes and syncs of the next one: each epoch
// that had ended has, and the key has the value that it had.
fn expect_third<R: AllocGlobal + Threads + Wait + Sync + Abort>(
    rt: &R,
    next: &Next,
    moment: usize,
    filling: usize,
) {
    let behind = next.before.saturating_add(moment);
    let mut left = left_after(rt, &next.store, behind, filling_of(filling));
    let (epoch, found) = if next.in_doubt && moment == 0 && filling == ZEROS {
        (1, false)
    } else {
        let ended = has_ended(next.first, moment, filling) as u64;
        let both = has_ended(next.all, moment, filling) as u64;
        let epoch = next.epoch.saturating_add(ended).saturating_add(both);
        (epoch, next.found)
    };
    expect_next(rt, &mut left, epoch, found);
    let_go(left);
}

// The writes of a run, the last of which is that of the register's gate, and its syncs.
const WRITES: u64 = 46;

const SYNCS: u64 = 10;

/// How many calls of a run may fail, and how many images a crash of it may leave.
pub const CALLS: u64 = WRITES + SYNCS;

pub const IMAGES: usize = 3 * (STEPS + 1);

/// A run of which this call fails, and the next one.
pub fn behind_call<R: AllocGlobal + Threads + Wait + Sync + Abort>(rt: &R, call: u64) -> Next {
    let (fail, unsure) = if call < WRITES {
        (Fail::Write(call.saturating_add(62)), call == WRITES - 1)
    } else {
        let sync = call.saturating_sub(WRITES);
        (Fail::Sync(sync.saturating_add(10)), sync == SYNCS - 1)
    };
    let told = if unsure {
        "fault: store, epoch 1 unsure/"
    } else {
        "fault: store/"
    };
    let mut store = formatted(rt, &[fail]);
    expect(rt, &mut store, RUN, PUT, 5, told);
    next_of(rt, store, 1 + unsure as u64, unsure, unsure)
}

/// A run of a store that was just formatted.
pub fn ran<R: AllocGlobal + Threads + Wait + Sync + Abort>(rt: &R) -> MemStore {
    let mut ran = formatted(rt, &[]);
    expect(rt, &mut ran, RUN, PUT, 0, ONE_EPOCH);
    ran
}

/// The next run behind a crash of it, which comes behind the format's 72 writes and syncs: at each
/// moment there are three images.
pub fn behind_crash<R: AllocGlobal + Threads + Wait + Sync + Abort>(
    rt: &R,
    ran: &MemStore,
    image: usize,
) -> Next {
    let (moment, filling) = (image / 3, image % 3);
    let ended = has_ended(STEPS, moment, filling);
    let left = left_after(rt, ran, moment.saturating_add(72), filling_of(filling));
    next_of(rt, left, 1 + ended as u64, ended, false)
}

/// Tries the crashes of a next run, at each moment with each filling: those before all of it, and
/// of the others each time the one behind so many. Counts all, from this number on.
pub fn expect_thirds<R: AllocGlobal + Threads + Wait + Sync + Abort>(
    rt: &R,
    next: &Next,
    every: u64,
    from: u64,
) -> u64 {
    let mut cases = from;
    for moment in 0..next.all.saturating_add(1) {
        for filling in 0..3 {
            if moment == 0 || cases.checked_rem(every).unwrap_or(0) == 0 {
                expect_third(rt, next, moment, filling);
            }
            cases = cases.wrapping_add(1);
        }
    }
    cases
}

// How many cases there are behind each failing write and sync.
fn count_cases<R: AllocGlobal + Threads + Wait + Sync + Abort>(rt: &R) -> u64 {
    let mut cases: u64 = 0;
    for call in 0..CALLS {
        let next = behind_call(rt, call);
        cases = expect_thirds(rt, &next, 11, cases);
        let_next_go(next);
    }
    cases
}

// Behind each failing write and sync what a crash leaves at once, and every eleventh crash of the
// next run.
#[test]
fn each_failing_call_is_told_and_no_epoch_lost(rt: HostRuntime) {
    insist(&rt, count_cases(&rt) > 18_000, "cases");
}

// The next number of a row, below this one.
fn drawn(row: &mut u64, below: usize) -> usize {
    *row = row
        .wrapping_mul(6_364_136_223_846_793_005)
        .wrapping_add(1_442_695_040_888_963_407);
    (*row >> 33).checked_rem(below as u64).unwrap_or(0) as usize
}

// The next run behind each image of a run, and behind each two crashes of the next one, which are
// drawn.
fn expect_images<R: AllocGlobal + Threads + Wait + Sync + Abort>(rt: &R) {
    let ran = ran(rt);
    let mut row = 59;
    for image in 0..IMAGES {
        let next = behind_crash(rt, &ran, image);
        for _crash in 0..2 {
            let moment = drawn(&mut row, next.all.saturating_add(1));
            expect_third(rt, &next, moment, drawn(&mut row, 3));
        }
        let_next_go(next);
    }
    let_go(ran);
}

#[test]
fn a_crash_at_each_moment_leaves_one_of_two_epochs(rt: HostRuntime) {
    expect_images(&rt);
}
