//! What single runs show behind a format and behind one another: in which homes they read, by whose
//! words, and what a call that fails, or an opening that is refused, changes of it.

ghost use Rattle.std.specs.Prelude.{◌≡◌};
ghost use Rattle.ob_mem.specs.Memory.{disk_of_store};

use crate::asking::{EMPTY, RUNS, call, expect_said, formatted, insist, left_after};
use crate::freshness::is_fresh;
use crate::threes::{Run, behind_crash, calls_behind, first_run, whole_of};
use ob_mem::{Fail, MemStore};
use ob_top_calls::{END, ask_for, let_go};
use std::process::Abort;
use std::sync::Wait;
use std::thread::Threads;

// The reads of an opening from the first checkpoint, and up to a batch in generation 2.
const READS: &str = "\
    O/R 0/R 1/R 2/R 3/R 4/R 5/R 6/R 7/R 8/R 17/R 18/R 19/R 20/R 21/R 22/R 23/R 24/R 25/R 26/R 27/\
    R 13/R 14/R 15/R 16/";

const RECORDED: &str = "S/W 1/S/W 2/S/W 13/S/W 14/S/";

// What the second run shows up to its second record: buckets 0, 1 and 3 lie in their other home.
const SECOND: &str = "\
    O/R 0/R 1/R 2/R 3/R 4/R 5/R 6/R 7/R 8/R 28/R 29/R 30/R 31/R 32/R 33/R 34/R 35/R 36/R 37/R 38/\
    R 9/R 10/R 11/R 12/S/W 4/S/W 3/S/W 4/S/W 9/S/W 10/S/L 0/R 76/R 81/R 91/L 0/R 77/R 82/R 92/\
    W 11/S/";

// A trace begins with the lines of these texts, in a row.
fn expect_begins<R: Abort>(rt: &R, trace: &str, texts: &[&str]) {
    let (mut so, mut place): (bool, usize) = (true, 0);
    for text in texts {
        for byte in text.as_bytes() {
            let wanted = if *byte == b'/' { b'\n' } else { *byte };
            so = so && trace.as_bytes().get(place).copied() == Some(wanted);
            place = place.saturating_add(1);
        }
    }
    insist(rt, so, trace);
}

// Runs an epoch without a key, with a tape, which has this status: what it told and traced.
fn empty_run<R: AllocGlobal + Threads + Wait + Sync + Abort>(
    rt: &R,
    store: &mut MemStore,
    tape: &[u64],
    status: u8,
) -> (String, String)
    requires { (disk_of_store store.old).out ≡ 0 }
    ensures { (disk_of_store store.new).out ≡ 0 }
{
    let mut ask = ask_for(RUNS[2], EMPTY);
    ask.tape = tape;
    call(rt, store, ask, status)
}

// The run, of a first one and a format, behind a crash of the first one's epoch without a key that came
// behind so many of its writes and syncs.
fn second_at<R: AllocGlobal + Threads + Wait + Sync + Abort>(rt: &R, moment: usize) -> Run {
    let first = first_run(rt, EMPTY);
    let second = behind_crash(rt, &first, moment.saturating_mul(3), RUNS[2]);
    whole_of(rt, first);
    second
}

// What all of them traced, with lines of the last one in the place of others: it isn't fresh.
fn stale<R: AllocGlobal + Abort>(rt: &R, run: &Run, from: &str, to: &str) -> String {
    let mut text = String::from_str(rt.alloc(), run.text.as_str()).expect(rt, "memory");
    let trace = run.trace.as_str().replace(rt.alloc(), from, to);
    let trace = trace.expect(rt, "memory");
    text.push_str(trace.as_str()).expect(rt, "memory");
    insist(rt, !is_fresh(rt, text.as_str()), from);
    text
}

// A second run, and what is told of it where a slot of an old home stands in the place of one.
fn expect_homes<R: AllocGlobal + Threads + Wait + Sync + Abort>(rt: &R) {
    let second = second_at(rt, 56);
    expect_begins(rt, second.trace.as_str(), &[SECOND]);
    let old = stale(rt, &second, "R 91\n", "R 56\n");
    expect_said(rt, old.as_str(), "breaks line 217 wanted slot of bucket 3/");
    let whole = whole_of(rt, second);
    let so = whole.as_str().lines().count() == 177 + 115 && is_fresh(rt, whole.as_str());
    insist(rt, so, whole.as_str());
    expect_said(rt, whole.as_str(), "fits/");
}

#[test]
fn the_second_run_reads_where_the_first_one_filled(rt: HostRuntime) {
    expect_homes(&rt);
}

// Lines that aren't fresh in the place of such as are, in the trace of a run that found both records
// of the one before: another leaf, another slot, a slot twice, a checkpoint that no end has made
// sure, and a bucket that is filled where it lies.
static STALE: [(&str, &str); 5] = [
    ("L 0\nR 42\n", "L 1\nR 42\n"),
    ("R 47\n", "R 48\n"),
    ("R 39\nR 40\n", "R 39\nR 39\n"),
    ("R 17\n", "R 28\n"),
    ("W 89\n", "W 54\n"),
];

// The traces are fresh as they are, and with no line changed.
fn expect_all_stale<R: AllocGlobal + Threads + Wait + Sync + Abort>(rt: &R) {
    let second = second_at(rt, 13);
    for &(from, to) in &STALE {
        stale(rt, &second, from, to);
    }
    let whole = whole_of(rt, second);
    insist(rt, is_fresh(rt, whole.as_str()), "as they are");
}

#[test]
fn what_isnt_fresh_is_told(rt: HostRuntime) {
    expect_all_stale(&rt);
}

// By these words a new store's root has its first dummy, its index 2, in slot 0, and its second one
// in slot 2. All other buckets have theirs in slots 2 and 3.
fn expect_ranked<R: AllocGlobal + Threads + Wait + Sync + Abort>(rt: &R) {
    let (mut store, _) = formatted(rt, &[], &[9, 8, 1, 7, 6]);
    let (_, trace) = empty_run(rt, &mut store, &[], 0);
    let_go(store);
    let batch = "L 0/R 39/R 46/R 56/L 0/R 41/R 47/R 57/";
    expect_begins(rt, trace.as_str(), &[READS, RECORDED, batch]);
}

#[test]
fn a_new_stores_slots_are_ranked_by_the_formats_words(rt: HostRuntime) {
    expect_ranked(&rt);
}

// The leaves of the first batch's places are the run's first two words.
static LEAVES: [u64; 2] = [1, 2];

// What is found of a record whose gate has this byte throughout, by a run whose words are zeros, and
// what that one shows: a record and leaves of its own, or the record's leaves.
static FOUND: [(u8, &str); 2] = [
    (0, "W 13/S/W 14/S/L 0/R 41/R 46/R 56/L 0/R 42/R 47/R 57/"),
    (0xA5, "L 1/R 41/R 46/R 61/L 2/R 42/R 51/R 66/"),
];

// The sync behind the gate of the first batch's record fails, and each read behind the 66 writes up
// to that gate would.
fn refused_reads<R: AllocGlobal + Abort>(rt: &R) -> Vec<Fail> {
    let mut fails = Vec::new(rt.alloc());
    fails.push(Fail::Sync(14)).expect(rt, "memory");
    for cell in 0..109_u64 {
        let read = Fail::Read { cell, writes: 66 };
        fails.push(read).expect(rt, "memory");
    }
    fails
}

// Up to the sync that fails, in generation 2; and up to the first batch, in generation 3.
const REFUSED: &str = "S/W 1/S/W 2/S/W 13/S/W 14/";

const THIRD_BEGUN: &str = "S/W 4/S/W 3/S/W 4/S/";

// A run that the store refuses: its trace.
fn refused_run<R: AllocGlobal + Threads + Wait + Sync + Abort>(
    rt: &R,
    store: &mut MemStore,
    tape: &[u64],
) -> String
    requires { (disk_of_store store.old).out ≡ 0 }
    ensures { (disk_of_store store.new).out ≡ 0 }
{
    let (output, trace) = empty_run(rt, store, tape, 5);
    insist(rt, output.as_str() == "fault: store\n", output.as_str());
    trace
}

// A store behind such a run. It has failed once, and was written to and synced 81 times, 72 of them
// by the format.
fn refused<R: AllocGlobal + Threads + Wait + Sync + Abort>(rt: &R) -> MemStore {
    let (mut store, _) = formatted(rt, &refused_reads(rt), &[]);
    let trace = refused_run(rt, &mut store, &LEAVES);
    expect_begins(rt, trace.as_str(), &[READS, REFUSED]);
    let once = store.faults() == 1 && store.moments() == 81;
    insist(rt, trace.as_str().lines().count() == 33 && once, REFUSED);
    store
}

// Shows what the next run does where the record's gate has this byte throughout.
fn expect_found<R: AllocGlobal + Threads + Wait + Sync + Abort>(
    rt: &R,
    store: &MemStore,
    byte: u8,
    batch: &str,
) {
    let left = store.crash(81, &[(14, [byte; 128])]);
    let mut left = left.expect(rt, "memory");
    let (_, trace) = empty_run(rt, &mut left, &[], 0);
    let_go(left);
    expect_begins(rt, trace.as_str(), &[READS, THIRD_BEGUN, batch]);
}

fn expect_nothing_more<R: AllocGlobal + Threads + Wait + Sync + Abort>(rt: &R) {
    let store = refused(rt);
    for &(byte, batch) in &FOUND {
        expect_found(rt, &store, byte, batch);
    }
    let_go(store);
}

#[test]
fn where_a_records_last_sync_fails_nothing_more_is_done(rt: HostRuntime) {
    expect_nothing_more(&rt);
}

// A store whose run was refused, as one of these calls failed.
fn stopped<R: AllocGlobal + Threads + Wait + Sync + Abort>(rt: &R, fails: &[Fail]) -> MemStore
    ensures { (disk_of_store result).out ≡ 0 }
{
    let (mut store, _) = formatted(rt, fails, &[]);
    empty_run(rt, &mut store, &[], 5);
    store
}

// What the next run, which goes well, tells and traces.
fn told_next<R: AllocGlobal + Threads + Wait + Sync + Abort>(rt: &R, store: &mut MemStore) -> String
    requires { (disk_of_store store.old).out ≡ 0 }
    ensures { (disk_of_store store.new).out ≡ 0 }
{
    let (mut told, trace) = empty_run(rt, store, &[], 0);
    told.push_str(trace.as_str()).expect(rt, "memory");
    told
}

// The next run over two stores tells and traces the same.
fn expect_same<R: AllocGlobal + Threads + Wait + Sync + Abort>(
    rt: &R,
    mut one: MemStore,
    mut other: MemStore,
)
    requires one_in { (disk_of_store one).out ≡ 0 }
    requires other_in { (disk_of_store other).out ≡ 0 }
{
    let told = told_next(rt, &mut one);
    let again = told_next(rt, &mut other);
    let_go(one);
    let_go(other);
    insist(rt, told.as_str() == again.as_str(), "the next run");
}

// A store whose run was stopped by a failing call, behind so many syncs that were asked for, and whose
// next opening was refused by its first sync: it has read.
fn reopened<R: AllocGlobal + Threads + Wait + Sync + Abort>(
    rt: &R,
    fail: Fail,
    syncs: u64,
) -> MemStore
    ensures { (disk_of_store result).out ≡ 0 }
{
    let mut store = stopped(rt, &[fail, Fail::Sync(syncs)]);
    let trace = refused_run(rt, &mut store, &[]);
    let so = trace.as_str().lines().count() == 25 && store.faults() == 2;
    insist(rt, so, trace.as_str());
    store
}

// The run behind such an opening, behind a crash or at once, finds and shows what it does without it.
fn expect_unchanged<R: AllocGlobal + Threads + Wait + Sync + Abort>(
    rt: &R,
    fail: Fail,
    syncs: u64,
) {
    let without = stopped(rt, &[fail]);
    let with = reopened(rt, fail, syncs);
    for filling in 0..3 {
        let left = left_after(rt, &without, END, filling);
        expect_same(rt, left, left_after(rt, &with, END, filling));
    }
    expect_same(rt, without, with);
}

// Behind each write and sync of a run that fails.
fn expect_all_unchanged<R: AllocGlobal + Threads + Wait + Sync + Abort>(rt: &R) {
    let mut syncs: u64 = 10;
    let calls = calls_behind(rt, EMPTY);
    for fail in &calls {
        if let Fail::Read { .. } = *fail {
            continue;
        }
        if let Fail::Sync(sync) = *fail {
            syncs = sync.saturating_add(1);
        }
        expect_unchanged(rt, *fail, syncs);
    }
}

#[test]
fn an_opening_refused_by_its_first_sync_changes_nothing(rt: HostRuntime) {
    expect_all_unchanged(&rt);
}
