//! How runs end: what is told, and that no thread is left behind.

use crate::insist;
use crate::runs::{NEVER, Run, run_plain};
use ob_base::Fault;
use ob_conduct::RunErr;
use ob_mem::Fail;
use std::alloc::Global;
use std::process::Abort;
use std::sync::Wait;
use std::thread::Threads;
use std::time::Duration;
use std::{fs, thread};

// ---- threads

// The number in the line of threads, where the text has one.
fn count_in(text: &str) -> Option<u64> {
    match text.split_once("Threads:") {
        Some((_, rest)) => match rest.split_once('\n') {
            Some((count, _)) => count.trim().parse::<u64>().ok(),
            None => None,
        },
        None => None,
    }
}

// How many threads this process has.
fn thread_count(rt: &HostRuntime) -> Option<u64> {
    match fs::read_to_string(rt, "/proc/self/status") {
        Ok(text) => count_in(text.as_str()),
        Err(_) => None,
    }
}

// Waits, a second at most, until it has so many.
fn has_again(rt: &HostRuntime, count: u64) -> bool {
    for _ in 0..100 {
        if thread_count(rt) == Some(count) {
            return true;
        }
        thread::sleep(rt, Duration::from_millis(10));
    }
    false
}

// ---- faults

// The store failed; or it did where the end of this epoch is in doubt; or the output did.
const FAILED: Option<RunErr> = Some(RunErr::Fault(Fault::StoreFault { unsure: None }));

const FIRST_UNSURE: Option<RunErr> = Some(RunErr::Fault(Fault::StoreFault { unsure: Some(1) }));

const SECOND_UNSURE: Option<RunErr> = Some(RunErr::Fault(Fault::StoreFault { unsure: Some(2) }));

const SINK: Option<RunErr> = Some(RunErr::Fault(Fault::SinkFault));

// Counted from 0, the first end's last write is 31 and its last sync 15, and an end makes 11
// writes and 4 syncs. There are two ends, or three where the second client comes late.
const FAULTS: &[(Fail, usize, Option<RunErr>)] = &[
    (Fail::Write(30), 1000, FAILED),
    (Fail::Write(31), 1000, FIRST_UNSURE),
    (Fail::Write(41), 1000, FAILED),
    (Fail::Write(42), 1000, SECOND_UNSURE),
    (NEVER, 1000, None),
    (Fail::Sync(14), 1000, FAILED),
    (Fail::Sync(15), 1000, FIRST_UNSURE),
    (Fail::Sync(19), 1000, SECOND_UNSURE),
    (Fail::Sync(20), 0, SINK),
    (Fail::Sync(20), 30, SINK),
];

// Whether a run in threads ends as the row says, where this call of its store fails and the output
// has so much room.
fn ends_so<R: Threads + Wait + Sync + Abort>(
    rt: &R,
    alloc: Global,
    row: &(Fail, usize, Option<RunErr>),
) -> bool {
    let (fail, room, wanted) = row;
    run_plain(rt, alloc, *fail, Run::Plain { room: *room }).fault == *wanted
}

#[test]
fn faults_are_told_and_each_thread_ends(rt: HostRuntime) {
    let before = thread_count(&rt).expect(&rt, "a count of threads");
    for (i, row) in FAULTS.iter().enumerate() {
        let ended = ends_so(&rt, rt.alloc(), row) && has_again(&rt, before);
        insist(&rt, ended, i);
    }
}

// ---- want of memory

const STARVES: Option<RunErr> = Some(RunErr::Fault(Fault::Memory));

// Whether a run of which the second client finds no memory is stopped for that, with nothing
// written, and its clients have signed off: by hand the first one alone.
fn starves<R: Threads + Wait + Sync + Abort>(rt: &R, alloc: Global, threads: bool) -> bool {
    let went = run_plain(rt, alloc, NEVER, Run::Starved { threads });
    went.fault == STARVES
        && went.first.gone
        && went.second.gone == threads
        && went.output.written().is_empty()
}

// By hand the desk is found stopped behind a round; in threads each client makes its steps to the
// end.
#[test]
fn want_of_memory_is_told_and_the_others_sign_off(rt: HostRuntime) {
    let before = thread_count(&rt).expect(&rt, "a count of threads");
    let by_threads = starves(&rt, rt.alloc(), true) && has_again(&rt, before);
    insist(&rt, by_threads, 0);
    insist(&rt, starves(&rt, rt.alloc(), false), 1);
}
