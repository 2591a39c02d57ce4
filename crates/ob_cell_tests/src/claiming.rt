//! Batches whose jobs lanes claim one after another, over a store of which one read is late.

ghost use Rattle.std.specs.Prelude.{◌≡◌, ◌≤◌, ◌<◌};

use crate::late::{LateLane, LateStore};
use crate::shared::{STORE_FAULT, crew_of, is_damage, new_store, params, run, test_sealer};
use ob_base::{Check, Fault, Job, Jobs};
use ob_cells::{Crew, JobsErr};
use ob_mem::Fail;
use ob_store::Store;
use std::alloc::Global;
use std::process::Abort;
use std::thread::Threads;

// A batch has a job for each of the store's sealed cells, as many as a crew has room for.
const JOBS: u64 = 18;

// A cell that no job reads.
const OTHER: u64 = 20;

// Which cells of a batch are damaged, which one is read only behind all others, and which reads
// fail. Where none is meant it is `OTHER`.
#[derive(Clone, Copy)]
struct Trouble {
    first: u64,
    second: u64,
    late: u64,
    failing: u64,
}

const NO_TROUBLE: Trouble = Trouble {
    first: OTHER,
    second: OTHER,
    late: OTHER,
    failing: OTHER,
};

// The plain bytes of a cell.
fn plain_of(cell: u64) -> [u8; 96] {
    [cell.to_le_bytes()[0]; 96]
}

// A store in which the cell of each job is sealed, with the cell's number.
fn store_of(rt: &impl Abort, alloc: Global, trouble: &Trouble) -> LateStore
    ensures { result.store.log.out ≡ 0 }
{
    let fails = [Fail::Read {
        cell: trouble.failing,
        writes: JOBS,
    }];
    let mut store = new_store(rt, alloc, 24, &fails);
    let mut sealer = test_sealer(1);
    for cell in 0..JOBS {
        let mut bytes = sealer.seal(cell, &plain_of(cell)).ok().expect(rt, "a seal");
        if cell == trouble.first || cell == trouble.second {
            bytes[100] ^= 1;
        }
        assert!(rt; store.write(cell, &bytes).is_ok());
    }
    LateStore::new(store, trouble.late, JOBS - 1)
}

// A job for each of these cells.
fn all_jobs(rt: &impl Abort, alloc: Global) -> Jobs {
    let mut jobs = Jobs::new(alloc, &params(rt, 8, 2)).expect(rt, "memory");
    for cell in 0..JOBS {
        assert!(rt; jobs.jobs().len() < jobs.room());
        jobs.push(Job {
            cell,
            generation: 1,
            number: cell,
            key: None,
            result: None,
        });
    }
    jobs
}

// Whether each job has its plain bytes.
fn are_read(jobs: &[Job]) -> bool {
    for job in jobs {
        if job.result != Some(plain_of(job.cell)) {
            return false;
        }
    }
    jobs.len() as u64 == JOBS
}

// Whether no job has a result.
fn are_unread(jobs: &[Job]) -> bool {
    jobs.iter().all(|job| job.result.is_none())
}

// Whether a batch was refused for damage of this cell.
fn is_damaged(answer: Result<(), JobsErr>, cell: u64) -> bool {
    match answer {
        Err(JobsErr::Job(fault)) => is_damage(fault, cell, Check::Tag),
        _ => false,
    }
}

// How a batch went: its answer; whether each job has its plain bytes, or none has any; how many
// reads were made that don't wait, and how many by the last lane that had to; and how often the
// store had failed by then.
#[derive(Clone, Copy)]
struct Went {
    answer: Result<(), JobsErr>,
    read: bool,
    unread: bool,
    made: u64,
    beside: u64,
    faults: u64,
}

// How a crew reads the jobs.
fn read_once<R: Abort + Threads + Sync>(
    rt: &R,
    store: &mut LateStore,
    crew: &mut Crew<LateLane>,
    jobs: &mut Jobs,
) -> Went
    ensures { store.new.store.log.out ≤ store.old.store.log.out }
{
    let answer = run(rt, store, crew, jobs);
    Went {
        answer,
        read: are_read(jobs.jobs()),
        unread: are_unread(jobs.jobs()),
        made: store.made(),
        beside: store.beside(),
        faults: store.faults(),
    }
}

// How a crew of so many lanes reads all jobs over a store with this trouble, and how the same crew
// reads them again behind a write.
fn read_twice<R: Abort + Threads + Sync>(
    rt: &R,
    alloc: Global,
    lanes: usize,
    trouble: &Trouble,
) -> (Went, Went)
    requires { (1 ≤ lanes) × (lanes ≤ 16) }
{
    let mut store = store_of(rt, alloc, trouble);
    let mut crew = crew_of(rt, alloc, lanes);
    let mut jobs = all_jobs(rt, alloc);
    let first = read_once(rt, &mut store, &mut crew, &mut jobs);
    assert!(rt; store.write(OTHER, &[0; 128]).is_ok());
    let second = read_once(rt, &mut store, &mut crew, &mut jobs);
    (first, second)
}

// Whether all jobs are read while one lane waits in the first of them, and that lane gets no other.
fn is_held_alone<R: Abort + Threads + Sync>(rt: &R, alloc: Global, lanes: usize) -> bool
    requires { (1 ≤ lanes) × (lanes ≤ 16) }
{
    let mut trouble = NO_TROUBLE;
    trouble.late = 0;
    let (went, _) = read_twice(rt, alloc, lanes, &trouble);
    went.answer.is_ok() && went.read && went.made == JOBS - 1 && went.beside == 1
}

#[test]
fn a_late_read_holds_up_no_other_job(rt: HostRuntime) {
    for lanes in 2..17 {
        assert!(rt; is_held_alone(&rt, rt.alloc(), lanes), "{lanes} lanes");
    }
}

// Whether a batch is refused where the read of one job fails and all others are read, and whether
// the crew reads all of the next batch, once that read goes well.
fn goes_on<R: Abort + Threads + Sync>(rt: &R, alloc: Global, failing: u64) -> bool {
    let mut trouble = NO_TROUBLE;
    trouble.failing = failing;
    let (first, second) = read_twice(rt, alloc, 4, &trouble);
    first.answer == Err(JobsErr::Job(STORE_FAULT))
        && first.unread
        && first.made == JOBS
        && first.faults == 1
        && second.answer.is_ok()
        && second.read
        && second.made == 2 * JOBS
}

#[test]
fn all_others_are_read_where_one_read_fails(rt: HostRuntime) {
    for failing in 0..JOBS {
        assert!(rt; goes_on(&rt, rt.alloc(), failing), "cell {failing}");
    }
}

// Whether of two damaged cells the earlier job's is told, though it is read behind all others.
fn tells_the_earlier<R: Abort + Threads + Sync>(
    rt: &R,
    alloc: Global,
    lanes: usize,
    damaged: &(u64, u64),
) -> bool
    requires { (1 ≤ lanes) × (lanes ≤ 16) }
{
    let mut trouble = NO_TROUBLE;
    trouble.first = damaged.0;
    trouble.second = damaged.1;
    trouble.late = damaged.0;
    let (went, _) = read_twice(rt, alloc, lanes, &trouble);
    is_damaged(went.answer, damaged.0) && went.unread
}

// Pairs of jobs.
const PAIRS: &[(u64, u64)] = &[(0, 1), (0, 17), (5, 6), (5, 17), (16, 17)];

#[test]
fn the_first_damaged_job_is_told_though_it_is_read_last(rt: HostRuntime) {
    for i in 0..PAIRS.len() {
        for lanes in 2..17 {
            let is_so = tells_the_earlier(&rt, rt.alloc(), lanes, &PAIRS[i]);
            assert!(&rt; is_so, "pair {i} by {lanes}");
        }
    }
}
