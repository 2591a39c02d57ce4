//! Batches over a store whose cells were sealed elsewhere.

ghost use Rattle.std.specs.Prelude.{◌≡◌, ◌≤◌};

use crate::shared::{STORE_FAULT, crew_of, is_damage, new_store, params, run, spelled};
use ob_base::{Check, Fault, Job, Jobs};
use ob_cells::{Crew, JobsErr};
use ob_mem::{Fail, MemLane, MemStore};
use ob_store::Store;
use std::alloc::Global;
use std::process::Abort;
use std::thread::Threads;

// Three cells of a store of 74 cells that was formatted under the keys of the bytes 0 to 95. They
// were made with another SHA-256 and a plain ChaCha20.
const CELLS: &[(u64, [u128; 8])] = &[
    (
        41,
        [
            0x01000000000000000200000000000000,
            0x6ddef560b1708db7f9b62fe9995e6915,
            0x2cd9c984c81cdb7eab7ebb02b6206d3c,
            0x3cd6f90218ef0de29682720696e58ee5,
            0x173c7fee4b886b0564d9b005d1e05a86,
            0xa440ab436f3a9024b182d04eb8ed25a3,
            0xcf9dc66e4f4e6d1e0e76799d5be07029,
            0x4c91f24f5489c00d27471191ee482bed,
        ],
    ),
    (
        46,
        [
            0x01000000000000000700000000000000,
            0x79362cb850f6c5499b2c3ace6b8c8361,
            0x02eda26e023aa1b1172c875e91adfaf1,
            0x01ac62e1ce316e2aaa3c6796c9f530e2,
            0x711290f8c0ec8f128abcf1a19204d0ac,
            0xb57e007ba363fc9141cec1a4205f0180,
            0xa0226d2e1cabe00963516153e42828a7,
            0x3764bee2f7a6fa566a4ff99a91896dcb,
        ],
    ),
    (
        56,
        [
            0x01000000000000001100000000000000,
            0xc4f3ff900ae3d34cf0b2ccee631a99d6,
            0xdb86f713680863d0e42a87c182f3a7c6,
            0x3a945c0c3df777307c766bbcc658c3e9,
            0xce9d8f61b00feb3bc01ac2ed394da30e,
            0xe5f6e339a5e5f5831055e1284275a53b,
            0x17255f8eda56340e200b98f7b8d89ab0,
            0x7b8bc05ab892e6ea7e58655fd0e0779c,
        ],
    ),
];

// A store of the three cells, where these calls fail and a bit of this cell is another.
fn store_of(rt: &impl Abort, alloc: Global, fails: &[Fail], broken: u64) -> MemStore
    ensures { result.log.out ≡ 0 }
{
    let mut store = new_store(rt, alloc, 74, fails);
    for (cell, words) in CELLS {
        let mut bytes = spelled(words);
        if *cell == broken {
            bytes[100] ^= 1;
        }
        assert!(rt; store.write(*cell, &bytes).is_ok());
    }
    store
}

// So many jobs of the three cells, which take turns: the first one's number, and the others' true
// ones.
fn jobs_of(rt: &impl Abort, alloc: Global, number: u64, many: usize) -> Jobs {
    let mut jobs = Jobs::new(alloc, &params(rt, 8, 2)).expect(rt, "memory");
    assert!(rt; jobs.room() == 18);
    let cells = [41, 46, 56];
    let numbers = [number, 7, 17];
    for i in 0..many {
        assert!(rt; jobs.jobs().len() < jobs.room());
        jobs.push(Job {
            cell: cells[i % 3],
            generation: 1,
            number: numbers[i % 3],
            key: None,
            result: None,
        });
    }
    jobs
}

// Whether each job has the plain bytes of an empty slot, or each has no result.
fn are_read(jobs: &[Job], is_read: bool) -> bool {
    let mut empty_slot = [0; 96];
    for i in 0..4 {
        empty_slot[i] = 0xff;
    }
    let wanted = if is_read { Some(empty_slot) } else { None };
    for job in jobs {
        if job.result != wanted {
            return false;
        }
    }
    true
}

// What a batch answers: its jobs are done, or the first that fails has a cell damaged so, or the
// store failed, at that one's read or before any.
enum Told {
    Done,
    Damaged(u64, Check),
    NotRead,
    NotBegun,
}

type Answer = Result<(), JobsErr>;

// Whether that was told.
fn is_told(told: &Told, answer: Answer) -> bool {
    match (told, answer) {
        (Told::Done, Ok(())) => true,
        (Told::Damaged(cell, check), Err(JobsErr::Job(fault))) => is_damage(fault, *cell, *check),
        (Told::NotRead, Err(JobsErr::Job(fault))) => fault == STORE_FAULT,
        (Told::NotBegun, Err(JobsErr::NotBegun(fault))) => fault == STORE_FAULT,
        _ => false,
    }
}

const READ_46: Fail = Fail::Read {
    cell: 46,
    writes: 3,
};

const READ_56: Fail = Fail::Read {
    cell: 56,
    writes: 3,
};

const READ_41: Fail = Fail::Read {
    cell: 41,
    writes: 3,
};

// The calls that fail, the cell with another bit, the number of the first job, how many jobs there
// are, the answer, and how often the store has failed. Where an earlier job fails too, that shows
// that the later cells were read.
struct Batch(&'static [Fail], u64, u64, usize, Told, u64);

const BATCHES: &[Batch] = &[
    Batch(&[], 0, 2, 3, Told::Done, 0),
    Batch(&[], 46, 2, 3, Told::Damaged(46, Check::Tag), 0),
    Batch(&[], 0, 3, 3, Told::Damaged(41, Check::Seal), 0),
    Batch(&[], 56, 3, 3, Told::Damaged(41, Check::Seal), 0),
    Batch(&[READ_56], 46, 2, 3, Told::Damaged(46, Check::Tag), 1),
    Batch(&[READ_46], 56, 2, 3, Told::NotRead, 1),
    Batch(
        &[READ_46, READ_56],
        41,
        2,
        3,
        Told::Damaged(41, Check::Tag),
        2,
    ),
    Batch(&[READ_41, READ_46, READ_56], 0, 2, 3, Told::NotRead, 3),
    Batch(&[Fail::Lane(0), READ_46], 56, 2, 3, Told::NotBegun, 1),
    Batch(&[], 0, 2, 0, Told::Done, 0),
    Batch(&[Fail::Lane(0)], 0, 2, 0, Told::NotBegun, 1),
    Batch(&[Fail::Lane(1)], 0, 2, 1, Told::Done, 0),
    Batch(&[], 0, 2, 18, Told::Done, 0),
    Batch(&[READ_46], 56, 2, 18, Told::NotRead, 6),
];

// How a batch went: its answer, how many jobs it has, whether each has the plain bytes of an empty
// slot, or none has any, and how often the store had failed by then.
#[derive(Clone, Copy)]
struct Went {
    answer: Answer,
    many: usize,
    read: bool,
    unread: bool,
    faults: u64,
}

// How a crew reads the jobs.
fn read_once<R: Abort + Threads + Sync>(
    rt: &R,
    store: &mut MemStore,
    crew: &mut Crew<MemLane>,
    jobs: &mut Jobs,
) -> Went {
    let answer = run(rt, store, crew, jobs);
    Went {
        answer,
        many: jobs.jobs().len(),
        read: are_read(jobs.jobs(), true),
        unread: are_read(jobs.jobs(), false),
        faults: store.faults(),
    }
}

// How a crew of so many lanes reads jobs over a store where these calls fail and a bit of this cell
// is another, and how the same crew reads them again. The first job's number, and how many there
// are.
fn read_twice<R: Abort + Threads + Sync>(
    rt: &R,
    alloc: Global,
    lanes: usize,
    fails: &[Fail],
    broken: u64,
    asked: (u64, usize),
) -> (Went, Went)
    requires { (1 ≤ lanes) × (lanes ≤ 16) }
{
    let mut store = store_of(rt, alloc, fails, broken);
    let mut jobs = jobs_of(rt, alloc, asked.0, asked.1);
    let mut crew = crew_of(rt, alloc, lanes);
    let first = read_once(rt, &mut store, &mut crew, &mut jobs);
    let second = read_once(rt, &mut store, &mut crew, &mut jobs);
    (first, second)
}

// Whether a batch answers so that is read by so many lanes, and leaves results where it is done.
fn ends_so<R: Abort + Threads + Sync>(rt: &R, alloc: Global, lanes: usize, batch: &Batch) -> bool
    requires { (1 ≤ lanes) × (lanes ≤ 16) }
{
    let Batch(fails, broken, number, many, told, faults) = batch;
    let (went, _) = read_twice(rt, alloc, lanes, fails, *broken, (*number, *many));
    let is_done = matches!(told, Told::Done);
    is_told(told, went.answer)
        && (went.read || !is_done)
        && (went.unread || is_done)
        && went.many == *many
        && went.faults == *faults
}

#[test]
fn batches_are_read_or_the_first_failing_job_is_told(rt: HostRuntime) {
    for (i, batch) in BATCHES.iter().enumerate() {
        for lanes in 1..17 {
            let is_so = ends_so(&rt, rt.alloc(), lanes, batch);
            assert!(&rt; is_so, "batch {i} by {lanes}");
        }
    }
}

// Where one of 16 lanes is refused nothing is read, and the same crew reads all of the next batch:
// of its 16 jobs ten fail.
fn goes_on<R: Abort + Threads + Sync>(rt: &R, alloc: Global, refused: u64) -> bool {
    let fails = [Fail::Lane(refused), READ_46, READ_56];
    let (first, second) = read_twice(rt, alloc, 16, &fails, 0, (2, 16));
    is_told(&Told::NotBegun, first.answer)
        && first.faults == 1
        && is_told(&Told::NotRead, second.answer)
        && second.faults == 11
        && second.unread
}

#[test]
fn a_batch_is_not_begun_where_a_lane_is_refused(rt: HostRuntime) {
    for refused in 0..16 {
        assert!(rt; goes_on(&rt, rt.alloc(), refused), "lane {refused}");
    }
}

#[test]
fn a_refusal_leads_to_its_fault(rt: HostRuntime) {
    let refused = JobsErr::NotBegun(STORE_FAULT);
    let wanting = JobsErr::Job(Fault::Memory);
    assert!(rt; Fault::from(refused) == STORE_FAULT && Fault::from(wanting) == Fault::Memory);
}
