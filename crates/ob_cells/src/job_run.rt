//! Reading the jobs of a batch.

ghost use Rattle.std.specs.Prelude.{◌≡◌, ◌≤◌, length, IfErr};
ghost use Rattle.ob_store.specs.Images.{Same, Passes};
ghost use Rattle.ob_store.specs.Calls.{Serves, Keeps};
ghost use Rattle.ob_cells.specs.Jobs.{AreJobsAnswered, AreKept, AreSeen, IsBlamed, IsJobsErr};
ghost use Rattle.ob_lanes.specs.Rooms.{AreAsLarge, AreReaders, jobs_of, lanes_of};

use crate::crew::Crew;
use crate::error::JobsErr;
use crate::job_outcomes::{first_fault, keep_all};
use ob_base::{Failed, Fault, Jobs};
use ob_lanes::{Lanes, Readers, read_jobs};
use ob_seal::Sealer;
use std::thread::Threads;

// What `run_jobs` does, by a crew's readers.
fn run_in<S: Lanes, R: Threads + Sync>(
    rt: &R,
    store: &mut S,
    readers: &mut Readers<S::Lane>,
    sealer: &Sealer,
    jobs: &mut Jobs,
) -> Result<(), JobsErr>
    requires readers { AreReaders readers.old }
    requires few { length jobs.old.jobs ≤ jobs_of readers.old }
    ensures serves { Serves IsBlamed (S.disk store.old) (S.disk store.new) result }
    ensures value { (S.disk store.old).tells
        → AreJobsAnswered sealer.now.keys (S.disk store.old).cells jobs.old.jobs jobs.new.jobs
        result }
    ensures faults { IfErr result IsJobsErr }
    ensures kept { AreKept jobs.old.jobs jobs.new.jobs result }
    ensures rest { jobs.new ≡ record jobs.old { jobs = jobs.new.jobs } }
    ensures readers { AreAsLarge readers.old readers.new }
    ensures keeps { Keeps (S.disk store.old) (S.disk store.new) }
    ensures passes { Passes Same (S.disk store.old) (S.disk store.new) }
    ensures seen { AreSeen (lanes_of readers.old) jobs.old.jobs (S.disk store.old).seen
        (S.disk store.new).seen result }
{
    let asked = jobs.jobs();
    match read_jobs(rt, store, readers, sealer, asked) {
        Ok(()) => {}
        Err(Failed) => return Err(JobsErr::NotBegun(Fault::StoreFault { unsure: None })),
    }
    let slots = readers.slots.as_slice();
    match first_fault(slots, asked.len()) {
        Some(fault) => return Err(JobsErr::Job(fault)),
        None => {}
    }
    keep_all(jobs, slots);
    Ok(())
}

/// Reads the jobs' cells, each sealed with its job's identity, whatever the others gave, and keeps
/// the plain bytes as the jobs' results. No job changes where one fails. The crew's lanes read at
/// once, each in a thread of its own where one can be started; all of them are made before a cell
/// is read, and all are taken back. It shows nothing to a watch, and takes no memory.
///
/// # Errors
/// `NotBegun` where the store refused a lane: its count of faults rose, and nothing was read. Else
/// `Job` exactly where a job fails, with the fault of the first one in the jobs' order: its read
/// was refused, and the store's count of faults rose; or its cell's tag is wrong, or else its
/// identity is not the job's.
pub fn run_jobs<S: Lanes, R: Threads + Sync>(
    rt: &R,
    store: &mut S,
    crew: &mut Crew<S::Lane>,
    sealer: &Sealer,
    jobs: &mut Jobs,
) -> Result<(), JobsErr>
    requires few { length jobs.old.jobs ≤ crew.old.jobs }
    ensures serves { Serves IsBlamed (S.disk store.old) (S.disk store.new) result }
    ensures value { (S.disk store.old).tells
        → AreJobsAnswered sealer.now.keys (S.disk store.old).cells jobs.old.jobs jobs.new.jobs
        result }
    ensures faults { IfErr result IsJobsErr }
    ensures kept { AreKept jobs.old.jobs jobs.new.jobs result }
    ensures rest { jobs.new ≡ record jobs.old { jobs = jobs.new.jobs } }
    ensures crew { crew.new ≡ crew.old }
    ensures keeps { Keeps (S.disk store.old) (S.disk store.new) }
    ensures passes { Passes Same (S.disk store.old) (S.disk store.new) }
    ensures seen { AreSeen crew.old.lanes jobs.old.jobs (S.disk store.old).seen
        (S.disk store.new).seen result }
{
    run_in(rt, store, &mut crew.readers, sealer, jobs)
}
