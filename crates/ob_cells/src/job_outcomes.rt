//! What the jobs of a batch gave, once all were read.

ghost use Rattle.std.specs.Prelude.{◌≡◌, ◌<◌, ◌≤◌, ℕ, length, MatchOption};
ghost use Rattle.std.specs.Result.{IsOk};
ghost use Rattle.ob_cells.specs.Jobs.{AreFilled, IsFirstErr, job_outcome, plain_at};

use ob_base::{Fault, Jobs};
use ob_lanes::Slot;

// What the first failing one of so many jobs gave.
pub(crate) fn first_fault(slots: &[Slot], jobs: usize) -> Option<Fault>
    requires { jobs ≤ length slots.now }
    ensures { MatchOption result ((i : ℕ) → i < jobs → IsOk (job_outcome slots.now i))
        (λ f. IsFirstErr slots.now jobs f) }
{
    for i in 0..jobs {
        if let Err(fault) = slots[i].outcome {
            return Some(fault);
        }
    }
    None
}

// Keeps what each job gave.
pub(crate) fn keep_all(jobs: &mut Jobs, slots: &[Slot])
    requires few { length jobs.old.jobs ≤ length slots.now }
    requires fine { (i : ℕ) → i < length jobs.old.jobs → IsOk (job_outcome slots.now i) }
    ensures filled { AreFilled jobs.old.jobs jobs.new.jobs (λ i. plain_at slots.now i) }
    ensures rest { jobs.new ≡ record jobs.old { jobs = jobs.new.jobs } }
{
    for i in 0..jobs.jobs().len() {
        if let Ok(plain) = slots[i].outcome {
            jobs.set_result(i, plain);
        }
    }
}
