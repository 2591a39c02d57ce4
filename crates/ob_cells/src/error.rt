//! Why a batch was refused.

ghost use Rattle.std.specs.Prelude.{◌≡◌};
ghost use Rattle.ob_cells.specs.Errors.{jobs_fault};

use ob_base::Fault;

/// Why a batch of jobs was refused.
#[derive(Clone, Copy, PartialEq, Eq)]
pub enum JobsErr {
    /// A lane was refused, and nothing was read.
    NotBegun(Fault),
    /// All jobs were read, and this is what the first failing one gave.
    Job(Fault),
}

impl From<JobsErr> for Fault {
    ghost from_gives = { λ e f. f ≡ jobs_fault e };

    fn from(error: JobsErr) -> Fault {
        match error {
            JobsErr::NotBegun(fault) => fault,
            JobsErr::Job(fault) => fault,
        }
    }
}
