//! Jobs that are to be read, each by the lane that claims it.

use ob_base::{Fault, Job};
use ob_claims::ClaimSeat;
use ob_seal::Sealer;

/// What reading a job gave: the plain bytes of its cell, or why it failed.
pub type Outcome = Result<[u8; 96], Fault>;

/// Jobs, and the sealer that opens their cells.
#[derive(Drop)]
pub struct SealedJobs<'a> {
    /// The sealer.
    pub sealer: &'a Sealer,
    /// The jobs.
    pub jobs: &'a [Job],
}

/// What reading a job gave.
#[derive(Clone, Copy)]
pub struct Slot {
    /// The place of the job among those that are to be read.
    pub place: usize,
    /// What it gave.
    pub outcome: Outcome,
}

/// A lane, its seat at the claims of jobs, and what it has read.
#[derive(Drop)]
pub struct Hand<L> {
    /// The lane.
    pub lane: L,
    /// Its seat.
    pub seat: ClaimSeat,
    /// What it has read, in order.
    pub part: Vec<Slot>,
}
