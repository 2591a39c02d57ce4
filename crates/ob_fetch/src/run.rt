//! What a run keeps between its calls.

use ob_base::{Jobs, Params};
use ob_check::Sheet;
use ob_ring::Ring;
use ob_seal::Sealer;
use ob_twin::Gates;

/// What a run over a ring store keeps between its calls, beside the store, the tape, and what reads
/// its jobs.
#[derive(Drop)]
pub struct Run {
    /// The parameters of the store.
    pub params: Params,
    /// Which gates of its registers are open.
    pub gates: Gates,
    /// The sealer of the run's generation.
    pub sealer: Sealer,
    /// How many words of that generation were drawn, at most `2^62`.
    pub drawn: u64,
    /// The last epoch that ended, below `2^62`.
    pub epoch: u64,
    /// How many read batches the epoch that runs has left.
    pub left: u32,
    /// It serves no more.
    pub spent: bool,
    /// The planner behind the batches of the epoch that runs.
    pub ring: Ring,
    /// Room for the jobs of a plan.
    pub jobs: Jobs,
    /// Room for a checkpoint.
    pub sheet: Sheet,
    /// Room for the words of a batch, of an epoch's writes, or of all buckets.
    pub words: Vec<u64>,
}
