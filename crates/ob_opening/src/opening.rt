//! What an opening of a ring store gives.

ghost use Rattle.std.specs.Prelude.{◌≡◌, ◌≤◌, ◌<◌, ◌*◌, ◌^◌, length, max, replicate};
ghost use Rattle.ob_base.specs.Layout.{checkpoint_cells};
ghost use Rattle.ob_base.specs.Planned.{most_jobs};
ghost use Rattle.ob_base.specs.Tree.{buckets, width};

use ob_base::{Jobs, Params};
use ob_cells::{Bench, Crew};
use ob_check::Sheet;
use ob_ring::{Index, Ring};
use ob_seal::Sealer;
use ob_twin::Gates;

/// What opening a store gave: all that a vault over it begins with. A vault takes no memory beside.
#[derive(Drop)]
pub struct Opening<L> {
    /// The parameters of the store.
    pub params: Params,
    /// Which gates of its registers are open.
    pub gates: Gates,
    /// The sealer of the generation that began with this opening, below `2^62`. It has sealed
    /// nothing.
    pub sealer: Sealer,
    /// The last epoch that ended, below `2^62`.
    pub epoch: u64,
    /// How many read batches the epoch that runs has left.
    pub left: u32,
    /// The planner behind the batches that were shown again.
    pub ring: Ring,
    /// Room for the jobs of a plan.
    pub jobs: Jobs,
    /// What reads them.
    pub crew: Crew<L>,
    /// Where cells are sealed, by as many threads as the crew has lanes.
    pub bench: Bench,
    /// Room for a checkpoint.
    pub sheet: Sheet,
    /// Room for the words of a batch, of an end's writes, or of the indexes of all buckets.
    pub words: Vec<u64>,
    /// Room for what a refill counts, by bucket: each count is 0.
    pub index: Index,
    pub ghost small: { epoch < 2 ^ 62 },
    pub ghost generation: { sealer.generation < 2 ^ 62 },
    pub ghost planned: { jobs.room ≡ most_jobs params },
    pub ghost placed: { jobs.place_room ≡ params.places },
    pub ghost manned: { most_jobs params ≤ crew.jobs },
    pub ghost spelled: { length sheet ≡ 96 * checkpoint_cells params },
    pub ghost drawn: { length words.items
        ≡ max (max params.places params.writes) (buckets params * width params) },
    pub ghost counted: { index ≡ replicate (buckets params) 0 },
}
