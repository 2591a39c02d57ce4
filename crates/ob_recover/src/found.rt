//! What is found of a ring store.

ghost use Rattle.std.specs.Prelude.{◌<◌, ◌^◌};

use ob_log::Records;
use ob_tables::{Metas, Tables};
use ob_twin::Gates;

/// What a store holds, as an opening finds it.
#[derive(Drop)]
pub struct Found {
    /// The generation of the last run, below `2^62`.
    pub generation: u64,
    /// The last epoch that ended, below `2^62`.
    pub epoch: u64,
    /// Which gates of its registers are open.
    pub gates: Gates,
    /// The planner's tables at that epoch's end.
    pub tables: Tables<Metas>,
    /// The open records of the read batches begun since.
    pub records: Records,
    pub ghost generation_small: { generation < 2 ^ 62 },
    pub ghost epoch_small: { epoch < 2 ^ 62 },
}
