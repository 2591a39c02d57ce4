//! What every crate speaks of: parameters, keys, values, operations, numbers in bytes, and
//! refusals.
#![tactic(auto)]

mod clients;
mod fault;
mod job;
mod jobs;
mod layout;
mod le;
mod op;
mod params;
mod refusals;
mod tree;
mod value;

pub use clients::MOST_CLIENTS;
pub use fault::{Check, Damaged, Failed, Fault, Field, Memory, NUMBER_LIMIT, StashFull, Worn};
pub use job::{Job, Place};
pub use jobs::Jobs;
pub use layout::{
    BODY_CELL, EPOCH_CELL, GENERATION_CELL, addresses_apart, addresses_lie, check_cell,
    checkpoint_cells, checkpoint_len, log_cell, log_gate, meta_len, record_cells, regions_apart,
    regions_within, ring_cells, slot_cell,
};
pub use le::{set_u32, set_u64, u32_at, u64_at};
pub use op::Op;
pub use params::Params;
pub use tree::{bucket_of, buckets, reverse};
pub use value::{Key, Value, Write};
