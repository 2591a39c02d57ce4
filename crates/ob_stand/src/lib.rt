//! What an epoch does to keys, values and tables, and what an image of a ring store stands for. Laws of
//! definitions; nothing here runs.
#![tactic(auto)]

mod contents;
mod images;
mod keys;
mod values;

pub use contents::{
    calls_join, contents_carry, contents_follow, contents_sampled, end_counts, ends_follow, idled,
    opening_counts, plans_are_read, refill_plans, renewed_fit, rings_refill, rings_stand,
    slots_rank, steps_renew, tables_are_read, tables_obey, writes_are_fit,
};
pub use images::{
    agree_off_spare, append_stands, appends_leave, end_fills_spare, end_is_held, end_sets,
    end_spares, end_writes_spare, end_writes_stay, ends_exist, ends_leave, formats_exist,
    formatted_stands, frame_with, open_begins, opens_leave, ring_stands, ring_stands_once,
    runs_end, sampled, sealed_are_opened, sound_after, stands_frame, stands_known, stands_once,
    stands_valued, writes_agree,
};
pub use keys::{goes_further, picked_are_taken, refills_move, steps_only_take, versions_go};
pub use values::{
    batch_carries, buckets_go, epochs_are_met, epochs_follow, fetch_is_answered, jobs_are_read,
    lifts_carry, plain_is_spelled, refill_carries, refill_is_written, stash_counts, values_sampled,
    writes_carry,
};
