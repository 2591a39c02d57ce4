//! The Ring ORAM planner.
#![tactic(auto)]

mod batch;
mod found;
mod index;
mod laws;
mod lifts;
mod order;
mod pass;
mod path;
mod plain;
mod reads;
mod ring;
mod settle;
mod steps;
mod writes;

pub use index::Index;
pub use laws::{
    fills_place, jobs_read_picks, lifts_take_all, rows_place, sampled, shown_once, steps_few,
    steps_keep_order,
};
pub use ring::Ring;
pub use steps::Steps;
