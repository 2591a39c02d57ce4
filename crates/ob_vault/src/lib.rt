//! The vault over a ring store: a map by epochs that hides which keys are asked for; the words of a kind
//! of store, and a ring store as such a kind; and its calls as acts of its store's life, so that over any
//! row of runs no pad and no word is used twice.
#![tactic(auto)]

mod acts;
mod gates;
mod known;
mod lent;
mod lives;
mod measuring;
mod phases;
mod ring;
mod runs;
mod vault;

pub use acts::{calls_are_acts, ring_chains_are_runs, seals_are_public};
pub use gates::{
    calls_know_gates, chains_know_gates, found_runs_know_generations, opened_runs_know_gates,
    refused_calls_leave_gates, runs_know_gates,
};
pub use lives::{
    calls_are_lives, calls_show_lives, chains_are_lives, openings_are_lives,
    openings_come_in_stages, stages_are_moments,
};
pub use phases::{calls_are_told_by_shape, phases_follow};
pub use ring::{
    calls_begin, calls_do, formats_are_told, openings_are_told, refusals_are_told, rows_are_cut,
};
pub use runs::{
    calls_come_in_stages, cut_runs_are_told, drawn_is_shown, formats_begin, openings_go_on,
    openings_stop, rows_of_stages, runs_are_lives, runs_are_one_life, runs_go_on,
    runs_stop_in_stages, tapes_exist,
};
pub use vault::RingVault;
