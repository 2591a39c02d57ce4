//! The top call: what the program does with its words, its store, its input, its output and its
//! trace.
#![tactic(auto)]

mod again;
mod audit;
mod auditors;
mod cuts;
mod drill;
mod endings;
mod fitting;
mod format;
mod lists;
mod refusals;
mod rows;
mod run;
mod top;
mod traces;

pub use again::stood_again;
pub use auditors::{auditors_go_on, stops_are_read};
pub use cuts::{cut_openings_are_read, cuts_are_read};
pub use drill::{Drilled, drill_on};
pub use endings::{finish, finish_run, still_watched};
pub use fitting::{refused_traces_fit, traces_fit};
pub use lists::lists_hold;
pub use refusals::refused_runs_fit;
pub use rows::rows_fit;
pub use run::{Means, head_on, run_behind_head};
pub use top::obladi;
pub use traces::traces_are_printed;
