//! What the outcomes in the published records show, whatever calls were made of a desk, and what a
//! run of scripts tells of their clients, whatever the vault.
#![tactic(auto)]

mod lone;
mod outcomes;
mod scripts;

pub use lone::{lone_counts_up, lone_is_let_in, lone_reads_below, one_commits};
pub use outcomes::{
    close_loses_none, epoch_end_is_due, one_client, only_clients_call, outcomes_are_shown,
};
pub use scripts::{epochs_are_few, told_is_asked};
