//! The whole system as one machine over lists of events: the calls of the desk by the driver and
//! the clients, the calls of the vault, reports, crashes and openings. What holds of every such
//! list, whatever the vault. Laws of definitions; nothing here runs.
#![tactic(auto)]

mod lists;

pub use lists::{
    acts_are_a_world, headline, moments_are_prefixes, records_are_reported, runs_are_worlds,
};
