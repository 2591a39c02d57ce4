//! The versions of each key in the epoch that runs, by ticket, with the marks of their readers.
#![tactic(auto)]

mod cascade;
mod ledger;
mod order;

pub use order::Order;
