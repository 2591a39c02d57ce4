//! The driver of epochs: it makes the clients' calls by hand, in rounds, and moves the epochs on.
#![tactic(auto)]

mod batch;
mod epoch;
mod look;
mod rounds;
mod run_err;
mod serving;
mod watching;

pub use run_err::RunErr;
pub use serving::serve;
