//! Clients of the desk: what their calls are, and what a client's calls say of its transactions.
#![tactic(auto)]

mod laws;
mod made;
mod runner;

pub use laws::{calls_agree, records_tell};
pub use made::{Made, Said};
pub use runner::{Runner, Step};
