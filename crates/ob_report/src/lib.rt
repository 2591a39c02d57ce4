//! The text of records and of refusals, written to a sink.
#![tactic(auto)]

mod fault;
mod page;
mod piece;
mod report;
mod size;
mod summary;

pub use fault::{fault_status, fault_text};
pub use report::text;
pub use size::size_text;
pub use summary::{Summary, drill_lines};
