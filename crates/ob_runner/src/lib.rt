//! Clients that make the calls that a script asks for, and what a script means.
#![tactic(auto)]

mod laws;
mod place;
mod runner;
mod starting;
mod sums;

pub use laws::runner_is_its_script;
pub use runner::ScriptRunner;
pub use starting::runners;
pub use sums::sum_of;
