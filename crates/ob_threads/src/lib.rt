//! Starting and joining clients' threads at a hall.
//!
//! Each client goes to a thread of its own with its pass and its runner, where it makes its calls
//! until its sign-off. Where the system refuses a thread the client stays here, and its calls are
//! made by hand, a step at a time.
#![tactic(auto)]

mod serving;
mod starting;
mod stepping;

pub use serving::{Client, run_unless, serve};
pub use starting::{Since, Started, join_all, start_all};
pub use stepping::step_all;
