//! A run of the clients over a vault, each in a thread of its own or all by hand, with the driver
//! of epochs beside them; what a hall's whole history is then, and how it ends.
#![tactic(auto)]

mod beside;
mod by_hand;
mod crew;
mod ending;
mod in_threads;
mod lending;
mod running;
mod seating;
mod serving;
mod weaving;

pub use ending::{failed_runs_end_failed, idle_halls_have_none, over_runs_end_over};
pub use in_threads::run_in_threads;
pub use running::run;
pub use serving::serve;
pub use weaving::history_is_woven;
