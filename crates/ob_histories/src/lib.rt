//! Public histories: what an audit of a trace accepts, told without any machine. Laws of definitions;
//! nothing here runs.
#![tactic(auto)]

mod laws;
mod samples;
mod texts;

pub use laws::{
    admitted_are_histories, filled_are_histories, histories_are_admitted, labels_are_leaves,
};
pub use samples::sampled;
pub use texts::lines_are_admitted;
