//! A store in memory that tells its cells alone, and a sink that keeps nothing.
#![tactic(auto)]

mod bare_store;
mod cells;
mod void;

pub use bare_store::{BareLane, BareStore};
pub use cells::blank;
pub use void::Void;
