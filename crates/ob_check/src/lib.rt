//! Checkpoints: the planner's tables in sealed cells. They read back as they were written, or what
//! breaks first is named.
#![tactic(auto)]

mod accepting;
mod broken;
mod buckets;
mod building;
mod entries;
mod indexes;
mod keys;
mod laws;
mod marks;
mod places;
mod reading;
mod rules;
mod sheet;
mod spell;
mod stash;
mod writing;

pub use laws::reads_back;
pub use reading::read;
pub use sheet::Sheet;
pub use writing::write;
