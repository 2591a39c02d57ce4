//! The world over a ring store: the life of the store is the past of its course, from the format on,
//! crash by crash. So over every list of events the headline holds, what the store was called for is
//! the public schedule's, each hole was filled once, and no pad was used twice. Laws of definitions;
//! nothing here runs.
#![tactic(auto)]

mod lives;
mod vaults;

pub use lives::{formats_begin_worlds, openings_moment_by_moment, ring_headline, runs_are_worlds};
pub use vaults::ring_vaults_are_over_rings;
