//! Two stores that serve as one.
#![tactic(auto)]

mod halves;
mod joining;
mod lane;
mod log;
mod mirror;
mod places;
mod reading;
mod standing;

pub use halves::Halves;
pub use joining::join;
pub use lane::{MirrorLane, SecondLane};
pub use log::Log;
pub use mirror::Mirror;
pub use places::Places;
pub use reading::read_cells;
pub use standing::{halves_are_asked, halves_follow, halves_stand};
