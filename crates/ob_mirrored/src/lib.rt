//! The top call with a second store: a run over a mirror of both.
#![tactic(auto)]

mod asked;
mod halves;
mod joined;
mod mirrored;
mod over;

pub use halves::{headlines_are_of_halves, mirrors_stand};
pub use mirrored::obladi_mirrored;
pub use over::Room;
