//! The driver of epochs at a hall: its looks, and what it does at them, each in turns of its pass.
#![tactic(auto)]

mod asking;
mod driving;
mod ending;
mod fetching;
mod hands;
mod looking;
mod noting;
mod plan;
mod room;
mod round;

pub use driving::{announce, drive_epochs};
pub use hands::Hands;
pub use looking::look_once;
pub use room::Room;
pub use round::Round;
