//! A hall where clients' calls are made in turns at one desk.
//!
//! A `Hall` is a desk behind a ticket lock, with the number of the last durable epoch beside it.
//! Each caller has a `Pass`, which may go to a thread: the driver of epochs the first one, and each
//! client of the desk one of its own. There is one history of all calls, and each call's contract
//! says where in it the call stands, and that its answer is the desk's there.
#![tactic(auto)]

mod closing;
mod driver;
mod driving;
mod hall;
mod laws;
mod opening;
mod turned;

pub use driving::{drive, take_turn};
pub use hall::{Beside, Hall, Held, Pass};
pub use laws::{
    calls_are_own, desk_agrees, driver_is_alone, driver_knows_rounds, history_is_one_chain,
};
pub use turned::{Driven, Noted, Turned};
