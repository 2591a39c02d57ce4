//! Ring ORAM on a store: a new store, and opening one again after any crash.
#![tactic(auto)]

mod drawing;
mod formatting;
mod gates;
mod opening;
mod preparing;
mod rooms;

pub use formatting::format;
pub use opening::Opening;
pub use preparing::prepare;
