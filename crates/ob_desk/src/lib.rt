//! The transaction manager: transactions, epochs, and how each transaction ended.
#![tactic(auto)]

mod beat;
mod calls;
mod clients;
mod desk;
mod laws;
mod part;
mod roll;

pub use beat::{Beat, Eager, Hasty};
pub use calls::{Begun, Done, Got, Look, Txn};
pub use clients::{Client, Holder};
pub use desk::Desk;
pub use desk::seen::{
    batches_left, client_of, has_closed, in_flight, is_asked, is_going, outcome_of, running_epoch,
    waits_for,
};
pub use laws::{causes, desk_is_serial};
