//! Multiversion timestamp ordering over the keys of one epoch.
#![tactic(auto)]

mod answers;
mod batch;
mod fate;
mod order;
mod work;

pub use answers::{Read, Version, Wrote};
pub use batch::{fill, push_write};
pub use fate::Fate;
pub use order::EpochOrder;
pub use work::{Work, add_awaited, add_to, end_in, fall_in, fell_on, make_wait, set_waiting};
