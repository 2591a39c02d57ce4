//! The end of an epoch of a ring store: its final lifts are read, its writes made, and the lifted
//! buckets filled anew; these, the checkpoint and closed gates for the log of the epoch behind are
//! written, and then the epoch's register is set.
#![tactic(auto)]

mod closing;
mod ending;
mod filling;
mod lifting;
mod making;
mod renewing;
mod sealing;
mod shutting;
mod writing;

pub use ending::end;
pub use lifting::read_lifts;
pub use renewing::renew;
pub use writing::write_end;
