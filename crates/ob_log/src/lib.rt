//! The log of read batches: what a batch asks for, and the words that it is planned with, are sure
//! before the batch is shown, so that a run behind a crash shows the same again.
#![tactic(auto)]

mod appending;
mod laws;
mod opening;
mod places;
mod reading;
mod record;
mod spelling;

pub use appending::append;
pub use laws::{record_same, records_same};
pub use reading::read_open;
pub use record::{Record, Records};
