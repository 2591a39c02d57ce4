//! Records of transactions, and what it means that they ran one by one.
#![tactic(auto)]

mod laws;
mod records;
mod vault;

pub use laws::{replays_by_place, serial_runs};
pub use ob_base::Op;
pub use records::{EpochRecord, Outcome, TxnRecord, Why};
pub use vault::{EndErr, Vault};
