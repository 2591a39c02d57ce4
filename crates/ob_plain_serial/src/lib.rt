//! Plain programs for what one-by-one runs and vaults mean: a map in memory, transactions run one
//! by one, and a row of calls on a vault.
#![tactic(auto)]

mod calls;
mod map;
mod plain;
mod serve;

pub use calls::{Reply, Request};
pub use map::PlainMap;
pub use plain::one_by_one;
pub use serve::serve_all;
