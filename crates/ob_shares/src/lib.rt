//! Client shares: how many different keys the calls of one client may name in an epoch, and which
//! they named.
#![tactic(auto)]

mod named;
mod shares;
mod uses;

pub use named::{Named, add_name, make_room, past};
pub use shares::{NO_SHARES, Shares};
pub use uses::{Uses, clear_uses, new_uses};
