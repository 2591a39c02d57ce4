//! What may stand next in a trace, by a plain program. Its memory grows with the store, not with
//! the trace: what an epoch shows lies in rows by bucket.
#![tactic(auto)]

mod follow;

pub use follow::FollowPlain;
pub use ob_wants::{Leaves, StandingPlain, Visit};
