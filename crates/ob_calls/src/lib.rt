//! A client's calls at a hall, one by one.
//!
//! A client of its own has a pass of an `ob_hall::Hall` and makes these calls, each in one turn; a
//! get and a commit may have to wait, and then ask again in turns of their own. Each call's
//! contract says where in the hall's one history it stands, and that its answer is the desk's
//! there.
#![tactic(auto)]

mod calls;
mod waits;

pub use calls::{Refused, abort, begin, del, enter, put, sign_off};
pub use waits::{commit, get};
