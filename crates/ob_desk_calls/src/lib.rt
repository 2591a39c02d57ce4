//! A desk's calls for tests: each asks first whether it may be made.
#![tactic(auto)]

mod calls;
mod may;

pub use calls::{abort, begin, commit, get, poll, settled, write};
pub use may::{
    may_abort, may_access, may_begin, may_close, may_commit, may_look, may_poll, may_publish,
    may_settle, may_sign_off, may_take,
};
