//! How far a runner's first transaction has come.

use ob_desk::Txn;

/// How far the first transaction of a runner has come.
#[derive(Clone, Copy)]
pub enum First {
    /// It hasn't begun one.
    Unbegun,
    /// It has begun this one.
    Begun { txn: Txn },
    /// It has given this one up, and was told of no other.
    GivenUp { txn: Txn },
    /// It has done something else.
    Past,
}
