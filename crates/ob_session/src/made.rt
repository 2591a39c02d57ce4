//! Calls that a client made, with their replies.

ghost use Rattle.std.specs.Prelude.{◌≡◌, ◌∷◌, []};
ghost use Rattle.ob_session.specs.Steps.{step_of, steps_of};

use ob_base::{Fault, Key, Value};
use ob_desk::{Begun, Done, Got, Txn};
use ob_serial::{Outcome, Why};

/// A client's call of the desk, with what it was answered.
#[derive(Clone, Copy)]
pub enum Said {
    Begin {
        client: u32,
        reply: Begun,
    },
    Get {
        txn: Txn,
        key: Key,
        reply: Got,
    },
    Poll {
        txn: Txn,
        reply: Got,
    },
    /// A put, or a delete where there is no value.
    Write {
        txn: Txn,
        key: Key,
        value: Option<Value>,
        reply: Done,
    },
    Commit {
        txn: Txn,
        reply: Done,
    },
    Abort {
        txn: Txn,
        why: Why<Key>,
    },
    Settled {
        txn: Txn,
        outcome: Option<Outcome<Key>>,
    },
    SignOff {
        client: u32,
    },
    Stop {
        fault: Fault,
    },
}

/// The calls of one step, at most three, in order.
#[derive(Clone, Copy)]
pub struct Made {
    pub first: Option<Said>,
    pub second: Option<Said>,
    pub third: Option<Said>,
}

impl Made {
    /// No call.
    pub const NONE: Made = Made {
        first: None,
        second: None,
        third: None,
    };

    /// One call.
    pub fn one(said: Said) -> Made
        ensures { steps_of result ≡ step_of said ∷ [] }
    {
        Made {
            first: Some(said),
            second: None,
            third: None,
        }
    }
}
