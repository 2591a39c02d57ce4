//! The scripts of the clients, and what each of them has to be answered.

ghost use Rattle.std.specs.Prelude.{◌<◌, ◌≤◌, All, length};
ghost use Rattle.std.specs.List.Sorted.{IsStrictlyIncreasing};

use crate::asking::{Ask, Line, OWN};
use crate::driver::{EPOCH, FAULT};
use ob_base::Key;
use ob_serial::{Outcome, Why};

/// What is done at a hall.
#[derive(Clone, Copy)]
pub enum Plan {
    /// A client asks for the durable epoch while the driver holds a turn.
    Durable,
    /// One client reads its own writes.
    Alone,
    /// The first client writes what the second reads.
    InOrder,
    /// Each client has a key of its own.
    Apart,
    /// So has every second one, and the others are driven runners.
    BesideRunners,
    /// A get waits until the desk is stopped.
    GetWaits,
    /// A commit waits until the desk is stopped.
    CommitWaits,
}

const DURABLE: &[Line] = &[(1, Ask::Durable { epoch: EPOCH })];

const BEGIN: Ask = Ask::Begin { stopped: None };

const PUT: Ask = Ask::Put {
    key: 5,
    aborted: None,
};

const FOUND: Ask = Ask::Get {
    key: 5,
    found: true,
    aborted: None,
};

const LEAVE: Ask = Ask::Abort { why: Why::Asked };

const ALONE: &[Line] = &[
    (0, BEGIN),
    (0, PUT),
    (0, FOUND),
    (
        0,
        Ask::Del {
            key: 5,
            aborted: None,
        },
    ),
    (
        0,
        Ask::Get {
            key: 5,
            found: false,
            aborted: None,
        },
    ),
    (0, LEAVE),
];

const CONFLICT: Why<Key> = Why::Conflict { key: 5, reader: 2 };

// It reads nothing, and writes again what the other client has read by then.
const WRITER: &[Line] = &[
    (0, BEGIN),
    (1, PUT),
    (
        4,
        Ask::Put {
            key: 5,
            aborted: Some(CONFLICT),
        },
    ),
    (6, Ask::Abort { why: CONFLICT }),
];

const DEPENDS: Why<Key> = Why::Depends { on: 1 };

// It reads what the writer wrote first.
const READER: &[Line] = &[
    (2, BEGIN),
    (3, FOUND),
    (
        5,
        Ask::Put {
            key: 6,
            aborted: Some(DEPENDS),
        },
    ),
    (7, Ask::Abort { why: DEPENDS }),
];

const APART: &[Line] = &[
    (0, BEGIN),
    (
        0,
        Ask::Put {
            key: OWN,
            aborted: None,
        },
    ),
    (
        0,
        Ask::Get {
            key: OWN,
            found: true,
            aborted: None,
        },
    ),
    (0, LEAVE),
];

const STOPPED: Why<Key> = Why::Stopped { fault: FAULT };

const GET_WAITS: &[Line] = &[
    (0, BEGIN),
    (
        0,
        Ask::Get {
            key: 5,
            found: false,
            aborted: Some(STOPPED),
        },
    ),
    (0, Ask::Abort { why: STOPPED }),
    (
        0,
        Ask::Begin {
            stopped: Some(FAULT),
        },
    ),
];

const COMMIT_WAITS: &[Line] = &[
    (0, BEGIN),
    (0, PUT),
    (
        0,
        Ask::Commit {
            outcome: Outcome::Aborted { why: STOPPED },
        },
    ),
    (
        0,
        Ask::Begin {
            stopped: Some(FAULT),
        },
    ),
];

/// The clients of the hall.
pub fn clients_of(plan: &Plan) -> &'static [u32]
    ensures named { All (λ c. (1 ≤ c) × (c ≤ 64)) result.now }
    ensures rising { IsStrictlyIncreasing result.now }
{
    match plan {
        Plan::Apart | Plan::BesideRunners => {
            &[1, 2, 3, 4, 5, 6, 7, 8, 9, 10, 11, 12, 13, 14, 15, 16]
        }
        Plan::InOrder => &[1, 2],
        _ => &[1],
    }
}

/// The lines of the k-th client, counted from 1, and how many calls it makes.
pub fn lines_of(plan: &Plan, k: usize) -> (&'static [Line], usize)
    ensures { 0 < length result.0.now }
{
    match plan {
        Plan::Durable => (DURABLE, 1),
        Plan::Alone => (ALONE, 6),
        Plan::InOrder if k == 1 => (WRITER, 4),
        Plan::InOrder => (READER, 4),
        Plan::Apart => (APART, 2000),
        Plan::BesideRunners => (APART, 400),
        Plan::GetWaits => (GET_WAITS, 4),
        Plan::CommitWaits => (COMMIT_WAITS, 4),
    }
}
