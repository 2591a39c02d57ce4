//! Worked cases of an epoch that runs while the one before it is closed, and not ended yet.

use crate::desks::{Answer, Call, Row, Wrote, expect_all};
use crate::rows::{DOUBT, NO_WRITE_PLACE};
use ob_base::Fault;
use ob_serial::{Outcome, Why};

const FIRST: Answer = Answer::Began {
    epoch: 2,
    ticket: 1,
};

const SECOND: Answer = Answer::Began {
    epoch: 2,
    ticket: 2,
};

const THIRD: Answer = Answer::Began {
    epoch: 2,
    ticket: 3,
};

const FOURTH: Answer = Answer::Began {
    epoch: 2,
    ticket: 4,
};

const FIFTH: Answer = Answer::Began {
    epoch: 2,
    ticket: 5,
};

// The closed epoch's record, whose only transaction is committed.
const ONE_TOLD: Answer = Answer::Told {
    epoch: 1,
    txns: 1,
    first: Some(Outcome::Committed),
    second: None,
    third: None,
};

const STARVED: Answer = Answer::Aborted(Why::Stopped {
    fault: Fault::Memory,
});

const FAILED: Fault = Fault::StoreFault { unsure: None };

const STORE_FAILED: Answer = Answer::Aborted(Why::Stopped { fault: FAILED });

const DOUBTED: Answer = Answer::Aborted(Why::Stopped { fault: DOUBT });

const BESIDE_AN_END: &[Row] = &[
    // It is above none of the closed one's versions, and its own transactions aren't told.
    (Call::Anew(1), Answer::Yes),
    (Call::Put(1, 5), Answer::Yes),
    (Call::Commit(1), Answer::Yes),
    (Call::Round, Answer::Yes),
    (Call::Round, Answer::Yes),
    (Call::Close, Answer::Wrote(Some(Wrote::Put(5)), None)),
    (Call::Begin(2), FIRST),
    (Call::Get(21, 5), Answer::Queued),
    (Call::Begin(3), SECOND),
    (Call::Put(22, 6), Answer::Yes),
    (Call::Commit(22), Answer::Yes),
    (Call::Settled(1), Answer::Open),
    (Call::Settled(22), Answer::Open),
    (Call::Publish, ONE_TOLD),
    (Call::Settled(1), Answer::Committed),
    (Call::Settled(22), Answer::Open),
    // It has all its places for writes, whatever the closed one wrote.
    (Call::Anew(1), Answer::Yes),
    (Call::Put(1, 0), Answer::Yes),
    (Call::Put(1, 1), Answer::Yes),
    (Call::Commit(1), Answer::Yes),
    (Call::Round, Answer::Yes),
    (Call::Round, Answer::Yes),
    (
        Call::Close,
        Answer::Wrote(Some(Wrote::Put(0)), Some(Wrote::Put(1))),
    ),
    (Call::Begin(2), FIRST),
    (Call::Put(21, 2), Answer::Yes),
    (Call::Put(21, 3), Answer::Yes),
    (Call::Put(21, 4), NO_WRITE_PLACE),
    // And all its places for reads.
    (Call::Anew(1), Answer::Yes),
    (Call::Put(1, 5), Answer::Yes),
    (Call::Commit(1), Answer::Yes),
    (Call::Round, Answer::Yes),
    (Call::Round, Answer::Yes),
    (Call::Close, Answer::Wrote(Some(Wrote::Put(5)), None)),
    (Call::Begin(2), FIRST),
    (Call::Begin(3), SECOND),
    (Call::Begin(4), THIRD),
    (Call::Begin(5), FOURTH),
    (Call::Begin(6), FIFTH),
    (Call::Get(21, 0), Answer::Queued),
    (Call::Get(22, 1), Answer::Queued),
    (Call::Get(23, 2), Answer::Queued),
    (Call::Get(24, 3), Answer::Queued),
    (
        Call::Get(25, 4),
        Answer::Aborted(Why::ReadsFull { queued: 4, left: 2 }),
    ),
    // Want of memory stops the running epoch alone.
    (Call::Anew(1), Answer::Yes),
    (Call::Put(1, 5), Answer::Yes),
    (Call::Commit(1), Answer::Yes),
    (Call::Round, Answer::Yes),
    (Call::Round, Answer::Yes),
    (Call::Close, Answer::Wrote(Some(Wrote::Put(5)), None)),
    (Call::Begin(2), FIRST),
    (Call::Commit(21), Answer::Yes),
    (Call::Stop(Fault::Memory), Answer::Yes),
    (Call::Settled(21), STARVED),
    (Call::Settled(1), Answer::Open),
    (Call::Publish, ONE_TOLD),
    (Call::Settled(1), Answer::Committed),
    (Call::Settled(21), STARVED),
    (Call::Begin(2), Answer::StoppedBy(Fault::Memory)),
    // A failing store stops both.
    (Call::Anew(1), Answer::Yes),
    (Call::Put(1, 5), Answer::Yes),
    (Call::Commit(1), Answer::Yes),
    (Call::Round, Answer::Yes),
    (Call::Round, Answer::Yes),
    (Call::Close, Answer::Wrote(Some(Wrote::Put(5)), None)),
    (Call::Begin(2), FIRST),
    (Call::Commit(21), Answer::Yes),
    (Call::Stop(FAILED), Answer::Yes),
    (Call::Settled(21), STORE_FAILED),
    (Call::Settled(1), STORE_FAILED),
    // Where the end is in doubt the closed one is unsure, and the running one is stopped.
    (Call::Anew(1), Answer::Yes),
    (Call::Put(1, 5), Answer::Yes),
    (Call::Commit(1), Answer::Yes),
    (Call::Round, Answer::Yes),
    (Call::Round, Answer::Yes),
    (Call::Close, Answer::Wrote(Some(Wrote::Put(5)), None)),
    (Call::Begin(2), FIRST),
    (Call::Commit(21), Answer::Yes),
    (Call::Begin(3), SECOND),
    (Call::Unsure(DOUBT), Answer::Yes),
    (Call::Settled(1), Answer::Unsure(1)),
    (Call::Settled(21), DOUBTED),
    (Call::Settled(22), DOUBTED),
];

#[test]
fn calls_beside_an_end_are_answered_so(rt: HostRuntime) {
    expect_all(&rt, rt.alloc(), BESIDE_AN_END);
}
