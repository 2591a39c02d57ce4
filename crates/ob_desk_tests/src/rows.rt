//! Worked cases of a desk: calls as data, each with the answer that is wanted.

use crate::desks::{Answer, Call, Row, Wrote, expect_all};
use ob_base::Fault;
use ob_serial::{Outcome, Why};

const FALLS: Answer = Answer::Aborted(Why::Depends { on: 1 });

const CONFLICT: Answer = Answer::Aborted(Why::Conflict { key: 5, reader: 3 });

pub const EPOCH_END: Answer = Answer::Aborted(Why::EpochEnd);

pub const NO_WRITE_PLACE: Answer = Answer::Aborted(Why::WritesFull { keys: 2 });

pub const DOUBT: Fault = Fault::StoreFault { unsure: Some(1) };

const STOPPED: Answer = Answer::Aborted(Why::Stopped {
    fault: Fault::SinkFault,
});

const ONE_COMMITTED: Answer = Answer::Told {
    epoch: 1,
    txns: 2,
    first: Some(Outcome::Committed),
    second: Some(Outcome::Aborted { why: Why::EpochEnd }),
    third: None,
};

const ONE_EPOCH: &[Row] = &[
    // Tickets are drawn in order.
    (Call::Anew(1), Answer::Yes),
    (
        Call::Begin(2),
        Answer::Began {
            epoch: 1,
            ticket: 2,
        },
    ),
    (Call::Begin(2), Answer::Not),
    (Call::Begin(7), Answer::Not),
    // An abort takes its reader.
    (Call::Anew(2), Answer::Yes),
    (Call::Put(1, 5), Answer::Yes),
    (Call::Get(2, 5), Answer::Seven),
    (Call::Settled(2), Answer::Open),
    (Call::Abort(1), Answer::Aborted(Why::Asked)),
    (Call::Settled(1), Answer::Aborted(Why::Asked)),
    (Call::Settled(2), FALLS),
    (Call::Commit(2), FALLS),
    // A write below a later reader is a conflict.
    (Call::Anew(3), Answer::Yes),
    (Call::Put(1, 5), Answer::Yes),
    (Call::Get(3, 5), Answer::Seven),
    (Call::Put(1, 5), CONFLICT),
    (Call::Settled(1), CONFLICT),
    (Call::Get(3, 5), FALLS),
    (Call::Settled(2), Answer::Open),
    // An earlier get waits for its batch.
    (Call::Anew(2), Answer::Yes),
    (Call::Put(2, 5), Answer::Yes),
    (Call::Get(1, 5), Answer::Queued),
    (Call::Poll(1), Answer::Queued),
    (Call::Commit(1), Answer::Not),
    (Call::Round, Answer::Yes),
    (Call::Poll(1), Answer::Absent),
    (Call::Commit(1), Answer::Yes),
    (Call::Commit(2), Answer::Yes),
    // A third key has no place in the write batch.
    (Call::Anew(2), Answer::Yes),
    (Call::Put(1, 0), Answer::Yes),
    (Call::Put(1, 1), Answer::Yes),
    (Call::Del(1, 0), Answer::Yes),
    (Call::Put(2, 2), NO_WRITE_PLACE),
    (Call::Put(1, 2), NO_WRITE_PLACE),
    // A fifth key has no place in the read batches, and nor has any where none is left.
    (Call::Anew(6), Answer::Yes),
    (Call::Get(1, 0), Answer::Queued),
    (Call::Get(2, 1), Answer::Queued),
    (Call::Get(3, 2), Answer::Queued),
    (Call::Get(4, 3), Answer::Queued),
    (
        Call::Get(5, 4),
        Answer::Aborted(Why::ReadsFull { queued: 4, left: 2 }),
    ),
    (Call::Get(6, 3), Answer::Queued),
    (Call::Round, Answer::Yes),
    (Call::Round, Answer::Yes),
    (Call::Round, Answer::Not),
    (Call::Poll(6), Answer::Absent),
    (
        Call::Get(6, 7),
        Answer::Aborted(Why::ReadsFull { queued: 0, left: 0 }),
    ),
    // A look counts who waits, who is live, and what is queued and left.
    (Call::Anew(4), Answer::Yes),
    (Call::Get(1, 5), Answer::Queued),
    (Call::Commit(2), Answer::Yes),
    (Call::Abort(3), Answer::Aborted(Why::Asked)),
    (Call::SignOff(3), Answer::Yes),
    (Call::SignOff(4), Answer::Not),
    (
        Call::Look,
        Answer::Seen {
            waiting: 2,
            live: 3,
            queued: 1,
            left: 2,
            txns: 4,
            clients: 5,
        },
    ),
    (Call::Round, Answer::Yes),
    (
        Call::Look,
        Answer::Seen {
            waiting: 1,
            live: 3,
            queued: 0,
            left: 1,
            txns: 4,
            clients: 5,
        },
    ),
];

const TWO_EPOCHS: &[Row] = &[
    // A close ends those that haven't asked to commit, and who read from them fall.
    (Call::Anew(3), Answer::Yes),
    (Call::Put(1, 4), Answer::Yes),
    (Call::Put(2, 3), Answer::Yes),
    (Call::Get(3, 3), Answer::Seven),
    (Call::Commit(1), Answer::Yes),
    (Call::Commit(3), Answer::Yes),
    (Call::Put(1, 4), Answer::Not),
    (Call::Close, Answer::Not),
    (Call::Round, Answer::Yes),
    (Call::Round, Answer::Yes),
    (Call::Close, Answer::Wrote(Some(Wrote::Put(4)), None)),
    (Call::Settled(1), Answer::Open),
    (Call::Settled(2), EPOCH_END),
    (Call::Settled(3), Answer::Aborted(Why::Depends { on: 2 })),
    (
        Call::Publish,
        Answer::Told {
            epoch: 1,
            txns: 3,
            first: Some(Outcome::Committed),
            second: Some(Outcome::Aborted { why: Why::EpochEnd }),
            third: Some(Outcome::Aborted {
                why: Why::Depends { on: 2 },
            }),
        },
    ),
    (Call::Publish, Answer::Not),
    (Call::Settled(1), Answer::Committed),
    (Call::Settled(2), EPOCH_END),
    (Call::Settled(3), Answer::Aborted(Why::Depends { on: 2 })),
    (
        Call::Begin(1),
        Answer::Began {
            epoch: 2,
            ticket: 1,
        },
    ),
    // The write batch has every key in rising order, a deleted one too.
    (Call::Anew(2), Answer::Yes),
    (Call::Put(1, 6), Answer::Yes),
    (Call::Put(1, 2), Answer::Yes),
    (Call::Del(2, 6), Answer::Yes),
    (Call::Commit(1), Answer::Yes),
    (Call::Commit(2), Answer::Yes),
    (Call::Round, Answer::Yes),
    (Call::Round, Answer::Yes),
    (
        Call::Close,
        Answer::Wrote(Some(Wrote::Put(2)), Some(Wrote::Del(6))),
    ),
    // An epoch runs beside a closed one.
    (Call::Anew(2), Answer::Yes),
    (Call::Put(1, 5), Answer::Yes),
    (Call::Commit(1), Answer::Yes),
    (Call::Round, Answer::Yes),
    (Call::Round, Answer::Yes),
    (Call::Close, Answer::Wrote(Some(Wrote::Put(5)), None)),
    (Call::Begin(1), Answer::Not),
    (
        Call::Begin(3),
        Answer::Began {
            epoch: 2,
            ticket: 1,
        },
    ),
    (Call::Round, Answer::Not),
    (Call::Publish, ONE_COMMITTED),
    (Call::Round, Answer::Yes),
    (
        Call::Begin(1),
        Answer::Began {
            epoch: 2,
            ticket: 2,
        },
    ),
];

const STOPS: &[Row] = &[
    // A stop aborts all at once, and its first fault stays.
    (Call::Anew(2), Answer::Yes),
    (Call::Put(1, 5), Answer::Yes),
    (Call::Get(2, 5), Answer::Seven),
    (Call::Stopped, Answer::Runs),
    (Call::Stop(Fault::SinkFault), Answer::Yes),
    (Call::Stop(Fault::Memory), Answer::Yes),
    (Call::Stopped, Answer::StoppedBy(Fault::SinkFault)),
    (Call::Settled(1), STOPPED),
    (Call::Settled(2), STOPPED),
    (Call::Begin(3), Answer::StoppedBy(Fault::SinkFault)),
    // A fault stops a closed epoch.
    (Call::Anew(2), Answer::Yes),
    (Call::Put(1, 5), Answer::Yes),
    (Call::Commit(1), Answer::Yes),
    (Call::Round, Answer::Yes),
    (Call::Round, Answer::Yes),
    (Call::Close, Answer::Wrote(Some(Wrote::Put(5)), None)),
    (Call::Stop(Fault::SinkFault), Answer::Yes),
    (Call::Settled(1), STOPPED),
    (Call::Settled(2), EPOCH_END),
    (Call::Publish, Answer::Not),
    // Want of memory leaves a closed epoch be.
    (Call::Anew(2), Answer::Yes),
    (Call::Put(1, 5), Answer::Yes),
    (Call::Commit(1), Answer::Yes),
    (Call::Round, Answer::Yes),
    (Call::Round, Answer::Yes),
    (Call::Close, Answer::Wrote(Some(Wrote::Put(5)), None)),
    (Call::Stop(Fault::Memory), Answer::Yes),
    (Call::Settled(1), Answer::Open),
    (Call::Publish, ONE_COMMITTED),
    (Call::Settled(1), Answer::Committed),
    (Call::Stopped, Answer::StoppedBy(Fault::Memory)),
    // A closed epoch in doubt is unsure.
    (Call::Anew(2), Answer::Yes),
    (Call::Put(1, 5), Answer::Yes),
    (Call::Commit(1), Answer::Yes),
    (Call::Round, Answer::Yes),
    (Call::Round, Answer::Yes),
    (Call::Close, Answer::Wrote(Some(Wrote::Put(5)), None)),
    (Call::Unsure(DOUBT), Answer::Yes),
    (Call::Settled(1), Answer::Unsure(1)),
    (Call::Settled(2), EPOCH_END),
    (Call::Stopped, Answer::StoppedBy(DOUBT)),
    (Call::Unsure(DOUBT), Answer::Not),
];

#[test]
fn calls_in_one_epoch_are_answered_so(rt: HostRuntime) {
    expect_all(&rt, rt.alloc(), ONE_EPOCH);
}

#[test]
fn calls_in_two_epochs_are_answered_so(rt: HostRuntime) {
    expect_all(&rt, rt.alloc(), TWO_EPOCHS);
}

#[test]
fn calls_at_a_stop_are_answered_so(rt: HostRuntime) {
    expect_all(&rt, rt.alloc(), STOPS);
}
