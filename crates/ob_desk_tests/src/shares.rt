//! Worked cases of client shares: two clients, who may name one key each by gets, and one each by puts
//! and deletes.

use crate::desks::{Answer, Call, Row, expect_all};
use crate::rows::EPOCH_END;
use ob_serial::Why;

const ASKED: Answer = Answer::Aborted(Why::Asked);

const NO_BATCH: Answer = Answer::Aborted(Why::ReadsFull { queued: 0, left: 0 });

const PAST_READS: Answer = Answer::Aborted(Why::ShareReads { keys: 1 });

const PAST_WRITES: Answer = Answer::Aborted(Why::ShareWrites { keys: 1 });

const CONFLICT: Answer = Answer::Aborted(Why::Conflict { key: 5, reader: 2 });

const THIRD: Answer = Answer::Began {
    epoch: 1,
    ticket: 3,
};

const FOURTH: Answer = Answer::Began {
    epoch: 1,
    ticket: 4,
};

const NEXT: Answer = Answer::Began {
    epoch: 2,
    ticket: 1,
};

const SEEN: Answer = Answer::Seen {
    waiting: 0,
    live: 1,
    queued: 0,
    left: 1,
    txns: 2,
    clients: 2,
};

const SHARED: &[Row] = &[
    // With no batch left a get has no place, and names its key all the same.
    (Call::Shared(0), Answer::Yes),
    (Call::Get(1, 5), NO_BATCH),
    (Call::Begin(1), THIRD),
    (Call::Get(43, 6), PAST_READS),
    (Call::Begin(1), FOURTH),
    (Call::Get(44, 5), NO_BATCH),
    (Call::Get(2, 6), NO_BATCH),
    // A put that a conflict refuses names its key, and one that goes past names none.
    (Call::Shared(2), Answer::Yes),
    (Call::Get(2, 5), Answer::Queued),
    (Call::Round, Answer::Yes),
    (Call::Poll(2), Answer::Absent),
    (Call::Put(1, 5), CONFLICT),
    (Call::Begin(1), THIRD),
    (Call::Put(43, 6), PAST_WRITES),
    (Call::Begin(1), FOURTH),
    (Call::Put(44, 5), Answer::Yes),
    (Call::Del(44, 5), Answer::Yes),
    (Call::Put(44, 7), PAST_WRITES),
    // A call on an aborted transaction names nothing, and a get of one's own version does.
    (Call::Shared(2), Answer::Yes),
    (Call::Abort(1), ASKED),
    (Call::Put(1, 5), ASKED),
    (Call::Get(1, 5), ASKED),
    (Call::Begin(1), THIRD),
    (Call::Put(43, 6), Answer::Yes),
    (Call::Get(43, 6), Answer::Seven),
    (Call::Get(43, 5), PAST_READS),
    // A key that another client queued counts too, and a get that goes past queues nothing.
    (Call::Shared(2), Answer::Yes),
    (Call::Get(2, 5), Answer::Queued),
    (Call::Get(1, 5), Answer::Queued),
    (Call::Round, Answer::Yes),
    (Call::Poll(1), Answer::Absent),
    (Call::Get(1, 6), PAST_READS),
    (Call::Look, SEEN),
    // An abort gives no name back.
    (Call::Shared(2), Answer::Yes),
    (Call::Put(1, 5), Answer::Yes),
    (Call::Abort(1), ASKED),
    (Call::Begin(1), THIRD),
    (Call::Put(43, 6), PAST_WRITES),
    // The next epoch counts anew, also beside the closed one.
    (Call::Shared(1), Answer::Yes),
    (Call::Put(2, 5), Answer::Yes),
    (Call::Commit(1), Answer::Yes),
    (Call::Round, Answer::Yes),
    (Call::Close, Answer::Wrote(None, None)),
    (Call::Settled(2), EPOCH_END),
    (Call::Begin(2), NEXT),
    (Call::Put(21, 6), Answer::Yes),
    (Call::Put(21, 4), PAST_WRITES),
];

#[test]
fn calls_with_shares_are_answered_so(rt: HostRuntime) {
    expect_all(&rt, rt.alloc(), SHARED);
}
