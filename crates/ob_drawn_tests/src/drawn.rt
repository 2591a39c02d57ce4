//! Histories that are drawn, of eight clients, with shares and without: a desk answers each call as a
//! plain desk does.

use crate::pair::{
    CLIENTS, Drawn, Pair, Random, Setup, abort, begin, close, commit, get, look, poll, publish,
    round, settled, write,
};
use crate::playing::{Run, play};
use ob_base::{Key, Value};
use ob_desk::Txn;
use ob_shares::Shares;
use std::alloc::Global;
use std::process::Abort;

// How many keys, batches, places of a batch and places for writes there are, and the shares of gets,
// and of puts and deletes: of both kinds, of either and of none, each with just so many places as they
// need. Where there is none, places are few.
type Row = (u32, u32, u32, u32, Option<u32>, Option<u32>);

static ROWS: [Row; 5] = [
    (24, 2, 8, 8, Some(1), Some(1)),
    (24, 3, 16, 16, Some(2), Some(2)),
    (24, 2, 16, 2, Some(2), None),
    (24, 3, 2, 8, None, Some(1)),
    (12, 2, 2, 2, None, None),
];

/// How many rows there are.
pub const SETUPS: usize = 5;

/// The setup of a row.
pub fn setup_of(row: usize) -> Setup {
    let (keys, batches, places, writes, read, changed) = ROWS[row % SETUPS];
    Setup {
        keys,
        batches,
        places,
        writes,
        shares: Shares {
            reads: read,
            writes: changed,
        },
    }
}

/// One of the first keys, or at each fourth time one of all.
pub fn key_of(random: &mut Random, setup: &Setup) -> Key {
    let keys = if random.below(4) == 0 { setup.keys } else { 4 };
    random.below(u64::from(keys.max(1))) as Key
}

// A value of one byte, or at each fifth time none.
fn value_of(random: &mut Random) -> Option<Value> {
    let byte = random.below(256) as u8;
    if random.below(5) == 0 {
        return None;
    }
    Value::new(&[byte])
}

// Which kind of call it is, of 16: most often one that the transaction may make.
fn kind_of(pair: &mut Pair, txn: &Txn) -> u64 {
    let kind = pair.drawn.random.below(16);
    if kind < 12 && pair.plain.outcome(txn).is_some() {
        return 15;
    }
    if kind < 11 && pair.plain.waits_for(txn).is_some() {
        return 12;
    }
    kind
}

/// A call of a client. Whether it is answered alike.
pub fn call(rt: &impl Abort, pair: &mut Pair, setup: &Setup, client: u32) -> bool {
    let Some(txn) = pair.plain.last(client) else {
        return begin(rt, pair, client);
    };
    let key = key_of(&mut pair.drawn.random, setup);
    match kind_of(pair, &txn) {
        0..=4 => get(rt, pair, &txn, key),
        5..=9 => {
            let value = value_of(&mut pair.drawn.random);
            write(rt, pair, &txn, key, &value)
        }
        10 | 11 => commit(pair, &txn),
        12 => poll(rt, pair, &txn),
        13 => settled(pair, &txn),
        14 => abort(pair, &txn),
        _ => begin(rt, pair, client),
    }
}

// A call of the driver. Whether it is answered alike.
fn drive(rt: &impl Abort, pair: &mut Pair) -> bool {
    match pair.drawn.random.below(8) {
        0 | 1 => round(rt, pair),
        2..=4 => close(rt, pair),
        5 | 6 => publish(rt, pair),
        _ => look(pair),
    }
}

/// So many calls that are drawn: whether all are answered alike.
pub fn are_alike(rt: &impl Abort, pair: &mut Pair, setup: &Setup, calls: u32) -> bool {
    for _ in 0..calls {
        let client = (pair.drawn.random.below(u64::from(CLIENTS)) as u32).saturating_add(1);
        let alike = if pair.drawn.random.below(8) == 0 {
            drive(rt, pair)
        } else {
            call(rt, pair, setup, client)
        };
        if !alike {
            return false;
        }
    }
    true
}

// Histories of 120 calls: whether each call is answered alike.
fn histories(rt: &impl Abort, alloc: Global, drawn: &mut Drawn) -> bool {
    let mut none = Vec::new(alloc);
    for _ in 0..800 {
        for row in 0..SETUPS {
            if !play(
                rt,
                alloc,
                &setup_of(row),
                drawn,
                &Run::Drawn(120),
                &mut none,
            ) {
                return false;
            }
        }
    }
    true
}

// Whether each cause of an abort but a stop came often.
fn came_often(causes: &[u64; 8]) -> bool {
    for many in causes {
        if *many < 300 {
            return false;
        }
    }
    true
}

#[test]
fn drawn_histories_are_answered_as_by_a_plain_desk(rt: HostRuntime) {
    let mut drawn = Drawn {
        random: Random { state: 1 },
        causes: [0; 8],
    };
    assert!(rt; histories(&rt, rt.alloc(), &mut drawn) && came_often(&drawn.causes));
}
