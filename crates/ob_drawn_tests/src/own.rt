//! One client's calls beside two different sets of others' calls: its shares refuse the same ones.

use crate::drawn::{SETUPS, call, key_of, setup_of};
use crate::pair::{Drawn, Pair, Random, Setup, begin, get, poll, round, write};
use crate::plain::{note, past};
use crate::playing::{Run, play};
use ob_base::{Key, Value};
use ob_desk::{Desk, Txn};
use ob_desk_calls as calls;
use ob_serial::{Outcome, Why};
use std::alloc::Global;
use std::process::Abort;

/// What the client of whom it is asked does: a get of a key, or a put.
#[derive(Clone, Copy)]
pub struct Access {
    key: Key,
    puts: bool,
}

fn accesses(rt: &impl Abort, alloc: Global, random: &mut Random, setup: &Setup) -> Vec<Access> {
    let mut list = Vec::new(alloc);
    for _ in 0..10 {
        let access = Access {
            key: key_of(random, setup),
            puts: random.below(2) == 0,
        };
        list.push(access).expect(rt, "memory");
    }
    list
}

// Which of these are refused, where the client's own names decide.
fn wanted(rt: &impl Abort, alloc: Global, setup: &Setup, own: &[Access]) -> Vec<bool> {
    let mut read = Vec::new(alloc);
    let mut changed = Vec::new(alloc);
    let mut list = Vec::new(alloc);
    for access in own {
        let (share, names) = if access.puts {
            (setup.shares.writes, &mut changed)
        } else {
            (setup.shares.reads, &mut read)
        };
        let refused = past(share, names, 1, access.key).is_some();
        if !refused {
            note(rt, names, 1, access.key);
        }
        list.push(refused).expect(rt, "memory");
    }
    list
}

// The first client's transaction: its last one, where that isn't aborted, once its get is answered,
// else one that begins now. None where an answer isn't the plain desk's.
fn ready(rt: &impl Abort, pair: &mut Pair) -> Option<Txn> {
    for _ in 0..9 {
        let Some(txn) = pair.plain.last(1) else {
            if !begin(rt, pair, 1) {
                return None;
            }
            continue;
        };
        let alike = if pair.plain.outcome(&txn).is_some() {
            begin(rt, pair, 1)
        } else if pair.plain.waits_for(&txn).is_some() {
            round(rt, pair) && poll(rt, pair, &txn)
        } else {
            return Some(txn);
        };
        if !alike {
            return None;
        }
    }
    None
}

// Some calls of others, and batches: whether they are answered alike.
fn others(rt: &impl Abort, pair: &mut Pair, setup: &Setup) -> bool {
    for _ in 0..pair.drawn.random.below(6) {
        let client = (pair.drawn.random.below(7) as u32).saturating_add(2);
        let alike = if pair.drawn.random.below(9) == 0 {
            round(rt, pair)
        } else {
            call(rt, pair, setup, client)
        };
        if !alike {
            return false;
        }
    }
    true
}

// Whether the transaction was aborted by a share.
fn is_refused(desk: &Desk, txn: &Txn) -> bool {
    match calls::settled(desk, txn) {
        Some(Some(Outcome::Aborted { why })) => {
            matches!(why, Why::ShareReads { .. } | Why::ShareWrites { .. })
        }
        _ => false,
    }
}

// Makes the access, behind some calls of others: whether a share refuses it. None where an answer
// isn't the plain desk's.
fn make_access(rt: &impl Abort, pair: &mut Pair, setup: &Setup, access: &Access) -> Option<bool> {
    if !others(rt, pair, setup) {
        return None;
    }
    let txn = ready(rt, pair)?;
    let alike = if access.puts {
        write(rt, pair, &txn, access.key, &Value::new(b"v"))
    } else {
        get(rt, pair, &txn, access.key)
    };
    if !alike {
        return None;
    }
    Some(is_refused(&pair.desk, &txn))
}

/// Makes these calls of the first client, each behind some calls of others that are drawn, and notes
/// which of them a share refuses. Whether each call is answered alike.
pub fn make_all(
    rt: &impl Abort,
    pair: &mut Pair,
    setup: &Setup,
    own: &[Access],
    refused: &mut Vec<bool>,
) -> bool {
    for one in own {
        match make_access(rt, pair, setup, one) {
            Some(so) => refused.push(so).expect(rt, "memory"),
            None => return false,
        }
    }
    true
}

// Whether just those are refused that are wanted, beside calls of others that are drawn.
fn are_refused(
    rt: &impl Abort,
    alloc: Global,
    setup: &Setup,
    own: &[Access],
    wanted: &[bool],
    random: &mut Random,
) -> bool {
    let state = random.below(1 << 31);
    let mut drawn = Drawn {
        random: Random { state },
        causes: [0; 8],
    };
    let mut refused = Vec::new(alloc);
    let alike = play(
        rt,
        alloc,
        setup,
        &mut drawn,
        &Run::Beside(own),
        &mut refused,
    );
    alike && refused.as_slice() == wanted
}

fn count(list: &[bool]) -> u64 {
    let mut many: u64 = 0;
    for is_so in list {
        many = many.saturating_add(u64::from(*is_so));
    }
    many
}

// How many of some calls of the first client are refused: the same beside two sets of others' calls.
fn refusals(rt: &impl Abort, alloc: Global, setup: &Setup, random: &mut Random) -> u64 {
    let own = accesses(rt, alloc, random, setup);
    let wanted = wanted(rt, alloc, setup, &own);
    for _ in 0..2 {
        assert!(rt; are_refused(rt, alloc, setup, &own, &wanted, random));
    }
    count(&wanted)
}

#[test]
fn shares_refuse_the_same_calls_beside_other_calls_of_others(rt: HostRuntime) {
    let mut random = Random { state: 2 };
    let mut many: u64 = 0;
    for row in 0..2000 {
        many = many.saturating_add(refusals(&rt, rt.alloc(), &setup_of(row), &mut random));
    }
    assert!(rt; many >= 1000);
}
