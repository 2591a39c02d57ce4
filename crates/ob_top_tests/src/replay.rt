//! A report, replayed transaction by transaction.

ghost use Rattle.std.specs.Prelude.{◌<◌};

use crate::playing::{insist, number_of, parted};
use std::process::Abort;

/// What the committed transactions of a report leave, line by line. A value is the number of the
/// put that wrote it, from 1 on; 0 is none.
#[derive(Drop)]
struct Replay {
    values: [u64; 16],
    // By client, the number of its last put.
    last: [u64; 65],
    // Whether the lines are those of a committed transaction.
    counts: bool,
    txns: u64,
}

// A value tells its client and which of the client's 50 transactions put it: the client, and the
// number of the put. Where a key is absent that is 0.
fn put_of<R: Abort>(rt: &R, value: &str) -> (usize, u64)
    ensures { result.0 < 65 }
{
    if value == "absent" {
        return (0, 0);
    }
    let (client, txn) = parted(rt, value, "x");
    let (client, txn) = (number_of(rt, client), number_of(rt, txn));
    assert!(rt; client < 65 && txn < 50, "{value}");
    (client as usize, client * 50 + txn + 1)
}

// Takes an operation's line: a client's puts come in order, and a get of a committed transaction
// finds what the earlier ones left.
fn take_op<R: Abort>(rt: &R, replay: &mut Replay, name: &str, rest: &str) {
    let (key, value) = parted(rt, rest, " ");
    let key = number_of(rt, key) as usize;
    assert!(rt; key < 16, "{rest}");
    let value = if name == "put" {
        value
    } else {
        value.strip_prefix("= ").unwrap_or("absent")
    };
    let (client, put) = put_of(rt, value);
    if name == "put" {
        insist(rt, replay.last[client] < put, rest);
        replay.last[client] = put;
    }
    if !replay.counts {
        return;
    }
    if name == "put" {
        replay.values[key] = put;
    }
    insist(rt, replay.values[key] == put, rest);
}

fn take_line<R: Abort>(rt: &R, replay: &mut Replay, line: &str) {
    let (name, rest) = parted(rt, line, " ");
    match name {
        "epoch" => {}
        "txn" => {
            replay.counts = rest.ends_with(" committed");
            replay.txns = replay.txns.saturating_add(1);
        }
        _ => take_op(rt, replay, name, rest),
    }
}

/// Replays a report's committed transactions on 16 keys one by one: how many transactions it tells.
pub fn replayed<R: Abort>(rt: &R, report: &str) -> u64 {
    let mut replay = Replay {
        values: [0; 16],
        last: [0; 65],
        counts: false,
        txns: 0,
    };
    for line in report.lines() {
        take_line(rt, &mut replay, line);
    }
    replay.txns
}
