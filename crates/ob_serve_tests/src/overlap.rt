//! Clients that go on while a ring store holds a batch, or the end of an epoch before.

ghost use Rattle.std.specs.Prelude.{◌≡◌};

use crate::insist;
use crate::ring::{new_store, new_tape, open_ring};
use crate::runs::{NEVER, Run, Went, run_pair};
use crate::scripted::Hold;
use ob_base::{Fault, Key};
use ob_conduct::RunErr;
use ob_lanes::Lanes;
use ob_mem::{Fail, HoldStore};
use ob_seal::ListTape;
use ob_serial::{Outcome, Vault, Why};
use std::alloc::Global;
use std::process::Abort;
use std::sync::Wait;
use std::thread::Threads;

// ---- rows

// How two clients' run over a store that holds a write goes, and the run behind it.
struct Row {
    // A call of the store that fails, and the run.
    fail: Fail,
    run: Run,
    // How the run ends, and what each client was told.
    fault: Option<RunErr>,
    first: Outcome<Key>,
    second: Option<Outcome<Key>>,
    refused: Option<Fault>,
    // What is among the lines of each epoch, or that there are none; nothing where it isn't sure
    // whether both clients come in one epoch.
    lines: Option<[&'static str; 2]>,
    // What the next run may write.
    next: &'static [&'static [u8]],
}

// The body of the record of the first epoch's first batch, which is written before the batch is
// read.
const RECORD: u64 = 13;

// The first cell of the checkpoint that the first epoch's end writes. Counted from 0 that is write
// 93; the register's body is 106, and its gate, the end's last write, 107.
const CHECKPOINT: u64 = 28;

// So often the store gives way before it waits no more.
const TURNS: u64 = 10_000_000;

const FIRST_LINES: &str = "client 1 committed\nput 5 a\n";

const SECOND_LINES: &str = "client 2 committed\nput 6 b\n";

const BATCH_IN_ONE: &[u8] = b"epoch 2\ntxn 1 client 1 committed\ntxn 2 client 2 committed\n\
    epoch 3\ntxn 1 client 1 committed\nget 5 absent\ntxn 2 client 2 committed\nget 6 = b\n";

const BATCH_IN_TWO: &[u8] = b"epoch 3\ntxn 1 client 1 committed\ntxn 2 client 2 committed\n\
    epoch 4\ntxn 1 client 1 committed\nget 5 absent\ntxn 2 client 2 committed\nget 6 = b\n";

const NONE_READ: &[u8] = b"epoch 1\ntxn 1 client 1 committed\ntxn 2 client 2 committed\n\
    epoch 2\ntxn 1 client 1 committed\nget 5 absent\ntxn 2 client 2 committed\nget 6 absent\n";

const ONE_READ: &[u8] = b"epoch 2\ntxn 1 client 1 committed\ntxn 2 client 2 committed\n\
    epoch 3\ntxn 1 client 1 committed\nget 5 = a\ntxn 2 client 2 committed\nget 6 absent\n";

const BOTH_READ: &[u8] = b"epoch 3\ntxn 1 client 1 committed\ntxn 2 client 2 committed\n\
    epoch 4\ntxn 1 client 1 committed\nget 5 = a\ntxn 2 client 2 committed\nget 6 = b\n";

const FAILED: Fault = Fault::StoreFault { unsure: None };

const DOUBT: Fault = Fault::StoreFault { unsure: Some(1) };

const FAILED_ALL: Outcome<Key> = Outcome::Aborted {
    why: Why::Stopped { fault: FAILED },
};

const DOUBTED: Outcome<Key> = Outcome::Aborted {
    why: Why::Stopped { fault: DOUBT },
};

const GOES_ON: Run = Run::End {
    room: 1000,
    stops: false,
};

const ROWS: &[Row] = &[
    // A client asks again while the first batch is read, and both commit.
    Row {
        fail: NEVER,
        run: Run::Batch,
        fault: None,
        first: Outcome::Committed,
        second: Some(Outcome::Committed),
        refused: None,
        lines: None,
        next: &[BATCH_IN_ONE, BATCH_IN_TWO],
    },
    // Both commit, each in its epoch.
    Row {
        fail: NEVER,
        run: GOES_ON,
        fault: None,
        first: Outcome::Committed,
        second: Some(Outcome::Committed),
        refused: None,
        lines: Some([FIRST_LINES, SECOND_LINES]),
        next: &[BOTH_READ],
    },
    // The body of the register fails, behind the held write: both epochs are stopped.
    Row {
        fail: Fail::Write(106),
        run: GOES_ON,
        fault: Some(RunErr::Fault(FAILED)),
        first: FAILED_ALL,
        second: Some(FAILED_ALL),
        refused: None,
        lines: Some(["", ""]),
        next: &[NONE_READ],
    },
    // The register's gate fails: the end is in doubt, and the next epoch is stopped.
    Row {
        fail: Fail::Write(107),
        run: GOES_ON,
        fault: Some(RunErr::Fault(DOUBT)),
        first: Outcome::Unsure { epoch: 1 },
        second: Some(DOUBTED),
        refused: None,
        lines: Some(["", ""]),
        next: &[NONE_READ, ONE_READ],
    },
    // The desk is stopped for want of memory meanwhile: the closed epoch is published all the same.
    Row {
        fail: NEVER,
        run: Run::End {
            room: 1000,
            stops: true,
        },
        fault: Some(RunErr::Fault(Fault::Memory)),
        first: Outcome::Committed,
        second: None,
        refused: Some(Fault::Memory),
        lines: Some([FIRST_LINES, ""]),
        next: &[ONE_READ],
    },
    // And then the output fails: that is told, and the desk stays stopped for memory.
    Row {
        fail: NEVER,
        run: Run::End {
            room: 3,
            stops: true,
        },
        fault: Some(RunErr::Fault(Fault::SinkFault)),
        first: Outcome::Committed,
        second: None,
        refused: Some(Fault::Memory),
        lines: Some(["epo", ""]),
        next: &[ONE_READ],
    },
];

// ---- playing them

// Whether the text has this part, or is empty where that is.
fn has(text: &str, part: &str) -> bool {
    text.contains(part) && text.is_empty() == part.is_empty()
}

// Whether the lines of both epochs are as the row says.
fn tells(written: &[u8], row: &Row) -> bool {
    let Some(lines) = row.lines else {
        return true;
    };
    let Ok(text) = str::from_utf8(written) else {
        return false;
    };
    let (first, second) = text.split_once("epoch 2\n").unwrap_or((text, ""));
    has(first, lines[0]) && has(second, lines[1])
}

fn is_one_of(written: &[u8], all: &[&[u8]]) -> bool {
    for one in all {
        if *one == written {
            return true;
        }
    }
    false
}

// Runs both clients over a vault that is opened at a store.
fn run_ring<'a, R: Threads + Wait + Sync + Abort, S: Lanes>(
    rt: &R,
    alloc: Global,
    store: &'a mut S,
    tape: &'a mut ListTape,
    hold: &Hold,
    run: Run,
) -> (Went, &'a mut S)
    requires none_out { (S.disk store.old).out ≡ 0 }
    requires unstarted { tape.old.generation ≡ 0 }
    ensures { (S.disk result.1.now).out ≡ 0 }
{
    let mut vault = open_ring(rt, alloc, store, tape);
    let params = vault.params();
    let went = run_pair(rt, alloc, &params, &mut vault, hold, run);
    let (store, _) = vault.into_lent();
    (went, store)
}

// Whether the run over a store that holds a write went as the row says.
fn went_so(went: &Went, row: &Row) -> bool {
    went.fault == row.fault
        && went.reached
        && went.first.outcome == Some(row.first)
        && went.first.refused.is_none()
        && went.second.outcome == row.second
        && went.second.refused == row.refused
        && tells(went.output.written(), row)
}

// Whether the next run went well, and wrote what the row says.
fn went_on(went: &Went, row: &Row) -> bool {
    went.fault.is_none() && is_one_of(went.output.written(), row.next)
}

// The cell whose first write is held.
fn cell_of(run: Run) -> u64 {
    match run {
        Run::Batch => RECORD,
        _ => CHECKPOINT,
    }
}

// Whether a row goes as it says.
fn plays_so<R: Threads + Wait + Sync + Abort>(rt: &R, alloc: Global, row: &Row) -> bool {
    let hold = Hold::new(false);
    let store = new_store(rt, alloc, row.fail);
    let cell = cell_of(row.run);
    let mut held = HoldStore::new(store, cell, TURNS, &hold.reached, &hold.release);
    let (mut tape, mut other) = (new_tape(rt, alloc), new_tape(rt, alloc));
    let (first, store) = run_ring(rt, alloc, &mut held, &mut tape, &hold, row.run);
    let (next, _) = run_ring(rt, alloc, store, &mut other, &hold, Run::Next);
    went_so(&first, row) && went_on(&next, row)
}

// Were the turn kept through the batch or the end, the client that lets it go could go on only
// behind it: the store would wait for it in vain, and fail.
#[test]
fn a_client_goes_on_beside_a_batch_or_an_end_that_is_held(rt: HostRuntime) {
    for (i, row) in ROWS.iter().enumerate() {
        insist(&rt, plays_so(&rt, rt.alloc(), row), i);
    }
}
