//! Runs over stores whose numbers are at their end.

use crate::cut::is_traced;
use crate::playing::{PUT, insist};
use crate::rows::stand;
use ob_top_calls::{WIDE, ask_for, let_go};
use std::process::Abort;
use std::sync::Wait;
use std::thread::Threads;

// A run over what stands before it, which is told of it, shows these lines, and makes so many writes and
// syncs.
fn expect_worn<R: AllocGlobal + Threads + Wait + Sync + Abort>(
    rt: &R,
    found: &str,
    shown: &str,
    steps: usize,
) {
    let mut store = stand(rt, found);
    let wanted = store.moments().saturating_add(steps);
    let mut ask = ask_for("run S K --trace T", PUT);
    ask.trace = Some(WIDE);
    let told = "fault: worn at 4611686018427387904/";
    let so = is_traced(rt, &mut store, &ask, 8, told, shown);
    insist(rt, so && store.moments() == wanted, shown);
    let_go(store);
}

// The generation's register has it: the store is read, and neither written nor synced.
const READ: &str = "\
    O/R 0/R 1/R 2/R 3/R 4/R 5/R 6/R 7/R 8/R 17/R 18/R 19/R 20/R 21/R 22/R 23/R 24/R 25/R 26/R 27/\
    R 13/R 14/R 15/R 16/";

#[test]
fn no_run_begins_behind_the_last_generation(rt: HostRuntime) {
    expect_worn(&rt, "new, stamp 3 0 4611686018427387903 8", READ, 0);
}

// The epoch's register has it, and area 1 the checkpoint, which is that of a new store.
const LAST: &str = "\
    new, move 17 28, move 18 29, move 19 30, move 20 31, move 21 32, move 22 33, move 23 34, \
    move 24 35, move 25 36, move 26 37, move 27 38, seal 28 0 4611686018427387903 8, \
    stamp 7 0 4611686018427387903 8, open 8";

// The opening and both batches are shown, and nothing of an end.
const SHOWN: &str = "\
    O/R 0/R 1/R 2/R 3/R 4/R 5/R 6/R 7/R 8/R 28/R 29/R 30/R 31/R 32/R 33/R 34/R 35/R 36/R 37/R 38/\
    R 9/R 10/R 11/R 12/S/W 1/S/W 2/S/W 9/S/W 10/S/L 0/R 41/R 46/R 56/L 0/R 42/R 47/R 57/W 11/S/\
    W 12/S/L 0/R 43/R 39/R 40/R 48/R 44/R 45/R 58/R 54/R 55/L 0/";

#[test]
fn no_epoch_ends_behind_the_last(rt: HostRuntime) {
    expect_worn(&rt, LAST, SHOWN, 13);
}
