//! What calls over a store answer, one behind the other.

use crate::playing::{expect, play_all};
use ob_mem::BareStore;
use ob_top_calls::CELLS;

// The next run finds what the one before left.
const ONE_BY_ONE: &str = "\
    format S K 8 2 2 3 2 2 2 2 8 <  -> 0 store of 109 cells/\n\
    crash\n\
    run S K < client 1/begin/put 5 hi/commit/begin/get 5/commit/ -> \
    0 epoch 1/txn 1 client 1 committed/put 5 hi/epoch 2/txn 1 client 1 committed/get 5 = hi/\n\
    crash\n\
    run S K <  -> 0 \n\
    crash\n\
    run S K < client 7/begin/get 5/put 5 /get 5/get 4/commit/# done -> \
    0 epoch 3/txn 1 client 7 committed/get 5 = hi/put 5 /get 5 = /get 4 absent/\n\
    crash\n\
    run S K < client 1/begin/get 0/get 1/get 2/commit/begin/put 3 x/commit -> \
    0 epoch 4/txn 1 client 1 aborted reads full queued 0 left 0/get 0 absent/get 1 absent/\
    txn 2 client 1 committed/put 3 x/\n\
    crash\n\
    run S K < client 1/begin/put 0 a/put 1 b/put 2 c/commit/ -> \
    0 epoch 5/txn 1 client 1 aborted writes full keys 2/put 0 a/put 1 b/\n\
    crash\n\
    run S K < client 64/ -> 0 \n\
    crash\n\
    run S K < # nothing/# at all/ -> 0 ";

// Several clients share an epoch.
const SHARED: &str = "\
    format S K 8 2 2 3 2 2 2 2 8 <  -> 0 store of 109 cells/\n\
    crash\n\
    run S K --turns < client 1/begin/get 7/put 5 a/commit/client 2/begin/get 5/commit -> \
    0 epoch 1/txn 1 client 1 aborted conflict key 5 reader 2/get 7 absent/\
    txn 2 client 2 committed/get 5 absent/\n\
    crash\n\
    run S K --turns < client 3/begin/put 5 x/abort/begin/del 5/put 1 7/commit/\
    client 64/begin/get 5/commit/begin/add 1 -9/commit -> \
    0 epoch 2/txn 1 client 3 aborted asked/put 5 x/txn 2 client 64 aborted depends on 1/\
    get 5 = x/txn 3 client 3 committed/del 5/put 1 7/txn 4 client 64 committed/get 1 = 7/\
    put 1 -2/";

// No crash comes between these calls: what each promises is what the next one asks for.
const WITHOUT_CRASH: &str = "\
    format S K 8 2 2 3 2 2 2 2 8 <  -> 0 store of 109 cells/\n\
    run S K < client 1/begin/put 5 hi/commit/begin/get 5/commit/ -> \
    0 epoch 1/txn 1 client 1 committed/put 5 hi/epoch 2/txn 1 client 1 committed/get 5 = hi/\n\
    run S K < client 1/begin/get 5/commit/ -> \
    0 epoch 3/txn 1 client 1 committed/get 5 = hi/";

#[test]
fn calls_find_what_those_before_left(rt: HostRuntime) {
    play_all(&rt, &[ONE_BY_ONE, SHARED, WITHOUT_CRASH]);
}

// Lines that break the grammar, and values that are as long as may be or a byte longer.
const REFUSED_LINES: &str = "\
    format S K 8 2 2 3 2 2 2 2 8 <  -> 0 store of 109 cells/\n\
    crash\n\
    run S K < begin -> 2 fault: script line 1/\n\
    crash\n\
    run S K < client 65 -> 2 fault: script line 1/\n\
    crash\n\
    run S K < client 2/client 1 -> 2 fault: script line 2/\n\
    crash\n\
    run S K < client 1/begin/get 08/commit -> 2 fault: script line 3/\n\
    crash\n\
    run S K < client 1/begin/put 8 a/commit -> 2 fault: script line 3/\n\
    crash\n\
    run S K < client 1/begin/add 0 -0/commit -> 2 fault: script line 3/\n\
    crash\n\
    run S K < client 1/commit -> 2 fault: script line 2/\n\
    crash\n\
    run S K < client 1/begin/client 2 -> 2 fault: script line 3/\n\
    crash\n\
    run S K < client 1/begin/del 1 -> 2 fault: script line 4/\n\
    crash\n\
    run S K < client 1/begin/put 0 0123456789012345678901234567890123456789012345678901234567\
    8901234/ -> 2 fault: script line 3/\n\
    crash\n\
    run S K < client 1/begin/put 0 0123456789012345678901234567890123456789012345678901234567\
    890123/commit/ -> 0 epoch 1/txn 1 client 1 committed/put 0 012345678901234567890123456789\
    0123456789012345678901234567890123/";

#[test]
fn lines_that_break_the_grammar_are_refused(rt: HostRuntime) {
    play_all(&rt, &[REFUSED_LINES]);
}

// Calls over a store that tells its cells alone, and nothing of what a crash may leave.
static BARE: [(&str, &str); 3] = [
    ("format S K 8 2 2 3 2 2 2 2 8 < ", "0 store of 109 cells/"),
    (
        "run S K < client 1/begin/put 5 hi/commit",
        "0 epoch 1/txn 1 client 1 committed/put 5 hi/",
    ),
    (
        "run S K < client 1/begin/get 5/commit",
        "0 epoch 2/txn 1 client 1 committed/get 5 = hi/",
    ),
];

#[test]
fn a_store_that_tells_its_cells_alone_keeps_what_was_put(rt: HostRuntime) {
    let mut store = BareStore::new(rt.alloc(), CELLS).ok().expect(&rt, "memory");
    for i in 0..BARE.len() {
        expect(&rt, &mut store, &[], BARE[i].0, BARE[i].1);
    }
}
