//! Runs whose clients have shares: who goes past one is aborted, and which shares are refused.

use crate::playing::{call_on, expect, insist, parted, play_all, text_of};
use ob_mem::{BareStore, MemSink};
use ob_top_calls::{Txn, ask_for, push_client, push_txn};
use std::process::Abort;
use std::sync::Wait;
use std::thread::Threads;

// Where a client goes past its share of writes, and where it would take another one's places.
const WRITES: &str = "\
    format S K 8 2 2 3 2 2 2 2 8 <  -> 0 store of 109 cells/\n\
    run S K --turns --writes 1 < client 1/begin/put 0 a/put 1 b/commit/\
    client 2/begin/put 2 c/commit -> \
    0 epoch 1/txn 1 client 1 aborted share writes 1/put 0 a/\
    txn 2 client 2 committed/put 2 c/\n\
    run S K --turns < client 1/begin/put 0 a/put 1 b/commit/client 2/begin/put 2 c/commit -> \
    0 epoch 2/txn 1 client 1 aborted writes full keys 2/put 0 a/txn 2 client 2 committed/put 2 c/\n\
    run S K --turns --writes 2 < client 1/begin/put 0 a/put 1 b/commit/\
    client 2/begin/put 2 c/commit -> 2 fault: parameter WRITES/";

// The same of reads. A key counts once, also where what is read is the client's own.
const READS: &str = "\
    format S K 8 2 2 3 2 2 2 2 8 <  -> 0 store of 109 cells/\n\
    run S K --turns --reads 1 < client 1/begin/get 0/get 1/commit/client 2/begin/get 1/commit -> \
    0 epoch 1/txn 1 client 1 aborted share reads 1/get 0 absent/\
    txn 2 client 2 committed/get 1 absent/\n\
    run S K --turns --reads 1 < client 1/begin/get 0/get 0/commit/begin/get 3/commit/\
    client 2/begin/get 1/put 4 z/get 4/commit -> \
    0 epoch 2/txn 1 client 1 committed/get 0 absent/get 0 absent/\
    txn 2 client 2 aborted share reads 1/get 1 absent/put 4 z/\
    epoch 3/txn 1 client 1 committed/get 3 absent/";

// An add names its key twice: by a get, and by a put where there is a sum.
const ADDS: &str = "\
    format S K 8 2 2 3 2 2 2 2 8 <  -> 0 store of 109 cells/\n\
    run S K --turns --reads 1 --writes 1 < client 1/begin/add 0 1/put 0 x/get 0/commit/\
    client 2/begin/add 1 1/add 2 1/commit -> \
    0 epoch 1/txn 1 client 1 committed/get 0 absent/put 0 1/put 0 x/get 0 = x/\
    txn 2 client 2 aborted share reads 1/get 1 absent/put 1 1/\n\
    run S K --turns --writes 1 < client 1/begin/add 3 1/put 4 x/commit -> \
    0 epoch 2/txn 1 client 1 aborted share writes 1/get 3 absent/put 3 1/";

// A share of reads bounds no batches, of which gets that come one after another take one each.
const BATCHES: &str = "\
    format S K 8 2 2 3 2 2 2 2 8 <  -> 0 store of 109 cells/\n\
    run S K --turns --reads 2 < client 1/begin/get 0/get 1/get 2/commit -> \
    0 epoch 1/txn 1 client 1 aborted share reads 2/get 0 absent/get 1 absent/\n\
    run S K --turns < client 1/begin/get 0/get 1/get 2/commit -> \
    0 epoch 2/txn 1 client 1 aborted reads full queued 0 left 0/get 0 absent/get 1 absent/";

#[test]
fn who_goes_past_its_share_is_aborted(rt: HostRuntime) {
    play_all(&rt, &[WRITES, READS, ADDS, BATCHES]);
}

// Shares that are no numbers, 0, or too large for the clients of the script: that of reads is told
// first, behind the script and before the opening.
const REFUSED: &str = "\
    format S K 8 2 2 3 2 2 2 2 8 <  -> 0 store of 109 cells/\n\
    crash\n\
    run S K --reads 3 < client 1/client 2 -> 2 fault: parameter READS/\n\
    run S K --reads 0 < client 1/client 2 -> 2 fault: parameter READS/\n\
    run S K --reads 01 < client 1 -> 2 fault: parameter READS/\n\
    run S K --reads 4294967296 <  -> 2 fault: parameter READS/\n\
    run S K --reads x <  -> 2 fault: parameter READS/\n\
    run S K --writes x <  -> 2 fault: parameter WRITES/\n\
    run S K --writes 0 --reads 1 <  -> 2 fault: parameter WRITES/\n\
    run S K --reads 0 --writes 0 <  -> 2 fault: parameter READS/\n\
    run S K --reads 9 < begin -> 2 fault: script line 1/\n\
    run S K --reads 1 --reads 1 <  -> 2 fault: usage/\n\
    run S K --reads -1 <  -> 2 fault: usage/\n\
    run S K --reads 0 --lanes 0 <  -> 2 fault: parameter LANES/\n\
    run S K --reads 4000 --writes 4294967295 <  -> 0 ";

// The head alone is read then, so what an opening would find isn't told.
const UNOPENED: &str = "\
    format S K 8 2 2 3 2 2 2 2 8 <  -> 0 store of 109 cells/\n\
    crash\n\
    flip 1\n\
    flip 2\n\
    flip 3\n\
    flip 4\n\
    run S K --reads 0 < client 1 -> 2 fault: parameter READS/";

#[test]
fn shares_that_clients_may_not_have_are_refused(rt: HostRuntime) {
    play_all(&rt, &[REFUSED, UNOPENED]);
}

// What counts: a put that a conflict refused names its key; one that goes past the share names none.
const COUNTED: &str = "\
    format S K 8 2 2 3 2 2 2 2 8 <  -> 0 store of 109 cells/\n\
    run S K --turns --writes 1 < client 1/begin/get 7/put 5 a/commit/begin/put 6 b/commit/\
    client 2/begin/get 5/get 5/get 5/get 5/commit -> \
    0 epoch 1/txn 1 client 1 aborted conflict key 5 reader 2/get 7 absent/\
    txn 2 client 2 committed/get 5 absent/get 5 absent/get 5 absent/get 5 absent/\
    txn 3 client 1 aborted share writes 1/\n\
    run S K --turns --writes 1 < client 1/begin/put 0 a/put 1 b/commit/begin/put 0 c/commit -> \
    0 epoch 2/txn 1 client 1 aborted share writes 1/put 0 a/txn 2 client 1 committed/put 0 c/";

#[test]
fn a_refused_put_counts_and_one_past_the_share_does_not(rt: HostRuntime) {
    play_all(&rt, &[COUNTED]);
}

// The store of a run of 64 clients, and how many cells it has.
const BUSY: &str = "format S K 1024 8 4 6 4 64 64 8 256 < ";

const BUSY_TOLD: &str = "0 store of 11691 cells/";

const BUSY_CELLS: usize = 11_691;

// A transaction of a script. The first client names another key in each, and two in every third;
// each of the others names its own.
fn busy_or_calm(client: u64, number: u64) -> Txn {
    let busy = client == 1;
    let read = if busy {
        number.wrapping_mul(7).wrapping_add(2)
    } else {
        client
    };
    let two = busy && number % 3 == 2;
    Txn {
        client,
        number,
        read,
        written: read.wrapping_add(u64::from(two)),
        reads_back: true,
    }
}

// A script of 64 clients, each with six such transactions.
fn busy_and_calm<R: AllocGlobal + Abort>(rt: &R) -> String {
    let mut script = String::new(rt.alloc());
    for client in 1..65_u64 {
        push_client(rt.alloc(), &mut script, client).expect(rt, "memory");
        for number in 0..6_u64 {
            let txn = busy_or_calm(client, number);
            push_txn(rt.alloc(), &mut script, txn).expect(rt, "memory");
        }
    }
    script
}

// Whether an outcome is one that shares don't shield from, or no abort.
fn is_unshielded(outcome: &str) -> bool {
    outcome == "committed"
        || outcome == "aborted reads full queued 0 left 0"
        || outcome.starts_with("aborted conflict ")
        || outcome.starts_with("aborted depends on ")
}

// What is told of a run of 64 clients with shares of one, over a new store.
fn told_of_busy<R: AllocGlobal + Threads + Wait + Sync + Abort>(rt: &R) -> MemSink {
    let made = BareStore::new(rt.alloc(), BUSY_CELLS);
    let mut store = made.ok().expect(rt, "memory");
    expect(rt, &mut store, &[], BUSY, BUSY_TOLD);
    let script = busy_and_calm(rt);
    let mut ask = ask_for("run S K --reads 1 --writes 1", script.as_str());
    ask.room = 1_000_000;
    let ran = call_on(rt, &mut store, &ask);
    insist(rt, ran.status == 0, ask.words);
    ran.output
}

// Looks at a line: 1 where it is an outcome of another client than the first, none of which is an
// abort that shares shield from.
fn calm_in<R: Abort>(rt: &R, line: &str) -> u64 {
    let Some(rest) = line.strip_prefix("txn ") else {
        return 0;
    };
    let (_ticket, rest) = parted(rt, rest, " client ");
    let (client, outcome) = parted(rt, rest, " ");
    insist(rt, client == "1" || is_unshielded(outcome), line);
    u64::from(client != "1")
}

#[test]
fn a_busy_client_takes_no_others_places(rt: HostRuntime) {
    let told = told_of_busy(&rt);
    let mut calm: u64 = 0;
    for line in text_of(&rt, told.written()).lines() {
        calm = calm.saturating_add(calm_in(&rt, line));
    }
    insist(&rt, calm == 378, "transactions of calm clients");
}
