//! Runs of many clients, of one, and of none, over a store of 16 keys.

use crate::playing::{call_on, insist, parted, play, text_of};
use crate::replay::replayed;
use ob_mem::MemSink;
use ob_top_calls::{Txn, ask_for, has, let_noting_go, push_client, push_txn};
use std::process::Abort;
use std::sync::Wait;
use std::thread::Threads;

// How many transactions each of 64 clients has.
const TXNS: u64 = 50;

// A client's transactions over 16 keys, so many.
fn push_txns<R: AllocGlobal + Abort>(rt: &R, script: &mut String, client: u64, txns: u64) {
    for number in 0..txns {
        let read = client.wrapping_mul(7).wrapping_add(number.wrapping_mul(3));
        let txn = Txn {
            client,
            number,
            read: read % 16,
            written: client.wrapping_mul(5).wrapping_add(number) % 16,
            reads_back: false,
        };
        push_txn(rt.alloc(), script, txn).expect(rt, "memory");
    }
}

// A script of 64 clients, each with so many transactions.
fn many_clients<R: AllocGlobal + Abort>(rt: &R, txns: u64) -> String {
    let mut script = String::new(rt.alloc());
    for client in 1..65_u64 {
        push_client(rt.alloc(), &mut script, client).expect(rt, "memory");
        push_txns(rt, &mut script, client, txns);
    }
    script
}

// What is written of a run that goes well, over a new store.
fn told_by<R: AllocGlobal + Threads + Wait + Sync + Abort>(
    rt: &R,
    words: &str,
    script: &str,
) -> MemSink {
    let format = "format S K 16 2 4 3 4 4 16 2 16 <  -> 0 store of 161 cells/";
    let mut store = play(rt, 161, &[], format);
    let mut ask = ask_for(words, script);
    ask.room = 1_000_000;
    let answer = call_on(rt, &mut store, &ask);
    insist(rt, answer.status == 0, words);
    let_noting_go(store);
    answer.output
}

static WAYS: [&str; 4] = ["run S K", "run S K", "run S K", "run S K --turns"];

// Each report tells all transactions, of which the committed ones replay one by one.
#[test]
fn many_clients_are_served_one_by_one(rt: HostRuntime) {
    let script = many_clients(&rt, TXNS);
    for &words in &WAYS {
        let told = told_by(&rt, words, script.as_str());
        let txns = replayed(&rt, text_of(&rt, told.written()));
        insist(&rt, txns == 3200, words);
    }
}

// Scripts, and what is told.
const FEW: &str = "\
    # nobody/# calls/ -> \n\
    client 9/begin/put 5 hi/commit/begin/get 5/commit/ -> \
    epoch 1/txn 1 client 9 committed/put 5 hi/epoch 2/txn 1 client 9 committed/get 5 = hi/";

#[test]
fn one_client_is_served_and_none(rt: HostRuntime) {
    for line in FEW.lines() {
        let (script, wanted) = parted(&rt, line, " -> ");
        let told = told_by(&rt, "run S K", script);
        insist(&rt, has(&told, wanted), script);
    }
}

// No input, and 64 clients without a transaction.
#[test]
fn nothing_is_told_of_clients_at_rest(rt: HostRuntime) {
    let script = many_clients(&rt, 0);
    for script in ["", script.as_str()] {
        let told = told_by(&rt, "run S K", script);
        insist(&rt, told.written().is_empty(), script);
    }
}
