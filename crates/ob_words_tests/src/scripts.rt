//! Scripts, good and bad, line by line.

use crate::fixture::{compare, push};
use ob_base::{Fault, Key};
use ob_script::{Ask, Ending, LIMIT, ScriptTxn, Scripts, drill, parse};
use std::fmt::Display;
use std::process::Abort;

// The keys of the tests' scripts are below this.
const KEYS: u32 = 8;

// So many comments of one byte fill a script that begins with a line of nine bytes.
const COMMENTS: u64 = 524_283;

// Adds a number between texts.
fn push_number<R: Abort, D: Display + Drop>(
    rt: &R,
    all: &mut String,
    before: &str,
    number: D,
    after: &str,
) {
    write!(all, "{before}{number}{after}").expect(rt, "memory");
}

// Spells an operation, and a blank behind it.
fn push_ask<R: Abort>(rt: &R, all: &mut String, ask: &Ask) {
    match ask {
        Ask::Get { key } => push_number(rt, all, "get ", *key, " "),
        Ask::Put { key, value } => {
            push_number(rt, all, "put ", *key, " [");
            push(rt, all, str::from_utf8(value.as_slice()).unwrap_or("?"));
            push(rt, all, "] ");
        }
        Ask::Del { key } => push_number(rt, all, "del ", *key, " "),
        Ask::Add { key, amount } => {
            push_number(rt, all, "add ", *key, " ");
            push_number(rt, all, "", *amount, " ");
        }
    }
}

// Spells a transaction: its client, its operations, and a `.` where it commits or a `!` where it
// aborts.
fn push_txn<R: Abort>(rt: &R, all: &mut String, txn: &ScriptTxn) {
    push_number(rt, all, "", txn.client, ":");
    for ask in &txn.asks {
        push_ask(rt, all, ask);
    }
    match txn.ending {
        Ending::Commit => push(rt, all, "."),
        Ending::Abort => push(rt, all, "!"),
    }
}

// Spells what was read: each client and a blank, then each transaction.
fn push_scripts<R: Abort>(rt: &R, all: &mut String, scripts: &Scripts) {
    for client in scripts.clients() {
        push_number(rt, all, "", *client, " ");
    }
    for txn in scripts.txns() {
        push_txn(rt, all, txn);
    }
}

// Parses a script, and compares what it asks for, or the line that is told where it is refused.
fn expect<R: AllocGlobal + Abort>(rt: &R, name: &str, script: &[u8], wanted: &str) {
    let mut all = String::new(rt.alloc());
    match parse(rt.alloc(), script, KEYS) {
        Ok(scripts) => push_scripts(rt, &mut all, &scripts),
        Err(Fault::BadScript { line }) => push_number(rt, &mut all, "bad line ", line, ""),
        Err(_) => push(rt, &mut all, "another fault"),
    }
    compare(rt, name, all.as_bytes(), wanted);
}

fn expect_all<R: AllocGlobal + Abort>(rt: &R, rows: &[(&str, &str)]) {
    for (script, wanted) in rows {
        let lines = script.replace(rt.alloc(), "/", "\n").expect(rt, "memory");
        expect(rt, script, lines.as_bytes(), wanted);
    }
}

// Scripts that are read, with a `/` for each line end, and what they ask for.
static READ: [(&str, &str); 14] = [
    ("", ""),
    ("client 64", "64 "),
    ("client 1/begin/commit/", "1 1:."),
    (
        "client 1/begin/put 5 hi/commit/begin/get 5/get 7/commit",
        "1 1:put 5 [hi] .1:get 5 get 7 .",
    ),
    (
        "client 2/begin/put 0 /put 1  a b /commit",
        "2 2:put 0 [] put 1 [ a b ] .",
    ),
    // An operation is one of four.
    ("client 1/begin/del 7/abort/", "1 1:del 7 !"),
    (
        "client 1/begin/add 0 0/add 1 7/add 2 -10/commit/",
        "1 1:add 0 0 add 1 7 add 2 -10 .",
    ),
    (
        "client 1/begin/add 0 -9223372036854775808/add 0 9223372036854775807/abort/",
        "1 1:add 0 -9223372036854775808 add 0 9223372036854775807 !",
    ),
    // Clients' numbers rise.
    (
        "client 1/begin/get 0/commit/client 3/client 9/begin/abort/begin/commit/",
        "1 3 9 1:get 0 .9:!9:.",
    ),
    // Empty lines and comments mean nothing.
    ("/", ""),
    ("#", ""),
    (
        "//# client 65/client 3//begin/#get 9/get 0//#\r\t/commit/#",
        "3 3:get 0 .",
    ),
    ("client 3/begin/put 0 # a/commit/", "3 3:put 0 [# a] ."),
    // A value has up to 64 bytes.
    (
        "client 1/begin/put 5 \
        0123456789abcdef0123456789abcdef0123456789abcdef0123456789abcd ~/commit/",
        "1 1:put 5 [0123456789abcdef0123456789abcdef0123456789abcdef0123456789abcd ~] .",
    ),
];

#[test]
fn scripts_are_read(rt: HostRuntime) {
    expect_all(&rt, &READ);
}

// Scripts of which a line may not stand there, and the first one that is named.
static MISPLACED: [(&str, &str); 31] = [
    // Clients' numbers rise.
    ("client 3/begin/commit/client 3/", "bad line 4"),
    ("client 3/client 2/", "bad line 2"),
    ("client 64/client 65/", "bad line 2"),
    // A comment has its own line, and an empty line has no byte.
    ("client 3/begin/get 0 # a/commit/", "bad line 3"),
    ("client 3/begin/ # a/commit/", "bad line 3"),
    ("client 3/begin/ /commit/", "bad line 3"),
    ("client 3\r/begin/commit/", "bad line 1"),
    // The first bad line is named.
    ("begin/", "bad line 1"),
    ("commit/", "bad line 1"),
    ("get 1/", "bad line 1"),
    ("client 0/", "bad line 1"),
    ("client 65/", "bad line 1"),
    ("client 01/", "bad line 1"),
    ("client/", "bad line 1"),
    ("Client 1/", "bad line 1"),
    ("client 1/client 1/", "bad line 2"),
    ("client 2/begin/commit/client 1/begin/commit/", "bad line 4"),
    ("client 1/begin/client 2/", "bad line 3"),
    ("client 1/begin/begin/", "bad line 3"),
    ("client 1/get 1/", "bad line 2"),
    ("client 1/commit/", "bad line 2"),
    ("client 1/abort/", "bad line 2"),
    ("client 1/del 1/", "bad line 2"),
    ("client 1/add 1 1/", "bad line 2"),
    ("client 1/begin/commit/commit/", "bad line 4"),
    ("client 1/begin/commit /", "bad line 3"),
    ("client 1/begin/Abort/", "bad line 3"),
    // An open transaction names the line behind the last.
    ("client 1/begin/get 5/", "bad line 4"),
    ("client 1/begin/get 5", "bad line 4"),
    ("client 1/begin/#", "bad line 4"),
    ("client 1/begin//", "bad line 4"),
];

#[test]
fn the_first_bad_line_is_named(rt: HostRuntime) {
    expect_all(&rt, &MISPLACED);
}

// Operations whose key, value or amount is none.
static MISSPELT: [(&str, &str); 26] = [
    ("client 1/begin/get 8/commit/", "bad line 3"),
    ("client 1/begin/get 08/commit/", "bad line 3"),
    ("client 1/begin/get +1/commit/", "bad line 3"),
    ("client 1/begin/get 4294967296/commit/", "bad line 3"),
    ("client 1/begin/get  5/commit/", "bad line 3"),
    ("client 1/begin/get 5 /commit/", "bad line 3"),
    ("client 1/begin/get 5\r/commit/", "bad line 3"),
    ("client 1/begin/put 8 a/commit/", "bad line 3"),
    ("client 1/begin/put 5/commit/", "bad line 3"),
    ("client 1/begin/put 5 a\t/commit/", "bad line 3"),
    ("client 1/begin/put 5 a\r/commit/", "bad line 3"),
    ("client 1/begin/del 8/commit/", "bad line 3"),
    ("client 1/begin/del/commit/", "bad line 3"),
    ("client 1/begin/add 8 1/commit/", "bad line 3"),
    ("client 1/begin/add 0/commit/", "bad line 3"),
    ("client 1/begin/add 0 /commit/", "bad line 3"),
    ("client 1/begin/add 0 -/commit/", "bad line 3"),
    ("client 1/begin/add 0 -0/commit/", "bad line 3"),
    ("client 1/begin/add 0 +1/commit/", "bad line 3"),
    ("client 1/begin/add 0 01/commit/", "bad line 3"),
    ("client 1/begin/add 0 -01/commit/", "bad line 3"),
    ("client 1/begin/add 0 1 /commit/", "bad line 3"),
    (
        "client 1/begin/add 0 9223372036854775808/commit/",
        "bad line 3",
    ),
    (
        "client 1/begin/add 0 -9223372036854775809/commit/",
        "bad line 3",
    ),
    // A value of 65 bytes, and one of a byte that may not stand there.
    (
        "client 1/begin/put 5 \
        0123456789abcdef0123456789abcdef0123456789abcdef0123456789abcd ~g/commit/",
        "bad line 3",
    ),
    ("client 1/begin/put 5 \x7f/commit/", "bad line 3"),
];

#[test]
fn a_line_with_a_bad_operand_is_named(rt: HostRuntime) {
    expect_all(&rt, &MISSPELT);
}

#[test]
fn a_comment_has_any_bytes(rt: HostRuntime) {
    expect(&rt, "bytes", b"#\xff\x00\nclient 3\n", "3 ");
}

// A line of nine bytes, then comments of one byte up to two bytes before the limit, and more bytes.
fn long_script<R: AllocGlobal + Abort>(rt: &R, first: &[u8], last: &[u8]) -> Vec<u8> {
    let mut bytes = first.to_vec(rt.alloc()).expect(rt, "memory");
    for _ in 0..COMMENTS {
        bytes.extend_from_slice(b"#\n").expect(rt, "memory");
    }
    bytes.extend_from_slice(last).expect(rt, "memory");
    bytes
}

fn expect_long<R: AllocGlobal + Abort>(
    rt: &R,
    first: &[u8],
    last: &[u8],
    len: usize,
    wanted: &str,
) {
    let long = long_script(rt, first, last);
    assert!(rt; long.len() == len);
    expect(rt, "a long script", &long, wanted);
}

// The first line and the last bytes of a long script, how long it is, and what is told of it: the
// line behind the comments is that of number 524,285.
static LONG: [(&[u8], &[u8], usize, &str); 4] = [
    (b"client 1\n", b"#", LIMIT, "1 "),
    (b"client 1\n", b"##", LIMIT + 1, "bad line 524285"),
    (b"client 1\n", b"\n#", LIMIT + 1, "bad line 524286"),
    (b"client 0\n", b"##", LIMIT + 1, "bad line 1"),
];

#[test]
fn a_script_has_up_to_a_limit_of_bytes(rt: HostRuntime) {
    for &(first, last, len, wanted) in &LONG {
        expect_long(&rt, first, last, len, wanted);
    }
}

// How many transactions a self-test has, and what it asks for.
static DRILLS: [(u32, &str); 3] = [
    (0, "1 "),
    (1, "1 1:get 172 add 179 1 ."),
    (
        3,
        "1 1:get 172 add 179 1 .1:get 153 add 205 1 .1:get 180 add 230 1 .",
    ),
];

fn expect_drill<R: AllocGlobal + Abort>(rt: &R, count: u32, wanted: &str) {
    let mut all = String::new(rt.alloc());
    let script = drill(rt.alloc(), count).expect(rt, "memory");
    push_scripts(rt, &mut all, &script);
    compare(rt, "a self-test", all.as_bytes(), wanted);
    assert!(rt; script.keys() == 256);
}

#[test]
fn a_self_test_begins_so(rt: HostRuntime) {
    for &(count, wanted) in &DRILLS {
        expect_drill(&rt, count, wanted);
    }
}

// How many transactions a self-test has, how many keys they add to, and how many they read.
static MANY: [(u32, usize, usize); 5] = [
    (10, 10, 9),
    (50, 43, 49),
    (200, 137, 150),
    (1000, 247, 250),
    (2000, 256, 256),
];

// The key that an operation adds to, or that it reads.
fn key_of(ask: &Ask, adds: bool) -> Option<Key> {
    match *ask {
        Ask::Add { key, .. } if adds => Some(key),
        Ask::Get { key } if !adds => Some(key),
        _ => None,
    }
}

fn note_key(seen: &mut [bool; 256], key: Key) {
    if key < 256 {
        seen[key as usize] = true;
    }
}

// How many keys below 256 a script adds to, or reads.
fn count_keys(script: &Scripts, adds: bool) -> usize {
    let mut seen = [false; 256];
    for txn in script.txns() {
        for ask in &txn.asks {
            if let Some(key) = key_of(ask, adds) {
                note_key(&mut seen, key);
            }
        }
    }
    seen.iter().filter(|seen| **seen).count()
}

fn expect_keys<R: AllocGlobal + Abort>(rt: &R, count: u32, added: usize, read: usize) {
    let script = drill(rt.alloc(), count).expect(rt, "memory");
    assert!(rt; script.txns().len() == count as usize);
    assert!(rt; count_keys(&script, true) == added);
    assert!(rt; count_keys(&script, false) == read);
}

#[test]
fn a_self_test_reads_and_adds_to_so_many_keys(rt: HostRuntime) {
    for &(count, added, read) in &MANY {
        expect_keys(&rt, count, added, read);
    }
}
