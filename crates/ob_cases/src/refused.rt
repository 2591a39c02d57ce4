//! Calls without a store: what is refused, in its order, and the files that words call for.

use crate::calling::{expect_alone, insist, parted};
use ob_top_calls::{KEYS, ask_for, words_of};
use ob_words::store_wanted;
use std::process::Abort;

// The keys of a call, its words, and what is told: none, those of the tests, the first 190 of their
// digits, or too short ones.
const REFUSED: &str = "\
    keys  -> 2 fault: usage/\n\
    none run -> 2 fault: usage/\n\
    keys run S K X -> 2 fault: usage/\n\
    keys run S -k -> 2 fault: usage/\n\
    keys run S K --turns --turns -> 2 fault: usage/\n\
    keys run S K --trace -> 2 fault: usage/\n\
    keys run S K --trace T --trace T -> 2 fault: usage/\n\
    keys run S K --trace T -> 5 fault: store/\n\
    keys run S K --mirror -> 2 fault: usage/\n\
    keys run S K --mirror M --mirror M -> 2 fault: usage/\n\
    keys run S K --mirror M --trace T -> 5 fault: store/\n\
    none run --trace T S K --mirror=M --lanes 17 -> 2 fault: parameter LANES/\n\
    none run S K --mirror M --lanes 17 -> 2 fault: parameter LANES/\n\
    none run S K --mirror M -> 7 fault: source/\n\
    keys run S K --mirror M -> 5 fault: store/\n\
    keys format S K 8 2 2 3 2 2 2 2 8 --mirror M -> 2 fault: usage/\n\
    keys run S K --reads 1 --reads 1 -> 2 fault: usage/\n\
    keys run S K --writes -1 -> 2 fault: usage/\n\
    keys run S K --reads 0 -> 5 fault: store/\n\
    keys audit x -> 2 fault: usage/\n\
    keys --help -> 2 fault: usage/\n\
    keys format S K 8 2 2 3 2 2 2 2 -> 2 fault: usage/\n\
    none format S K 9 2 2 3 2 2 2 2 8 -> 2 fault: parameter N/\n\
    none format S K 8 2 2 3 2 2 2 2 08 -> 2 fault: parameter T/\n\
    keys run S K --lanes 0 -> 2 fault: parameter LANES/\n\
    none run S K --lanes 17 -> 2 fault: parameter LANES/\n\
    none run S K --lanes 08 -> 2 fault: parameter LANES/\n\
    none run --lanes x S K -> 2 fault: parameter LANES/\n\
    none run S K --lanes 4294967296 -> 2 fault: parameter LANES/\n\
    none format S K 8 2 2 3 2 2 2 2 8 -> 7 fault: source/\n\
    none run S K -> 7 fault: source/\n\
    short run S K -> 2 fault: parameter KEYS/\n\
    190 run S K -> 2 fault: parameter KEYS/\n\
    190 format S K 8 2 2 3 2 2 2 2 8 -> 2 fault: parameter KEYS/\n\
    keys format S K 8 2 2 3 2 2 2 2 8 -> 5 fault: store/\n\
    keys run S K -> 5 fault: store/";

fn keys_of(keys: &str) -> Option<&'static str> {
    match keys {
        "none" => None,
        "keys" => Some(KEYS),
        "190" => Some(&KEYS[..190]),
        _ => Some("00010203"),
    }
}

#[test]
fn refusals_come_in_their_order(rt: HostRuntime) {
    for line in REFUSED.lines() {
        let (call, wanted) = parted(&rt, line, " -> ");
        let (keys, words) = parted(&rt, call, " ");
        let mut ask = ask_for(words, "begin");
        ask.keys = keys_of(keys);
        expect_alone(&rt, &ask, wanted);
    }
}

// Words, whether they call for the keys `K` and for the store `S`, which may be made or not, and which
// of the trace `T` and the mirror `M` they call for.
static WANTED: [(&str, Option<bool>, &str); 18] = [
    ("audit", None, ""),
    ("run S K", Some(false), ""),
    ("run --lanes 2 S K --turns", Some(false), ""),
    ("run S --lanes 17 K", None, ""),
    ("run S", None, ""),
    ("run S K --trace T", Some(false), "T"),
    ("run --trace T S K --turns", Some(false), "T"),
    ("run S K --trace T --lanes 17", None, ""),
    ("run S K --mirror M", Some(false), "M"),
    ("run --mirror M S K --turns", Some(false), "M"),
    ("run S K --mirror M --lanes 17", None, ""),
    ("run S K --mirror M --trace T", Some(false), "TM"),
    ("run S K --trace T --mirror M", Some(false), "TM"),
    ("format S K 8 2 2 3 2 2 2 2 8", Some(true), ""),
    ("format S K 8 2 2 3 2 2 2 2 8 --trace T", Some(true), "T"),
    ("format S K 8 2 2 3 2 2 2 2 8 --mirror M", None, ""),
    ("format S K 9 2 2 3 2 2 2 2 8 --trace T", None, ""),
    ("format S K 8 2 2 3 2 2 2 2", None, ""),
];

// Whether this path is found where it is wanted, and none where it isn't.
fn is_path(found: Option<&str>, path: &str, wanted: bool) -> bool {
    match found {
        Some(found) => wanted && found == path,
        None => !wanted,
    }
}

// The same of the store's, and whether it may be made.
fn is_store(found: Option<(&str, bool)>, may_make: Option<bool>) -> bool {
    match (found, may_make) {
        (Some((path, may)), Some(wanted)) => path == "S" && may == wanted,
        (None, None) => true,
        _ => false,
    }
}

fn expect_wanted<R: AllocGlobal + Abort>(rt: &R, line: &str, may_make: Option<bool>, beside: &str) {
    let words = words_of(rt.alloc(), line).expect(rt, "memory");
    let paths = store_wanted(rt.alloc(), &words).expect(rt, "memory");
    let store = is_store(paths.store, may_make);
    let keys = is_path(paths.keys, "K", may_make.is_some());
    let trace = is_path(paths.trace, "T", beside.starts_with('T'));
    let mirror = is_path(paths.mirror, "M", beside.ends_with('M'));
    insist(rt, store && keys && trace && mirror, line);
}

#[test]
fn what_words_do_not_call_for_is_not_wanted(rt: HostRuntime) {
    for &(line, may_make, beside) in &WANTED {
        expect_wanted(&rt, line, may_make, beside);
    }
}
