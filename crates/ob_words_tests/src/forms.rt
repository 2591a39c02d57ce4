//! Words, good and bad.

use crate::fixture::{compare, push};
use ob_words::{Request, WordsErr, read_words};
use std::process::Abort;

// Words with a blank between two, and what they ask for: each operand in brackets.
static WORDS: [(&str, &str); 92] = [
    ("audit", "audit"),
    ("drill 1", "drill [1]"),
    ("drill x", "drill [x]"),
    ("run S K", "run [S] [K]"),
    ("run S K --turns", "run [S] [K] turns"),
    ("run S K --lanes 1", "run [S] [K] lanes [1]"),
    ("run S K --turns --lanes 16", "run [S] [K] lanes [16] turns"),
    ("run S K --lanes 16 --turns", "run [S] [K] lanes [16] turns"),
    ("run S K --lanes x", "run [S] [K] lanes [x]"),
    ("run S K --trace F", "run [S] [K] trace [F]"),
    ("run S K --mirror M", "run [S] [K] mirror [M]"),
    ("run S K --mirror S", "run [S] [K] mirror [S]"),
    (
        "run S K --lanes 2 --mirror M --reads 1 --writes 2 --turns",
        "run [S] [K] lanes [2] turns mirror [M] reads [1] writes [2]",
    ),
    (
        "run S K --turns --writes 2 --reads 1 --mirror M --lanes 2",
        "run [S] [K] lanes [2] turns mirror [M] reads [1] writes [2]",
    ),
    (
        "run S K --mirror M --turns --lanes 2",
        "run [S] [K] lanes [2] turns mirror [M]",
    ),
    (
        "run S K --mirror M --trace T",
        "run [S] [K] trace [T] mirror [M]",
    ),
    (
        "run S K --trace T --mirror M",
        "run [S] [K] trace [T] mirror [M]",
    ),
    ("run S K --reads 1", "run [S] [K] reads [1]"),
    ("run S K --writes x", "run [S] [K] writes [x]"),
    (
        "run S K --writes 0 --turns --reads 01",
        "run [S] [K] turns reads [01] writes [0]",
    ),
    (
        "run S K --trace F --turns --lanes 2",
        "run [S] [K] lanes [2] turns trace [F]",
    ),
    (
        "format S K 8 2 3 4 5 6 7 9 1",
        "format [S] [K] [8] [2] [3] [4] [5] [6] [7] [9] [1]",
    ),
    (
        "format S K 8 2 3 4 5 6 7 9 1 --trace F",
        "format [S] [K] [8] [2] [3] [4] [5] [6] [7] [9] [1] trace [F]",
    ),
    // What a parse takes beside the forms: a value behind `=`, options before and between operands,
    // and behind `--` words that begin with `-`. An operand may be empty.
    ("run S K --lanes=2", "run [S] [K] lanes [2]"),
    ("run --lanes 2 S K", "run [S] [K] lanes [2]"),
    ("run S --turns K", "run [S] [K] turns"),
    ("run --mirror M S K", "run [S] [K] mirror [M]"),
    ("run S --mirror=M K", "run [S] [K] mirror [M]"),
    ("run S --mirror K X", "run [S] [X] mirror [K]"),
    (
        "run --trace T S --mirror M K",
        "run [S] [K] trace [T] mirror [M]",
    ),
    (
        "run --mirror M S K --turns --trace T",
        "run [S] [K] turns trace [T] mirror [M]",
    ),
    (
        "run S K --lanes 2 --mirror=M --trace=T",
        "run [S] [K] lanes [2] trace [T] mirror [M]",
    ),
    ("run -- --mirror M", "run [--mirror] [M]"),
    ("run -- S K", "run [S] [K]"),
    ("run --turns -- -S --lanes", "run [-S] [--lanes] turns"),
    ("run  K", "run [] [K]"),
    ("run - K", "run [-] [K]"),
    ("drill ", "drill []"),
    ("drill -- -1", "drill [-1]"),
    // Others are refused.
    ("", "refused"),
    ("run", "refused"),
    ("run S", "refused"),
    ("runs S K", "refused"),
    ("ru S K", "refused"),
    ("S K run", "refused"),
    ("run S K X", "refused"),
    ("run S K -- X", "refused"),
    ("format S K 8 2 2 3 2 2 2 2", "refused"),
    ("format S K 8 2 2 3 2 2 2 2 8 9", "refused"),
    ("format S K 8 2 2 3 2 2 2 -2 8", "refused"),
    ("format S K 8 2 2 3 2 2 2 2 8 --turns", "refused"),
    ("audit x", "refused"),
    ("audit --turns", "refused"),
    ("drill", "refused"),
    ("drill 1 2", "refused"),
    ("drill -1", "refused"),
    ("drill 1 --trace F", "refused"),
    ("run S K --trace", "refused"),
    ("run S K --trace T --trace T", "refused"),
    ("run S K --mirror", "refused"),
    ("run S K --mirror -M", "refused"),
    ("run S K --mirror M --mirror M", "refused"),
    ("run S --mirror M --mirror N K", "refused"),
    ("run --mirror S K", "refused"),
    ("run S K --mirror M N", "refused"),
    ("run S K --mirrors M", "refused"),
    ("run S K --mirror M --mirror M --trace T", "refused"),
    ("format S K 8 2 2 3 2 2 2 2 8 --mirror M", "refused"),
    (
        "format S K 8 2 2 3 2 2 2 2 8 --trace T --mirror M",
        "refused",
    ),
    ("audit --mirror M", "refused"),
    ("drill 1 --mirror M", "refused"),
    ("format S K 8 2 2 3 2 2 2 2 8 --lanes 2", "refused"),
    ("format S K 8 2 2 3 2 2 2 2 8 --trace", "refused"),
    ("audit --trace F", "refused"),
    ("--help", "refused"),
    ("-h", "refused"),
    ("help", "refused"),
    ("help run", "refused"),
    ("run --help", "refused"),
    ("run S K --turns --turns", "refused"),
    ("run S K --turns=true", "refused"),
    ("run S K --lanes", "refused"),
    ("run S K --lanes 2 --lanes 3", "refused"),
    ("run S K --lanes -2", "refused"),
    ("run S K --reads", "refused"),
    ("run S K --reads 1 --reads 1", "refused"),
    ("run S K --reads -1", "refused"),
    ("run S K --writes 1 --writes 2", "refused"),
    ("format S K 8 2 2 3 2 2 2 2 8 --reads 1", "refused"),
    ("run S -k", "refused"),
    ("run S K --turn", "refused"),
    ("run S K --nothing", "refused"),
];

// Spells a word and what belongs to it, in brackets.
fn push_words<R: Abort>(rt: &R, text: &mut String, word: &str, operands: &[&str]) {
    push(rt, text, word);
    for operand in operands {
        push(rt, text, " [");
        push(rt, text, operand);
        push(rt, text, "]");
    }
}

// Spells an option, where it is given.
fn push_option<R: Abort>(rt: &R, text: &mut String, name: &str, value: Option<&str>) {
    if let Some(value) = value {
        push_words(rt, text, name, &[value]);
    }
}

// Spells a run: its files, its lanes where they are given, and whether it is in turns.
fn push_run<R: Abort>(rt: &R, text: &mut String, files: &[&str], lanes: Option<&str>, turns: bool) {
    push_words(rt, text, "run", files);
    push_option(rt, text, " lanes", lanes);
    if turns {
        push(rt, text, " turns");
    }
}

// Spells what the words ask for.
fn push_request<R: Abort>(rt: &R, text: &mut String, request: &Request<'_>) {
    match *request {
        Request::Format {
            store,
            keys,
            n,
            l,
            z,
            s,
            r,
            br,
            bw,
            e,
            t,
            trace,
        } => {
            let operands = [store, keys, n, l, z, s, r, br, bw, e, t];
            push_words(rt, text, "format", &operands);
            push_option(rt, text, " trace", trace);
        }
        Request::Run {
            store,
            keys,
            lanes,
            turns,
            trace,
            mirror,
            reads,
            writes,
        } => {
            push_run(rt, text, &[store, keys], lanes, turns);
            push_option(rt, text, " trace", trace);
            push_option(rt, text, " mirror", mirror);
            push_option(rt, text, " reads", reads);
            push_option(rt, text, " writes", writes);
        }
        Request::Audit => push(rt, text, "audit"),
        Request::Drill { count } => push_words(rt, text, "drill", &[count]),
    }
}

fn expect<R: AllocGlobal + Abort>(rt: &R, name: &str, words: &[&str], wanted: &str) {
    let mut text = String::new(rt.alloc());
    match read_words(rt.alloc(), words) {
        Ok(request) => push_request(rt, &mut text, &request),
        Err(WordsErr::Usage) => push(rt, &mut text, "refused"),
        Err(WordsErr::Memory) => push(rt, &mut text, "out of memory"),
    }
    compare(rt, name, text.as_bytes(), wanted);
}

fn expect_row<R: AllocGlobal + Abort>(rt: &R, words: &str, wanted: &str) {
    let mut all = [""; 16];
    let mut many = 0;
    for word in words.split(' ') {
        assert!(rt; many < 16);
        all[many] = word;
        many += 1;
    }
    expect(rt, words, &all[..many.min(16)], wanted);
}

#[test]
fn words_are_read_or_refused(rt: HostRuntime) {
    for &(words, wanted) in &WORDS {
        expect_row(&rt, words, wanted);
    }
}

#[test]
fn no_words_are_refused(rt: HostRuntime) {
    expect(&rt, "no words", &[], "refused");
}
