//! Self-tests by the top call: their summaries, counts that are refused, and an output without
//! room.

use crate::calling::{expect_alone, insist, parted};
use ob_top_calls::{ask_for, call_alone, has_front};
use std::process::Abort;
use std::sync::Wait;
use std::thread::Threads;

// Counts, and the summaries of another implementation.
const SUMMARIES: &str = "\
    drill 0 -> 0 drill 0/epochs 0/committed 0/keys 0/\
    map e3b0c44298fc1c149afbf4c8996fb92427ae41e4649b934ca495991b7852b855/\n\
    drill 1 -> 0 drill 1/epochs 1/committed 1/keys 1/\
    map 169ab623b76323d2b63d24e360d3c5c2bf1e9d9122ee79efb4e11426cb17733b/\n\
    drill 2 -> 0 drill 2/epochs 2/committed 2/keys 2/\
    map 4d3be508a3f51471f0d52230201ae0eb4e4cc158cd17778dc1cbceb941e1b129/\n\
    drill 3 -> 0 drill 3/epochs 3/committed 3/keys 3/\
    map 4f95c4c921b0d450298d55be7ae6b09c6d636f9727f398bdf9a827e5dde30c3f/\n\
    drill 10 -> 0 drill 10/epochs 10/committed 10/keys 10/\
    map a65c47a08cd6ce4eb18f1005c45110eb125fe1c637eee224a2be2a30a8491892/\n\
    drill 50 -> 0 drill 50/epochs 50/committed 50/keys 43/\
    map 6478a80756bf9a0d9a7c76878be0c9cc7fe65c9cdcb60016c62b6b2b65847d98/";

// The longest one, which is played twice.
const LONGEST: &str = "\
    drill 200 -> 0 drill 200/epochs 200/committed 200/keys 137/\
    map 92c898a831f67272c56aa98e659e66ec28a4acf64178fa7bb589193e77db8a21/";

// Words that are refused, and what is told.
const REFUSED: &str = "\
    drill 10001 -> 2 fault: parameter COUNT/\n\
    drill 01 -> 2 fault: parameter COUNT/\n\
    drill x -> 2 fault: parameter COUNT/\n\
    drill 4294967296 -> 2 fault: parameter COUNT/\n\
    drill  -> 2 fault: parameter COUNT/\n\
    drill -> 2 fault: usage/\n\
    drill 1 2 -> 2 fault: usage/\n\
    drill -1 -> 2 fault: usage/";

// Makes self-tests, each a line `WORDS -> STATUS OUTPUT`, and compares what each answers.
fn expect_drills<R: AllocGlobal + Threads + Wait + Sync + Abort>(rt: &R, lines: &str) {
    for line in lines.lines() {
        let (words, wanted) = parted(rt, line, " -> ");
        let mut ask = ask_for(words, "");
        ask.keys = None;
        expect_alone(rt, &ask, wanted);
    }
}

#[test]
fn summaries_are_those_of_another_implementation(rt: HostRuntime) {
    expect_drills(&rt, SUMMARIES);
    expect_drills(&rt, LONGEST);
    expect_drills(&rt, LONGEST);
}

#[test]
fn faulty_counts_are_refused(rt: HostRuntime) {
    expect_drills(&rt, REFUSED);
}

// The summary of a self-test of one transaction.
const OF_ONE: &str = "\
    drill 1/epochs 1/committed 1/keys 1/\
    map 169ab623b76323d2b63d24e360d3c5c2bf1e9d9122ee79efb4e11426cb17733b/";

// A self-test of one transaction, with room for so many bytes of its summary.
fn expect_room<R: AllocGlobal + Threads + Wait + Sync + Abort>(rt: &R, room: usize) {
    let mut ask = ask_for("drill 1", "");
    ask.room = room;
    let answer = call_alone(rt, &ask).expect(rt, "memory");
    let status = if room < 105 { 7 } else { 0 };
    let so = OF_ONE.len() == 105 && has_front(&answer.output, OF_ONE, room);
    insist(rt, so && answer.status == status, OF_ONE);
}

#[test]
fn an_output_without_room_has_a_front_of_the_summary(rt: HostRuntime) {
    for room in 0..106 {
        expect_room(&rt, room);
    }
}
