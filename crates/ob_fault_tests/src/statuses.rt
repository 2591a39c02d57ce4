//! What is told: each status, with each of the lines that may stand there.

use crate::playing::insist;
use crate::rows::play_all;

// Words that are refused, and audits.
const WORDS: &str = "\
    new: audit <  -> 0 fits/\n\
    new: audit < O/ -> 1 breaks line 1 wanted start/\n\
    new: run <  -> 2 fault: usage/\n\
    new: format S K 0 2 2 3 2 2 2 2 8 <  -> 2 fault: parameter N/\n\
    new: format S K 9 2 2 3 2 2 2 2 8 <  -> 2 fault: parameter N/\n\
    new: format S K 65537 16 2 3 2 2 2 2 8 <  -> 2 fault: parameter N/\n\
    new: format S K 1 0 1 1 1 1 1 1 1 <  -> 2 fault: parameter L/\n\
    new: format S K 8 17 2 3 2 2 2 2 8 <  -> 2 fault: parameter L/\n\
    new: format S K 8 2 17 3 2 2 2 2 8 <  -> 2 fault: parameter Z/\n\
    new: format S K 8 2 2 0 2 2 2 2 8 <  -> 2 fault: parameter S/\n\
    new: format S K 8 2 2 33 2 2 2 2 8 <  -> 2 fault: parameter S/\n\
    new: format S K 8 2 2 3 0 2 2 2 8 <  -> 2 fault: parameter R/\n\
    new: format S K 8 2 2 3 17 2 2 2 8 <  -> 2 fault: parameter R/\n\
    new: format S K 8 2 2 3 2 0 2 2 8 <  -> 2 fault: parameter BR/\n\
    new: format S K 8 2 2 3 2 65 2 2 8 <  -> 2 fault: parameter BR/\n\
    new: format S K 8 2 2 3 2 2 0 2 8 <  -> 2 fault: parameter BW/\n\
    new: format S K 8 2 2 3 2 2 257 2 8 <  -> 2 fault: parameter BW/\n\
    new: format S K 8 2 2 3 2 2 2 0 8 <  -> 2 fault: parameter E/\n\
    new: format S K 8 2 2 3 2 2 2 65 8 <  -> 2 fault: parameter E/\n\
    new: format S K 8 2 2 3 2 2 2 2 0 <  -> 2 fault: parameter T/\n\
    new: format S K 8 2 2 3 2 2 2 2 1025 <  -> 2 fault: parameter T/\n\
    new: format S K 8 2 2 3 2 2 2 2 4294967296 <  -> 2 fault: parameter T/\n\
    new: run S K --lanes 0 <  -> 2 fault: parameter LANES/\n\
    new: drill 10001 <  -> 2 fault: parameter COUNT/\n\
    short: run S K <  -> 2 fault: parameter KEYS/\n\
    keyless: run S K <  -> 7 fault: source/\n\
    new: run S K --trace T <  -> 7 fault: sink/\n\
    new: run S K --trace T --turns <  -> 7 fault: sink/\n\
    blank: format S K 8 2 2 3 2 2 2 2 8 --trace T <  -> 7 fault: sink/";

const RUNS: &str = "\
    new -> 0 epoch 1/txn 1 client 1 committed/get 5 absent/\n\
    new: run S K < client 1/begin/commit/begin -> 2 fault: script line 5/\n\
    blank -> 3 fault: not a store/\n\
    new, stamp 0 8 2 4 -> 3 fault: not a store/\n\
    new, flip 4 -> 3 fault: not a store/\n\
    new, flip 6 -> 3 fault: not a store/\n\
    new, flip 41 -> 4 fault: damaged cell 41 tag/\n\
    new, renumber 41 -> 4 fault: damaged cell 41 seal/\n\
    new, renumber 18 -> 4 fault: damaged cell 18 seal/\n\
    new, seal 17 0 9 8 -> 4 fault: damaged cell 17 epoch/\n\
    new, stamp 0 12 9 4 -> 4 fault: damaged cell 0 form/\n\
    lane 0 -> 5 fault: store/\n\
    sync 18 -> 5 fault: store/\n\
    sync 19 -> 5 fault: store, epoch 1 unsure/\n\
    tall: run S K < client 1/begin/put 0 a/put 1 a/put 2 a/put 3 a/put 4 a/put 5 a/put 6 a/put 7 a/\
    commit -> 6 fault: stash full, 4 rows/\n\
    input -> 7 fault: source/\n\
    output -> 7 \n\
    new, stamp 3 0 4611686018427387903 8 -> 8 fault: worn at 4611686018427387904/";

// These neither write to the store nor sync it. Want of memory alone, status 9, has no row: the store
// here has ample memory.
#[test]
fn each_refusal_of_words_is_told(rt: HostRuntime) {
    insist(&rt, play_all(&rt, WORDS) == 0, "a write or a sync");
}

#[test]
fn each_refusal_of_a_run_is_told(rt: HostRuntime) {
    play_all(&rt, RUNS);
}
