//! Cells with a right tag whose fields break a rule.

use crate::rows::play_all;

// Heads: each number out of its range, then two versions that are none.
const HEADS: &str = "\
    new, stamp 0 12 9 4 -> 4 fault: damaged cell 0 form/\n\
    new, stamp 0 16 0 4 -> 4 fault: damaged cell 0 form/\n\
    new, stamp 0 20 17 4 -> 4 fault: damaged cell 0 form/\n\
    new, stamp 0 24 0 4 -> 4 fault: damaged cell 0 form/\n\
    new, stamp 0 28 17 4 -> 4 fault: damaged cell 0 form/\n\
    new, stamp 0 32 65 4 -> 4 fault: damaged cell 0 form/\n\
    new, stamp 0 36 257 4 -> 4 fault: damaged cell 0 form/\n\
    new, stamp 0 40 65 4 -> 4 fault: damaged cell 0 form/\n\
    new, stamp 0 44 1025 4 -> 4 fault: damaged cell 0 form/\n\
    new, stamp 0 8 2 4 -> 3 fault: not a store/\n\
    new, stamp 0 8 101 4 -> 3 fault: not a store/";

#[test]
fn a_head_keeps_to_its_ranges(rt: HostRuntime) {
    play_all(&rt, HEADS);
}

// Cells of a checkpoint: its epoch; its counter; whether a key is present, and its leaf; a
// bucket's home, key, rank, mark of a key and of none, and three marks; how many rows, in three
// ways; a row's key and length.
const CHECKPOINTS: &str = "\
    ended, seal 28 0 9 8 -> 4 fault: damaged cell 28 epoch/\n\
    ended, seal 28 8 4 8 -> 4 fault: damaged cell 28 form/\n\
    ended, seal 28 16 2 1 -> 4 fault: damaged cell 28 form/\n\
    ended, seal 29 42 4 4 -> 4 fault: damaged cell 29 form/\n\
    ended, seal 31 1 2 1 -> 4 fault: damaged cell 31 form/\n\
    ended, seal 31 18 2 4 -> 4 fault: damaged cell 31 form/\n\
    ended, seal 30 87 5 1 -> 4 fault: damaged cell 30 form/\n\
    ended, seal 31 27 1 1 -> 4 fault: damaged cell 31 form/\n\
    ended, seal 30 88 2 1 -> 4 fault: damaged cell 30 form/\n\
    ended, seal 30 92 1 1, seal 30 94 1 1, seal 31 0 1 1 -> 4 fault: damaged cell 31 form/\n\
    ended, seal 32 45 1 4 -> 4 fault: damaged cell 32 form/\n\
    ended, seal 31 18 4294967295 4 -> 4 fault: damaged cell 32 form/\n\
    narrow, seal 13 16 1 1, seal 13 37 1 1, seal 15 1 2 4: run S K < client 1/begin/get 0/commit -> \
    4 fault: damaged cell 15 form/\n\
    ended, seal 31 18 4294967295 4, seal 32 45 1 4, seal 32 49 4 4 -> \
    4 fault: damaged cell 32 form/\n\
    ended, seal 31 18 4294967295 4, seal 32 45 1 4, seal 32 49 5 4, seal 32 53 65 1 -> \
    4 fault: damaged cell 32 form/";

#[test]
fn a_checkpoint_keeps_to_its_rules(rt: HostRuntime) {
    play_all(&rt, CHECKPOINTS);
}

// A record: its epoch and batch; a kind; a pad's key; a key out of range, and one in two places; a
// second key of a store of one. Then the slot of key 5: its key and its length. The registers: a
// number out of range.
const OTHERS: &str = "\
    recorded, seal 13 0 3 8 -> 4 fault: damaged cell 13 epoch/\n\
    recorded, seal 13 8 1 4 -> 4 fault: damaged cell 13 form/\n\
    recorded, seal 13 20 2 1 -> 4 fault: damaged cell 13 form/\n\
    recorded, seal 13 21 4 4 -> 4 fault: damaged cell 13 form/\n\
    recorded, seal 13 20 1 1, seal 13 21 8 4 -> 4 fault: damaged cell 13 form/\n\
    recorded, seal 13 20 1 1, seal 13 33 1 1 -> 4 fault: damaged cell 13 form/\n\
    single, seal 11 20 1 1, seal 11 33 1 1: run S K < client 1/begin/get 0/commit -> \
    4 fault: damaged cell 11 form/\n\
    ended, seal 89 0 4 4 -> 4 fault: damaged cell 89 form/\n\
    ended, seal 89 4 65 1 -> 4 fault: damaged cell 89 form/\n\
    new, stamp 3 0 4611686018427387904 8 -> 4 fault: damaged cell 3 form/\n\
    new, stamp 5 0 4611686018427387904 8 -> 4 fault: damaged cell 5 form/";

#[test]
fn a_record_a_slot_and_a_register_keep_to_theirs(rt: HostRuntime) {
    play_all(&rt, OTHERS);
}
