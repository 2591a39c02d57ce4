//! Worked cases over stores of 8 keys and of 4, each by one lane and by four.

use crate::lives::play;

// An open gate is A5 in each byte, so it begins with 11936128518282651045 twice; a closed one is
// zeros.
const NO_INPUT: &str = "\
    new 109\n\
    format S K 8 2 2 3 2 2 2 2 8 <  -> 0 store of 109 cells/\n\
    cell 3 1 0\n\
    cell 4 11936128518282651045 11936128518282651045\n\
    cell 2 0 0\n\
    run S K <  -> 0 \n\
    cell 1 2 0\n\
    cell 2 11936128518282651045 11936128518282651045\n\
    cell 3 1 0\n\
    run S K <  -> 0 \n\
    cell 3 3 0\n\
    cell 4 11936128518282651045 11936128518282651045\n\
    cell 1 2 0";

#[test]
fn a_run_of_no_input_takes_a_generation(rt: HostRuntime) {
    play(&rt, NO_INPUT);
}

const TWO_CLIENTS: &str = "\
    new 109\n\
    format S K 8 2 2 3 2 2 2 2 8 <  -> 0 store of 109 cells/\n\
    run S K --turns < client 1/begin/get 7/put 5 a/commit/client 2/begin/get 5/commit -> \
    0 epoch 1/txn 1 client 1 aborted conflict key 5 reader 2/get 7 absent/\
    txn 2 client 2 committed/get 5 absent/";

#[test]
fn a_put_that_comes_too_late_is_a_conflict(rt: HostRuntime) {
    play(&rt, TWO_CLIENTS);
}

const VALUES: &str = "\
    new 109\n\
    format S K 8 2 2 3 2 2 2 2 8 <  -> 0 store of 109 cells/\n\
    run S K < client 1/begin/put 0 /commit -> 0 epoch 1/txn 1 client 1 committed/put 0 /\n\
    run S K < client 1/begin/get 0/get 1/commit -> \
    0 epoch 2/txn 1 client 1 committed/get 0 = /get 1 absent/\n\
    run S K < client 1/begin/put 0 0123456789012345678901234567890123456789012345678901234567\
    890123/commit/begin/get 0/commit -> 0 epoch 3/txn 1 client 1 committed/put 0 0123456789012\
    345678901234567890123456789012345678901234567890123/epoch 4/\
    txn 1 client 1 committed/get 0 = 0123456789012345678901234567890123456789012345678901234567\
    890123/\n\
    run S K < client 1/begin/put 0 0123456789012345678901234567890123456789012345678901234567\
    8901234/commit -> 2 fault: script line 3/";

#[test]
fn a_value_has_no_byte_to_sixty_four(rt: HostRuntime) {
    play(&rt, VALUES);
}

const SUMS: &str = "\
    new 109\n\
    format S K 8 2 2 3 2 2 2 2 8 <  -> 0 store of 109 cells/\n\
    run S K < client 1/begin/put 5 hi/add 5 1/commit -> \
    0 epoch 1/txn 1 client 1 aborted asked/put 5 hi/get 5 = hi/\n\
    crash\n\
    run S K < client 1/begin/add 5 3/commit -> \
    0 epoch 2/txn 1 client 1 committed/get 5 absent/put 5 3/\n\
    crash\n\
    run S K < client 1/begin/add 5 9223372036854775807/commit -> \
    0 epoch 3/txn 1 client 1 aborted asked/get 5 = 3/\n\
    run S K < client 1/begin/add 5 -3/commit/begin/add 5 -9223372036854775808/commit -> \
    0 epoch 4/txn 1 client 1 committed/get 5 = 3/put 5 0/\
    epoch 5/txn 1 client 1 committed/get 5 = 0/put 5 -9223372036854775808/";

#[test]
fn a_sum_is_put_or_aborts(rt: HostRuntime) {
    play(&rt, SUMS);
}

// The records of both batches are sealed with the numbers 0 and 1 of generation 2: all their bytes,
// by another implementation's pads and hashes.
const SEALS: &str = "\
    new 109\n\
    format S K 8 2 2 3 2 2 2 2 8 <  -> 0 store of 109 cells/\n\
    run S K < client 1/begin/commit -> 0 epoch 1/txn 1 client 1 committed/\n\
    cell 13 2 0 1718234638447915605 469569322510238538 14612851234211052713 \
    4114791932291403636 14336265840432707778 2631026154765825928 7983599286606152538 \
    15175252931734523887 7975007319467402153 13069954971057737675 16235392561943711940 \
    17666676642151507901 5845085486458777459 15969656069565813495\n\
    cell 15 2 1 6622681226653866385 2704065107810445600 13340106043996100929 \
    15575780388764390123 12769808948002636048 14859319880221273725 1001039056343273468 \
    3257942054146392877 8197677031884643953 8292435499503578700 4578172526886108974 \
    13560974298646189267 9515529214847034308 8602952651654124362\n\
    new 109\n\
    format S K 8 2 2 3 2 2 2 2 8 <  -> 0 store of 109 cells/\n\
    flip 41\n\
    run S K < client 1/begin/commit -> 4 fault: damaged cell 41 tag/";

#[test]
fn records_have_the_first_seals_and_a_bit_is_told(rt: HostRuntime) {
    play(&rt, SEALS);
}

// Four puts leave two rows in the stash: one too many where it may keep one, and just room where it
// may keep two. Nothing of the epoch is kept that is refused, and the next run goes on in it,
// behind its batch.
const STASHES: &str = "\
    new 37\n\
    format S K 4 1 2 1 1 1 4 1 1 <  -> 0 store of 37 cells/\n\
    run S K < client 1/begin/put 0 a/put 1 a/put 2 a/put 3 a/commit < 0 1 1 1 1 -> \
    6 fault: stash full, 2 rows/\n\
    run S K < client 1/begin/get 0/commit -> \
    0 epoch 1/txn 1 client 1 aborted reads full queued 0 left 0/\n\
    run S K < client 1/begin/get 0/commit -> \
    0 epoch 2/txn 1 client 1 committed/get 0 absent/\n\
    new 39\n\
    format S K 4 1 2 1 1 1 4 1 2 <  -> 0 store of 39 cells/\n\
    run S K < client 1/begin/put 0 a/put 1 a/put 2 a/put 3 a/commit < 0 1 1 1 1 -> \
    0 epoch 1/txn 1 client 1 committed/put 0 a/put 1 a/put 2 a/put 3 a/";

#[test]
fn a_full_stash_is_told(rt: HostRuntime) {
    play(&rt, STASHES);
}

// Four kinds of calls that find no store, or none that they may take.
const NO_STORES: &str = "\
    new 109\n\
    run S K < client 1/begin/commit -> 3 fault: not a store/\n\
    run S K < begin -> 3 fault: not a store/\n\
    format S K 9 2 2 3 2 2 2 2 8 <  -> 2 fault: parameter N/\n\
    run <  -> 2 fault: usage/\n\
    cell 0 0 0";

#[test]
fn what_is_no_store_is_told(rt: HostRuntime) {
    play(&rt, NO_STORES);
}

// A crash behind the lifts of an epoch's end, which are shown behind its thirteenth write or sync:
// both batches are repeated, and none is left.
const BOTH_REPEATED: &str = "\
    new 109\n\
    format S K 8 2 2 3 2 2 2 2 8 <  -> 0 store of 109 cells/\n\
    crash\n\
    run S K < client 1/begin/commit -> 0 epoch 1/txn 1 client 1 committed/\n\
    crash 13\n\
    run S K < client 1/begin/get 5/commit -> \
    0 epoch 1/txn 1 client 1 aborted reads full queued 0 left 0/";

#[test]
fn no_batch_is_left_behind_both(rt: HostRuntime) {
    play(&rt, BOTH_REPEATED);
}
