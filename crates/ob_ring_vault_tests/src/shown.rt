//! What a ring vault shows of the small store, as another implementation showed it.

// A first opening, behind the read of the head.
pub const OPENED: &[u8] = b"\
    R 1\nR 2\nR 3\nR 4\nR 5\nR 6\nR 7\nR 8\nR 17\nR 18\nR 19\nR 20\nR 21\nR 22\nR 23\nR 24\n\
    R 25\nR 26\nR 27\nR 13\nR 14\nR 15\nR 16\nS\nW 1\nS\nW 2\nS\n";

// An epoch of two batches of pads, on a tape of zeros.
pub const FIRST_EPOCH: &[u8] = b"\
    W 13\nS\nW 14\nS\nL 0\nR 41\nR 46\nR 56\nL 0\nR 42\nR 47\nR 57\nW 15\nS\nW 16\nS\nL 0\n\
    R 43\nR 39\nR 40\nR 48\nR 44\nR 45\nR 58\nR 54\nR 55\nL 0\nR 49\nR 50\nR 64\nR 65\nW 89\n\
    W 90\nW 91\nW 92\nW 93\nW 99\nW 100\nW 101\nW 102\nW 103\nW 79\nW 80\nW 81\nW 82\nW 83\n\
    W 84\nW 85\nW 86\nW 87\nW 88\nW 74\nW 75\nW 76\nW 77\nW 78\nW 28\nW 29\nW 30\nW 31\nW 32\n\
    W 33\nW 34\nW 35\nW 36\nW 37\nW 38\nW 10\nW 12\nS\nW 7\nS\nW 8\nS\n";

// The epoch behind it: its first batch asks for key 5, which was put at the first epoch's end.
pub const SECOND_EPOCH: &[u8] = b"\
    W 9\nS\nW 10\nS\nL 0\nR 76\nR 81\nR 89\nL 0\nR 77\nR 82\nR 91\nW 11\nS\nW 12\nS\nL 0\nR 78\n\
    R 74\nR 75\nR 83\nR 79\nR 80\nR 92\nR 90\nR 93\nL 0\nR 59\nR 60\nR 84\nR 85\nR 69\nR 70\n\
    W 54\nW 55\nW 56\nW 57\nW 58\nW 94\nW 95\nW 96\nW 97\nW 98\nW 104\nW 105\nW 106\nW 107\n\
    W 108\nW 44\nW 45\nW 46\nW 47\nW 48\nW 49\nW 50\nW 51\nW 52\nW 53\nW 39\nW 40\nW 41\nW 42\n\
    W 43\nW 17\nW 18\nW 19\nW 20\nW 21\nW 22\nW 23\nW 24\nW 25\nW 26\nW 27\nW 14\nW 16\nS\nW 6\n\
    S\nW 5\nS\nW 6\nS\n";

// The same where the put's word was 1.
pub const LEAF_ONE: &[u8] = b"\
    W 9\nS\nW 10\nS\nL 1\nR 76\nR 79\nR 61\nL 0\nR 77\nR 81\nR 91\nW 11\nS\nW 12\nS\nL 0\nR 78\n\
    R 74\nR 75\nR 82\nR 80\nR 83\nR 92\nL 0\nR 93\nR 89\nR 90\nR 59\nR 60\nR 84\nR 85\nR 69\n\
    R 70\nW 54\nW 55\nW 56\nW 57\nW 58\nW 94\nW 95\nW 96\nW 97\nW 98\nW 104\nW 105\nW 106\n\
    W 107\nW 108\nW 44\nW 45\nW 46\nW 47\nW 48\nW 49\nW 50\nW 51\nW 52\nW 53\nW 39\nW 40\nW 41\n\
    W 42\nW 43\nW 17\nW 18\nW 19\nW 20\nW 21\nW 22\nW 23\nW 24\nW 25\nW 26\nW 27\nW 14\nW 16\n\
    S\nW 6\nS\nW 5\nS\nW 6\nS\n";
