//! What calls over a ring store of 8 keys do to it, as another implementation did it.

/// Events by their names, in the order in which they come: a `/` stands for the end of a line.
///
/// A format; an opening, and one behind another. Then an epoch of two batches of pads, on a tape
/// of zeros: the record of its first batch up to the write of its gate, and whole; that batch; the
/// record of the second one; that batch and the final lifts. What is written at the epoch's end:
/// its first slot, and all. The epoch's register: its body; a sync behind that; its gate; a sync
/// behind that. Then the epoch behind it, whose first batch asks for key 5, which was put at the end
/// of the first; and the same where the put's word was 1.
pub static EVENTS: &str = "\
    format: W 0/S/W 2/W 4/W 6/W 8/W 10/W 12/W 14/W 16/S/W 4/S/W 3/S/W 4/S/W 39/W 40/W 41/W 42/\
    W 43/W 44/W 45/W 46/W 47/W 48/W 49/W 50/W 51/W 52/W 53/W 54/W 55/W 56/W 57/W 58/W 59/W 60/\
    W 61/W 62/W 63/W 64/W 65/W 66/W 67/W 68/W 69/W 70/W 71/W 72/W 73/W 17/W 18/W 19/W 20/W 21/\
    W 22/W 23/W 24/W 25/W 26/W 27/S/W 6/S/W 5/S/W 6/S/W 0/S/\n\
    opening: R 0/R 1/R 2/R 3/R 4/R 5/R 6/R 7/R 8/R 17/R 18/R 19/R 20/R 21/R 22/R 23/R 24/R 25/\
    R 26/R 27/R 13/R 14/R 15/R 16/S/W 1/S/W 2/S/\n\
    again: R 0/R 1/R 2/R 3/R 4/R 5/R 6/R 7/R 8/R 17/R 18/R 19/R 20/R 21/R 22/R 23/R 24/R 25/\
    R 26/R 27/R 13/R 14/R 15/R 16/S/W 4/S/W 3/S/W 4/S/\n\
    half: W 13/S/W 14/\n\
    record: W 13/S/W 14/S/\n\
    batch: R 41/R 46/R 56/R 42/R 47/R 57/\n\
    second: W 15/S/W 16/S/\n\
    lifts: R 43/R 39/R 40/R 48/R 44/R 45/R 58/R 54/R 55/R 49/R 50/R 64/R 65/\n\
    slot: W 89/\n\
    refill: W 89/W 90/W 91/W 92/W 93/W 99/W 100/W 101/W 102/W 103/W 79/W 80/W 81/W 82/W 83/W 84/\
    W 85/W 86/W 87/W 88/W 74/W 75/W 76/W 77/W 78/W 28/W 29/W 30/W 31/W 32/W 33/W 34/W 35/W 36/\
    W 37/W 38/W 10/W 12/S/\n\
    body: W 7/\n\
    sure: W 7/S/\n\
    gate: W 7/S/W 8/\n\
    register: W 7/S/W 8/S/\n\
    next: W 9/S/W 10/S/R 76/R 81/R 89/R 77/R 82/R 91/W 11/S/W 12/S/R 78/R 74/R 75/R 83/R 79/\
    R 80/R 92/R 90/R 93/R 59/R 60/R 84/R 85/R 69/R 70/W 54/W 55/W 56/W 57/W 58/W 94/W 95/W 96/\
    W 97/W 98/W 104/W 105/W 106/W 107/W 108/W 44/W 45/W 46/W 47/W 48/W 49/W 50/W 51/W 52/W 53/\
    W 39/W 40/W 41/W 42/W 43/W 17/W 18/W 19/W 20/W 21/W 22/W 23/W 24/W 25/W 26/W 27/W 14/W 16/S/\
    W 6/S/W 5/S/W 6/S/\n\
    leaf: W 9/S/W 10/S/R 76/R 79/R 61/R 77/R 81/R 91/W 11/S/W 12/S/R 78/R 74/R 75/R 82/R 80/\
    R 83/R 92/R 93/R 89/R 90/R 59/R 60/R 84/R 85/R 69/R 70/W 54/W 55/W 56/W 57/W 58/W 94/W 95/\
    W 96/W 97/W 98/W 104/W 105/W 106/W 107/W 108/W 44/W 45/W 46/W 47/W 48/W 49/W 50/W 51/W 52/\
    W 53/W 39/W 40/W 41/W 42/W 43/W 17/W 18/W 19/W 20/W 21/W 22/W 23/W 24/W 25/W 26/W 27/W 14/\
    W 16/S/W 6/S/W 5/S/W 6/S/";
