//! What the steps of an epoch make of the values of a store's keys: batches, final lifts, writes
//! and a refill keep each value where the planner's table says. Laws of definitions; nothing here
//! runs.

ghost use Rattle.ob_stand.specs.Epochs.{BucketsGo, EpochsAreMet, EpochsFollow};
ghost use Rattle.ob_stand.specs.ValueLaws.{BatchCarries, FetchIsAnswered, LiftsCarry, StashCounts, WritesCarry};
ghost use Rattle.ob_stand.specs.Refilled.{PlainIsSpelled, RefillCarries, RefillIsWritten};
ghost use Rattle.ob_stand.specs.Runs.{JobsAreRead};
ghost use Rattle.ob_stand.specs.ValueSamples.{ValuesSampled};

/// Where each job of a batch was read, none breaks a rule, and the stash and the buckets have the
/// map's values as before.
pub fn batch_carries()
    ensures { BatchCarries }
{}

/// The same of the final lifts.
pub fn lifts_carry()
    ensures { LiftsCarry }
{}

/// After a batch the stash has the map's value of each key that the batch asked for, and none of
/// an absent one.
pub fn fetch_is_answered()
    ensures { FetchIsAnswered }
{}

/// After an epoch's writes the table has the values of the map with those writes.
pub fn writes_carry()
    ensures { WritesCarry }
{}

/// The stash has as many rows as the table has keys in it.
pub fn stash_counts()
    ensures { StashCounts }
{}

/// The bytes that the planner gives for a slot spell the row of the key that lies there, or that
/// none does.
pub fn plain_is_spelled()
    ensures { PlainIsSpelled }
{}

/// The planned bytes of the slots of a filled bucket are the rows of the keys that lie there, and
/// just those rows leave the stash.
pub fn refill_is_written()
    ensures { RefillIsWritten }
{}

/// After a refill the table has the values that it had.
pub fn refill_carries()
    ensures { RefillCarries }
{}

/// Jobs that were run have read the slots of their picks; the slots stay while the versions stay as
/// they are sealed.
pub fn jobs_are_read()
    ensures { JobsAreRead }
{}

/// Over a whole epoch no slot that is read breaks a rule, and the table then has the values of the
/// map with the epoch's writes.
pub fn epochs_follow()
    ensures { EpochsFollow }
{}

/// Of a bucket that an epoch's refill doesn't fill, marks only come and keys only leave, and the
/// keys that stay weren't written.
pub fn buckets_go()
    ensures { BucketsGo }
{}

/// Whatever an epoch asks for and writes, there are jobs and slots with which it goes through.
pub fn epochs_are_met()
    ensures { EpochsAreMet }
{}

/// An epoch of a small store, computed from the definitions.
pub fn values_sampled()
    ensures { ValuesSampled }
{}
