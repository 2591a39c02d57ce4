//! Words of buckets decide no label and no pick.

ghost use Rattle.ob_blind.specs.Draws.{DrawsAreBlind};

/// From what two vaults hide, whose tables, entries and records are the same and whose slots may
/// differ, calls that ask for the same keys, or put and delete the same ones, and whose words agree
/// but for those of buckets: their labels are equal, each has the slots of its own content for one
/// list of picks, and what they hide then is alike again; so over a row of calls. And the slots
/// that an end leaves go by the words of buckets alone, whatever its writes and their words are.
pub fn draws_are_blind()
    ensures { DrawsAreBlind }
{}
