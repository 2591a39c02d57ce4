//! What one client's transactions meet: places for their gets and writes, and an epoch each.

ghost use Rattle.ob_outcomes.specs.Lone.{LoneUsesPlaces, LoneIsLetIn, LoneCommitsLast, OneAnEpoch};
ghost use Rattle.ob_outcomes.specs.Sums.{LoneReadsBelow, LoneCountsUp, AddsAreCounted};

/// A lone client isn't turned away before its places are used, whatever it and the driver did.
///
/// The first transaction of an epoch that was turned away at a get had made as many gets as the
/// epoch had batches, and one that was turned away at a write as many writes as the write batch has
/// places. So where each transaction of its script asks for fewer, the first of each epoch isn't
/// turned away, and none is at a write.
pub fn lone_is_let_in()
    ensures used { LoneUsesPlaces }
    ensures let_in { LoneIsLetIn }
{}

/// A lone client has at most one committed transaction an epoch, which is the epoch's last. So
/// where all are committed each epoch has one.
pub fn one_commits()
    ensures last { LoneCommitsLast }
    ensures one { OneAnEpoch }
{}

/// Each transaction of a lone client has read the map below its epoch and its own writes, whether
/// it was aborted later or not.
pub fn lone_reads_below()
    ensures { LoneReadsBelow }
{}

/// Where each transaction of a lone client's script gets a key, adds 1 to a key and commits, each
/// of its epochs has one transaction, which is committed, and the map behind them holds how often
/// each key was added to, from a map without keys on. Where all of the script was served there are
/// as many epochs as transactions. For a script that is made number by number that is how many
/// of the numbers give the key.
pub fn lone_counts_up()
    ensures counts { LoneCountsUp }
    ensures adds { AddsAreCounted }
{}
