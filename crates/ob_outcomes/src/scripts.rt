//! What was told is what was asked, and epochs are few.

ghost use Rattle.ob_outcomes.specs.ScriptLaws.{EpochsAreFew, ToldIsAsked};

/// Where each epoch has a transaction, and each client's transactions are a front of its script's,
/// there are no more epochs than transactions in the script.
pub fn epochs_are_few()
    ensures { EpochsAreFew }
{}

/// Where the records tell of just the transactions that a client was told of, and what it was told
/// is what its script means, each record has what the script's transaction at its place asks for,
/// or a front of that, and ends as that one may.
pub fn told_is_asked()
    ensures { ToldIsAsked }
{}
