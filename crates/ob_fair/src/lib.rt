//! What client shares promise, over every run of a desk.
#![tactic(auto)]

ghost use Rattle.ob_fair.specs.Fair.{PlacesAreShared, SharesAreOwn, NoneIsKept};

/// What a share leaves of the other refusals.
///
/// Over every run of a new desk, whatever calls are made: where there is a share of reads, a get is
/// refused for want of a place only once no batch is left, and then none is queued. Where there is a
/// share of writes, no put or delete is refused for want of a place.
///
/// And whatever other clients do, whether a call is refused by share hangs on what its own client
/// named in the epoch alone. Without shares none refuses a call, and no names are kept.
pub fn shares_are_fair()
    ensures places { PlacesAreShared }
    ensures own { SharesAreOwn }
    ensures none { NoneIsKept }
{}
