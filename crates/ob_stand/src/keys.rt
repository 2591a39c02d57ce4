//! Which keys a step of an epoch takes out of their buckets, and what stays of a bucket until it is
//! filled anew. Laws of the planner's flat table; nothing here runs.

ghost use Rattle.ob_stand.specs.Goes.{GoesFurther, RefillsMove, StepsOnlyTake, VersionsGo};
ghost use Rattle.ob_stand.specs.Takes.{PickedAreTaken};

/// Of a batch and of the final lifts: a key leaves its bucket for the stash just where an index is
/// picked with it, and that index is its own. No key comes or goes.
pub fn picked_are_taken()
    ensures { PickedAreTaken }
{}

/// A step only takes keys out of a bucket and marks indexes, but for a refill of a lifted one.
pub fn steps_only_take()
    ensures { StepsOnlyTake }
{}

/// A refill puts keys of the stash into buckets that were lifted, and moves no other key.
pub fn refills_move()
    ensures { RefillsMove }
{}

/// A version whose bucket isn't filled anew goes on.
pub fn versions_go()
    ensures { VersionsGo }
{}

/// What goes on from what went on goes on.
pub fn goes_further()
    ensures { GoesFurther }
{}
