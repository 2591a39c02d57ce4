//! What every step of the planner keeps, and where a refill puts its keys.

ghost use Rattle.ob_ring.specs.Jobs.{JobsReadPicks};
ghost use Rattle.ob_ring.specs.Laws.{StepsKeepOrder, ShownOnce, LiftsTakeAll};
ghost use Rattle.ob_ring.specs.Passing.{FillsPlace, RowsPlace, StepsAreFew};
ghost use Rattle.ob_ring.specs.Samples.{Sampled};

/// Every step of the flat table keeps its order: each present key has one row, on its leaf's path
/// or in the stash; and a bucket that isn't lifted was read less often than it has dummies.
pub fn steps_keep_order()
    ensures { StepsKeepOrder }
{}

/// An index that is shown was shown neither before in its bucket's version nor earlier in the
/// step.
pub fn shown_once()
    ensures { ShownOnce }
{}

/// A lift reads as many indexes as a bucket has real ones, none of them shown before, and each
/// that holds a key.
pub fn lifts_take_all()
    ensures { LiftsTakeAll }
{}

/// The jobs of a read batch and of the final lifts read the indexes that the flat table picks, in
/// its order.
pub fn jobs_read_picks()
    ensures { JobsReadPicks }
{}

/// A refill writes lifted buckets back from the leaves up, each with as many keys of the stash as
/// it has real indexes, the least ones of those whose paths pass it. It puts each key where one
/// pass over the keys puts it, in which each in turn, rising, goes to the next real index of the
/// deepest lifted bucket of its path that has one left, and stays in the stash where none has.
pub fn fills_place()
    ensures { FillsPlace }
{}

/// The pass may leave out the keys that lie in buckets: where the stash has a row of each other
/// key, a pass over its rows, which are in rising order, gives each key the same place.
pub fn rows_place()
    ensures { RowsPlace }
{}

/// A pass takes at most L + 2 steps a row, whatever is lifted: a step is a bucket that is asked
/// whether it has room, of L + 1 on a path, or a row that is put.
pub fn steps_few()
    ensures { StepsAreFew }
{}

/// Eight keys of one leaf, computed: with each bucket lifted, with all but the middle one of the
/// path, with the leaf's alone, and with none. The pass and the refill put them alike.
pub fn sampled()
    ensures { Sampled }
{}
