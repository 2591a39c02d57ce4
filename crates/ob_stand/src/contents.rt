//! What an epoch makes of a checkpoint's content: the flat table that a content stands for, the
//! content and the numbers in it after an epoch, and its public counts. Laws of definitions;
//! nothing here runs.

ghost use Rattle.ob_stand.specs.Calls.{CallsJoin, PlansAreRead, RingsRefill, WritesAreFit};
ghost use Rattle.ob_stand.specs.Counts.{EndCounts, OpeningCounts, SlotsRank};
ghost use Rattle.ob_stand.specs.EpochEnds.{EndsFollow};
ghost use Rattle.ob_stand.specs.Idle.{Idled};
ghost use Rattle.ob_stand.specs.Numbers.{RenewedFit, StepsRenew};
ghost use Rattle.ob_stand.specs.Plans.{RefillPlans};
ghost use Rattle.ob_stand.specs.ContentSamples.{ContentsSampled};
ghost use Rattle.ob_stand.specs.Table.{RingsStand, TablesAreRead};
ghost use Rattle.ob_stand.specs.Valued.{ContentsCarry, ContentsFollow, TablesObey};

/// Content that obeys stands for an orderly table, that of the arrays which an opening makes of it.
pub fn tables_are_read()
    ensures { TablesAreRead }
{}

/// A ring that is made of tables whose content obeys, with no bucket lifted, stands for the
/// content's table.
pub fn rings_stand()
    ensures { RingsStand }
{}

/// At an epoch's beginning the table of the content has the map's values.
pub fn contents_carry()
    ensures { ContentsCarry }
{}

/// At an epoch's end the tables obey again, and have the map's values.
pub fn tables_obey()
    ensures { TablesObey }
{}

/// From content that obeys, and a map: the tables after an epoch are again content that obeys, with
/// the map's values after the epoch's writes.
pub fn contents_follow()
    ensures { ContentsFollow }
{}

/// After a refill no bucket is lifted, and each that was lies in its other place.
pub fn refill_plans()
    ensures { RefillPlans }
{}

/// The jobs of the planner's batches and lifts that were run have read the slots as they lay at the
/// epoch's beginning.
pub fn plans_are_read()
    ensures { PlansAreRead }
{}

/// The versions stay as they are sealed over one call of the planner behind another, and the list
/// that it keeps is that of the table's lifted buckets.
pub fn calls_join()
    ensures { CallsJoin }
{}

/// An epoch's writes are in range where each is.
pub fn writes_are_fit()
    ensures { WritesAreFit }
{}

/// After the planner's refill was written to the cells, the rows lie where the table says, and have
/// left the stash.
pub fn rings_refill()
    ensures { RingsRefill }
{}

/// Each entry and each seal that a call of the planner leaves is one of before, or of the running
/// generation.
pub fn steps_renew()
    ensures { StepsRenew }
{}

/// So the numbers of the tables stay in their fields, and none is of a later generation.
pub fn renewed_fit()
    ensures { RenewedFit }
{}

/// From one checkpoint's content to the next: it obeys, it is known, its buckets were filled anew
/// in their other homes or went on, and it has the map's values after the epoch's writes.
pub fn ends_follow()
    ensures { EndsFollow }
{}

/// As an opening counts them, each bucket was read as often as indexes of its version are marked.
pub fn opening_counts()
    ensures { OpeningCounts }
{}

/// After an end the public state of the schedule is that of the new content.
pub fn end_counts()
    ensures { EndCounts }
{}

/// The slots of a version's indexes are a ranking.
pub fn slots_rank()
    ensures { SlotsRank }
{}

/// The contents of a small store, computed from the definitions.
pub fn contents_sampled()
    ensures { ContentsSampled }
{}

/// An end of the small store that changes nothing meets all that is asked of an end.
pub fn idled()
    ensures { Idled }
{}
