//! Two planners of one table plan alike.

ghost use Rattle.ob_blind.specs.Rings.{RingsPickAlike};

/// Of two rings that stand for one table, whatever their ranks, homes, seals and rows are: with
/// places of equal asks and leaves a read batch of both reads one list of picked indexes, the ones
/// that the table shows, each ring in the slots of its own versions; so do the final lifts; writes
/// of equal keys and leaves, and a refill, leave both with one table again.
pub fn rings_pick_alike()
    ensures { RingsPickAlike }
{}
