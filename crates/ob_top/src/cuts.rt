//! What an auditor knows behind a run that a crash cuts off within its opening, or within a call.

ghost use Rattle.ob_top.specs.CutOpenings.{
  BrokenOpeningsAreRead,
  CutHeadsAreRead,
  CutOpeningsAreRead,
  OpeningsOfRunsAreRead,
  RefusedOpeningsAreRead,
  StopsLeadOn,
};
ghost use Rattle.ob_top.specs.Cuts.{CutsAreRead, CutsAreReadFrom, CutsLeadOn};

use ob_store::Store;

/// Whoever knows a life (`auditors_go_on`) goes on so with a run that a crash cuts off at any moment
/// of any stage of any of its calls: the notes up to there, as many of the call's as may have been
/// shown in that stage, are admitted behind what was known, and as much is known behind them, of each
/// image that the moment leaves; so the next run goes on from there.
pub fn cuts_are_read<S: Store>()
    ensures runs { CutsAreRead (λ store. S.disk store) }
    ensures anywhere { CutsAreReadFrom (λ store. S.disk store) }
    ensures onward { CutsLeadOn (λ store. S.disk store) }
{}

/// And so with one that a crash cuts off at any moment of its opening: while it reads, the head first;
/// once its first sync was shown; while its generation's gate is closed, the body laid and the gate
/// opened; and while batches are shown again. It is known of each image that the moment surely leaves
/// (`stops_are_read`), and the next run goes on from there. So it is of an opening that would have been
/// refused, as far as that came, and of one in which the watch broke.
pub fn cut_openings_are_read<S: Store>()
    ensures openings { CutOpeningsAreRead (λ store. S.disk store) }
    ensures runs { OpeningsOfRunsAreRead (λ store. S.disk store) }
    ensures refused { RefusedOpeningsAreRead (λ store. S.disk store) }
    ensures broken { BrokenOpeningsAreRead (λ store. S.disk store) }
    ensures heads { CutHeadsAreRead (λ store. S.disk store) }
    ensures onward { StopsLeadOn (λ store. S.disk store) }
{}
