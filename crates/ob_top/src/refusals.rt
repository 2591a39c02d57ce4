//! What the traces of runs tell of which some were refused.

ghost use Rattle.ob_top.specs.Refusals.{RefusedRunsFit};

use ob_store::Store;

/// So it is where some of those runs were refused, before their opening or in it: such a run began
/// as the others did, and what waited in its store then might have been left by a crash too. But
/// for one case: the last note of a refused opening is the write that opens its generation's gate,
/// and the next run that shows a sync found that generation.
pub fn refused_runs_fit<S: Store>()
    ensures { RefusedRunsFit (λ store. S.disk store) }
{}
