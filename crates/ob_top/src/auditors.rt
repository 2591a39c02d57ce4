//! What an auditor knows behind a format, and behind each run.

ghost use Rattle.ob_vault.specs.Spans.{span};
ghost use Rattle.ob_top.specs.AuditedStops.{HeadsAreRead, OpeningsAreRead, StopsAreRead};
ghost use Rattle.ob_top.specs.Auditors.{FormatsAreRead, RunsAreRead, RunsAreReadFrom};

use ob_store::Store;

/// Whoever reads the lines of a format, and then those of runs behind it that served, run by run,
/// finds each admitted behind what was known, and knows as much behind it: that the lines so far are
/// a public history's, whatever the life of the store goes on with, and that this leaves what the
/// next run finds, from any image that a crash leaves. As much is known of fewer images, so of the one
/// alone at which a run begins, and from there it goes on.
pub fn auditors_go_on<S: Store>()
    ensures formats { FormatsAreRead (λ store. S.disk store) }
    ensures runs { RunsAreRead (λ store. S.disk store) }
    ensures anywhere { RunsAreReadFrom (λ store. S.disk store) }
{}

/// And so with an opening that stopped: one that showed, and left, what its notes tell, of a store or
/// of a stretch of its time, at the end of which a crash cut it off. So it is of a run that was
/// refused, in its opening or before it. But for one case: where the last note is the write that
/// opens the next generation's gate, without the sync, it is known of those images alone that stand
/// at the generation before.
pub fn stops_are_read<S: Store>()
    ensures stops { StopsAreRead (λ store. S.disk store) }
    ensures stages { StopsAreRead (span (λ store. S.disk store)) }
    ensures openings { OpeningsAreRead (λ store. S.disk store) }
    ensures heads { HeadsAreRead (λ store. S.disk store) }
{}
