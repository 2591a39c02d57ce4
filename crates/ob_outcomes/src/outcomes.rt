//! Whom an epoch's end aborts, and what an outcome shows.

ghost use Rattle.ob_outcomes.specs.Ends.{QueueFits, WaitingHaveAsked, SignedOffHaveAsked, AskedOutlastClose, PadsChangeNothing, AskedOutlastPads, WaitingAreLive, NoneEndedYet, DueClosesEndNone, EachHasHolder, CloseLosesNone};
ghost use Rattle.ob_outcomes.specs.Alone.{OneClient};
ghost use Rattle.ob_outcomes.specs.Callers.{ClientsStay, OnlyClientsCall};
ghost use Rattle.ob_outcomes.specs.Shown.{OutcomesAreShown, RecordsAreNumbered};

/// Whom the end of an epoch aborts, whatever calls were made of a new desk.
///
/// The batches that are left have a place for each queued key. Where no batch is in flight, none
/// is needed, and as many transactions wait as go on, all that go on have asked to commit; and so
/// have they where every client has signed off. Then a close aborts nobody, nor does one behind
/// the batches that are left, which have pads alone. Who waits goes on; and before a close nobody
/// is aborted for the epoch's end. So where at each close all that went on had asked, no published
/// transaction was.
pub fn epoch_end_is_due()
    ensures queue { QueueFits }
    ensures waiting { WaitingHaveAsked }
    ensures signed_off { SignedOffHaveAsked }
    ensures close { AskedOutlastClose }
    ensures pads { PadsChangeNothing }
    ensures close_behind_pads { AskedOutlastPads }
    ensures live { WaitingAreLive }
    ensures none_yet { NoneEndedYet }
    ensures none_ends { DueClosesEndNone }
{}

/// No transaction is lost: each has a holder, and a close loses none, so that each is told in the
/// epoch's record.
pub fn close_loses_none()
    ensures holders { EachHasHolder }
    ensures close { CloseLosesNone }
{}

/// Who calls a desk: it has the clients that it was made with, and nobody else has called it.
pub fn only_clients_call()
    ensures stay { ClientsStay }
    ensures only { OnlyClientsCall }
{}

/// What the published records show of how each transaction ended, whatever calls were made of a
/// new desk.
///
/// A committed one has read from committed ones alone. Of an aborted one the record shows the
/// cause: the later reader's get, the get from a source that isn't committed, or the numbers of
/// places. None was stopped, and of none the outcome is unknown. The records' epochs count on from
/// the first, and the tickets of each from 1.
pub fn outcomes_are_shown()
    ensures outcomes { OutcomesAreShown }
    ensures numbered { RecordsAreNumbered }
{}

/// With one client no transaction is aborted because of another: each is committed, or aborted
/// because its client asked, because a batch or its client's share has no place, or at the epoch's
/// end.
pub fn one_client()
    ensures { OneClient }
{}
