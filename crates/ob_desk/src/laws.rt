//! What every run of a transaction manager obeys.

ghost use Rattle.ob_desk.specs.Desk.{DeskReplays, DeskIsSerial};
ghost use Rattle.ob_desk.specs.Causes.{RepliesAreExact, AbortedAreTold, EndsUnasked, UnaskedEnd, AskedStay};

/// What every run of a desk obeys, whatever calls are made and in whatever order, as long as each
/// may be made and each batch is delivered with the values of the map.
///
/// Always, in the running epoch and in a closed one, each transaction that isn't aborted replays
/// on the epoch's map with the writes of the earlier ones that aren't aborted, in the order of
/// their tickets. And the committed transactions of the published records are a one-by-one run
/// from the first map to the map that the write batches made of it.
pub fn desk_is_serial()
    ensures replays { DeskReplays }
    ensures serial { DeskIsSerial }
{}

/// Where each answer comes from.
///
/// On a transaction that isn't aborted the reply is a function of the order and the call, so each
/// of Queued, Conflict, ReadsFull, WritesFull and Asked comes exactly where that function says. One
/// that doesn't go on is told why it was aborted, and nothing happens. And for the epoch's end a
/// close aborts those alone that haven't asked to commit: none of them outlasts it, and who asked
/// is aborted because of a source alone.
pub fn causes()
    ensures replies { RepliesAreExact }
    ensures aborted { AbortedAreTold }
    ensures epoch_end { EndsUnasked }
    ensures unasked { UnaskedEnd }
    ensures asked { AskedStay }
{}
