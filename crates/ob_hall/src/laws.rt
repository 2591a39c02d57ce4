//! What every history of a hall obeys.

ghost use Rattle.ob_hall.specs.Laws.{IsOneChain, AreOwnCalls, IsDriverAlone, DeskAgrees};
ghost use Rattle.ob_hall.specs.Rounds.{AreDriversRounds, ClosedStays};

/// The calls of a hall's history, one behind the other, are a chain of calls that the desk allows:
/// so whatever holds of every chain of calls holds of them.
pub fn history_is_one_chain()
    ensures { IsOneChain }
{}

/// A client's calls in a hall's history are those of its own pass's entries, which have no other
/// client's call.
pub fn calls_are_own()
    ensures { AreOwnCalls }
{}

/// The driver's entries in a hall's history have no client's call.
pub fn driver_is_alone()
    ensures { IsDriverAlone }
{}

/// At every moment of a hall's history the desk agrees with what each client was told by its own
/// pass's entries: so a client that knows its own calls knows which call it may make next.
pub fn desk_agrees()
    ensures { DeskAgrees }
{}

/// The driver of epochs knows from its own calls which epoch runs, whether another one is closed
/// and with which writes, how many batches are left and which keys are in flight, whatever the
/// clients call between.
pub fn driver_knows_rounds()
    ensures { AreDriversRounds }
{}

/// What is closed stays: where by the driver's own calls an epoch is due, the part that its last
/// close shut, whose writes it was told then, is closed still, whatever the clients called since.
pub fn closed_epochs_stay()
    ensures { ClosedStays }
{}
