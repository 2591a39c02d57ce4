//! What a client was told agrees with the desk, whatever others call.

ghost use Rattle.ob_session.specs.Agreeing.{CallsAgree};
ghost use Rattle.ob_session.specs.Records.{RecordsTell};

/// At every moment of a desk's life the desk agrees with what each of its clients was told,
/// whatever calls the other clients and the epoch driver made between: so a client that knows its
/// own calls knows which call it may make next.
pub fn calls_agree()
    ensures { CallsAgree }
{}

/// The published records tell of each client just the transactions that it was told of, in order,
/// each once, with the operations that it was answered; a committed one asked to commit, and one
/// whose cause is that its client asked for it was told so by its own call. So does the record that
/// a publish of a closed epoch would tell, behind them. Where no epoch runs or is closed they tell
/// of all that the client began.
pub fn records_tell()
    ensures { RecordsTell }
{}
