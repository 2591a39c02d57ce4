//! What is noted of a turn.

ghost use Rattle.std.specs.Prelude.{◌≡◌, [], ◌∷◌};
ghost use Rattle.ob_session.specs.Steps.{steps_of};
ghost use Rattle.ob_hall.specs.Noting.{driver_step};

use ob_base::{Fault, Key, Value, Write};
use ob_desk::{Desk, Look};
use ob_serial::EpochRecord;
use ob_session::Made;
use ob_turn::Stepped;
use std::marker::Model;
use std::snapshot::Snapshot;

/// A call of the driver of epochs, with its reply. Its long arguments take no bytes.
#[derive(Drop)]
pub enum Driven {
    Looks {
        look: Look,
    },
    TakeBatch {
        batch: Snapshot<Vec<Option<Key>>>,
    },
    Deliver {
        keys: Snapshot<Vec<Option<Key>>>,
        values: Snapshot<Vec<Option<Value>>>,
    },
    Close {
        writes: Snapshot<Vec<Write>>,
    },
    Publish {
        epoch: u64,
        left: u32,
        told: Snapshot<EpochRecord<Key>>,
    },
    Unsure {
        fault: Fault,
    },
    Stop {
        fault: Fault,
    },
    IsStopped {
        fault: Option<Fault>,
    },
}

/// Who noted what.
#[derive(Drop)]
pub enum Noted {
    Client { made: Made },
    Driver { call: Driven },
}

/// What is noted of a turn. Contracts see it as the calls with their replies, which may be none: a
/// call that found no memory isn't noted.
#[derive(Drop)]
pub struct Turned {
    noted: Noted,
}

impl Model for Turned {
    ghost use Rattle.std.specs.Prelude.{List};
    ghost use Rattle.ob_desk.specs.Desk.{Call, Reply};
    ghost use Rattle.ob_hall.specs.Noting.{calls_of};

    ghost Value = { List (Call × Reply) };

    ghost view = { λ t. calls_of t.noted };
}

impl Turned {
    /// What a client did.
    pub fn client(made: Made) -> Turned
        ensures { result ≡ steps_of made }
    {
        Turned {
            noted: Noted::Client { made },
        }
    }

    /// A call of the driver's.
    pub fn driver(call: Driven) -> Turned
        ensures { result ≡ driver_step call ∷ [] }
    {
        Turned {
            noted: Noted::Driver { call },
        }
    }

    /// Nothing.
    pub fn none() -> Turned
        ensures { result ≡ [] }
    {
        Turned::client(Made::NONE)
    }
}

impl Stepped<Turned> for Desk {
    ghost use Rattle.ob_hall.specs.Turns.{IsTurn};

    ghost steps = { IsTurn };
}
