//! The record of a read batch.

ghost use Rattle.std.specs.Prelude.{◌≡◌};

use arrayvec::ArrayVec;
use ob_base::Key;
use std::marker::Model;

// What the places of a batch ask for, and their words.
pub type Asks = ArrayVec<Option<Key>, 64>;

/// The words of the places of a batch.
pub type Words = ArrayVec<u64, 64>;

/// The record of a read batch. Contracts see its parts as lists and numbers.
#[derive(Drop)]
pub struct Record {
    pub(crate) batch: u32,
    pub(crate) generation: u64,
    pub(crate) number: u64,
    pub(crate) first: u64,
    pub(crate) asks: Asks,
    pub(crate) words: Words,
}

impl Model for Record {
    ghost use Rattle.ob_log.specs.Logs.{BatchRecord};

    ghost Value = { BatchRecord };

    ghost view = { λ r. record { batch = r.batch; generation = r.generation; number = r.number; first = r.first; asks = r.asks.items; words = r.words.items } };
}

impl Record {
    /// The number of the batch in its epoch.
    pub fn batch(&self) -> u32
        ensures { result ≡ self.now.batch }
    {
        self.batch
    }

    /// The generation of the run that appended it.
    pub fn generation(&self) -> u64
        ensures { result ≡ self.now.generation }
    {
        self.generation
    }

    /// The number of its first seal.
    pub fn number(&self) -> u64
        ensures { result ≡ self.now.number }
    {
        self.number
    }

    /// The place of its first word in that generation's tape.
    pub fn first(&self) -> u64
        ensures { result ≡ self.now.first }
    {
        self.first
    }

    /// For each place the key that it asks for, or none for a pad.
    pub fn asks(&self) -> &[Option<Key>]
        ensures { result.now ≡ self.now.asks }
    {
        self.asks.as_slice()
    }

    /// The word of each place.
    pub fn words(&self) -> &[u64]
        ensures { result.now ≡ self.now.words }
    {
        self.words.as_slice()
    }
}

/// The open records of an epoch, from batch 0 on. Contracts see a list.
#[derive(Drop)]
pub struct Records {
    pub(crate) list: Vec<Record>,
}

impl Model for Records {
    ghost use Rattle.std.specs.Prelude.{List};
    ghost use Rattle.ob_log.specs.Logs.{BatchRecord};

    ghost Value = { List BatchRecord };

    ghost view = { λ r. r.list.items };
}

impl Records {
    /// The records.
    pub fn as_slice(&self) -> &[Record]
        ensures { result.now ≡ self.now }
    {
        self.list.as_slice()
    }
}
