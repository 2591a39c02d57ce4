//! What an epoch's record has of each transaction.

ghost use Rattle.std.specs.Prelude.{◌≡◌, ⊤};

use ob_base::{Fault, Op};
use std::alloc::AllocError;

/// Why a transaction was aborted. Keys are of any kind `K`.
#[derive(Copy, PartialEq, Eq)]
pub enum Why<K> {
    /// It wrote a key whose version before its own a later ticket, the reader, had read.
    Conflict { key: K, reader: u64 },
    /// It had read a version of this ticket, which was aborted.
    Depends { on: u64 },
    /// So many keys were queued that the batches that were left had no place for its get.
    ReadsFull { queued: u64, left: u64 },
    /// So many other keys had versions that the write batch had no place for its write.
    WritesFull { keys: u64 },
    /// Its client's gets had named so many other keys in the epoch, which is its share.
    ShareReads { keys: u64 },
    /// Its client's puts and deletes had named so many other keys in the epoch, which is its share.
    ShareWrites { keys: u64 },
    /// Its epoch was closed before it asked to commit.
    EpochEnd,
    /// Its client asked for it.
    Asked,
    /// The proxy stopped.
    Stopped { fault: Fault },
}

impl<K: Copy> Clone for Why<K> {
    ghost is_clone = { λ why clone. clone ≡ why };

    ghost is_infallible = { λ _. ⊤ };

    fn clone(&self) -> Result<Why<K>, AllocError> {
        Ok(*self)
    }
}

/// How a transaction ended.
#[derive(Copy, PartialEq, Eq)]
pub enum Outcome<K> {
    /// It is committed, and its epoch is durable.
    Committed,
    /// It was aborted, and changed nothing.
    Aborted { why: Why<K> },
    /// It is not known whether its epoch is durable.
    Unsure { epoch: u64 },
}

impl<K: Copy> Clone for Outcome<K> {
    ghost is_clone = { λ outcome clone. clone ≡ outcome };

    ghost is_infallible = { λ _. ⊤ };

    fn clone(&self) -> Result<Outcome<K>, AllocError> {
        Ok(*self)
    }
}

/// A transaction: its timestamp (epoch, then ticket in the epoch, from 1), its client, its
/// operations as they were answered, and how it ended.
#[derive(Drop)]
pub struct TxnRecord<K> {
    pub epoch: u64,
    pub ticket: u64,
    pub client: u32,
    pub ops: Vec<Op<K>>,
    pub outcome: Outcome<K>,
}

/// An epoch with its transactions, in rising tickets.
#[derive(Drop)]
pub struct EpochRecord<K> {
    pub epoch: u64,
    pub txns: Vec<TxnRecord<K>>,
}
