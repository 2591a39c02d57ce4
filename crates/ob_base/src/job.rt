//! A planned read of a slot, and a place of a read batch.

use crate::value::Key;

/// A slot to be read: its cell, the identity with which that is sealed, and the key that lies
/// there, if any; once read, the plain bytes.
#[derive(Clone, Copy)]
pub struct Job {
    pub cell: u64,
    pub generation: u64,
    pub number: u64,
    pub key: Option<Key>,
    pub result: Option<[u8; 96]>,
}

/// A place of a read batch: the leaf that it shows, and how many jobs stand before its own.
#[derive(Clone, Copy)]
pub struct Place {
    pub leaf: u32,
    pub first: u32,
}
