//! What the position map has of a key.

/// What the position map has of a present key: the id of the word that it kept, which is a
/// generation and a place in that generation's tape, and the leaf on whose path its row lies.
#[derive(Clone, Copy, PartialEq, Eq)]
pub struct Entry {
    pub generation: u64,
    pub index: u64,
    pub leaf: u32,
}
