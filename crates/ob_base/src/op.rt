//! An operation of a transaction, as it was answered.

ghost use Rattle.std.specs.Prelude.{◌≡◌, ⊤};

use crate::value::Value;
use std::alloc::AllocError;

/// An operation of a transaction as it was answered. Keys are of any kind `K`.
#[derive(Copy)]
pub enum Op<K> {
    /// A get, its reply, and the ticket whose version answered: 0 for the value that the epoch
    /// began with.
    Get {
        key: K,
        reply: Option<Value>,
        source: u64,
    },
    /// A put.
    Put {
        key: K,
        value: Value,
    },
    /// A delete.
    Del {
        key: K,
    },
}

impl<K: Copy> Clone for Op<K> {
    ghost is_clone = { λ op clone. clone ≡ op };

    ghost is_infallible = { λ _. ⊤ };

    fn clone(&self) -> Result<Op<K>, AllocError> {
        Ok(*self)
    }
}
