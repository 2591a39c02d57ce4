//! Keys, values of at most 64 bytes, and writes.

ghost use Rattle.std.specs.Prelude.{◌≡◌, ◌<◌, ◌≤◌, ◌++◌, length, drop, MatchOption};

use std::marker::Model;

/// A key's number.
pub type Key = u32;

/// A value of 0 to 64 bytes, kept inline. Contracts see the bytes.
#[derive(Clone, Copy, PartialEq, Eq)]
pub struct Value {
    bytes: [u8; 64],
    len: usize,
}

impl Model for Value {
    ghost use Rattle.std.specs.Prelude.{List, ℕ, take, length};
    ghost use Rattle.std.specs.Coded.{coded_ℕ, coded_list};
    ghost use Rattle.ob_base.specs.Padded.{IsPadded, padded};
    ghost use Rattle.ob_base.specs.Padded.{padded_take};

    ghost Value = { List ℕ };

    ghost coded = { coded_list coded_ℕ };

    ghost view = { λ v. take v.len v.bytes };

    ghost invariant = { λ v. IsPadded v.bytes v.len };

    ghost inverse = { λ bytes. record { bytes = padded bytes; len = length bytes } };

    ghost inverse_ok = { λ v padded. λ i. record { bytes = (padded_take v.bytes v.len padded i).0; len = (padded_take v.bytes v.len padded i).1 } };
}

// Writes bytes over the front of others.
fn copy_over(all: &mut [u8], bytes: &[u8])
    requires { length bytes.now ≤ length all.old }
    ensures { all.new ≡ bytes.now ++ drop (length bytes.now) all.old }
{
    all[..bytes.len()].copy_from_slice(bytes);
}

impl Value {
    /// The value of these bytes: none exactly where there are more than 64.
    pub fn new(bytes: &[u8]) -> Option<Value>
        ensures { MatchOption result (64 < length bytes.now) (λ v. (v ≡ bytes.now)
            × (length bytes.now ≤ 64)) }
    {
        if bytes.len() > 64 {
            return None;
        }
        let mut all = [0; 64];
        copy_over(&mut all, bytes);
        Some(Value {
            bytes: all,
            len: bytes.len(),
        })
    }

    /// The bytes, at most 64.
    pub fn as_slice(&self) -> &[u8]
        ensures bytes { result.now ≡ self.now }
        ensures few { length self.now ≤ 64 }
    {
        &self.bytes[..self.len]
    }
}

/// A key with its new value; None takes the key out.
#[derive(Clone, Copy)]
pub struct Write {
    pub key: Key,
    pub value: Option<Value>,
}
