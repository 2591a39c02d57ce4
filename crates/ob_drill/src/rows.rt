//! Rows of a map, gathered in their bytes.

ghost use Rattle.std.specs.Prelude.{◌≡◌, ◌+◌, ◌<◌, ◌≤◌, ◌^◌, ◌++◌, ℕ, List, Option, Some, length, slice_get, OnOk};
ghost use Rattle.ob_drill.specs.Rows.{row_bytes};
ghost use Rattle.ob_drill.specs.Gathered.{HasRows};

use ob_base::{Key, Memory, Value};
use std::alloc::Global;

/// The bytes of rows, one behind the other, and how many rows they are.
#[derive(Drop)]
pub struct Rows {
    pub bytes: Vec<u8>,
    pub many: u32,
}

// Writes a row behind others.
fn put_row(bytes: &mut Vec<u8>, key: Key, value: &Value) -> Result<(), Memory>
    ensures { OnOk result
        (bytes.new.items ≡ bytes.old.items ++ row_bytes (key, value.now)) }
{
    let value = value.as_slice();
    bytes.extend_from_slice(&key.to_le_bytes())?;
    bytes.push(value.len() as u8)?;
    bytes.extend_from_slice(value)?;
    Ok(())
}

impl Rows {
    /// No rows.
    pub fn new(alloc: Global) -> Rows
        ensures none { (value : ℕ → Option (List ℕ)) → HasRows value 0 result }
        ensures few { result.many ≡ 0 }
    {
        Rows {
            bytes: Vec::new(alloc),
            many: 0,
        }
    }

    // Adds the row of a key that is there.
    fn put(&mut self, key: Key, found: &Option<Value>) -> Result<(), Memory>
        requires { self.old.many < 2 ^ 31 }
        ensures few { OnOk result (self.new.many ≤ self.old.many + 1) }
        ensures more { (value : ℕ → Option (List ℕ)) → value key ≡ found.now
            → HasRows value key self.old → OnOk result (HasRows value (key + 1) self.new) }
    {
        let Some(value) = found else {
            return Ok(());
        };
        put_row(&mut self.bytes, key, value)?;
        self.many += 1;
        Ok(())
    }

    /// Adds the rows of the keys from `first` on, whose values these are: None for a key that is
    /// absent.
    ///
    /// # Errors
    /// Memory was wanting.
    pub fn put_all(&mut self, first: Key, found: &[Option<Value>]) -> Result<(), Memory>
        requires few { self.old.many + length found.now ≤ 2 ^ 31 }
        requires below { first + length found.now ≤ 2 ^ 31 }
        ensures few { OnOk result (self.new.many ≤ self.old.many + length found.now) }
        ensures more { (value : ℕ → Option (List ℕ))
            → ((i : ℕ) → i < length found.now → slice_get found.now i ≡ Some (value (first + i)))
            → HasRows value first self.old
            → OnOk result (HasRows value (first + length found.now) self.new) }
    {
        for i in 0..found.len() {
            self.put(first + i as u32, &found[i])?;
        }
        Ok(())
    }
}
