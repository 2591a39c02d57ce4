//! A map from keys to values, in memory.

ghost use Rattle.std.specs.Prelude.{◌≡◌, OnOk, OnErr, IfOk, map as map_list};
ghost use Rattle.std.specs.List.Sorted.{IsStrictlyIncreasing};
ghost use Rattle.std.specs.FinMap as map;
ghost use Rattle.ob_serial.specs.VaultViews.{writes_of};
ghost use Rattle.ob_serial.specs.Vaults.{entry_writes};

use ob_base::{Key, Memory, Value, Write};
use std::alloc::Global;
use std::collections::BTreeMap;
use std::marker::Model;

/// The committed values, kept in memory. Contracts see a finite map from keys to bytes.
#[derive(Drop)]
pub struct PlainMap {
    values: BTreeMap<Key, Value>,
}

impl Model for PlainMap {
    ghost use Rattle.std.specs.Prelude.{List, ℕ};
    ghost use Rattle.std.specs.FinMap as map;
    ghost use Rattle.std.specs.Ordering.{nat_cmp};
    ghost use Rattle.std.specs.Coded.{coded_ℕ, coded_list};

    ghost Value = { map.FinMap nat_cmp (List ℕ) };

    ghost coded = { map.code coded_ℕ (coded_list coded_ℕ) };

    ghost view = { λ m. map.from_entries m.values.entries };
}

impl PlainMap {
    /// The empty map.
    pub fn new(alloc: Global) -> PlainMap
        ensures { result ≡ map.empty }
    {
        PlainMap {
            values: BTreeMap::new(alloc),
        }
    }

    /// The value of a key, if it is present.
    pub fn get(&self, key: Key) -> Option<Value>
        ensures { result ≡ map.get self.now key }
    {
        self.values.get(&key).copied()
    }

    /// Sets the value of a key.
    ///
    /// # Errors
    /// Memory was wanting. The map is as before.
    pub fn insert(&mut self, key: Key, value: Value) -> Result<(), Memory>
        ensures ok { OnOk result (self.new ≡ map.insert self.old key value) }
        ensures err { OnErr result (self.new ≡ self.old) }
    {
        self.values.insert(key, value)?;
        Ok(())
    }

    /// How many keys are present.
    pub fn len(&self) -> usize
        ensures { result ≡ map.len self.now }
    {
        self.values.len()
    }

    /// The present keys with their values, as writes in rising order of keys.
    ///
    /// # Errors
    /// Memory was wanting.
    pub fn to_writes(&self, alloc: Global) -> Result<Vec<Write>, Memory>
        ensures writes { IfOk result (λ writes. writes_of writes.items ≡ entry_writes self.now) }
        ensures rising { IfOk result
            (λ writes. IsStrictlyIncreasing (map_list (λ w. w.key) writes.items)) }
    {
        let mut writes = Vec::new(alloc);
        for (key, value) in &self.values {
            writes.push(Write {
                key: *key,
                value: Some(*value),
            })?;
        }
        Ok(writes)
    }

    /// Takes a key out, if it is present.
    pub fn remove(&mut self, key: Key)
        ensures { self.new ≡ map.remove self.old key }
    {
        let _value = self.values.remove(&key);
    }
}
