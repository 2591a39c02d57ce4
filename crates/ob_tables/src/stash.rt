//! The stash.

ghost use Rattle.std.specs.Prelude.{◌≡◌, ◌<◌, ◌==◌, length, slice_index_or, [], IfOk, None};
ghost use Rattle.std.specs.FinMap as map;
ghost use Rattle.ob_tables.specs.Kept.{Held};

use crate::rows;
use ob_base::{Key, Memory, Value};
use std::alloc::Global;
use std::marker::Model;

/// The rows that lie in no bucket: a map from keys to values, with room for a number of rows.
/// Contracts see the map and that number.
#[derive(Drop)]
pub struct Stash {
    rows: Vec<(Key, Value)>,
    room: usize,
}

impl Model for Stash {
    ghost use Rattle.std.specs.Prelude.{◌≤◌, length, vec_capacity};
    ghost use Rattle.ob_tables.specs.Kept.{Held, held_code};
    ghost use Rattle.ob_tables.specs.Rows.{Rises};
    ghost use Rattle.std.specs.FinMap as map;
    ghost use Rattle.std.specs.Ordering.{nat_cmp};

    ghost Value = { Held };

    ghost coded = { held_code };

    ghost view = { λ s. record { rows = map.from_sorted {R = nat_cmp} s.rows.items; room = s.room } };

    ghost invariant = { λ s. Rises s.rows.items × (s.room ≤ vec_capacity s.rows) };
}

impl Stash {
    /// No row, with room for so many.
    ///
    /// # Errors
    /// Memory was wanting.
    pub fn new(alloc: Global, room: usize) -> Result<Stash, Memory>
        ensures { IfOk result (λ s. s ≡ record { rows = map.empty; room = room }) }
    {
        Ok(Stash {
            rows: Vec::with_capacity(alloc, room)?,
            room,
        })
    }

    /// The key has this value. There is room, or it has a row.
    pub fn put(&mut self, k: Key, v: Value)
        requires { map.get self.old.rows k ≡ None → map.len self.old.rows < self.old.room }
        ensures { self.new ≡ record self.old { rows = map.insert self.old.rows k v } }
    {
        rows::put(&mut self.rows, k, v);
    }

    /// Takes the key's row out, and gives its value.
    pub fn take(&mut self, k: Key) -> Option<Value>
        ensures value { result ≡ map.get self.old.rows k }
        ensures rest { self.new ≡ record self.old { rows = map.remove self.old.rows k } }
    {
        rows::take(&mut self.rows, k)
    }

    /// The key's value.
    pub fn get(&self, k: Key) -> Option<Value>
        ensures { result ≡ map.get self.now.rows k }
    {
        rows::find(self.rows.as_slice(), k)
    }

    /// How many rows there is room for.
    pub fn room(&self) -> usize
        ensures { result ≡ self.now.room }
    {
        self.room
    }

    /// How many rows there are.
    pub fn len(&self) -> usize
        ensures { result ≡ map.len self.now.rows }
    {
        self.rows.as_slice().len()
    }

    /// Whether there is none.
    pub fn is_empty(&self) -> bool
        ensures { result ≡ (map.len self.now.rows == 0) }
    {
        self.rows.as_slice().is_empty()
    }

    /// The row with this number, in rising key order.
    pub fn row(&self, i: usize) -> (Key, Value)
        requires { i < map.len self.now.rows }
        ensures { result ≡ slice_index_or (map.entries self.now.rows) i (0, []) }
    {
        self.rows.as_slice()[i]
    }
}
