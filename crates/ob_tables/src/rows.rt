//! Rows in ascending order of their keys.

ghost use Rattle.std.specs.Prelude.{◌≡◌, ◌≢◌, ◌<◌, ◌≤◌, ℕ, length, vec_capacity, MatchResult, None};
ghost use Rattle.std.specs.Ordering.{nat_cmp};
ghost use Rattle.std.specs.FinMap.{find, put};
ghost use Rattle.ob_tables.specs.Rows.{row_key_at, Rises, Splits, rows_but};

use ob_base::{Key, Value};

// How many rows have a lesser key.
fn lesser(rows: &[(Key, Value)], k: Key) -> usize
    requires { Rises rows.now }
    ensures { Splits k rows.now result }
{
    rows.partition_point(|row| row.0 < k)
}

// The place of the key's row, or where it would be.
fn place_of(rows: &[(Key, Value)], k: Key) -> Result<usize, usize>
    requires { Rises rows.now }
    ensures { MatchResult result (λ i. (i < length rows.now) × (row_key_at rows.now i ≡ k)
        × Splits k rows.now i) (λ i. ((j : ℕ) → j < length rows.now → k ≢ row_key_at rows.now j)
        × Splits k rows.now i) }
{
    let i = lesser(rows, k);
    match rows.get(i) {
        Some(row) if row.0 == k => Ok(i),
        _ => Err(i),
    }
}

// The key's value, if it has a row.
pub(crate) fn find(rows: &[(Key, Value)], k: Key) -> Option<Value>
    requires { Rises rows.now }
    ensures { result ≡ find nat_cmp k rows.now }
{
    match place_of(rows, k) {
        Ok(i) => Some(rows[i].1),
        Err(_) => None,
    }
}

// Puts the key's row in its place.
pub(crate) fn put(rows: &mut Vec<(Key, Value)>, k: Key, v: Value)
    requires rises { Rises rows.old.items }
    requires room { find nat_cmp k rows.old.items ≡ None
        → length rows.old.items < vec_capacity rows.old }
    ensures rows { rows.new.items ≡ put nat_cmp k v rows.old.items }
    ensures capacity { vec_capacity rows.old ≤ vec_capacity rows.new }
{
    match place_of(rows.as_slice(), k) {
        Ok(i) => rows[i] = (k, v),
        Err(i) => {
            let _ = rows.insert(i, (k, v));
        }
    }
}

// Takes the key's row out, if it has one.
pub(crate) fn take(rows: &mut Vec<(Key, Value)>, k: Key) -> Option<Value>
    requires { Rises rows.old.items }
    ensures value { result ≡ find nat_cmp k rows.old.items }
    ensures rows { rows.new.items ≡ rows_but k rows.old.items }
    ensures capacity { vec_capacity rows.new ≡ vec_capacity rows.old }
{
    match place_of(rows.as_slice(), k) {
        Ok(i) => Some(rows.remove(i).1),
        Err(_) => None,
    }
}
