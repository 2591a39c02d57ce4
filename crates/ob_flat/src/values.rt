//! Values by key, and an epoch's writes on them.

ghost use Rattle.std.specs.Prelude.{◌≡◌, ◌<◌, ℕ, All, length, slice_get, slice_index_or, Some, None};
ghost use Rattle.std.specs.Ordering.{nat_cmp};
ghost use Rattle.ob_serial.specs.Serial.{Map};
ghost use Rattle.ob_serial.specs.Vaults.{AreBelow, with_writes};
ghost use Rattle.ob_serial.specs.VaultViews.{writes_of};
ghost use Rattle.ob_flat.specs.Standing.{IsMapOf};

use ob_base::{Key, Value, Write};

/// Reads the values of these keys.
pub fn look_up(values: &[Option<Value>], asks: &[Option<Key>], out: &mut [Option<Value>])
    requires room { length out.old ≡ length asks.now }
    requires keys { AreBelow (length values.now) asks.now }
    ensures whole { length out.new ≡ length asks.now }
    ensures asked { (i key : ℕ) → slice_get asks.now i ≡ Some (Some key)
        → slice_get out.new i ≡ Some (slice_index_or values.now key None) }
    ensures pads { (i : ℕ) → slice_get asks.now i ≡ Some None → slice_get out.new i ≡ Some None }
{
    for i in 0..asks.len() {
        out[i] = match asks[i] {
            Some(key) => values[key as usize],
            None => None,
        };
    }
}

/// Does these writes to the values.
pub fn apply(values: &mut [Option<Value>], writes: &[Write])
    requires { All (λ w. w.key < length values.old) writes.now }
    ensures whole { length values.new ≡ length values.old }
    ensures map { (m : Map nat_cmp) → IsMapOf values.old m
        → IsMapOf values.new (with_writes m (writes_of writes.now)) }
{
    for write in writes {
        values[write.key as usize] = write.value;
    }
}

/// Puts the values into `next`, with these writes.
pub fn prepare_next(values: &[Option<Value>], next: &mut Vec<Option<Value>>, writes: &[Write])
    requires room { length next.old.items ≡ length values.now }
    requires keys { All (λ w. w.key < length values.now) writes.now }
    ensures whole { length next.new.items ≡ length values.now }
    ensures map { (m : Map nat_cmp) → IsMapOf values.now m
        → IsMapOf next.new.items (with_writes m (writes_of writes.now)) }
{
    next.copy_from_slice(values);
    apply(next, writes);
}
