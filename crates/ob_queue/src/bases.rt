//! The delivered values by their keys.

ghost use Rattle.std.specs.Prelude.{◌≡◌, ℕ, ◌+◌, ◌<◌, ◌≤◌, length, map, Some};
ghost use Rattle.std.specs.FinMap as finite;
ghost use Rattle.std.specs.Ordering.{nat_cmp};
ghost use Rattle.std.specs.HashMap.{hash_map_len, spare};
ghost use Rattle.ob_order.specs.Order as rules;

use ob_base::{Key, Value};
use std::collections::HashMap;

/// The delivered values: none where the key isn't present.
pub type Bases = HashMap<Key, Option<Value>>;

// The key has this value from now on.
fn put(bases: &mut Bases, key: Key, value: Option<Value>)
    requires { 0 < spare bases.old }
    ensures given { finite.from_entries {R = nat_cmp} bases.new.entries
        ≡ finite.insert (finite.from_entries {R = nat_cmp} bases.old.entries) key value }
    ensures all { hash_map_len bases.old + spare bases.old
        ≤ hash_map_len bases.new + spare bases.new }
    ensures rest { spare bases.old ≤ spare bases.new + 1 }
{
    // The prover has to see this type named here.
    let _told: Option<Value> = None;
    match bases.get_mut(&key) {
        Some(held) => *held = value,
        None => {
            let _ = bases.insert(key, value);
        }
    }
}

/// Each key has its value from now on. It takes no memory.
pub fn put_all(bases: &mut Bases, keys: &[Key], values: &[Option<Value>])
    requires each { length keys.now ≤ length values.now }
    requires room { length keys.now ≤ spare bases.old }
    ensures given { finite.from_entries {R = nat_cmp} bases.new.entries
        ≡ rules.delivered (finite.from_entries {R = nat_cmp} bases.old.entries) (map Some keys.now)
        values.now }
    ensures all { hash_map_len bases.old + spare bases.old
        ≤ hash_map_len bases.new + spare bases.new }
    ensures rest { spare bases.old ≤ spare bases.new + length keys.now }
{
    // The prover has to see this type named here.
    let _told: Option<Value> = None;
    for i in 0..keys.len() {
        put(bases, keys[i], values[i]);
    }
}

/// What was delivered for the key.
pub fn value_of(bases: &Bases, key: Key) -> Option<Option<Value>>
    ensures { result ≡ finite.get (finite.from_entries {R = nat_cmp} bases.now.entries) key }
{
    bases.get(&key).copied()
}
