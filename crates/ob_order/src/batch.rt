//! What goes from the queue into a read batch, and from the versions into the write batch.

ghost use Rattle.std.specs.Prelude.{◌≡◌, ◌+◌, ◌<◌, ◌≤◌, ◌++◌, length, map, if◌then◌else◌, is_some, true, [], vec_len, vec_capacity};
ghost use Rattle.std.specs.Option.{option_map};
ghost use Rattle.std.specs.List.{cons_option};
ghost use Rattle.ob_order.specs.Order as rules;
ghost use Rattle.ob_base.specs.Writes.{pair_of};

use crate::answers::Version;
use ob_base::{Key, Value, Write};

/// Fills the places of a batch with the first keys, and pads.
#[tactic(auto, using(crate::proofs::Batches::places_more))]
pub fn fill(out: &mut [Option<Key>], queue: &[Key])
    ensures { out.new ≡ rules.places_of (length out.old) queue.now }
{
    for place in 0..out.len() {
        out[place] = queue.get(place).copied();
    }
}

/// Appends the key's write, where it has a version.
pub fn push_write(out: &mut Vec<Write>, key: Key, version: Option<Version>)
    requires { is_some version ≡ true → vec_len out.old < vec_capacity out.old }
    ensures writes { map pair_of out.new.items
        ≡ map pair_of out.old.items ++ cons_option (option_map (λ v. (key, v.value)) version) [] }
    ensures len { vec_len out.new ≡ vec_len out.old + (if is_some version then 1 else 0) }
    ensures room { vec_capacity out.old ≤ vec_capacity out.new }
{
    // The prover has to see this type named here.
    let _told: Option<Value> = None;
    if let Some(version) = version {
        let value = version.value;
        out.push_reserved(Write { key, value });
    }
}
