//! The values of the keys that a batch asks for.

ghost use Rattle.std.specs.Prelude.{◌≡◌, length};
ghost use Rattle.ob_fetch.specs.Fetches.{values_asked, row_asked};

use ob_base::{Key, Value};
use ob_tables::Stash;

// The value of an asked key; none for a pad.
fn value_for(stash: &Stash, ask: Option<Key>) -> Option<Value>
    ensures { result ≡ row_asked stash.now.rows ask }
{
    match ask {
        Some(key) => stash.get(key),
        None => None,
    }
}

/// Gives each place the value of its key in the stash, or none for a pad.
pub fn answer_all(stash: &Stash, asks: &[Option<Key>], out: &mut [Option<Value>])
    requires room { length out.old ≡ length asks.now }
    ensures { out.new ≡ values_asked stash.now.rows asks.now }
{
    for i in 0..asks.len() {
        out[i] = value_for(stash, asks[i]);
    }
}
