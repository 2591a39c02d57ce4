//! The cells of a plain store.

ghost use Rattle.std.specs.Prelude.{◌≡◌, ◌≤◌, ◌+◌};
ghost use Rattle.ob_flat.specs.Places.{cells, area_of};

use ob_base::{BODY_CELL, Params};

/// The cells of a store: the head, two registers, and two areas of a row for each key.
pub fn cells(p: &Params) -> u64
    ensures cells { result ≡ cells p.now }
    ensures few { result ≤ 131081 }
{
    BODY_CELL + 2 * p.keys as u64
}

/// The first row of an epoch's area, of so many keys.
pub fn area_of(keys: u64, epoch: u64) -> u64
    requires { keys ≤ 65536 }
    ensures area { result ≡ area_of keys epoch }
    ensures low { result ≤ 65545 }
{
    if epoch % 2 == 0 {
        BODY_CELL
    } else {
        BODY_CELL + keys
    }
}
