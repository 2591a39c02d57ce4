//! What is known of a register's gates, as it changes.

ghost use Rattle.std.specs.Prelude.{◌≡◌, ◌<◌};
ghost use Rattle.ob_twin.specs.Opening.{known_of, with_known, is_marked, with_mark, is_closed_first};

use crate::{Gates, Open, Twin};

/// What is known of the gates of one register.
pub fn known_of(twin: Twin, gates: &Gates) -> Open
    ensures { result ≡ known_of twin gates.now }
{
    match twin {
        Twin::GENERATION => gates.generation,
        Twin::EPOCH => gates.epoch,
    }
}

/// Changes what is known of the gates of one register.
pub fn set_known(twin: Twin, gates: &mut Gates, known: Open)
    ensures { gates.new ≡ with_known twin gates.old known }
{
    match twin {
        Twin::GENERATION => gates.generation = known,
        Twin::EPOCH => gates.epoch = known,
    }
}

/// The gate of this place is known to be open too.
pub fn with_mark(known: Open, place: u64) -> Open
    ensures { result ≡ with_mark known place }
{
    if place == 0 {
        Open {
            zero: true,
            ..known
        }
    } else {
        Open { one: true, ..known }
    }
}

/// Whether the gate of a place is to be closed before its body is written.
pub fn is_closed_first(known: Open, place: u64) -> bool
    ensures { result ≡ is_closed_first known place }
{
    let marked = if place == 0 { known.zero } else { known.one };
    marked || !(known.zero || known.one)
}
