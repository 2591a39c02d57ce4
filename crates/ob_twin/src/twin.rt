//! The two-place registers of a store.

ghost use Rattle.std.specs.Prelude.{◌≡◌};

use ob_base::{EPOCH_CELL, GENERATION_CELL};

/// A register of a store: the generation's, in cells 1 to 4, or the epoch's, in cells 5 to 8. Each
/// has two places, and each place a body and then a gate. A number stands in the place of its
/// parity; the greatest number under an open gate counts.
#[derive(Clone, Copy)]
pub enum Twin {
    GENERATION,
    EPOCH,
}

impl Twin {
    ghost use Rattle.ob_twin.specs.Register.{first_of};

    /// The first of its four cells.
    pub fn first(self) -> u64
        ensures { result ≡ first_of self }
    {
        match self {
            Twin::GENERATION => GENERATION_CELL,
            Twin::EPOCH => EPOCH_CELL,
        }
    }
}
