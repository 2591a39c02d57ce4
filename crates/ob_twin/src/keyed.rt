//! Stamps by a store's keys.

ghost use Rattle.std.specs.Prelude.{◌≡◌};

use crate::Stamper;
use ob_base::Damaged;
use ob_seal::Sealer;

// The tag of a store with keys.
impl Stamper for Sealer {
    ghost use Rattle.ob_twin.specs.Keyed.{tagging};

    ghost tag = { λ s. tagging s.keys };

    fn stamp(&self, cell: u64, plain: &[u8; 112]) -> [u8; 128] {
        self.stamp(cell, plain)
    }

    fn unstamp(&self, cell: u64, bytes: &[u8; 128]) -> Result<[u8; 112], Damaged> {
        self.unstamp(cell, bytes)
    }
}
