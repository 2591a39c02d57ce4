//! Sealing with numbers that follow each other.

ghost use Rattle.std.specs.Prelude.{◌≡◌, ◌+◌, ◌<◌, ◌^◌};
ghost use Rattle.ob_seal.specs.Seals.{sealed};

use crate::{Sealer, cells};
use rand_chacha::ChaCha20Rng;
use std::marker::Model;

/// Seals cells with numbers that follow each other. It gives what `Sealer::seal_at` gives, in less
/// time: the words of a stream are made 64 at once, and a pad has 24 of them.
///
/// Contracts see the keys, the generation, and the number of the next seal.
#[derive(Drop)]
pub struct SealRun {
    sealer: Sealer,
    generator: ChaCha20Rng,
}

impl Model for SealRun {
    ghost use Rattle.std.specs.Prelude.{◌≡◌};
    ghost use Rattle.ob_seal.specs.Pads.{before_pad};
    ghost use Rattle.ob_seal.specs.Sealing.{Sealing};

    ghost Value = { Sealing };

    ghost view = { λ s. s.sealer };

    ghost invariant = { λ s. s.generator
        ≡ before_pad s.sealer.keys.seal s.sealer.generation s.sealer.next };
}

impl SealRun {
    // What seals as the sealer does, from its next number on.
    pub(crate) fn new(sealer: Sealer) -> SealRun
        ensures { result ≡ sealer }
    {
        let (generation, number) = sealer.next();
        let generator = cells::generator_at(&sealer.keys().seal, generation, number);
        SealRun { sealer, generator }
    }

    /// Seals plain bytes for a cell, with the next number.
    pub fn seal(&mut self, cell: u64, plain: &[u8; 96]) -> [u8; 128]
        requires { self.old.next < 2 ^ 62 }
        ensures bytes { result
            ≡ sealed self.old.keys cell self.old.generation self.old.next plain.now }
        ensures next { self.new ≡ record self.old { next = self.old.next + 1 } }
    {
        let pad = cells::next_pad(&mut self.generator);
        let number = self.sealer.take();
        self.sealer.seal_under(&pad, cell, number, plain)
    }
}
