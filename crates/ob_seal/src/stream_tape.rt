//! A tape over ChaCha20.

ghost use Rattle.std.specs.Prelude.{◌≡◌, ◌+◌, ◌<◌, ◌^◌, [], ◌∷◌, ◌++◌, length};
ghost use Rattle.rand_chacha.specs.ChaCha.{key_of};
ghost use Rattle.ob_seal.specs.Draws.{stream_word, stream_drawn};

use crate::Tape;
use rand_chacha::ChaCha20Rng;
use rand_core::{SeedableRng, utils};
use std::marker::Model;

/// A tape over ChaCha20 with a 64-bit counter and a 64-bit stream number: a generation's word at
/// place i is the pair i of the words of that stream, the low half first.
///
/// Contracts see the key as eight words, the generation in force, and how many words of it are
/// drawn.
#[derive(Drop)]
pub struct ChaChaTape {
    generator: ChaCha20Rng,
}

impl Model for ChaChaTape {
    ghost use Rattle.std.specs.Prelude.{◌≡◌, ◌≤◌, ◌/◌, ◌%◌, ◌^◌};
    ghost use Rattle.ob_seal.specs.Draws.{StreamPlace};

    ghost Value = { StreamPlace };

    ghost view = { λ t. record { key = t.generator.key; generation = t.generator.stream; place = t.generator.word_pos / 2 } };

    ghost invariant = { λ t. (t.generator.word_pos % 2 ≡ 0) × (t.generator.word_pos ≤ 2 ^ 63) };
}

impl ChaChaTape {
    /// A tape under a key, before its first start.
    pub fn new(tape_key: &[u8; 32]) -> ChaChaTape
        ensures { result ≡ record { key = key_of tape_key.now; generation = 0; place = 0 } }
    {
        ChaChaTape {
            generator: ChaCha20Rng::from_seed(*tape_key),
        }
    }
}

impl Tape for ChaChaTape {
    ghost present = { λ t. t.generation };

    ghost drawn = { stream_drawn };

    fn start(&mut self, generation: u64)
        requires { self.old.generation < generation }
        ensures in_force { self.new.generation ≡ generation }
        ensures none_drawn { stream_drawn self.new ≡ [] }
        ensures state { self.new ≡ record self.old { generation = generation; place = 0 } }
    {
        self.generator.set_stream(generation);
        self.generator.set_word_pos(0);
    }

    fn draw(&mut self) -> u64
        requires { length (stream_drawn self.old) < 2 ^ 62 }
        ensures more { stream_drawn self.new ≡ stream_drawn self.old ++ result ∷ [] }
        ensures same { self.new.generation ≡ self.old.generation }
        ensures word { result ≡ stream_word self.old.key self.old.generation self.old.place }
        ensures state { self.new ≡ record self.old { place = self.old.place + 1 } }
    {
        utils::next_u64_via_u32(&mut self.generator)
    }
}
