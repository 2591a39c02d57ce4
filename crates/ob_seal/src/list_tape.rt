//! A tape of given words.

ghost use Rattle.std.specs.Prelude.{◌≡◌, ◌+◌, ◌<◌, ◌^◌, [], ◌∷◌, ◌++◌, length, IfOk};
ghost use Rattle.ob_seal.specs.Draws.{list_word, list_drawn};

use crate::Tape;
use ob_base::Memory;
use std::alloc::Global;
use std::marker::Model;

/// A tape of given words, with zeros behind them. Each generation has the same words.
///
/// Contracts see the words, the generation in force, and how many words of it are drawn.
#[derive(Drop)]
pub struct ListTape {
    words: Vec<u64>,
    generation: u64,
    place: u64,
}

impl Model for ListTape {
    ghost use Rattle.std.specs.Prelude.{◌≤◌, ◌^◌};
    ghost use Rattle.ob_seal.specs.Draws.{ListPlace};

    ghost Value = { ListPlace };

    ghost view = { λ t. record { words = t.words.items; generation = t.generation; place = t.place } };

    ghost invariant = { λ t. t.place ≤ 2 ^ 62 };
}

impl ListTape {
    /// A tape of these words, before its first start.
    ///
    /// # Errors
    /// Memory was wanting.
    pub fn new(alloc: Global, words: &[u64]) -> Result<ListTape, Memory>
        ensures { IfOk result (λ t. t ≡ record { words = words.now; generation = 0; place = 0 }) }
    {
        Ok(ListTape {
            words: words.to_vec(alloc)?,
            generation: 0,
            place: 0,
        })
    }
}

impl Tape for ListTape {
    ghost present = { λ t. t.generation };

    ghost drawn = { list_drawn };

    fn start(&mut self, generation: u64)
        requires { self.old.generation < generation }
        ensures in_force { self.new.generation ≡ generation }
        ensures none_drawn { list_drawn self.new ≡ [] }
        ensures state { self.new ≡ record self.old { generation = generation; place = 0 } }
    {
        self.generation = generation;
        self.place = 0;
    }

    fn draw(&mut self) -> u64
        requires { length (list_drawn self.old) < 2 ^ 62 }
        ensures more { list_drawn self.new ≡ list_drawn self.old ++ result ∷ [] }
        ensures same { self.new.generation ≡ self.old.generation }
        ensures word { result ≡ list_word self.old.words self.old.place }
        ensures state { self.new ≡ record self.old { place = self.old.place + 1 } }
    {
        let word = self.words.get(self.place as usize).copied().unwrap_or(0);
        self.place += 1;
        word
    }
}
