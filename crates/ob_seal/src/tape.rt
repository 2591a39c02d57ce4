//! Random words in generations.

ghost use Rattle.std.specs.Prelude.{◌≡◌, ◌<◌, ◌^◌, ℕ, List, [], ◌∷◌, ◌++◌, length};

/// A source of random words, in generations. A word's identity is its generation and its place
/// among the words of that generation, counted from 0.
pub trait Tape {
    // The generation in force, 0 before the first start.
    ghost present: { Self → ℕ };

    // The words drawn in the generation in force.
    ghost drawn: { Self → List ℕ };

    /// Puts a later generation in force, of which nothing is drawn yet.
    fn start(&mut self, generation: u64)
        requires { present self.old < generation }
        ensures in_force { present self.new ≡ generation }
        ensures none_drawn { drawn self.new ≡ [] };

    /// The next word of the generation in force. Words stand at the places below `2^62` alone.
    fn draw(&mut self) -> u64
        requires { length (drawn self.old) < 2 ^ 62 }
        ensures more { drawn self.new ≡ drawn self.old ++ result ∷ [] }
        ensures same { present self.new ≡ present self.old };
}
