//! Words drawn from the tape.

ghost use Rattle.std.specs.Prelude.{◌≡◌, ◌≤◌, ◌+◌, ◌^◌, ◌++◌, length, take};

use ob_seal::Tape;

/// Draws so many words, and keeps them at the front.
pub fn draw_front<T: Tape>(tape: &mut T, words: &mut Vec<u64>, many: usize)
    requires few { many ≤ length words.old.items }
    requires room { length (T.drawn tape.old) + many ≤ 2 ^ 62 }
    ensures drawn { T.drawn tape.new ≡ T.drawn tape.old ++ take many words.new.items }
    ensures room { length words.new.items ≡ length words.old.items }
    ensures same { T.present tape.new ≡ T.present tape.old }
{
    for i in 0..many {
        words[i] = tape.draw();
    }
}

/// The first words.
pub fn front(words: &Vec<u64>, many: usize) -> &[u64]
    requires few { many ≤ length words.now.items }
    ensures { result.now ≡ take many words.now.items }
{
    &words[..many]
}
