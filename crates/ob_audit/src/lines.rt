//! The line that some bytes spell.

ghost use Rattle.std.specs.Prelude.{◌≡◌, ◌<◌, ◌≤◌, ◌∷◌, ◌++◌, List, ℕ, length, ◌^◌, IfSome, Some, None, option_map, decimal};
ghost use Rattle.ob_base.specs.declared.params.Params.{Params};
ghost use Rattle.ob_audit.specs.Spelling.{IsLineSpelled, IsLineInRange, IsLineOf, numbers_text};

use crate::numbers::{first_small, number_of, small_of};
use ob_base::Params;
use ob_schedule::Line;
use ob_store::Note;

/// The most bytes of a line, without its line feed.
pub(crate) const LONGEST: usize = 96;

// Three numbers, each before a blank, and what stands behind them.
fn three_of(bytes: &[u8]) -> Option<(u32, u32, u32, &[u8])>
    ensures found { IfSome result (λ r. bytes.now
        ≡ decimal r.0 ++ 32 ∷ (decimal r.1 ++ 32 ∷ (decimal r.2 ++ 32 ∷ r.3.now))) }
    ensures only { (a b c : ℕ) (rest : List ℕ) → a < 2 ^ 32 → b < 2 ^ 32 → c < 2 ^ 32
        → bytes.now ≡ decimal a ++ 32 ∷ (decimal b ++ 32 ∷ (decimal c ++ 32 ∷ rest))
        → option_map {U = ℕ × ℕ × ℕ × List ℕ} (λ r. (r.0, r.1, r.2, r.3.now)) result
        ≡ Some (a, b, c, rest) }
{
    let (first, behind_first) = first_small(bytes)?;
    let (second, behind_second) = first_small(behind_first)?;
    let (third, rest) = first_small(behind_second)?;
    Some((first, second, third, rest))
}

// The last three numbers.
fn last_three(bytes: &[u8]) -> Option<(u32, u32, u32)>
    ensures found { IfSome result (λ r. bytes.now
        ≡ decimal r.0 ++ 32 ∷ (decimal r.1 ++ 32 ∷ decimal r.2)) }
    ensures only { (a b c : ℕ) → a < 2 ^ 32 → b < 2 ^ 32 → c < 2 ^ 32
        → bytes.now ≡ decimal a ++ 32 ∷ (decimal b ++ 32 ∷ decimal c) → result ≡ Some (a, b, c) }
{
    let (first, behind_first) = first_small(bytes)?;
    let (second, behind_second) = first_small(behind_first)?;
    let third = small_of(behind_second)?;
    Some((first, second, third))
}

fn params_of(bytes: &[u8]) -> Option<Params>
    ensures found { IfSome result (λ p. bytes.now ≡ numbers_text p) }
    ensures only { (p : Params) → bytes.now ≡ numbers_text p → result ≡ Some p }
{
    let (keys, levels, real, behind_real) = three_of(bytes)?;
    let (dummies, batches, places, behind_places) = three_of(behind_real)?;
    let (writes, evictions, room) = last_three(behind_places)?;
    match Params::new(
        keys, levels, real, dummies, batches, places, writes, evictions, room,
    ) {
        Ok(p) => Some(p),
        Err(_) => None,
    }
}

// The line of a run with a mirror, whose letter and blank stand before these bytes.
fn mirrored_of(rest: &[u8]) -> Option<Line>
    ensures found { IfSome result (λ line. IsLineSpelled line (79 ∷ 32 ∷ rest.now)) }
    ensures only { (line : Line) → IsLineSpelled line (79 ∷ 32 ∷ rest.now) → result ≡ Some line }
{
    match rest {
        [b'M'] => Some(Line::Open { mirrored: true }),
        _ => None,
    }
}

// The line with this letter and these bytes behind the blank.
fn lettered(letter: u8, rest: &[u8]) -> Option<Line>
    ensures found { IfSome result (λ line. IsLineSpelled line (letter ∷ 32 ∷ rest.now)) }
    ensures only { (line : Line) → IsLineInRange line → IsLineSpelled line (letter ∷ 32 ∷ rest.now)
        → result ≡ Some line }
{
    if letter == b'P' {
        return match params_of(rest) {
            Some(p) => Some(Line::Start(p)),
            None => None,
        };
    }
    if letter == b'O' {
        return mirrored_of(rest);
    }
    let number = number_of(rest)?;
    match letter {
        b'L' => Some(Line::Note(Note::Label(number))),
        b'R' => Some(Line::Note(Note::Read(number))),
        b'W' => Some(Line::Note(Note::Write(number))),
        _ => None,
    }
}

fn line_in(bytes: &[u8]) -> Option<Line>
    ensures found { IfSome result (λ line. IsLineSpelled line bytes.now) }
    ensures only { (line : Line) → IsLineInRange line → IsLineSpelled line bytes.now
        → result ≡ Some line }
{
    match bytes {
        [b'O'] => Some(Line::Open { mirrored: false }),
        [b'S'] => Some(Line::Note(Note::Sync)),
        [letter, b' ', rest @ ..] => lettered(*letter, rest),
        _ => None,
    }
}

/// The line that the bytes spell, which have no line feed; Bad where none is spelled, or where
/// there are more than 96.
pub fn line_of(bytes: &[u8]) -> Line
    ensures { IsLineOf bytes.now result }
{
    if bytes.len() > LONGEST {
        return Line::Bad;
    }
    match line_in(bytes) {
        Some(line) => line,
        None => Line::Bad,
    }
}
