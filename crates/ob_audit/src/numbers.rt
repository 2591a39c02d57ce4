//! Numbers in canonical decimal.

ghost use Rattle.std.specs.Prelude.{◌≡◌, ◌<◌, ◌^◌, ◌++◌, ◌∷◌, ℕ, List, IfSome, Some, None, option_map, decimal};
ghost use Rattle.std.specs.Str.{all_ascii_digits};
ghost use Rattle.ob_audit.specs.Reading.{cut_at, is_canonical, wide_number};

// What stands before the first such byte, and what behind it.
fn cut_at(bytes: &[u8], at: u8) -> Option<(&[u8], &[u8])>
    ensures { option_map (λ p. (p.0.now, p.1.now)) result ≡ cut_at at bytes.now }
{
    for i in 0..bytes.len() {
        if bytes[i] == at {
            return Some((&bytes[..i], &bytes[i + 1..]));
        }
    }
    None
}

fn is_canonical(bytes: &[u8]) -> bool
    ensures { result ≡ is_canonical bytes.now }
{
    match bytes {
        [] => false,
        [first, rest @ ..] => { all_digits(bytes) && (*first != b'0' || rest.len() == 0) }
    }
}

fn all_digits(bytes: &[u8]) -> bool
    ensures { result ≡ all_ascii_digits bytes.now }
{
    for b in bytes {
        if !b.is_ascii_digit() {
            return false;
        }
    }
    true
}

fn wide_number(bytes: &[u8]) -> Option<u64>
    ensures { result ≡ wide_number bytes.now }
{
    if !is_canonical(bytes) {
        return None;
    }
    let Ok(text) = str::from_utf8(bytes) else {
        return None;
    };
    match text.parse::<u64>() {
        Ok(n) => Some(n),
        Err(_) => None,
    }
}

/// The number below `2^64` whose canonical decimal these bytes are.
pub(crate) fn number_of(bytes: &[u8]) -> Option<u64>
    ensures found { IfSome result (λ n. bytes.now ≡ decimal n) }
    ensures only { (n : ℕ) → n < 2 ^ 64 → bytes.now ≡ decimal n → result ≡ Some n }
{
    wide_number(bytes)
}

/// The number below `2^32` whose canonical decimal these bytes are.
pub(crate) fn small_of(bytes: &[u8]) -> Option<u32>
    ensures found { IfSome result (λ n. bytes.now ≡ decimal n) }
    ensures only { (n : ℕ) → n < 2 ^ 32 → bytes.now ≡ decimal n → result ≡ Some n }
{
    match number_of(bytes) {
        Some(number) => {
            if number < 1 << 32 {
                Some(number as u32)
            } else {
                None
            }
        }
        None => None,
    }
}

/// The number below `2^32` before the first blank, and what stands behind that.
pub(crate) fn first_small(bytes: &[u8]) -> Option<(u32, &[u8])>
    ensures found { IfSome result (λ r. bytes.now ≡ decimal r.0 ++ 32 ∷ r.1.now) }
    ensures only { (n : ℕ) (rest : List ℕ) → n < 2 ^ 32 → bytes.now ≡ decimal n ++ 32 ∷ rest
        → option_map {U = ℕ × List ℕ} (λ r. (r.0, r.1.now)) result ≡ Some (n, rest) }
{
    match cut_at(bytes, b' ') {
        Some((word, rest)) => match small_of(word) {
            Some(number) => Some((number, rest)),
            None => None,
        },
        None => None,
    }
}
