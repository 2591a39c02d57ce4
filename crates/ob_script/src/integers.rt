//! Canonical integers.

ghost use Rattle.std.specs.Prelude.{◌≡◌, ℤ, Some, None, MatchBool, IfSome, FitsSigned};
ghost use Rattle.std.specs.Int.{w64};
ghost use Rattle.std.specs.Fmt.{signed_decimal};
ghost use Rattle.ob_script.specs.Integers.{integer_of};

use itoa::Buffer;

// Whether these bytes are what spells this integer.
fn is_spelled(amount: i64, bytes: &[u8]) -> bool
    ensures { MatchBool result (bytes.now ≡ signed_decimal amount) (bytes.now
        ≡ signed_decimal amount → ⊥) }
{
    let mut digits = Buffer::new();
    digits.format(amount).as_bytes() == bytes
}

/// The integer in i64 whose canonical decimal these bytes are: `0`, or digits without a zero in
/// front, with or without a `-` before them.
pub fn integer_of(bytes: &[u8]) -> Option<i64>
    ensures value { result ≡ integer_of bytes.now }
    ensures found { IfSome result (λ amount. bytes.now ≡ signed_decimal amount) }
    ensures only { (amount : ℤ) → FitsSigned w64 amount → bytes.now ≡ signed_decimal amount
        → result ≡ Some amount }
{
    read_integer(bytes)
}

fn read_integer(bytes: &[u8]) -> Option<i64>
    ensures { result ≡ integer_of bytes.now }
{
    let Ok(text) = str::from_utf8(bytes) else {
        return None;
    };
    let Ok(amount) = text.parse::<i64>() else {
        return None;
    };
    if is_spelled(amount, bytes) {
        Some(amount)
    } else {
        None
    }
}
