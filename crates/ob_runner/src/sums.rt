//! A value with an amount added.

ghost use Rattle.std.specs.Prelude.{◌≡◌, Some};
ghost use Rattle.std.specs.Fmt.{signed_decimal};
ghost use Rattle.ob_runner.specs.Meaning.{counted, sum_of};

use itoa::Buffer;
use ob_base::Value;
use ob_script::integer_of;

// The integer that a value counts as: 0 where it is absent.
fn counted(value: &Option<Value>) -> Option<i64>
    ensures { result ≡ counted value.now }
{
    match value {
        None => Some(0),
        Some(value) => integer_of(value.as_slice()),
    }
}

// The value that spells this integer.
fn spelled(number: i64) -> Option<Value>
    ensures { result ≡ Some (signed_decimal number) }
{
    let mut digits = Buffer::new();
    Value::new(digits.format(number).as_bytes())
}

/// The value with this amount added: none where it isn't a canonical integer in i64, or the sum is
/// out of range. An absent value counts as 0.
pub fn sum_of(value: &Option<Value>, amount: i64) -> Option<Value>
    ensures { result ≡ sum_of value.now amount }
{
    let number = counted(value)?;
    let sum = number.checked_add(amount)?;
    spelled(sum)
}
