//! The keys of a store.

ghost use Rattle.std.specs.Prelude.{◌≡◌, ◌↔◌, ◌++◌, IsSome, IfSome, Ok};
ghost use Rattle.hex.specs.Hex.{decode_of};
ghost use Rattle.ob_seal.specs.KeyText.{IsDigits, IsKeyText, digits_of};

use crate::cells::part_at;
use hex::FromHex;

/// The keys of a store.
#[derive(Clone, Copy)]
pub struct Keys {
    /// The key of the pads of sealed cells.
    pub seal: [u8; 32],
    /// The key of the tags of cells.
    pub tag: [u8; 32],
    /// The key of the tape.
    pub tape: [u8; 32],
}

// The 96 bytes of 192 digits.
fn bytes_of(digits: &[u8]) -> Option<[u8; 96]>
    ensures value { IfSome result (λ bytes. decode_of digits.now ≡ Ok bytes) }
    ensures found { IsSome result ↔ IsDigits digits.now }
{
    <[u8; 96] as FromHex>::from_hex(digits).ok()
}

// The text without one line feed at its end.
fn without_line_feed(text: &[u8]) -> &[u8]
    ensures { result.now ≡ digits_of text.now }
{
    match text {
        [digits @ .., b'\n'] => digits,
        _ => text,
    }
}

impl Keys {
    /// The keys whose bytes stand one after another: the seal key, the tag key, the tape key.
    pub fn from_bytes(bytes: &[u8; 96]) -> Keys
        ensures { bytes.now ≡ result.seal ++ result.tag ++ result.tape }
    {
        Keys {
            seal: part_at(bytes, 0),
            tag: part_at(bytes, 32),
            tape: part_at(bytes, 64),
        }
    }

    /// The keys of a key file's text: the 192 hexadecimal digits of their bytes, and at most one
    /// line feed after them. None exactly where it is another text.
    pub fn from_hex(text: &[u8]) -> Option<Keys>
        ensures bytes { IfSome result (λ keys. decode_of (digits_of text.now)
            ≡ Ok (keys.seal ++ keys.tag ++ keys.tape)) }
        ensures found { IsSome result ↔ IsKeyText text.now }
    {
        let bytes = bytes_of(without_line_feed(text))?;
        Some(Keys::from_bytes(&bytes))
    }
}
