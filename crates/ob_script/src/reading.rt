//! Reading a line of a script.

ghost use Rattle.std.specs.Prelude.{◌≡◌, ◌<◌, ◌^◌, ℕ, IfSome, Some, None, option_map};
ghost use Rattle.std.specs.List.{list_all};
ghost use Rattle.std.specs.Str.{all_ascii_digits};
ghost use Rattle.std.specs.Fmt.{decimal};
ghost use Rattle.ob_script.specs.declared.line.Line.{Line};
ghost use Rattle.ob_script.specs.Script.{IsSpelled, IsInRange, is_blank, is_plain};
ghost use Rattle.ob_script.specs.Reading.{cut, is_numeral, numeral_value, client_numeral, key_numeral, get_at, put_of, put_at, del_at, add_of, add_at, ask_at, word_line, named_line, line_at};

use crate::integers::integer_of;
use crate::line::{Ask, Ending, Line};
use ob_base::{Key, MOST_CLIENTS, Value};

/// What stands before the first such byte, and what behind it.
pub fn cut(bytes: &[u8], at: u8) -> Option<(&[u8], &[u8])>
    ensures { option_map (λ p. (p.0.now, p.1.now)) result ≡ cut at bytes.now }
{
    for i in 0..bytes.len() {
        if bytes[i] == at {
            return Some((&bytes[..i], &bytes[i + 1..]));
        }
    }
    None
}

fn is_numeral(bytes: &[u8]) -> bool
    ensures { result ≡ is_numeral bytes.now }
{
    match bytes {
        [] => false,
        [first, rest @ ..] => { all_digits(bytes) && (*first != b'0' || rest.len() == 0) }
    }
}

fn all_digits(bytes: &[u8]) -> bool
    ensures { result ≡ all_ascii_digits bytes.now }
{
    for b in bytes {
        if !b.is_ascii_digit() {
            return false;
        }
    }
    true
}

fn is_plain_text(bytes: &[u8]) -> bool
    ensures { result ≡ list_all is_plain bytes.now }
{
    for b in bytes {
        if !(32 <= *b && *b <= 126) {
            return false;
        }
    }
    true
}

fn number_at(bytes: &[u8]) -> Option<u32>
    ensures { result ≡ numeral_value bytes.now }
{
    if !is_numeral(bytes) {
        return None;
    }
    let Ok(text) = str::from_utf8(bytes) else {
        return None;
    };
    match text.parse::<u32>() {
        Ok(n) => Some(n),
        Err(_) => None,
    }
}

fn client_at(bytes: &[u8]) -> Option<Line>
    ensures { result ≡ client_numeral bytes.now }
{
    let client = number_at(bytes)?;
    if 1 <= client && client <= MOST_CLIENTS {
        Some(Line::Client { client })
    } else {
        None
    }
}

fn key_at(keys: u32, bytes: &[u8]) -> Option<Key>
    ensures { result ≡ key_numeral keys bytes.now }
{
    let key = number_at(bytes)?;
    if key < keys { Some(key) } else { None }
}

fn get_at(keys: u32, bytes: &[u8]) -> Option<Ask>
    ensures { result ≡ get_at keys bytes.now }
{
    let key = key_at(keys, bytes)?;
    Some(Ask::Get { key })
}

fn del_at(keys: u32, bytes: &[u8]) -> Option<Ask>
    ensures { result ≡ del_at keys bytes.now }
{
    let key = key_at(keys, bytes)?;
    Some(Ask::Del { key })
}

fn put_of(bytes: &[u8], key: Key) -> Option<Ask>
    ensures { result ≡ put_of bytes.now key }
{
    let Some(value) = Value::new(bytes) else {
        return None;
    };
    if is_plain_text(bytes) {
        Some(Ask::Put { key, value })
    } else {
        None
    }
}

fn add_of(bytes: &[u8], key: Key) -> Option<Ask>
    ensures { result ≡ add_of bytes.now key }
{
    let amount = integer_of(bytes)?;
    Some(Ask::Add { key, amount })
}

fn put_at(keys: u32, bytes: &[u8]) -> Option<Ask>
    ensures { result ≡ put_at keys bytes.now }
{
    let (key, value) = cut(bytes, b' ')?;
    put_of(value, key_at(keys, key)?)
}

fn add_at(keys: u32, bytes: &[u8]) -> Option<Ask>
    ensures { result ≡ add_at keys bytes.now }
{
    let (key, amount) = cut(bytes, b' ')?;
    add_of(amount, key_at(keys, key)?)
}

fn ask_at(keys: u32, word: &[u8], rest: &[u8]) -> Option<Ask>
    ensures { result ≡ ask_at keys word.now rest.now }
{
    if word == b"get".as_slice() {
        get_at(keys, rest)
    } else if word == b"put".as_slice() {
        put_at(keys, rest)
    } else if word == b"del".as_slice() {
        del_at(keys, rest)
    } else if word == b"add".as_slice() {
        add_at(keys, rest)
    } else {
        None
    }
}

fn word_line(text: &[u8]) -> Option<Line>
    ensures { result ≡ word_line text.now }
{
    if text == b"begin".as_slice() {
        Some(Line::Begin)
    } else if text == b"commit".as_slice() {
        let ending = Ending::Commit;
        Some(Line::Ends { ending })
    } else if text == b"abort".as_slice() {
        let ending = Ending::Abort;
        Some(Line::Ends { ending })
    } else {
        None
    }
}

fn named_line(keys: u32, word: &[u8], rest: &[u8]) -> Option<Line>
    ensures { result ≡ named_line keys word.now rest.now }
{
    if word == b"client".as_slice() {
        return client_at(rest);
    }
    let ask = ask_at(keys, word, rest)?;
    Some(Line::Asks { ask })
}

fn is_blank(text: &[u8]) -> bool
    ensures { result ≡ is_blank text.now }
{
    match text {
        [] => true,
        [first, ..] => *first == b'#',
    }
}

fn line_read(keys: u32, text: &[u8]) -> Option<Line>
    ensures { result ≡ line_at keys text.now }
{
    if is_blank(text) {
        return Some(Line::Blank);
    }
    match cut(text, b' ') {
        None => word_line(text),
        Some((word, rest)) => named_line(keys, word, rest),
    }
}

/// The line with these bytes, where keys are below `keys`.
pub fn line_of(keys: u32, text: &[u8]) -> Option<Line>
    ensures found { IfSome result (λ line. IsInRange keys line × IsSpelled line text.now) }
    ensures only { (line : Line) → IsInRange keys line → IsSpelled line text.now
        → result ≡ Some line }
{
    line_read(keys, text)
}

/// The number below `2^32` whose canonical decimal these bytes are: digits, without a sign and
/// without a zero in front of others.
pub fn number_of(bytes: &[u8]) -> Option<u32>
    ensures found { IfSome result (λ n. bytes.now ≡ decimal n) }
    ensures only { (n : ℕ) → n < 2 ^ 32 → bytes.now ≡ decimal n → result ≡ Some n }
{
    number_at(bytes)
}
