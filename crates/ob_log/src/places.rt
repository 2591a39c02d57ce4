//! The rules of a record's places.

ghost use Rattle.std.specs.Prelude.{◌≡◌, ◌<◌, ◌≤◌, ◌+◌, ◌*◌, ◌^◌, ◌==◌, ◌&&◌, not, nat_lt, ◌∷◌, [], length, Some, None, MatchResult};
ghost use Rattle.std.specs.List.{count_by};
ghost use Rattle.ob_cells.specs.Rules.{first_broken, told_of};
ghost use Rattle.ob_log.specs.Places.{is_for, is_ask, is_asked, least_unasked, ask_in, asks_in, words_in, kind_rule, key_rule, place_rules};

use crate::record::{Asks, Words};
use ob_base::{Damaged, Key, Params, u32_at, u64_at};
use ob_cells::bad_number;

// Whether a place asks for the key.
fn is_for(key: Key, ask: Option<Key>) -> bool
    ensures { result ≡ is_for key ask }
{
    match ask {
        Some(k) => k == key,
        None => false,
    }
}

// Whether any place asks for the key.
fn is_asked(asks: &[Option<Key>], key: Key) -> bool
    ensures { result ≡ is_asked asks.now key }
{
    asks.iter().any(|ask| is_for(key, *ask))
}

// Whether a place asks for a key.
fn is_ask(ask: Option<Key>) -> bool
    ensures { result ≡ is_ask ask }
{
    match ask {
        Some(_) => true,
        None => false,
    }
}

// How many places ask for a key.
fn asked(asks: &[Option<Key>]) -> usize
    ensures { result ≡ count_by is_ask asks.now }
{
    asks.iter().filter(|ask| is_ask(**ask)).count()
}

// The least key that no place asks for.
fn least_unasked(asks: &[Option<Key>]) -> u64
    requires few { length asks.now ≤ 64 }
    ensures { result ≡ least_unasked asks.now }
{
    for key in 0..asks.len() {
        if !is_asked(asks, key as Key) {
            return key as u64;
        }
    }
    asks.len() as u64
}

// Whether fewer places ask for a key than there are keys. Where there are more keys than places
// none is counted.
fn is_key_left(p: &Params, asks: &[Option<Key>]) -> bool
    ensures { result ≡ nat_lt (count_by is_ask asks.now) p.now.keys }
{
    if asks.len() < p.keys as usize {
        return true;
    }
    asked(asks) < p.keys as usize
}

// Whether the kind is that of a key that may be asked for.
fn may_ask(p: &Params, asks: &[Option<Key>], kind: u8) -> bool
    ensures { result ≡ (kind == 1 && nat_lt (count_by is_ask asks.now) p.now.keys) }
{
    kind == 1 && is_key_left(p, asks)
}

// Whether the key is one that no place asks for.
fn is_free(p: &Params, asks: &[Option<Key>], key: Key) -> bool
    ensures { result ≡ (nat_lt key p.now.keys && not (is_asked asks.now key)) }
{
    key < p.keys && !is_asked(asks, key)
}

// What a place asks for, where its kind and key keep their rules; `asks` is what the earlier ones
// ask for.
fn read_ask(
    p: &Params,
    cell: u64,
    bytes: &[u8],
    i: usize,
    asks: &[Option<Key>],
) -> Result<Option<Key>, Damaged>
    requires asks { asks.now ≡ asks_in bytes.now i }
    requires few { i < 64 }
    requires room { 20 + 13 * i + 13 ≤ length bytes.now }
    requires fits { cell + 9 < 2 ^ 64 }
    ensures { MatchResult result
        (λ ask. (first_broken (kind_rule p.now bytes.now i ∷ key_rule p.now bytes.now i ∷ [])
        ≡ None) × (ask ≡ ask_in bytes.now i))
        (λ damaged. told_of cell
        (first_broken (kind_rule p.now bytes.now i ∷ key_rule p.now bytes.now i ∷ []))
        ≡ Some damaged) }
{
    let at = 20 + 13 * i;
    let kind = bytes[at];
    let key = u32_at(bytes, at + 1);
    let key_cell = cell + (at as u64 + 1) / 96;
    if kind == 0 {
        if key != 0 {
            return Err(bad_number(key_cell, key as u64, 0));
        }
        return Ok(None);
    }
    if !may_ask(p, asks, kind) {
        return Err(bad_number(cell + at as u64 / 96, kind as u64, 0));
    }
    if !is_free(p, asks, key) {
        return Err(bad_number(key_cell, key as u64, least_unasked(asks)));
    }
    Ok(Some(key))
}

/// What the places ask for, and their words, up to the first that breaks a rule.
pub fn read_places(
    p: &Params,
    cell: u64,
    bytes: &[u8],
    asks: &mut Asks,
    words: &mut Words,
) -> Result<(), Damaged>
    requires no_asks { asks.old.items ≡ [] }
    requires no_words { words.old.items ≡ [] }
    requires room { 20 + 13 * p.now.places ≤ length bytes.now }
    requires fits { cell + 9 < 2 ^ 64 }
    ensures { MatchResult result
        (λ _. (first_broken (place_rules p.now bytes.now p.now.places) ≡ None)
        × (asks.new.items ≡ asks_in bytes.now p.now.places)
        × (words.new.items ≡ words_in bytes.now p.now.places))
        (λ damaged. told_of cell (first_broken (place_rules p.now bytes.now p.now.places))
        ≡ Some damaged) }
{
    for i in 0..p.places as usize {
        let ask = match read_ask(p, cell, bytes, i, asks.as_slice()) {
            Ok(ask) => ask,
            Err(damaged) => return Err(damaged),
        };
        asks.push(ask);
        words.push(u64_at(bytes, 20 + 13 * i + 5));
    }
    Ok(())
}
