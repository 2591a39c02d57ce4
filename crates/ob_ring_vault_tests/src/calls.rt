//! Whether a vault takes a list of calls.

ghost use Rattle.std.specs.Prelude.{◌≡◌, ◌<◌, ◌≤◌, ℕ, true, false, length, map, slice_get, Some, All};
ghost use Rattle.std.specs.List.Sorted.{IsStrictlyIncreasing};
ghost use Rattle.ob_serial.specs.Vaults.{AreBelow, AreDistinct, counts_next};
ghost use Rattle.ob_plain_serial.specs.VaultRuns.{MayServe, MayServeAll, call_of, served};

use ob_base::{Key, Params, Write};
use ob_plain_serial::Request;

// Whether both are the same key.
fn is_same_key(one: Option<Key>, other: Option<Key>) -> bool
    ensures { (key : ℕ) → one ≡ Some key → other ≡ Some key → result ≡ true }
{
    match (one, other) {
        (Some(one), Some(other)) => one == other,
        _ => false,
    }
}

// Whether no other place asks for the key of this one.
fn is_asked_once(asks: &[Option<Key>], place: usize) -> bool
    requires { place < length asks.now }
    ensures { result ≡ true → (j key : ℕ) → slice_get asks.now place ≡ Some (Some key)
        → slice_get asks.now j ≡ Some (Some key) → place ≡ j }
{
    for j in 0..asks.len() {
        if j != place && is_same_key(asks[place], asks[j]) {
            return false;
        }
    }
    true
}

fn are_distinct(asks: &[Option<Key>]) -> bool
    ensures { result ≡ true → AreDistinct asks.now }
{
    for i in 0..asks.len() {
        if !is_asked_once(asks, i) {
            return false;
        }
    }
    true
}

// Whether this is a pad, or a key below these.
fn is_low(keys: u32, ask: Option<Key>) -> bool
    ensures { result ≡ true → (key : ℕ) → ask ≡ Some key → key < keys }
{
    match ask {
        Some(key) => key < keys,
        None => true,
    }
}

fn are_below(keys: u32, asks: &[Option<Key>]) -> bool
    ensures { result ≡ true → AreBelow keys asks.now }
{
    for i in 0..asks.len() {
        if !is_low(keys, asks[i]) {
            return false;
        }
    }
    true
}

fn is_below(one: &Write, next: &Write) -> bool
    ensures { result ≡ true → one.now.key < next.now.key }
{
    one.key < next.key
}

// Whether each key is below the next one.
fn are_rising(writes: &[Write]) -> bool
    ensures { result ≡ true → IsStrictlyIncreasing (map (λ w. w.key) writes.now) }
{
    for i in 1..writes.len() {
        if !is_below(&writes[i - 1], &writes[i]) {
            return false;
        }
    }
    true
}

fn are_low(keys: u32, writes: &[Write]) -> bool
    ensures { result ≡ true → All (λ w. w.key < keys) writes.now }
{
    for write in writes {
        if write.key >= keys {
            return false;
        }
    }
    true
}

/// Whether a vault with so many batches left takes this batch.
pub fn may_fetch(p: &Params, left: u32, asks: &[Option<Key>]) -> bool
    ensures some_left { result ≡ true → 0 < left }
    ensures whole { result ≡ true → length asks.now ≡ p.now.places }
    ensures keys { result ≡ true → AreBelow p.now.keys asks.now }
    ensures distinct { result ≡ true → AreDistinct asks.now }
{
    left > 0 && asks.len() == p.places as usize && are_below(p.keys, asks) && are_distinct(asks)
}

/// Whether it ends its epoch with these writes.
pub fn may_end(p: &Params, left: u32, writes: &[Write]) -> bool
    ensures none_left { result ≡ true → left ≡ 0 }
    ensures few { result ≡ true → length writes.now ≤ p.now.writes }
    ensures rising { result ≡ true → IsStrictlyIncreasing (map (λ w. w.key) writes.now) }
    ensures keys { result ≡ true → All (λ w. w.key < p.now.keys) writes.now }
{
    left == 0 && writes.len() <= p.writes as usize && are_rising(writes) && are_low(p.keys, writes)
}

fn may_serve(p: &Params, left: u32, request: &Request) -> bool
    ensures { result ≡ true → (epoch : ℕ)
        → MayServe p.now (record { epoch = epoch; left = left; spent = false }) request.now }
{
    match request {
        Request::Fetch(asks) => may_fetch(p, left, asks),
        Request::End(writes) => may_end(p, left, writes),
    }
}

// How many batches are left behind a call, of so many in an epoch.
fn left_after(batches: u32, left: u32, request: &Request) -> u32
    ensures { (epoch : ℕ)
        → (counts_next batches (record { epoch = epoch; left = left; spent = false })
        (call_of request.now) (served (call_of request.now))).left ≡ result }
{
    match request {
        Request::Fetch(_) => left.saturating_sub(1),
        Request::End(_) => batches,
    }
}

/// Whether it takes these calls one behind the other.
pub fn may_serve_all(p: &Params, left: u32, requests: &[Request]) -> bool
    ensures { result ≡ true → (epoch : ℕ)
        → MayServeAll p.now (record { epoch = epoch; left = left; spent = false }) requests.now }
{
    let mut left = left;
    for request in requests {
        if !may_serve(p, left, request) {
            return false;
        }
        left = left_after(p.batches, left, request);
    }
    true
}
