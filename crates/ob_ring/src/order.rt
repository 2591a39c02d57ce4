//! The indexes that a lift reads.

ghost use Rattle.std.specs.Prelude.{◌≡◌, ℕ, ◌<◌, ◌≤◌, ◌++◌, ◌∷◌, [], List, length, take};
ghost use Rattle.ob_ring.specs.Order.{is_live, is_spare, order_of, HoldsFirst};

use ob_base::Key;

// Whether an index holds a key.
fn is_live(keys: &[Option<Key>], j: usize) -> bool
    ensures { result ≡ is_live keys.now j }
{
    match keys.get(j) {
        Some(key) => key.is_some(),
        None => false,
    }
}

// Whether an index holds no key and wasn't shown.
fn is_spare(keys: &[Option<Key>], used: &[bool], j: usize) -> bool
    requires { j < length used.now }
    ensures { result ≡ is_spare keys.now used.now j }
{
    !is_live(keys, j) && !used[j]
}

// Writes one number more, while there are fewer than `limit`.
fn push_below(out: &mut [u8], n: usize, limit: usize, j: u8) -> usize
    requires room { limit ≤ length out.old }
    ensures long { length out.new ≡ length out.old }
    ensures pushed { (xs : List ℕ) → HoldsFirst out.old n limit xs
        → HoldsFirst out.new result limit (xs ++ j ∷ []) }
{
    if n < limit {
        out[n] = j;
        n + 1
    } else {
        n
    }
}

/// Writes the indexes that a lift reads: those that hold a key, rising, then the other unread
/// ones, rising, as many as there are real ones. Answers how many it wrote.
pub(crate) fn lift_order(keys: &[Option<Key>], used: &[bool], out: &mut [u8]) -> usize
    requires few { length used.now ≤ 256 }
    requires room { length keys.now ≤ length out.old }
    ensures long { length out.new ≡ length out.old }
    ensures within { result ≤ length keys.now }
    ensures order { take result out.new ≡ order_of keys.now used.now }
{
    let mut n: usize = 0;
    for j in 0..used.len() {
        if is_live(keys, j) {
            n = push_below(out, n, keys.len(), j as u8);
        }
    }
    for i in 0..used.len() {
        if is_spare(keys, used, i) {
            n = push_below(out, n, keys.len(), i as u8);
        }
    }
    n
}
