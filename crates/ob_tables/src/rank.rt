//! The slots of a bucket's indexes: the ranks of their words.

ghost use Rattle.std.specs.Prelude.{◌≡◌, ℕ, ◌<◌, ◌≤◌, length, slice_index};
ghost use Rattle.ob_tables.specs.Rank.{rank, ranks_of, IsRanking};
ghost use Rattle.ob_tables.specs.Order.{numbered, index_at, AreApart};

/// Writes the rank of each word's index, which is its physical slot in a bucket: how many indexes
/// have a lesser word, or an equal word and a lesser index. Ranks are a permutation.
pub fn ranks(words: &[u64], out: &mut [u8])
    requires few { length words.now ≤ 256 }
    requires long { length out.old ≡ length words.now }
    ensures ranks { out.new ≡ ranks_of words.now }
    ensures permutation { IsRanking (length words.now) (rank words.now) }
{
    let mut pairs = [(0, 0); 256];
    rank_by(words, &mut pairs[..words.len()], out);
}

// Ranks the words with room for their pairs.
fn rank_by(words: &[u64], order: &mut [(u64, usize)], out: &mut [u8])
    requires few { length words.now ≤ 256 }
    requires room { length order.old ≡ length words.now }
    requires long { length out.old ≡ length words.now }
    ensures ranks { out.new ≡ ranks_of words.now }
{
    number(words, order);
    order.sort_unstable();
    place(order, out);
}

// Pairs each word with its index.
fn number(words: &[u64], order: &mut [(u64, usize)])
    requires { length order.old ≡ length words.now }
    ensures { order.new ≡ numbered words.now }
{
    for (i, word) in words.iter().enumerate() {
        order[i] = (*word, i);
    }
}

// Writes each pair's place at its index.
fn place(order: &[(u64, usize)], out: &mut [u8])
    requires few { length order.now ≤ 256 }
    requires long { length out.old ≡ length order.now }
    requires within { (k : ℕ) → k < length order.now → index_at order.now k < length order.now }
    requires apart { AreApart order.now }
    ensures { (k : ℕ) → k < length order.now → slice_index out.new (index_at order.now k) ≡ k }
{
    for (k, pair) in order.iter().enumerate() {
        out[pair.1] = k as u8;
    }
}
