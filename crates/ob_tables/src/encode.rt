//! Writing what a checkpoint keeps of a bucket.

ghost use Rattle.std.specs.Prelude.{◌≡◌, ◌≤◌, ◌+◌, ◌*◌, length};
ghost use Rattle.std.specs.List.{flat_map};
ghost use Rattle.std.specs.Int.{w32, to_le_bytes};
ghost use Rattle.ob_base.specs.LittleEndian.{with_part};
ghost use Rattle.ob_tables.specs.Version.{key_bytes, mark_of, index_bytes, version_bytes, version_len};

use crate::meta::Meta;
use ob_base::{Key, set_u32, set_u64};

// The number that stands for a real index without a key.
const EMPTY: u32 = 0xFFFF_FFFF;

impl Meta {
    /// Writes the bytes that a checkpoint keeps of a bucket: its home, generation and base, a
    /// number for each real index (0xFFFF_FFFF where it holds no key), then each index's slot and
    /// 1 where it was shown, else 0.
    pub fn encode(&self, out: &mut [u8])
        requires { length out.old ≡ version_len self.now }
        ensures { out.new ≡ version_bytes self.now }
    {
        let keys = self.keys.as_slice();
        out[0] = self.home;
        set_u64(out, 1, self.generation);
        set_u64(out, 9, self.base);
        write_keys(out, 17, keys);
        let at = 17 + 4 * keys.len();
        write_indexes(out, at, self.ranks.as_slice(), self.used.as_slice());
    }
}

// The number that stands for a real index.
fn number_of(key: Option<Key>) -> u32
    ensures { to_le_bytes w32 result ≡ key_bytes key }
{
    match key {
        Some(k) => k,
        None => EMPTY,
    }
}

// 1 for an index that was shown, else 0.
fn mark_of(shown: bool) -> u8
    ensures { result ≡ mark_of shown }
{
    shown as u8
}

// Writes the numbers of the real indexes from a place on.
fn write_keys(out: &mut [u8], at: usize, keys: &[Option<Key>])
    requires { at + 4 * length keys.now ≤ length out.old }
    ensures { out.new ≡ with_part out.old at (flat_map key_bytes keys.now) }
{
    for (j, key) in keys.iter().enumerate() {
        set_u32(out, at + 4 * j, number_of(*key));
    }
}

// Writes slot and mark of each index from a place on.
fn write_indexes(out: &mut [u8], at: usize, ranks: &[u8], used: &[bool])
    requires room { at + 2 * length ranks.now ≤ length out.old }
    requires marks { length used.now ≡ length ranks.now }
    ensures { out.new ≡ with_part out.old at (index_bytes ranks.now used.now) }
{
    for (j, rank) in ranks.iter().enumerate() {
        out[at + 2 * j] = *rank;
        out[at + 2 * j + 1] = mark_of(used[j]);
    }
}
