//! Where the fields of a checkpoint lie in its bytes.

ghost use Rattle.std.specs.Prelude.{◌≡◌, ◌<◌, ◌≤◌, ◌+◌, ◌*◌, ◌^◌};
ghost use Rattle.ob_base.specs.Layout.{checkpoint_len, meta_len};
ghost use Rattle.ob_base.specs.Tree.{buckets, width};
ghost use Rattle.ob_check.specs.Fields.{entry_place, bucket_place, key_place, index_place, count_place, row_place};

use ob_base::{Params, buckets, meta_len};

/// How many leaves there are.
pub fn leaves(p: &Params) -> u32
    ensures { result ≡ 2 ^ p.now.levels }
{
    1 << p.levels
}

/// Where a key's bytes begin.
#[tactic(auto, unfolding(ob_base::specs::Layout::checkpoint_len))]
pub fn entry_place(p: &Params, k: u32) -> usize
    requires { k < p.now.keys }
    ensures place { result ≡ entry_place k }
    ensures within { result + 21 ≤ checkpoint_len p.now }
{
    16 + 21 * k as usize
}

/// Where a bucket's bytes begin.
pub fn bucket_place(p: &Params, u: u32) -> usize
    requires { u < buckets p.now }
    ensures place { result ≡ bucket_place p.now u }
    ensures within { result + meta_len p.now ≤ checkpoint_len p.now }
    ensures few { result < 2 ^ 25 }
{
    16 + 21 * p.keys as usize + u as usize * meta_len(p) as usize
}

/// Where the count of the stash's rows stands.
pub fn count_place(p: &Params) -> usize
    ensures place { result ≡ count_place p.now }
    ensures within { result + 4 + 69 * p.now.room ≡ checkpoint_len p.now }
    ensures few { result < 2 ^ 25 }
{
    16 + 21 * p.keys as usize + buckets(p) as usize * meta_len(p) as usize
}

/// Where the number of a bucket's key stands.
pub fn key_place(p: &Params, u: u32, j: u32) -> usize
    requires u { u < buckets p.now }
    requires j { j < p.now.real }
    ensures place { result ≡ key_place p.now u j }
    ensures within { result + 4 ≤ checkpoint_len p.now }
{
    bucket_place(p, u) + 17 + 4 * j as usize
}

/// Where the rank of a bucket's index stands, and behind it its mark.
pub fn index_place(p: &Params, u: u32, i: u32) -> usize
    requires u { u < buckets p.now }
    requires i { i < width p.now }
    ensures place { result ≡ index_place p.now u i }
    ensures within { result + 2 ≤ checkpoint_len p.now }
{
    bucket_place(p, u) + 17 + 4 * p.real as usize + 2 * i as usize
}

/// Where a row of the stash begins.
pub fn row_place(p: &Params, i: u32) -> usize
    requires i { i < p.now.room }
    ensures place { result ≡ row_place p.now i }
    ensures within { result + 69 ≤ checkpoint_len p.now }
{
    count_place(p) + 4 + 69 * i as usize
}
