//! How many keys each bucket took.

ghost use Rattle.std.specs.Prelude.{◌≡◌, ◌<◌, ◌+◌, length, replicate, slice_index, slice_set, IfOk};
ghost use Rattle.ob_base.specs.Tree.{buckets};

use ob_base::{Memory, Params, buckets};
use std::alloc::Global;
use std::marker::Model;

/// Room for what a refill counts: of each bucket one byte, how many keys it took. Between refills
/// each count is 0. Contracts see the counts.
#[derive(Drop)]
pub struct Index {
    counts: Vec<u8>,
}

impl Model for Index {
    ghost use Rattle.std.specs.Prelude.{ℕ, List};

    ghost Value = { List ℕ };

    ghost view = { λ i. i.counts.items };
}

impl Index {
    /// Each count is 0.
    ///
    /// # Errors
    /// Memory was wanting.
    pub fn new(alloc: Global, p: &Params) -> Result<Index, Memory>
        ensures { IfOk result (λ i. i ≡ replicate (buckets p.now) 0) }
    {
        let many = buckets(p) as usize;
        Ok(Index {
            counts: vec![in alloc; 0; many]?,
        })
    }

    // How many keys a bucket took.
    pub(crate) fn get(&self, bucket: u32) -> u8
        requires { bucket < length self.now }
        ensures { result ≡ slice_index self.now bucket }
    {
        self.counts[bucket as usize]
    }

    // A bucket took one key more.
    pub(crate) fn raise(&mut self, bucket: u32)
        requires within { bucket < length self.old }
        requires few { slice_index self.old bucket < 255 }
        ensures { self.new ≡ slice_set self.old bucket (slice_index self.old bucket + 1) }
    {
        self.counts[bucket as usize] += 1;
    }

    // A bucket took none.
    pub(crate) fn clear(&mut self, bucket: u32)
        requires { bucket < length self.old }
        ensures { self.new ≡ slice_set self.old bucket 0 }
    {
        self.counts[bucket as usize] = 0;
    }
}
