//! What the proxy keeps of all buckets.

ghost use Rattle.std.specs.Prelude.{◌≡◌, ◌<◌, ◌++◌, ◌∷◌, [], true, false, length, replicate, slice_set, IfOk};
ghost use Rattle.std.specs.Borrow.{sem};
ghost use Rattle.ob_base.specs.Tree.{buckets};
ghost use Rattle.ob_tables.specs.Version.{blank};
ghost use Rattle.ob_tables.specs.Buckets.{version_at, with_version, is_lifted, new_buckets};
ghost use Rattle.ob_tables.specs.Lending.{LendsVersion};

use crate::meta::{Meta, clear_marks};
use ob_base::{Memory, Params, buckets};
use std::alloc::{AllocError, Global};
use std::marker::Model;

/// What the proxy keeps of all buckets, by number; which of them are lifted; and a list of
/// buckets, with room for each. Contracts see the three lists.
#[derive(Drop)]
pub struct Metas {
    metas: Vec<Meta>,
    lifted: Vec<bool>,
    order: Vec<u32>,
}

impl Model for Metas {
    ghost use Rattle.std.specs.Prelude.{◌≡◌, ◌≤◌, length, vec_capacity};
    ghost use Rattle.ob_tables.specs.Buckets.{Buckets};

    ghost Value = { Buckets };

    ghost view = { λ s. record { versions = s.metas.items; lifted = s.lifted.items; order = s.order.items } };

    ghost invariant = { λ s. (length s.lifted.items ≡ length s.metas.items) × (length s.metas.items ≤ vec_capacity s.order) };
}

impl Metas {
    /// Buckets of which no version was written, none of them lifted, and an empty list.
    ///
    /// # Errors
    /// Memory was wanting.
    pub fn new(alloc: Global, p: &Params) -> Result<Metas, Memory>
        ensures { IfOk result (λ s. s ≡ new_buckets p.now) }
    {
        let many = buckets(p) as usize;
        Ok(Metas {
            metas: blanks(alloc, p)?,
            lifted: vec![in alloc; false; many]?,
            order: Vec::with_capacity(alloc, many)?,
        })
    }

    /// What is kept of a bucket.
    pub fn get(&self, bucket: u32) -> &Meta
        requires { bucket < length self.now.versions }
        ensures { result.now ≡ version_at self.now.versions bucket }
    {
        &self.metas[bucket as usize]
    }

    /// The same, for writing.
    pub fn get_mut(&mut self, bucket: u32) -> &mut Meta
        requires { bucket < length self.old.versions }
        ensures* writes_back { sem 𝓛 (LendsVersion self.entry bucket result) }
        ensures value { result.now ≡ version_at self.old.versions bucket }
    {
        &mut self.metas[bucket as usize]
    }

    /// Keeps this of a bucket.
    pub fn set(&mut self, bucket: u32, meta: Meta)
        requires { bucket < length self.old.versions }
        ensures { self.new ≡ with_version self.old bucket meta }
    {
        self.metas[bucket as usize] = meta;
    }

    /// Whether a bucket is lifted.
    pub fn is_lifted(&self, bucket: u32) -> bool
        requires { bucket < length self.now.versions }
        ensures { result ≡ is_lifted self.now bucket }
    {
        self.lifted[bucket as usize]
    }

    /// Notes that a bucket is lifted.
    pub fn lift(&mut self, bucket: u32)
        requires { bucket < length self.old.versions }
        ensures { self.new ≡ record self.old { lifted = slice_set self.old.lifted bucket true } }
    {
        self.lifted[bucket as usize] = true;
    }

    /// No bucket is lifted any more.
    pub fn clear_lifted(&mut self)
        ensures { self.new ≡ record self.old { lifted = replicate (length self.old.lifted) false } }
    {
        clear_marks(self.lifted.as_mut_slice());
    }

    /// The list of buckets.
    pub fn order(&self) -> &[u32]
        ensures { result.now ≡ self.now.order }
    {
        self.order.as_slice()
    }

    /// Puts a bucket behind the others of the list.
    pub fn push_order(&mut self, bucket: u32)
        requires { length self.old.order < length self.old.versions }
        ensures { self.new ≡ record self.old { order = self.old.order ++ bucket ∷ [] } }
    {
        let _ = self.order.push(bucket);
    }

    /// Empties the list.
    pub fn clear_order(&mut self)
        ensures { self.new ≡ record self.old { order = [] } }
    {
        self.order.clear();
    }
}

// As many buckets as the tree has, of which no version was written.
fn blanks(alloc: Global, p: &Params) -> Result<Vec<Meta>, AllocError>
    ensures { IfOk result (λ v. v.items ≡ replicate (buckets p.now) (blank p.now)) }
{
    let many = buckets(p) as usize;
    let mut metas = Vec::with_capacity(alloc, many)?;
    for _j in 0..many {
        metas.push(Meta::blank(p))?;
    }
    Ok(metas)
}
