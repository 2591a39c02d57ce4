//! Where a key lies.

/// Where a key lies: a bucket and a real index.
#[derive(Clone, Copy)]
pub(crate) struct Found {
    pub(crate) bucket: u32,
    pub(crate) index: u8,
}
