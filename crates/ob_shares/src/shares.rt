//! How many keys each client may name.

/// How many different keys each client may name in an epoch, by its gets, and by its puts and
/// deletes. None where there is no share: then it may name any.
#[derive(Clone, Copy)]
pub struct Shares {
    pub reads: Option<u32>,
    pub writes: Option<u32>,
}

/// No shares.
pub const NO_SHARES: Shares = Shares {
    reads: None,
    writes: None,
};
