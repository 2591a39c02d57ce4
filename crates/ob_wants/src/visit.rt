//! A read that is wanted.

ghost use Rattle.std.specs.Prelude.{◌<◌};

/// The n-th read of a bucket's version.
#[derive(Clone, Copy)]
pub struct Visit {
    pub bucket: u32,
    /// Fewer than 48: a version is read at most once for each of its slots.
    pub number: u64,
    pub ghost few: { number < 48 },
}
