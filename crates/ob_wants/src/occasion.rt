//! When a bucket's slots are read.

/// When a bucket's slots are read: as a path passes it, or as it is lifted at an end.
#[derive(Clone, Copy)]
pub(crate) enum Occasion {
    Passed,
    Lifted,
}
