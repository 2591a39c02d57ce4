//! What has been read of a trace.

use ob_follow::FollowPlain;

/// The most bytes of a line that are kept: one more than a line has.
pub(crate) const KEPT: usize = 97;

/// What has been read: how many lines and bytes, what is known behind the lines, and the front of
/// the line that is begun.
#[derive(Drop)]
pub(crate) struct Reader {
    pub(crate) lines: u64,
    pub(crate) seen: u64,
    // In a box of its own, so that a line moves only where it lies.
    pub(crate) known: Option<Box<FollowPlain>>,
    pub(crate) begun: [u8; 97],
    pub(crate) len: usize,
}
