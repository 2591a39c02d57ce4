//! What the running epoch has shown.

/// What a place of a batch has shown.
#[derive(Clone, Copy)]
pub struct SeenLabel {
    pub batch: u32,
    pub place: u32,
    pub leaf: u16,
}
