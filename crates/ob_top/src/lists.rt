//! A run as a list of the world's events.

ghost use Rattle.ob_vault.specs.RingKind.{ring_kind};
ghost use Rattle.ob_top.specs.Listed.{ListsHold};

/// Of every list of events over a ring store from an opening on, with crashes between calls and
/// inside them: what was published ran one by one, and every image that may be left, at any moment,
/// holds each epoch whose lines were written or of which a client was told that it committed in it.
/// What a run did is such a list.
pub fn lists_hold()
    ensures { ListsHold ring_kind }
{}
