//! Histories of a small store.

ghost use Rattle.ob_histories.specs.Samples.{Sampled};

/// Two runs of one epoch each, of which one has a mirror too, and an end in doubt behind which two
/// openings stop before their first sync, computed from the definitions; and what is no history.
pub fn sampled()
    ensures { Sampled }
{}
