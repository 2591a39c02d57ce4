//! Two stores of one table, computed.

ghost use Rattle.ob_blind.specs.Samples.{Sampled};

/// Two stores on the small tree whose slots differ: over an epoch both pick the same, in other
/// slots; ends whose words differ in those of a bucket show the same leaves then. A dummy that is
/// chosen by its slot, a put that takes a bucket's word and a bucket that takes a write's are told
/// apart.
pub fn sampled()
    ensures { Sampled }
{}
