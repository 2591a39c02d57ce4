//! What was written is read again.

ghost use Rattle.ob_check.specs.ReadBack.{ReadsBack};

/// What was written is read again: where an epoch's area holds a content that obeys the rules, a
/// read of that epoch gives tables of that content, and finds no cell damaged.
pub fn reads_back()
    ensures { ReadsBack }
{}
