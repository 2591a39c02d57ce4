//! Stores that were just formatted are alike.

ghost use Rattle.ob_blind.specs.Formats.{FormatsAreAlike};

/// Behind their formats, whatever words their buckets' slots are ranks of, two stores of one set of
/// parameters have rings of one table, and hide alike.
pub fn formats_are_alike()
    ensures { FormatsAreAlike }
{}
