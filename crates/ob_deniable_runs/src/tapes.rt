//! One tape for all words that a store's runs draw.

ghost use Rattle.ob_deniable_runs.specs.Samples.{Sampled};
ghost use Rattle.ob_deniable_runs.specs.Tapes.{TapesExchange};

/// Of a life that draws its words in turn from a tape, its slots the ranks of these, no two words
/// of a version equal: for any other work of its shape, whose puts are of the next words, there is
/// one tape, on which the same words stand at other places, by a permutation of ids; on it the
/// other is a life that draws in turn, and fills the same holes with the same.
pub fn tapes_exchange()
    ensures { TapesExchange }
{}

/// A key that is kept and asked for, and pads in its place, on the small store; works that could
/// be done on no tape; and why nothing is said of holes that aren't shown.
pub fn sampled()
    ensures { Sampled }
{}
