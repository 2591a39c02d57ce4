//! No word is shown in two holes.

ghost use Rattle.ob_fresh.specs.Fresh.{NoWordTwice};
ghost use Rattle.ob_fresh.specs.Samples.{Sampled};

/// Over a life of a store, with any number of runs, crashes and repeats, no word fills two holes,
/// whether of labels or of slots; and what a slot's hole shows is its word's rank. The life's
/// words are drawn in turn, and its slots are ranks of words: a life alone says neither.
pub fn no_word_is_shown_twice()
    ensures { NoWordTwice }
{}

/// Lives on the small store, computed, with an end in doubt and with crashes in an opening; and
/// what is none, or shows a word twice.
pub fn sampled()
    ensures { Sampled }
{}
