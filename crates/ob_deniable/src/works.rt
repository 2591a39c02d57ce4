//! Two works of one public shape are exchanged, their tapes with them.

ghost use Rattle.ob_deniable.specs.Samples.{Sampled};
ghost use Rattle.ob_deniable.specs.Telling.{LivesAreWorks, SeenIsAll};
ghost use Rattle.ob_deniable.specs.Words.{WordsExchange};
ghost use Rattle.ob_deniable.specs.Works.{LivesExchange};

/// For any two works of one shape, whose puts are of words that were drawn, there is an exchange
/// of their tapes, one for one, under which a life of the one becomes a life of the other, and
/// the store sees the same of both; and the exchange the other way undoes it. A tape here is a
/// word for each id and, for each version of a bucket, an order of its slots.
pub fn lives_exchange()
    ensures { LivesExchange }
{}

/// Each exchange moves words whole, also those that slots are ranked by: of words of which no
/// version has two equal ones, a life of the one work becomes a life of the other under words of
/// which again none has, and the same is seen.
pub fn words_exchange()
    ensures { WordsExchange }
{}

/// Two lives of one shape, from formats with an order of each bucket's slots, of which the same
/// is seen fill the same holes with the same, act by act: what is seen leaves nothing out.
pub fn seen_is_all()
    ensures { SeenIsAll }
{}

/// Every list of acts is what some work does with some slots, which begin with the format's: so
/// what is said of works is said of all lives.
pub fn lives_are_works()
    ensures { LivesAreWorks }
{}

/// A key that is asked for, and pads in its place, computed on the small store, with a crash and
/// with a lost record; and works that show why no premise can go, and why words and indexes both
/// have to move.
pub fn sampled()
    ensures { Sampled }
{}
