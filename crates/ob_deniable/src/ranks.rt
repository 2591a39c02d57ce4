//! Ranks move along with words where no two words are equal, and not otherwise.

ghost use Rattle.ob_deniable.specs.Moved.{RankingsMove, TiesTell};

/// Where words of which no two are equal are moved along with their indexes, by a permutation of
/// these, their ranks move along; and no two of the moved words are equal.
pub fn rankings_move()
    ensures { RankingsMove }
{}

/// Over all words, ties among them, it is false: at two indexes and words below 2 no one-to-one
/// map leads the words that give one order to those that give the other.
pub fn ties_tell()
    ensures { TiesTell }
{}
