//! What is public of a life.

ghost use Rattle.ob_fresh.specs.PublicLives.{LivesArePublic};

/// What is public of a life is a new store's behind the format, and each act moves it on as the
/// public schedule says, from the leaves that are shown and the gates that an opening finds; so
/// all of it is a function of what was seen.
pub fn lives_are_public()
    ensures { LivesArePublic }
{}
