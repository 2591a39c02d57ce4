//! Lives of a ring store: what every attempt of every epoch shows, over any number of crashes.

ghost use Rattle.ob_recover.specs.LifeLaws.{LivesAreFresh, AttemptsAgree, LiftsAgree, PartsAreFresh, PicksAreScheduled, LiftsAreScheduled, PadsDiffer, LivesGoOn};

/// Whatever is shown over a life is fresh: no two places of read batches show one word, no two
/// reads show one slot of a bucket's version, and what is repeated shows the same again.
pub fn lives_are_fresh()
    ensures { LivesAreFresh }
{}

/// Two attempts of an epoch that have begun equally many batches show the same next.
pub fn attempts_agree()
    ensures { AttemptsAgree }
{}

/// What a batch reads is its public schedule, filled with the leaves shown and the slots read.
pub fn picks_are_scheduled()
    ensures { PicksAreScheduled }
{}

/// What the final lifts read is their public schedule, filled with the slots read.
pub fn lifts_are_scheduled()
    ensures { LiftsAreScheduled }
{}

/// The final lifts of an epoch are the same in each attempt that comes to them.
pub fn lifts_agree()
    ensures { LiftsAgree }
{}

/// A part of what is shown, as where a call stops inside a batch, is fresh too.
pub fn parts_are_fresh()
    ensures { PartsAreFresh }
{}

/// What is sealed in runs of rising generations has no identity twice.
pub fn pads_differ()
    ensures { PadsDiffer }
{}

/// A life goes on by the acts of a further call.
pub fn lives_go_on()
    ensures { LivesGoOn }
{}
