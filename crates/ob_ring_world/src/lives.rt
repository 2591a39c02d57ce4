//! What holds of every list of events over a ring store.

ghost use Rattle.ob_serial.specs.VaultKinds.{kind_of};
ghost use Rattle.ob_ring_world.specs.Formatting.{FormatsBeginWorlds, FormatsMomentByMoment};
ghost use Rattle.ob_ring_world.specs.OpeningMoments.{OpeningsMomentByMoment};
ghost use Rattle.ob_ring_world.specs.RingCourses.{RingHeadlineHolds};
ghost use Rattle.ob_ring_world.specs.Runs.{ActsAreOneRun, RingRunsAreWorlds};

use ob_serial::Vault;
use ob_store::Store;

/// Of every list of events over a ring store, with crashes between calls, inside them and inside
/// openings: the headline of worlds; the rows that the store was shown are the public schedule's,
/// each whole or cut off, filled by what one life of the store shows; no word and no slot was shown
/// in two holes; and no two seals had one generation and number.
pub fn ring_headline()
    ensures headline { RingHeadlineHolds }
{}

/// A format that returned begins a world in each image that it may have left, and its row is whole.
/// A crash at any moment of it leaves the store before but for its head, or no store, or, where the
/// head is whole, one in which a world begins too.
pub fn formats_begin_worlds<S: Store>()
    ensures begins { FormatsBeginWorlds (λ store. S.disk store) }
    ensures moments { FormatsMomentByMoment (λ store. S.disk store) }
{}

/// A crash at any moment of an opening, whatever that answers, leaves an image that the next one
/// can go on from: the life is behind what was found of the act in flight, where the next
/// generation may have begun. It stands for what the store stood for.
pub fn openings_moment_by_moment<S: Store>()
    ensures { OpeningsMomentByMoment (λ store. S.disk store) }
{}

/// From a format on, each row of runs over a ring store is one list of events of the world over it:
/// openings, what each run did, and crashes between calls, inside calls and inside openings. So the
/// headline is of every such row. The rows of its past are the format's, all that each run called
/// its store for, and what a call or an opening that was cut off or refused had called it for.
/// What a run did, by threads or by hand, is a list of its vault (`ob_world::runs_are_worlds`), and
/// has no crash and no opening in it.
pub fn runs_are_worlds<V: Vault, S: Store>()
    ensures worlds { RingRunsAreWorlds (kind_of V.Vault) (λ store. S.disk store) }
    ensures acts { ActsAreOneRun }
{}
