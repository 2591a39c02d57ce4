//! What holds of every list of events.

ghost use Rattle.ob_serial.specs.VaultKinds.{kind_of};
ghost use Rattle.ob_conduct.specs.Scenes.{runner_kind};
ghost use Rattle.ob_world.specs.Courses.{course_of};
ghost use Rattle.ob_world.specs.Headlines.{HeadlineHolds};
ghost use Rattle.ob_world.specs.Laws.{
  ActsAreAWorld,
  EveryBeginIsTold,
  MomentsArePrefixes,
  PublishesAreRecords,
  RecordsAreReported,
  RunsAreWorlds,
  RunsEndWhole,
};

use ob_serial::Vault;
use ob_session::Runner;

/// Of every list of events from an opening on, with crashes between calls and inside them: what
/// was published ran one by one, and every image that may be left, at any moment, holds each
/// epoch whose lines were written or of which a client was told that it committed in it.
pub fn headline<V: Vault>()
    ensures headline { HeadlineHolds (course_of (kind_of V.Vault)) }
{}

/// What a run did, by threads or by hand, is such a list: its acts' calls of the desk, each call of
/// the vault right behind the batch or the close that it is made for, and a report behind each
/// publish whose lines were written. It leads to the desk and to the vault as the run left them.
pub fn acts_are_a_world<V: Vault>()
    ensures world { ActsAreAWorld (kind_of V.Vault) }
{}

/// So each run of runners over a vault, by threads or by hand, has acts that are such a list. Where
/// it answers Ok the driver rests at its end, and the published records tell all that was begun.
pub fn runs_are_worlds<V: Vault, U: Runner>()
    ensures runs { RunsAreWorlds (kind_of V.Vault)
        (runner_kind U.client U.bound U.plan U.fits U.turn) }
    ensures whole { RunsEndWhole (kind_of V.Vault)
        (runner_kind U.client U.bound U.plan U.fits U.turn) }
{}

/// The records that a run published are among its events in order, and the first of them are
/// reported, each behind its publish. Where a desk is at rest, each transaction that a client began
/// since the opening is in a published record.
pub fn records_are_reported<V: Vault>()
    ensures reported { RecordsAreReported }
    ensures counted { PublishesAreRecords }
    ensures begun { EveryBeginIsTold (course_of (kind_of V.Vault)) }
{}

/// From each place of a run on to any later one, between calls and inside them, a crash leaves
/// only what stands for a prefix of what ended, with each epoch that was acknowledged before that
/// place. What reads give at the later place stands so as well.
pub fn moments_are_prefixes<V: Vault>()
    ensures moments { MomentsArePrefixes (kind_of V.Vault) }
{}
