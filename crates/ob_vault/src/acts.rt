//! What the calls on a ring store say of themselves, in the words of its life over its pads.

ghost use Rattle.ob_serial.specs.VaultKinds.{kind_of};
ghost use Rattle.ob_vault.specs.SealCounts.{SealsArePublic};
ghost use Rattle.ob_vault.specs.SealActs.{RingCallsAreActs, RingChainsLive, RingRunsAreNumbered};

use ob_serial::Vault;
use ob_store::Store;

/// Each call of a ring vault, a fetch or an end, whatever it answers, is an act of its store's
/// life, by what the call says of itself.
pub fn calls_are_acts<S: Store>()
    ensures { RingCallsAreActs (λ store. S.disk store) }
{}

/// How many seals an answered call takes follows from what is public: one for each cell of a
/// record; one for each slot of the buckets that an end lifts, and for each cell of a checkpoint.
pub fn seals_are_public()
    ensures { SealsArePublic }
{}

/// An opening and the calls of a ring vault over it are a run in a life of the store: so no two
/// seals of a store's life have the same generation and number, over all openings, calls and
/// crashes. And behind the calls that were answered the next seal has the number that is hidden:
/// the sealer has gone on by just what the hidden count of seals has.
pub fn ring_chains_are_runs<V: Vault, S: Store>()
    ensures live { RingChainsLive (kind_of V.Vault) (λ store. S.disk store) }
    ensures numbered { RingRunsAreNumbered (kind_of V.Vault) (λ store. S.disk store) }
{}
