//! Laws of a ring store, in the words of its kind of store.

ghost use Rattle.ob_serial.specs.VaultKinds.{kind_of};
ghost use Rattle.ob_vault.specs.RingLaws.{RingBeginsSound, RingCallsBegin, RingCallsDo, RingFormats, RingLeavesStanding, RingOpens, RingOpensAt, RingOpensStanding, RingRefuses, RingTapesStay, RingWordsAreOfTape, RowsAreCut};

use ob_serial::Vault;
use ob_store::Store;

/// Where the row of the schedule is cut of which a refused call shows a part.
pub fn rows_are_cut()
    ensures { RowsAreCut }
{}

/// Each call of a vault over a ring store, whatever it answers, in the words of its kind of store;
/// and its words are those that its tape gave, which stays in its generation.
pub fn calls_do<V: Vault, S: Store>()
    ensures calls { RingCallsDo (kind_of V.Vault) (λ store. S.disk store) }
    ensures words { RingWordsAreOfTape (kind_of V.Vault) (λ store. S.disk store) }
    ensures tapes { RingTapesStay (kind_of V.Vault) (λ store. S.disk store) }
{}

/// The state from which the calls of a vault over a store that was just opened go on.
pub fn calls_begin<V: Vault, S: Store>()
    ensures at { RingCallsBegin (kind_of V.Vault) (λ store. S.disk store) }
    ensures sound { RingBeginsSound (λ store. S.disk store) }
{}

/// What an opening found, showed and leaves.
pub fn openings_are_told<S: Store, L>()
    ensures opens { RingOpens L (λ store. S.disk store) }
    ensures stands { RingOpensAt L (λ store. S.disk store) }
    ensures since { RingOpensStanding (λ store. S.disk store) }
    ensures leaves { RingLeavesStanding (λ store. S.disk store) }
{}

/// What an opening that was refused showed and leaves.
pub fn refusals_are_told<S: Store, T>()
    ensures { RingRefuses T (λ store. S.disk store) }
{}

/// What a format showed and made.
pub fn formats_are_told<S: Store>()
    ensures { RingFormats (λ store. S.disk store) }
{}
