//! What an image of a ring vault's store stands for, and what an end of an epoch may write. Laws of
//! definitions; nothing here runs.

ghost use Rattle.ob_stand.specs.Appends.{AppendStands, AppendsLeave};
ghost use Rattle.ob_stand.specs.EndImages.{EndsExist};
ghost use Rattle.ob_stand.specs.Ends.{EndFillsSpare, EndIsHeld, EndSets, EndSpares, EndWritesSpare, EndsLeave};
ghost use Rattle.ob_stand.specs.Fills.{EndWritesStay};
ghost use Rattle.ob_stand.specs.Fresh.{FormatsExist, FormattedStands};
ghost use Rattle.ob_stand.specs.Once.{RingStandsOnce, StandsKnown, StandsOnce};
ghost use Rattle.ob_stand.specs.Opens.{OpenBegins, OpensLeave};
ghost use Rattle.ob_stand.specs.Reads.{RunsEnd, SealedAreOpened, StandsValued};
ghost use Rattle.ob_stand.specs.Samples.{ImagesSampled};
ghost use Rattle.ob_stand.specs.Sound.{StoresAreSound};
ghost use Rattle.ob_stand.specs.Spare.{AgreeOffSpare, FrameWith, StandsFrame};
ghost use Rattle.ob_stand.specs.Vaults.{RingStands, WritesAgree};

use ob_store::Store;

/// No spare cell is read of an image that stands for an epoch.
pub fn agree_off_spare()
    ensures { AgreeOffSpare }
{}

/// Images that are the same where they are read stand alike.
pub fn stands_frame()
    ensures { StandsFrame }
{}

/// An image with open records of its own that is the same in all else that is read holds the rest
/// as the other does.
pub fn frame_with()
    ensures { FrameWith }
{}

/// An image stands for at most one epoch, generation, map, content and list of open records.
pub fn stands_once()
    ensures { StandsOnce }
{}

/// A vault's image has one generation, one epoch and one map.
pub fn ring_stands_once()
    ensures { RingStandsOnce }
{}

/// Each sealed cell that is read has a seal of the image's generation or of an earlier one.
pub fn stands_known()
    ensures { StandsKnown }
{}

/// A sealed cell that is opened holds its plain bytes.
pub fn sealed_are_opened()
    ensures { SealedAreOpened }
{}

/// The slots that an image holds have the map's values.
pub fn stands_valued()
    ensures { StandsValued }
{}

/// From an image that stands, a run of the planner's calls that read the image's slots leads to an
/// end.
pub fn runs_end()
    ensures { RunsEnd }
{}

/// A store right after its format stands for epoch 0, with no key and no record.
pub fn formatted_stands()
    ensures { FormattedStands }
{}

/// There is an image as a format leaves it, for all parameters and slots.
pub fn formats_exist()
    ensures { FormatsExist }
{}

/// The buckets in their other homes, the next checkpoint and the gates of the epoch after it lie in
/// spare cells.
pub fn end_writes_spare()
    ensures { EndWritesSpare }
{}

/// A bucket that an end fills anew lies in spare cells.
pub fn end_fills_spare()
    ensures { EndFillsSpare }
{}

/// What an end has written stays while it writes the rest.
pub fn end_writes_stay()
    ensures { EndWritesStay }
{}

/// Writes into spare cells leave what an image stood for.
pub fn end_spares()
    ensures { EndSpares }
{}

/// With the buckets that were filled anew, the checkpoint and the closed gates in their cells an
/// image holds all but the registers of the next epoch.
pub fn end_is_held()
    ensures { EndIsHeld }
{}

/// Such an image stands for the old epoch or for the new one, as the epoch's register says.
pub fn end_sets()
    ensures { EndSets }
{}

/// There is an image with all that an end writes, which differs in spare cells alone.
pub fn ends_exist()
    ensures { EndsExist }
{}

/// A crash at any moment of an end leaves the old epoch, or the new one once its register is being
/// set; a refusal before that leaves the old one.
pub fn ends_leave<S: Store>()
    ensures { EndsLeave (λ store. S.disk store) }
{}

/// Where images differ in the cells of the next batch alone, the open records decide.
pub fn append_stands()
    ensures { AppendStands }
{}

/// A crash at any moment of an append leaves what stood, or that with the record.
pub fn appends_leave<S: Store>()
    ensures { AppendsLeave (λ store. S.disk store) }
{}

/// Where images differ in the generation's register alone, that decides.
pub fn open_begins()
    ensures { OpenBegins }
{}

/// A crash at any moment of the begin of a generation leaves an image of before, or what was read,
/// in the old generation or the new one.
pub fn opens_leave<S: Store>()
    ensures { OpensLeave (λ store. S.disk store) }
{}

/// After a run whose images stand for one of two neighbours, and after a sync, a store is sound.
pub fn sound_after<S: Store>()
    ensures { StoresAreSound (λ store. S.disk store) }
{}

/// An image that stands for what a vault holds stands so by the law of vaults.
pub fn ring_stands()
    ensures { RingStands }
{}

/// The writes of an epoch make of the values what they make of a vault's map.
pub fn writes_agree()
    ensures { WritesAgree }
{}

/// The spare cells of a small store, and an end that changes nothing, computed from the
/// definitions.
pub fn sampled()
    ensures { ImagesSampled }
{}
