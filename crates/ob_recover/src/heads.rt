//! The head of a ring store.

ghost use Rattle.std.specs.Prelude.{◌≡◌, [], ◌∷◌, IfErr};
ghost use Rattle.ob_store.specs.declared.watch.Note.TheVariants as note;
ghost use Rattle.ob_store.specs.Images.{Same, Passes};
ghost use Rattle.ob_store.specs.Calls.{Serves, IsStoreFault, Keeps};
ghost use Rattle.ob_twin.specs.Got.{DoesReads};
ghost use Rattle.ob_start.specs.Heads.{IsHeadRead, IsHeadFault};

use ob_base::{Fault, Params};
use ob_seal::Keys;
use ob_start::read_head;
use ob_store::{Store, Watch};

/// The version of a ring store.
pub const VERSION: u32 = 1;

/// Reads the head of a ring store: its parameters. Cell 0 is read, and nothing written.
///
/// # Errors
/// The store failed, and its count of faults rose; or, in this order, it is no store exactly where
/// cell 0 doesn't begin with the mark of version 1; the head is damaged where its tag isn't that of
/// its bytes; or where a parameter is out of its range, and then the first one is told.
pub fn head<S: Store, W: Watch>(store: &mut S, keys: &Keys, watch: &mut W) -> Result<Params, Fault>
    ensures serves { Serves IsStoreFault (S.disk store.old) (S.disk store.new) result }
    ensures faults { IfErr result IsHeadFault }
    ensures value { (S.disk store.old).tells
        → IsHeadRead keys.now 1 ((S.disk store.old).cells 0) result }
    ensures keeps { Keeps (S.disk store.old) (S.disk store.new) }
    // A crash at any moment leaves what it might have left before.
    ensures passes { Passes Same (S.disk store.old) (S.disk store.new) }
    ensures does { DoesReads (note.Read 0 ∷ []) (S.disk store.old).seen (S.disk store.new).seen
        (W.trace watch.old) (W.trace watch.new) result }
{
    read_head(store, keys, VERSION, watch)
}
