//! What the calls on a plain store say of themselves, in the words of its life.

ghost use Rattle.std.specs.Prelude.{◌≡◌, OnOk, OnErr, IfOk};
ghost use Rattle.ob_store.specs.Calls.{Serves, IsStoreFault};
ghost use Rattle.ob_flat.specs.Heads.{IsHeadRead};
ghost use Rattle.ob_flat.specs.Openings.{IsOpeningOf};
ghost use Rattle.ob_pads.specs.Lives.{IsFormattedStore, Opens, LeavesUnopened};
ghost use Rattle.ob_serial.specs.VaultKinds.{kind_of};
ghost use Rattle.ob_flat.specs.Acts.{CallsAreActs, FlatChainsLive};

use crate::formatting::format;
use crate::heads::head;
use crate::opening::Opening;
use crate::preparing::prepare;
use ob_base::{Fault, Params};
use ob_seal::Keys;
use ob_serial::Vault;
use ob_store::{Store, Watch};
use std::alloc::Global;

/// Formats a store: a life of it begins.
///
/// # Errors
/// As `format`.
pub fn begin_life<S: Store, W: Watch>(
    store: &mut S,
    keys: &Keys,
    params: &Params,
    watch: &mut W,
) -> Result<(), Fault>
    requires none_out { (S.disk store.old).out ≡ 0 }
    ensures serves { Serves IsStoreFault (S.disk store.old) (S.disk store.new) result }
    ensures begins { (S.disk store.old).tells → (S.disk store.old).leaves
        → OnOk result (IsFormattedStore (λ store. S.disk store) keys.now store.new) }
{
    format(store, keys, params, watch)
}

/// Reads the head of a store: an act that opens nothing.
///
/// # Errors
/// As `head`.
pub fn head_in_life<S: Store, W: Watch>(
    store: &mut S,
    keys: &Keys,
    watch: &mut W,
) -> Result<Params, Fault>
    ensures serves { Serves IsStoreFault (S.disk store.old) (S.disk store.new) result }
    ensures value { (S.disk store.old).tells
        → IsHeadRead keys.now ((S.disk store.old).cells 0) result }
    ensures unopened { (S.disk store.new).tells
        → LeavesUnopened keys.now (S.disk store.old) (S.disk store.new) }
{
    head(store, keys, watch)
}

/// Opens a store: an act that gives a sealer, or that opens nothing.
///
/// # Errors
/// As `prepare`.
pub fn open_in_life<S: Store, W: Watch>(
    alloc: Global,
    store: &mut S,
    keys: &Keys,
    params: &Params,
    watch: &mut W,
) -> Result<Opening, Fault>
    requires none_out { (S.disk store.old).out ≡ 0 }
    ensures serves { Serves IsStoreFault (S.disk store.old) (S.disk store.new) result }
    ensures value { (S.disk store.old).tells
        → IsOpeningOf keys.now params.now.keys (S.disk store.old).cells result }
    ensures opens { (S.disk store.new).tells
        → IfOk result (λ opening. Opens keys.now (S.disk store.old) (S.disk store.new)
        opening.sealer) }
    ensures unopened { (S.disk store.new).tells
        → OnErr result (LeavesUnopened keys.now (S.disk store.old) (S.disk store.new)) }
{
    prepare(alloc, store, keys, params, watch)
}

/// Each call of a plain vault, a fetch or an end, whatever it answers, is an act of its store's
/// life, by what the call says of itself.
pub fn calls_are_acts<S: Store>()
    ensures { CallsAreActs (λ store. S.disk store) }
{}

/// An opening and the calls of a plain vault over it are a run in a life of the store.
pub fn flat_chains_are_runs<V: Vault, S: Store>()
    ensures { FlatChainsLive (kind_of V.Vault) (λ store. S.disk store) }
{}
