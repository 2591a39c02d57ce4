//! A path shown, and a key taken out of it.

ghost use Rattle.std.specs.Prelude.{◌≡◌, ◌<◌, ◌≤◌, ◌+◌, ◌*◌, ◌^◌, length, IfSome};
ghost use Rattle.ob_base.specs.Tree.{path};
ghost use Rattle.ob_ring.specs.FlatTable.{visits};
ghost use Rattle.ob_ring.specs.Arrays.{AreWhole};
ghost use Rattle.ob_ring.specs.Picked.{Grows, Plans, visits_picked, spot_at};
ghost use Rattle.ob_ring.specs.Paths.{IsFound, IsTakenOut};

use crate::found::Found;
use crate::reads::visit;
use ob_base::{Jobs, Key, Params, bucket_of};
use ob_tables::Metas;

// Where a key lies on the path of its leaf: none exactly where no bucket of the path holds it.
pub(crate) fn find_key(p: &Params, metas: &Metas, key: Key, leaf: u32) -> Option<Found>
    requires whole { AreWhole p.now metas.now }
    requires leaf { leaf < 2 ^ p.now.levels }
    ensures { IsFound p.now metas.now key leaf result }
{
    for level in 0..p.levels + 1 {
        let bucket = bucket_of(p, level, leaf);
        if let Some(index) = metas.get(bucket).live_index(key) {
            return Some(Found { bucket, index });
        }
    }
    None
}

/// Takes a key out of the bucket of its leaf's path in which it lies, and says where that was.
pub(crate) fn take_out(p: &Params, metas: &mut Metas, key: Key, leaf: u32) -> Option<Found>
    requires whole { AreWhole p.now metas.old }
    requires leaf { leaf < 2 ^ p.now.levels }
    ensures found { IsFound p.now metas.old key leaf result }
    ensures taken { IsTakenOut p.now metas.old metas.new (spot_at result) }
{
    let found = find_key(p, metas, key, leaf);
    if let Some(at) = found {
        metas.get_mut(at.bucket).clear_key(at.index);
    }
    found
}

/// A place shows the path of a leaf.
pub(crate) fn visit_path(
    p: &Params,
    metas: &mut Metas,
    leaf: u32,
    found: Option<Found>,
    ask: Option<Key>,
    jobs: &mut Jobs,
)
    requires whole { AreWhole p.now metas.old }
    requires leaf { leaf < 2 ^ p.now.levels }
    requires found { IfSome found (λ s. s.index < p.now.real) }
    requires room { length jobs.old.jobs + (p.now.levels + 1) * (p.now.real + 1) ≤ jobs.old.room }
    ensures grows { Grows ((p.now.levels + 1) * (p.now.real + 1)) jobs.old jobs.new }
    ensures plans { Plans p.now metas.old metas.new jobs.old jobs.new
        (λ t. visits_picked p.now t ask (spot_at found) (path p.now leaf))
        (λ t. visits p.now t (spot_at found) (path p.now leaf)) }
{
    for level in 0..p.levels + 1 {
        visit(p, metas, bucket_of(p, level, leaf), found, ask, jobs);
    }
}
