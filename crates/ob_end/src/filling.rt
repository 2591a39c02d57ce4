//! Buckets that were filled anew, written where they then lie.

ghost use Rattle.std.specs.Prelude.{◌≡◌, ◌<◌, ◌≤◌, ◌+◌, ◌-◌, ◌*◌, ◌/◌, ◌%◌, ◌^◌, ℕ, [], length, slice_index_or, OnOk};
ghost use Rattle.ob_base.specs.Layout.{slot_cell};
ghost use Rattle.ob_base.specs.Tree.{buckets, width};
ghost use Rattle.ob_cells.specs.Writes.{Seals, WritesRun};
ghost use Rattle.ob_pads.specs.Seals.{CellsAreSealed};
ghost use Rattle.ob_ring.specs.Ring.{AreListedWithin};
ghost use Rattle.ob_recover.specs.Ends.{refill_notes};
ghost use Rattle.ob_stand.specs.Ends.{RingEnd};
ghost use Rattle.ob_stand.specs.Stands.{RingStanding};
ghost use Rattle.ob_store.specs.Calls.{IsFailed, Serves};
ghost use Rattle.ob_store.specs.Images.{Passes};
ghost use Rattle.ob_store.specs.Runs.{write_notes};
ghost use Rattle.ob_store.specs.Told.{Does};
ghost use Rattle.ob_end.specs.Sealing.{IsBucketSealed, IsGroupReady};
ghost use Rattle.ob_end.specs.EndWrites.{AreSealedFrom, FillsBuckets, IsEndOfRing, SameFirst, bucket_seals, listed_at, slot_plain, version_of};

use crate::sealing::seal_in_time;
use ob_base::{Failed, Params, slot_cell};
use ob_cells::{Bench, Row, write_ready};
use ob_ring::Ring;
use ob_seal::Sealer;
use ob_store::{Store, Watch};
use std::thread::Threads;

// Writes the slots of a bucket where it lies, under the next seals.
fn write_bucket<S: Store, W: Watch>(
    store: &mut S,
    sealer: &mut Sealer,
    p: &Params,
    ring: &Ring,
    bucket: u32,
    slots: &Row,
    watch: &mut W,
) -> Result<(), Failed>
    requires none_out { (S.disk store.old).out ≡ 0 }
    requires params { p.now ≡ ring.now.p }
    requires bucket { bucket < buckets ring.now.p }
    requires room { sealer.old.next + width ring.now.p ≤ 2 ^ 62 }
    requires sealed { IsBucketSealed sealer.old.keys sealer.old.generation sealer.old.next ring.now
        bucket slots.now }
    ensures serves { Serves IsFailed (S.disk store.old) (S.disk store.new) result }
    ensures run { WritesRun (slot_cell ring.now.p (version_of ring.now bucket).home bucket 0)
        (width ring.now.p) (λ i. slot_plain ring.now bucket (i % 2 ^ 8)) sealer.old sealer.new
        (S.disk store.old) (S.disk store.new) result }
    ensures does { Does (write_notes (slot_cell ring.now.p (version_of ring.now bucket).home bucket
        0) (width ring.now.p)) (S.disk store.old).seen (S.disk store.new).seen (W.trace watch.old)
        (W.trace watch.new) result }
{
    let home = ring.tables().metas.get(bucket).home();
    let first = slot_cell(p, home, bucket, 0);
    let many = (p.real + p.dummies) as usize;
    write_ready(store, sealer, first, &slots[..many], watch)
}

// Seals the next 32 buckets where the first of them is the next one.
fn make_ready<R: Threads + Sync>(
    rt: &R,
    sealer: &Sealer,
    p: &Params,
    ring: &Ring,
    bench: &mut Bench,
    i: usize,
)
    requires params { p.now ≡ ring.now.p }
    requires within { AreListedWithin ring.now }
    requires low { i < length ring.now.metas.order }
    requires room { sealer.now.next + (length ring.now.metas.order - i) * width ring.now.p
        ≤ 2 ^ 62 }
    requires ready { (first : ℕ) → sealer.now.next ≡ first + i * width ring.now.p
        → IsGroupReady sealer.now.keys sealer.now.generation first ring.now i
        bench.old.rows.items }
    ensures { (first : ℕ) → sealer.now.next ≡ first + i * width ring.now.p → (k : ℕ)
        → i ≤ k → k < length ring.now.metas.order → k / 32 ≡ i / 32
        → IsBucketSealed sealer.now.keys sealer.now.generation (first + k * width ring.now.p)
        ring.now (listed_at ring.now k) (slice_index_or bench.new.rows.items (k % 32) []) }
{
    let threads = bench.threads;
    seal_in_time(rt, sealer, p, ring, bench.rows.as_mut_slice(), threads, i);
}

/// Writes the listed buckets in their order.
pub fn write_buckets<R: Threads + Sync, S: Store, W: Watch>(
    rt: &R,
    store: &mut S,
    sealer: &mut Sealer,
    p: &Params,
    ring: &Ring,
    bench: &mut Bench,
    watch: &mut W,
) -> Result<(), Failed>
    requires none_out { (S.disk store.old).out ≡ 0 }
    requires params { p.now ≡ ring.now.p }
    requires within { AreListedWithin ring.now }
    requires room { sealer.old.next + bucket_seals ring.now ≤ 2 ^ 62 }
    requires sealed { AreSealedFrom ring.now sealer.old.generation sealer.old.next }
    ensures serves { Serves IsFailed (S.disk store.old) (S.disk store.new) result }
    ensures seals { Seals (bucket_seals ring.now) sealer.old sealer.new result }
    ensures fills { (s : RingStanding) (end : RingEnd)
        → IsEndOfRing s end sealer.old.generation ring.now
        → FillsBuckets sealer.old.keys ring.now.p s end (S.disk store.old) (S.disk store.new)
        result }
    ensures first { (S.disk store.old).tells
        → SameFirst (S.disk store.new).cells (S.disk store.old).cells }
    ensures moments { Passes SameFirst (S.disk store.old) (S.disk store.new) }
    // Each cell that has changed is sealed with a number of its own, taken meanwhile.
    ensures sealed { (S.disk store.old).tells → OnOk result (CellsAreSealed sealer.old sealer.new
        (S.disk store.old).cells (S.disk store.new).cells) }
    ensures does { Does (refill_notes ring.now.p ring.now.metas.versions ring.now.metas.order)
        (S.disk store.old).seen (S.disk store.new).seen (W.trace watch.old) (W.trace watch.new)
        result }
{
    for i in 0..ring.to_refill().len() {
        let bucket = ring.to_refill()[i];
        make_ready(rt, sealer, p, ring, bench, i);
        write_bucket(store, sealer, p, ring, bucket, &bench.rows[i % 32], watch)?;
    }
    Ok(())
}
