//! Buckets that were filled anew, sealed side by side.

ghost use Rattle.std.specs.Prelude.{◌≡◌, ◌<◌, ◌≤◌, ◌+◌, ◌-◌, ◌*◌, ◌/◌, ◌%◌, ◌^◌, ℕ, [], length, slice_index_or};
ghost use Rattle.ob_base.specs.Tree.{buckets, width};
ghost use Rattle.ob_ring.specs.Ring.{AreListedWithin};
ghost use Rattle.ob_end.specs.EndWrites.{listed_at};
ghost use Rattle.ob_end.specs.Sealing.{IsBucketSealed, IsGroupReady};

use ob_base::{Params, slot_cell};
use ob_cells::{Row, threads_for};
use ob_ring::Ring;
use ob_seal::Sealer;
use std::thread;
use std::thread::Threads;

// Seals the slots of a bucket for where it lies, under these numbers.
fn seal_bucket(sealer: &Sealer, p: &Params, ring: &Ring, bucket: u32, number: u64, slots: &mut Row)
    requires params { p.now ≡ ring.now.p }
    requires bucket { bucket < buckets ring.now.p }
    requires room { number + width ring.now.p ≤ 2 ^ 62 }
    ensures { IsBucketSealed sealer.now.keys sealer.now.generation number ring.now bucket
        slots.new }
{
    let home = ring.tables().metas.get(bucket).home();
    let first = slot_cell(p, home, bucket, 0);
    let mut seals = sealer.run_from(number);
    for j in 0..(p.real + p.dummies) as usize {
        let plain = ring.plain_of(bucket, j as u8);
        slots[j] = seals.seal(first + j as u64, &plain);
    }
}

// Seals the listed bucket of this number.
fn seal_listed(sealer: &Sealer, p: &Params, ring: &Ring, i: usize, number: u64, slots: &mut Row)
    requires params { p.now ≡ ring.now.p }
    requires within { AreListedWithin ring.now }
    requires low { i < length ring.now.metas.order }
    requires room { number + width ring.now.p ≤ 2 ^ 62 }
    ensures { IsBucketSealed sealer.now.keys sealer.now.generation number ring.now
        (listed_at ring.now i) slots.new }
{
    let bucket = ring.to_refill()[i];
    seal_bucket(sealer, p, ring, bucket, number, slots);
}

// Seals the listed buckets from one on, one for each row.
fn seal_rows<R: Threads + Sync>(
    rt: &R,
    sealer: &Sealer,
    p: &Params,
    ring: &Ring,
    rows: &mut [Row],
    threads: usize,
    first: usize,
)
    requires threads { 1 ≤ threads }
    requires params { p.now ≡ ring.now.p }
    requires within { AreListedWithin ring.now }
    requires low { first + length rows.old ≤ length ring.now.metas.order }
    requires fits { first + length rows.old < 2 ^ 64 }
    requires room { sealer.now.next + length rows.old * width ring.now.p ≤ 2 ^ 62 }
    ensures many { length rows.new ≡ length rows.old }
    ensures each { (k : ℕ) → k < length rows.new → IsBucketSealed sealer.now.keys
        sealer.now.generation (sealer.now.next + k * width ring.now.p) ring.now
        (listed_at ring.now (first + k)) (slice_index_or rows.new k []) }
{
    let (_, number) = sealer.next();
    let wide = (p.real + p.dummies) as u64;
    let threads = threads_for(threads, rows.len() * wide as usize);
    thread::for_each_mut(
        rt,
        rows,
        threads,
        &move |k, slots: &mut Row|
            requires { (p.now ≡ ring.now.p) × AreListedWithin ring.now
                × (first + k < length ring.now.metas.order) × (first + k < 2 ^ 64)
                × (wide ≡ width ring.now.p) × (number + k * wide + wide ≤ 2 ^ 62) }
            ensures { IsBucketSealed sealer.entry.now.keys sealer.entry.now.generation
                (number + k * width ring.entry.now.p) ring.entry.now
                (listed_at ring.entry.now (first + k)) slots.new }
        { seal_listed(sealer, p, ring, first + k, number + k as u64 * wide, slots) },
    );
}

// Seals so many rows.
fn seal_few<R: Threads + Sync>(
    rt: &R,
    sealer: &Sealer,
    p: &Params,
    ring: &Ring,
    rows: &mut [Row],
    few: usize,
    threads: usize,
    first: usize,
)
    requires threads { 1 ≤ threads }
    requires params { p.now ≡ ring.now.p }
    requires within { AreListedWithin ring.now }
    requires few { few ≤ length rows.old }
    requires low { first + few ≤ length ring.now.metas.order }
    requires fits { first + few < 2 ^ 64 }
    requires room { sealer.now.next + few * width ring.now.p ≤ 2 ^ 62 }
    ensures many { length rows.new ≡ length rows.old }
    ensures each { (k : ℕ) → k < few → IsBucketSealed sealer.now.keys
        sealer.now.generation (sealer.now.next + k * width ring.now.p) ring.now
        (listed_at ring.now (first + k)) (slice_index_or rows.new k []) }
{
    seal_rows(rt, sealer, p, ring, &mut rows[..few], threads, first);
}

// Seals the next 32 buckets where the first of them is the next one.
pub(crate) fn seal_in_time<R: Threads + Sync>(
    rt: &R,
    sealer: &Sealer,
    p: &Params,
    ring: &Ring,
    rows: &mut [Row],
    threads: usize,
    i: usize,
)
    requires threads { 1 ≤ threads }
    requires params { p.now ≡ ring.now.p }
    requires within { AreListedWithin ring.now }
    requires whole { length rows.old ≡ 32 }
    requires low { i < length ring.now.metas.order }
    requires room { sealer.now.next + (length ring.now.metas.order - i) * width ring.now.p
        ≤ 2 ^ 62 }
    requires ready { (first : ℕ) → sealer.now.next ≡ first + i * width ring.now.p
        → IsGroupReady sealer.now.keys sealer.now.generation first ring.now i rows.old }
    ensures many { length rows.new ≡ 32 }
    ensures ready { (first : ℕ) → sealer.now.next ≡ first + i * width ring.now.p → (k : ℕ)
        → i ≤ k → k < length ring.now.metas.order → k / 32 ≡ i / 32
        → IsBucketSealed sealer.now.keys sealer.now.generation (first + k * width ring.now.p)
        ring.now (listed_at ring.now k) (slice_index_or rows.new (k % 32) []) }
{
    if i.is_multiple_of(32) {
        let few = (ring.to_refill().len() - i).min(32);
        seal_few(rt, sealer, p, ring, rows, few, threads, i);
    }
}
