//! Reads of a bucket's indexes as jobs.

ghost use Rattle.std.specs.Prelude.{◌≡◌, ℕ, ◌<◌, ◌≤◌, ◌+◌, ◌++◌, ◌∷◌, [], map, length, slice_index, cond, IfSome, Some, None};
ghost use Rattle.std.specs.List.{count_by, range_with_len};
ghost use Rattle.ob_base.specs.Tree.{buckets, width};
ghost use Rattle.ob_tables.specs.Version.{Version, HasSlots, key_at, used_at};
ghost use Rattle.ob_tables.specs.Buckets.{version_at};
ghost use Rattle.ob_ring.specs.FlatTable.{lift, mark_index, visit, index_in, is_at};
ghost use Rattle.ob_ring.specs.Order.{order_of};
ghost use Rattle.ob_ring.specs.Arrays.{AreWhole};
ghost use Rattle.ob_ring.specs.Picked.{job_of, with_jobs, Grows, Plans, lift_picked, visit_picked, index_of, key_shown, shown_of, spot_at, shown_index, show_picked, IsEmptied};

use crate::found::Found;
use crate::order::lift_order;
use ob_base::{Job, Jobs, Key, Params, slot_cell};
use ob_tables::{Meta, Metas};

// The job that reads an index of a bucket.
fn job_of(p: &Params, metas: &Metas, bucket: u32, index: u8, key: Option<Key>) -> Job
    requires whole { AreWhole p.now metas.now }
    requires bucket { bucket < buckets p.now }
    requires index { index < width p.now }
    ensures { result
        ≡ job_of p.now metas.now.versions (record { bucket = bucket; index = index; key = key }) }
{
    let meta = metas.get(bucket);
    let slot = meta.slot(index);
    Job {
        cell: slot_cell(p, meta.home(), bucket, slot),
        generation: meta.generation(),
        number: meta.base().wrapping_add(slot as u64),
        key,
        result: None,
    }
}

// Plans the reads of these indexes of a bucket, each with the key that lies there.
fn read_all(p: &Params, metas: &Metas, bucket: u32, indexes: &[u8], jobs: &mut Jobs)
    requires whole { AreWhole p.now metas.now }
    requires bucket { bucket < buckets p.now }
    requires indexes { (i : ℕ) → i < length indexes.now → slice_index indexes.now i < width p.now }
    requires room { length jobs.old.jobs + length indexes.now ≤ jobs.old.room }
    ensures { jobs.new
        ≡ with_jobs jobs.old (map
        (λ j. job_of p.now metas.now.versions (index_of metas.now.versions bucket j)) indexes.now) }
{
    for j in indexes {
        let key = key_of(metas.get(bucket), *j);
        jobs.push(job_of(p, metas, bucket, *j, key));
    }
}

// The key that lies at an index.
fn key_of(meta: &Meta, j: u8) -> Option<Key>
    ensures { result ≡ key_at meta.now j }
{
    match meta.keys().get(j as usize) {
        Some(key) => *key,
        None => None,
    }
}

// No real index holds a key any more.
fn clear_keys(meta: &mut Meta)
    ensures { IsEmptied meta.old meta.new }
{
    for j in 0..meta.keys().len() {
        meta.clear_key(j as u8);
    }
}

// Reads a bucket's version out: what lies there goes to the stash.
pub(crate) fn lift(p: &Params, metas: &mut Metas, bucket: u32, jobs: &mut Jobs)
    requires whole { AreWhole p.now metas.old }
    requires bucket { bucket < buckets p.now }
    requires room { length jobs.old.jobs + p.now.real ≤ jobs.old.room }
    ensures grows { Grows p.now.real jobs.old jobs.new }
    ensures plans { Plans p.now metas.old metas.new jobs.old jobs.new
        (λ t. lift_picked p.now t bucket) (λ t. lift t bucket) }
{
    let mut order = [0; 16];
    let meta = metas.get(bucket);
    let n = lift_order(meta.keys(), meta.used(), &mut order);
    read_all(p, metas, bucket, &order[..n], jobs);
    clear_keys(metas.get_mut(bucket));
    metas.lift(bucket);
}

// How many indexes were shown.
fn reads(meta: &Meta) -> usize
    ensures count { result ≡ count_by (used_at meta.now) (range_with_len 0 (length meta.now.used)) }
    ensures few { result ≤ length meta.now.used }
{
    let used = meta.used();
    let mut many: usize = 0;
    for j in 0..used.len() {
        if used[j] {
            many += 1;
        }
    }
    many
}

// The index at which the key lies, where that is in this bucket.
fn index_in(found: Option<Found>, bucket: u32) -> Option<u8>
    ensures { result ≡ index_in bucket (spot_at found) }
{
    match found {
        Some(at) if at.bucket == bucket => Some(at.index),
        _ => None,
    }
}

// The index that a bucket shows: the key's own, else the lowest dummy that wasn't shown.
fn index_shown(meta: &Meta, own: Option<u8>) -> u8
    ensures { result ≡ shown_of meta.now own }
{
    match own {
        Some(j) => j,
        None => meta.next_dummy().unwrap_or(0),
    }
}

// The key that is asked for, where it lies in the bucket.
fn key_shown(own: Option<u8>, ask: Option<Key>) -> Option<Key>
    ensures { result ≡ key_shown ask own }
{
    match own {
        Some(_) => ask,
        None => None,
    }
}

// Plans one read of a bucket, and marks its index.
fn show(
    p: &Params,
    metas: &mut Metas,
    bucket: u32,
    own: Option<u8>,
    ask: Option<Key>,
    jobs: &mut Jobs,
)
    requires whole { AreWhole p.now metas.old }
    requires bucket { bucket < buckets p.now }
    requires own { IfSome own (λ j. j < p.now.real) }
    requires room { length jobs.old.jobs < jobs.old.room }
    ensures grows { Grows 1 jobs.old jobs.new }
    ensures plans { Plans p.now metas.old metas.new jobs.old jobs.new
        (λ t. show_picked p.now t ask own bucket)
        (λ t. mark_index t bucket (shown_index p.now t own bucket)) }
{
    let index = index_shown(metas.get(bucket), own);
    jobs.push(job_of(p, metas, bucket, index, key_shown(own, ask)));
    metas.get_mut(bucket).mark_used(index);
}

// A place's path goes through a bucket: it shows one index, unless it is lifted, and the last read
// of its version lifts it.
pub(crate) fn visit(
    p: &Params,
    metas: &mut Metas,
    bucket: u32,
    found: Option<Found>,
    ask: Option<Key>,
    jobs: &mut Jobs,
)
    requires whole { AreWhole p.now metas.old }
    requires bucket { bucket < buckets p.now }
    requires found { IfSome found (λ s. s.index < p.now.real) }
    requires room { length jobs.old.jobs + (p.now.real + 1) ≤ jobs.old.room }
    ensures grows { Grows (p.now.real + 1) jobs.old jobs.new }
    ensures plans { Plans p.now metas.old metas.new jobs.old jobs.new
        (λ t. visit_picked p.now t ask (spot_at found) bucket)
        (λ t. visit p.now t (spot_at found) bucket) }
{
    if metas.is_lifted(bucket) {
        return;
    }
    let before = reads(metas.get(bucket));
    show(p, metas, bucket, index_in(found, bucket), ask, jobs);
    if before + 1 == p.dummies as usize {
        lift(p, metas, bucket, jobs);
    }
}
