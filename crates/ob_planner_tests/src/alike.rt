//! Two planners of one table and other words of buckets: the same picks, over epochs at random.

ghost use Rattle.std.specs.Prelude.{◌≡◌, ℕ, ◌<◌, length, slice_index_or, true, IfSome, None};
ghost use Rattle.ob_base.specs.Planned.{job_at};
ghost use Rattle.ob_planner_tests.specs.Planners.{IsSmall, IsPlannerReady};
ghost use Rattle.ob_ring.specs.Ring.{IsListed, AreListedWithin};
ghost use Rattle.ob_ring.specs.Writing.{write_at};

use ob_base::{Jobs, Key, Params, StashFull, Value, Write, buckets, set_u32};
use ob_ring::{Index, Ring, Steps};
use std::alloc::Global;
use std::marker::Brand;
use std::process::Abort;
use std::sync::ledger::{Blank, Ledger};

// Words that follow from a seed other than 0 (a xorshift generator).
#[derive(Drop)]
struct Random {
    state: u64,
}

impl Random {
    fn word(&mut self) -> u64 {
        self.state ^= self.state >> 12;
        self.state ^= self.state << 25;
        self.state ^= self.state >> 27;
        self.state.wrapping_mul(0x2545_F491_4F6C_DD1D)
    }

    fn key(&mut self) -> Key
        ensures { result < 8 }
    {
        (self.word() % 8) as Key
    }

    // A key, or at each third time none.
    fn ask(&mut self) -> Option<Key>
        ensures { IfSome result (λ k. k < 8) }
    {
        let key = self.key();
        if self.word() % 3 == 0 {
            None
        } else {
            Some(key)
        }
    }

    // A put of a value of one byte, or at each fourth time a delete.
    fn write(&mut self) -> Write
        ensures { result.key < 8 }
    {
        let key = self.key();
        let value = if self.word() % 4 == 0 {
            None
        } else {
            Value::new(&[key as u8])
        };
        Write { key, value }
    }
}

// A planner, with room for a plan and a refill.
#[derive(Drop)]
struct Planner {
    ring: Ring,
    index: Index,
    jobs: Jobs,
}

// The index of a bucket that a cell has: a tree of seven buckets of five slots, in the cells from 39
// on, or from 74 on.
fn index_in(p: &Params, ring: &Ring, cell: u64) -> Option<(u32, u8)>
    requires { ring.now.p ≡ p.now }
{
    let place = cell.checked_sub(39)? % 35;
    let bucket = (place / 5) as u32;
    if bucket >= buckets(p) {
        return None;
    }
    let ranks = ring.tables().metas.get(bucket).ranks();
    for j in 0..ranks.len() {
        if ranks[j] as u64 == place % 5 {
            return Some((bucket, j as u8));
        }
    }
    None
}

// Whether both read the same indexes, of which the same keys are expected.
fn are_picked_alike(p: &Params, one: &Planner, other: &Planner) -> bool
    requires params { (one.now.ring.p ≡ p.now) × (other.now.ring.p ≡ p.now) }
{
    let (jobs, others) = (one.jobs.jobs(), other.jobs.jobs());
    if jobs.len() != others.len() {
        return false;
    }
    for i in 0..jobs.len() {
        let picked = index_in(p, &one.ring, jobs[i].cell);
        let is_same = picked == index_in(p, &other.ring, others[i].cell);
        if picked.is_none() || !is_same || jobs[i].key != others[i].key {
            return false;
        }
    }
    true
}

// Whether both show the same leaves, with as many reads each.
fn are_labels_alike(one: &Planner, other: &Planner) -> bool {
    let (places, others) = (one.jobs.places(), other.jobs.places());
    if places.len() != others.len() {
        return false;
    }
    for i in 0..places.len() {
        if (places[i].leaf, places[i].first) != (others[i].leaf, others[i].first) {
            return false;
        }
    }
    true
}

// How many of the jobs of both read different cells.
fn count_apart(one: &Planner, other: &Planner) -> usize {
    let (jobs, others) = (one.jobs.jobs(), other.jobs.jobs());
    (0..jobs.len().min(others.len()))
        .filter(|&i| jobs[i].cell != others[i].cell)
        .count()
}

// What a slot holds for a key: its number, and a value of one byte.
fn row_of(key: Key) -> [u8; 96] {
    let mut plain = [0; 96];
    set_u32(&mut plain, 0, key);
    plain[4] = 1;
    plain[5] = 7;
    plain
}

// Reads the row of the key that a job expects, if it expects one.
fn read(jobs: &mut Jobs, i: usize)
    ensures room { jobs.new.room ≡ jobs.old.room }
    ensures place_room { jobs.new.place_room ≡ jobs.old.place_room }
{
    if i < jobs.jobs().len() {
        if let Some(key) = jobs.jobs()[i].key {
            jobs.set_result(i, row_of(key));
        }
    }
}

// Whether the jobs expect keys of the tree.
fn are_low(jobs: &Jobs) -> bool
    ensures { result ≡ true → (i : ℕ) → IfSome (job_at jobs.now.jobs i).key (λ k. k < 8) }
{
    for i in 0..jobs.jobs().len() {
        if let Some(key) = jobs.jobs()[i].key {
            if key >= 8 {
                return false;
            }
        }
    }
    true
}

// Reads what is planned, and puts it into the stash.
fn settle(p: &Params, planner: &mut Planner) -> bool
    requires small { IsSmall p.now }
    requires ready { IsPlannerReady p.now planner.old.ring planner.old.index planner.old.jobs }
    ensures ready { IsPlannerReady p.now planner.new.ring planner.new.index planner.new.jobs }
    ensures listed { IsListed planner.old.ring → IsListed planner.new.ring }
{
    for i in 0..planner.jobs.jobs().len() {
        read(&mut planner.jobs, i);
    }
    are_low(&planner.jobs) && planner.ring.settle(&planner.jobs).is_ok()
}

// Plans a batch of two places.
fn fetch(p: &Params, planner: &mut Planner, asks: &[Option<Key>; 2], words: &[u64; 2])
    requires small { IsSmall p.now }
    requires ready { IsPlannerReady p.now planner.old.ring planner.old.index planner.old.jobs }
    requires asks { (i : ℕ) → IfSome (slice_index_or asks.now i None) (λ k. k < 8) }
    ensures ready { IsPlannerReady p.now planner.new.ring planner.new.index planner.new.jobs }
{
    planner
        .ring
        .plan_fetch(asks, words, (2, 0), &mut planner.jobs);
}

// Plans the final lifts.
fn lift(p: &Params, planner: &mut Planner)
    requires ready { IsPlannerReady p.now planner.old.ring planner.old.index planner.old.jobs }
    ensures ready { IsPlannerReady p.now planner.new.ring planner.new.index planner.new.jobs }
    ensures listed { IsListed planner.new.ring }
{
    planner.ring.plan_lifts(&mut planner.jobs);
}

// Fills the lifted buckets anew with the first of these words, where these are enough. The steps are
// counted in a ledger that nobody reads.
fn refill<C: Ledger>(
    p: &Params,
    planner: &mut Planner,
    words: &[u64; 64],
    blank: Blank,
) -> Option<Result<(), StashFull>>
    requires ready { IsPlannerReady p.now planner.old.ring planner.old.index planner.old.jobs }
    requires listed { IsListed planner.old.ring }
    requires name { blank.name ≡ C.name }
    requires parts { (blank.parts ≡ C.parts) × (0 < blank.parts) }
    ensures ready { IsPlannerReady p.now planner.new.ring planner.new.index planner.new.jobs }
    ensures within { IfSome result (λ _. AreListedWithin planner.new.ring) }
{
    let width = (p.real + p.dummies) as usize;
    let mut steps = Steps::<C>::none(blank);
    match planner.ring.to_refill().len().checked_mul(width) {
        Some(many) if many <= 64 => Some(
            planner
                .ring
                .refill_indexed(&mut planner.index, &words[..many], (2, 0), &mut steps),
        ),
        _ => None,
    }
}

// Reads the lifts, makes the writes, and fills the lifted buckets anew.
fn finish(
    p: &Params,
    planner: &mut Planner,
    writes: &[Write; 2],
    words: &[u64; 2],
    bucket_words: &[u64; 64],
) -> bool
    requires small { IsSmall p.now }
    requires ready { IsPlannerReady p.now planner.old.ring planner.old.index planner.old.jobs }
    requires listed { IsListed planner.old.ring }
    requires writes { (i : ℕ) → i < length writes.now → (write_at writes.now i).key < 8 }
    ensures { IsPlannerReady p.now planner.new.ring planner.new.index planner.new.jobs }
{
    if !settle(p, planner) {
        return false;
    }
    planner.ring.apply_writes(writes, words, (2, 0));
    match refill::<Brand>(p, planner, bucket_words, Blank::new(1)) {
        Some(Ok(())) => {
            planner.ring.forget_written();
            true
        }
        _ => false,
    }
}

// Whether a batch of both, at random, reads the same indexes and shows the same leaves; and how
// many of its reads are of different cells.
fn is_batch_alike(
    p: &Params,
    one: &mut Planner,
    other: &mut Planner,
    random: &mut Random,
) -> Option<usize>
    requires small { IsSmall p.now }
    requires one { IsPlannerReady p.now one.old.ring one.old.index one.old.jobs }
    requires other { IsPlannerReady p.now other.old.ring other.old.index other.old.jobs }
    ensures one { IsPlannerReady p.now one.new.ring one.new.index one.new.jobs }
    ensures other { IsPlannerReady p.now other.new.ring other.new.index other.new.jobs }
{
    let asks = [random.ask(), random.ask()];
    let words = [random.word(), random.word()];
    fetch(p, one, &asks, &words);
    fetch(p, other, &asks, &words);
    let is_alike = are_picked_alike(p, one, other) && are_labels_alike(one, other);
    let apart = count_apart(one, other);
    let is_settled = settle(p, one) && settle(p, other);
    if is_alike && is_settled {
        Some(apart)
    } else {
        None
    }
}

// Whether both list the same buckets to be filled anew.
fn are_lists_alike(one: &Planner, other: &Planner) -> bool {
    one.ring.to_refill() == other.ring.to_refill()
}

// Whether an end of both, at random, lifts the same indexes and fills the same buckets anew: the
// first one with words that are all 0, the other with words at random.
fn is_end_alike(p: &Params, one: &mut Planner, other: &mut Planner, random: &mut Random) -> bool
    requires small { IsSmall p.now }
    requires one { IsPlannerReady p.now one.old.ring one.old.index one.old.jobs }
    requires other { IsPlannerReady p.now other.old.ring other.old.index other.old.jobs }
    ensures one { IsPlannerReady p.now one.new.ring one.new.index one.new.jobs }
    ensures other { IsPlannerReady p.now other.new.ring other.new.index other.new.jobs }
{
    lift(p, one);
    lift(p, other);
    if !are_picked_alike(p, one, other) || !are_lists_alike(one, other) {
        return false;
    }
    let writes = [random.write(), random.write()];
    let words = [random.word(), random.word()];
    let mut drawn = [0; 64];
    for i in 0..64 {
        drawn[i] = random.word();
    }
    finish(p, one, &writes, &words, &[0; 64]) && finish(p, other, &writes, &words, &drawn)
}

// Whether an epoch of both is alike; and how many reads of its batches are of different cells.
fn is_epoch_alike(
    p: &Params,
    one: &mut Planner,
    other: &mut Planner,
    random: &mut Random,
) -> Option<usize>
    requires small { IsSmall p.now }
    requires one { IsPlannerReady p.now one.old.ring one.old.index one.old.jobs }
    requires other { IsPlannerReady p.now other.old.ring other.old.index other.old.jobs }
    ensures one { IsPlannerReady p.now one.new.ring one.new.index one.new.jobs }
    ensures other { IsPlannerReady p.now other.new.ring other.new.index other.new.jobs }
{
    let first = is_batch_alike(p, one, other, random)?;
    let second = is_batch_alike(p, one, other, random)?;
    if is_end_alike(p, one, other, random) {
        Some(first.saturating_add(second))
    } else {
        None
    }
}

// A planner of a tree without keys.
fn new_planner(rt: &impl Abort, alloc: Global, p: &Params) -> Planner
    ensures { IsPlannerReady p.now result.ring result.index result.jobs }
{
    Planner {
        ring: Ring::empty(alloc, p).expect(rt, "memory"),
        index: Index::new(alloc, p).expect(rt, "memory"),
        jobs: Jobs::new(alloc, p).expect(rt, "memory"),
    }
}

// Twenty epochs. In the first one no slot has moved yet; in each later one that reads a bucket which
// was filled anew, the cells of the two differ.
#[test]
fn picks_go_by_the_table_alone(rt: HostRuntime) {
    let p = Params::new(8, 2, 2, 3, 2, 2, 2, 2, 8).expect(&rt, "parameters");
    let mut one = new_planner(&rt, rt.alloc(), &p);
    let mut other = new_planner(&rt, rt.alloc(), &p);
    let mut random = Random { state: 49 };
    for epoch in 0..20u32 {
        let apart = is_epoch_alike(&p, &mut one, &mut other, &mut random);
        let apart = apart.expect(&rt, "an epoch of both alike");
        assert!(rt;
            (apart == 0) == (epoch == 0),
            "epoch {epoch}: {apart} cells apart"
        );
    }
}
