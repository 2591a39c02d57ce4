//! Plans of small trees, cell by cell.

ghost use Rattle.std.specs.Prelude.{◌≡◌, ◌<◌, ◌≤◌, ◌∷◌, [], replicate, true, IfSome, None};
ghost use Rattle.ob_base.specs.Planned.{most_jobs};
ghost use Rattle.ob_base.specs.Tree.{buckets};
ghost use Rattle.ob_ring.specs.Ring.{IsListed, AreListedWithin};

use ob_base::{Jobs, Key, Params, StashFull, Value, Write, buckets};
use ob_ring::{Index, Ring, Steps};
use std::alloc::Global;
use std::marker::Brand;
use std::process::Abort;
use std::sync::ledger::{Blank, Ledger};

// A read batch: what its first place asks for, the others being pads; the number of its first word,
// of which all are 0; the cells that are read; and how many of them the first place reads.
struct Fetch {
    key: Option<Key>,
    number: u64,
    cells: &'static [u64],
    first: u32,
}

// Where rows lie behind a refill: the slots of buckets, each with what it begins with, behind which
// all is 0; whether the rows that were put leave the stash; and whose rows are in it then.
struct Filled {
    slots: &'static [(u32, u8, [u8; 6])],
    forgets: bool,
    left: &'static [Key],
}

// The end of an epoch: the cells that its lifts read; the keys that get a value of one byte, and
// the word that each gets; the buckets that are filled anew, in order, with words that are 0; and
// where the rows lie then, or how many rows are left, where these are too many.
struct End {
    cells: &'static [u64],
    puts: &'static [(Key, u8)],
    word: u64,
    lifted: &'static [u32],
    filled: Result<Filled, u64>,
}

// What is planned: a read batch, lifts of which the cells are given that they read, or the end of
// an epoch.
enum Call {
    Fetch(Fetch),
    Lifts(&'static [u64]),
    End(End),
}

// Whether the jobs read these cells, in order.
fn are_read(jobs: &Jobs, cells: &[u64]) -> bool {
    if jobs.jobs().len() != cells.len() {
        return false;
    }
    for i in 0..cells.len() {
        if jobs.jobs()[i].cell != cells[i] {
            return false;
        }
    }
    true
}

// Whether the jobs are of so many places, and the first one has so many of them.
fn have_places(jobs: &Jobs, places: usize, first: u32) -> bool {
    let kept = jobs.places();
    kept.len() == places && (places < 2 || kept[1].first == first)
}

// The asks of a batch of at most two places.
fn asks_of(key: Option<Key>) -> [Option<Key>; 2]
    ensures { result ≡ key ∷ None ∷ [] }
{
    [key, None]
}

// Whether a batch has at most two places, and the first may ask for this key.
fn may_ask(p: &Params, key: Option<Key>) -> bool
    ensures few { result ≡ true → p.now.places ≤ 2 }
    ensures low { result ≡ true → IfSome key (λ k. k < p.now.keys) }
{
    p.places <= 2
        && match key {
            Some(key) => key < p.keys,
            None => true,
        }
}

// Whether a batch of at most two places is planned so.
fn is_fetched(p: &Params, ring: &mut Ring, jobs: &mut Jobs, fetch: &Fetch) -> bool
    requires params { ring.old.p ≡ p.now }
    requires rooms { (jobs.old.room ≡ most_jobs p.now) × (jobs.old.place_room ≡ p.now.places) }
    ensures params { ring.new.p ≡ p.now }
    ensures rooms { (jobs.new.room ≡ most_jobs p.now) × (jobs.new.place_room ≡ p.now.places) }
{
    if !may_ask(p, fetch.key) {
        return false;
    }
    let places = p.places as usize;
    let asks = asks_of(fetch.key);
    ring.plan_fetch(&asks[..places], &[0; 2][..places], (2, fetch.number), jobs);
    are_read(jobs, fetch.cells) && have_places(jobs, places, fetch.first)
}

fn is_key(p: &Params, key: Key) -> bool
    ensures { result ≡ true → key < p.now.keys }
{
    key < p.keys
}

// Puts a key of the ring, whose value is a byte, with a word.
fn put(p: &Params, ring: &mut Ring, key: Key, byte: u8, word: u64)
    requires params { ring.old.p ≡ p.now }
    requires listed { IsListed ring.old }
    ensures params { ring.new.p ≡ p.now }
    ensures listed { IsListed ring.new }
{
    if is_key(p, key) {
        let value = Value::new(&[byte]);
        ring.apply_writes(&[Write { key, value }], &[word], (2, 1));
    }
}

// Refills with words that are all 0, or not where there are more than 64. The steps are counted in
// a ledger that nobody reads.
fn refill<C: Ledger>(
    p: &Params,
    ring: &mut Ring,
    index: &mut Index,
    blank: Blank,
) -> Option<Result<(), StashFull>>
    requires params { ring.old.p ≡ p.now }
    requires listed { IsListed ring.old }
    requires index { index.old ≡ replicate (buckets p.now) 0 }
    requires name { blank.name ≡ C.name }
    requires parts { (blank.parts ≡ C.parts) × (0 < blank.parts) }
    ensures params { ring.new.p ≡ p.now }
    ensures within { IfSome result (λ _. AreListedWithin ring.new) }
    ensures index { index.new ≡ index.old }
{
    let width = (p.real + p.dummies) as usize;
    let zeros = [0; 64];
    let mut steps = Steps::<C>::none(blank);
    match ring.to_refill().len().checked_mul(width) {
        Some(many) if many <= 64 => {
            Some(ring.refill_indexed(index, &zeros[..many], (2, 0), &mut steps))
        }
        _ => None,
    }
}

// Whether a slot begins with these bytes, and has zeros behind them.
fn begins_with(plain: &[u8; 96], front: &[u8; 6]) -> bool {
    plain[..6] == front[..] && plain[6..] == [0; 90]
}

// Whether the slots begin so.
fn are_slots(p: &Params, ring: &Ring, slots: &[(u32, u8, [u8; 6])]) -> bool
    requires { ring.now.p ≡ p.now }
{
    for i in 0..slots.len() {
        let (bucket, slot, front) = slots[i];
        if bucket >= buckets(p) || !begins_with(&ring.plain_of(bucket, slot), &front) {
            return false;
        }
    }
    true
}

// Whether the stash has rows of just these keys.
fn are_left(ring: &Ring, keys: &[Key]) -> bool {
    let stash = &ring.tables().stash;
    for i in 0..keys.len() {
        if stash.get(keys[i]).is_none() {
            return false;
        }
    }
    stash.len() == keys.len()
}

// Whether the rows lie so, behind a refill.
fn is_filled(p: &Params, ring: &mut Ring, filled: &Filled) -> bool
    requires params { ring.old.p ≡ p.now }
    requires within { AreListedWithin ring.old }
    ensures { ring.new.p ≡ p.now }
{
    let lie = are_slots(p, ring, filled.slots);
    if filled.forgets {
        ring.forget_written();
    }
    lie && are_left(ring, filled.left)
}

// Whether these buckets are to be filled anew, in this order.
fn are_listed(ring: &Ring, buckets: &[u32]) -> bool {
    ring.to_refill() == buckets
}

// Whether an epoch's end is planned so.
fn is_ended(p: &Params, ring: &mut Ring, index: &mut Index, jobs: &mut Jobs, end: &End) -> bool
    requires params { ring.old.p ≡ p.now }
    requires index { index.old ≡ replicate (buckets p.now) 0 }
    requires rooms { (jobs.old.room ≡ most_jobs p.now) × (jobs.old.place_room ≡ p.now.places) }
    ensures params { ring.new.p ≡ p.now }
    ensures index { index.new ≡ index.old }
    ensures rooms { (jobs.new.room ≡ most_jobs p.now) × (jobs.new.place_room ≡ p.now.places) }
{
    ring.plan_lifts(jobs);
    for i in 0..end.puts.len() {
        let (key, byte) = end.puts[i];
        put(p, ring, key, byte, end.word);
    }
    if !are_read(jobs, end.cells) || !are_listed(ring, end.lifted) {
        return false;
    }
    match (refill::<Brand>(p, ring, index, Blank::new(1)), &end.filled) {
        (Some(Ok(())), Ok(filled)) => is_filled(p, ring, filled),
        (Some(Err(StashFull { rows })), Err(wanted)) => rows == *wanted,
        _ => false,
    }
}

fn are_lifted(ring: &mut Ring, jobs: &mut Jobs, cells: &[u64]) -> bool
    requires rooms { (jobs.old.room ≡ most_jobs ring.old.p)
        × (jobs.old.place_room ≡ ring.old.p.places) }
    ensures params { ring.new.p ≡ ring.old.p }
    ensures rooms { (jobs.new.room ≡ jobs.old.room) × (jobs.new.place_room ≡ jobs.old.place_room) }
{
    ring.plan_lifts(jobs);
    are_read(jobs, cells)
}

fn goes_so(p: &Params, ring: &mut Ring, index: &mut Index, jobs: &mut Jobs, call: &Call) -> bool
    requires params { ring.old.p ≡ p.now }
    requires index { index.old ≡ replicate (buckets p.now) 0 }
    requires rooms { (jobs.old.room ≡ most_jobs p.now) × (jobs.old.place_room ≡ p.now.places) }
    ensures params { ring.new.p ≡ p.now }
    ensures index { index.new ≡ index.old }
    ensures rooms { (jobs.new.room ≡ most_jobs p.now) × (jobs.new.place_room ≡ p.now.places) }
{
    match call {
        Call::Fetch(fetch) => is_fetched(p, ring, jobs, fetch),
        Call::Lifts(cells) => are_lifted(ring, jobs, cells),
        Call::End(end) => is_ended(p, ring, index, jobs, end),
    }
}

// Plans these calls one behind the other, of a tree that is empty at first.
fn plan(rt: &impl Abort, alloc: Global, p: &Params, calls: &[Call]) {
    let mut ring = Ring::empty(alloc, p).expect(rt, "memory");
    let mut index = Index::new(alloc, p).expect(rt, "memory");
    let mut jobs = Jobs::new(alloc, p).expect(rt, "memory");
    for i in 0..calls.len() {
        assert!(rt;
            goes_so(p, &mut ring, &mut index, &mut jobs, &calls[i]),
            "call {i}"
        );
    }
}

// What a slot begins with that holds no row.
const NONE: [u8; 6] = [255, 255, 255, 255, 0, 0];

// Eight keys; seven buckets of two real and three dummy slots, the first in the cells 39 to 43, or
// 74 to 78; batches of two places; two evictions; room for eight rows.
const SMALL: [u32; 9] = [8, 2, 2, 3, 2, 2, 2, 2, 8];

// Two batches of pads show all dummies of a path, and lift its buckets. There is no row, and what
// is filled is empty.
const PADS: &[Call] = &[
    Call::Fetch(Fetch {
        key: None,
        number: 0,
        cells: &[41, 46, 56, 42, 47, 57],
        first: 3,
    }),
    Call::Fetch(Fetch {
        key: None,
        number: 2,
        cells: &[43, 39, 40, 48, 44, 45, 58, 54, 55],
        first: 9,
    }),
    Call::End(End {
        cells: &[49, 50, 64, 65],
        puts: &[],
        word: 1,
        lifted: &[3, 5, 1, 2, 0],
        filled: Ok(Filled {
            slots: &[
                (0, 0, NONE),
                (0, 1, NONE),
                (1, 0, NONE),
                (1, 1, NONE),
                (2, 0, NONE),
                (3, 1, NONE),
                (5, 0, NONE),
            ],
            forgets: true,
            left: &[],
        }),
    }),
];

// A row is placed in bucket 1; each refilled bucket lies in its other home, but not those of number
// 4 and 6.
const ROW: &[Call] = &[
    Call::End(End {
        cells: &[39, 40, 44, 45, 54, 55, 49, 50, 64, 65],
        puts: &[(5, 7)],
        word: 1,
        lifted: &[3, 5, 1, 2, 0],
        filled: Ok(Filled {
            slots: &[(1, 0, [5, 0, 0, 0, 1, 7]), (1, 1, NONE), (0, 0, NONE)],
            forgets: true,
            left: &[],
        }),
    }),
    Call::Fetch(Fetch {
        key: Some(5),
        number: 0,
        cells: &[76, 79, 61, 77, 81, 91],
        first: 3,
    }),
];

// All eight keys.
const EIGHT: &[(Key, u8)] = &[
    (0, 70),
    (1, 71),
    (2, 72),
    (3, 73),
    (4, 74),
    (5, 75),
    (6, 76),
    (7, 77),
];

// All slots for rows, where the rows of all eight keys have leaf 0 and each bucket is filled anew:
// two go into each bucket of its path, the least keys deepest, and none into the others.
const DEEPEST_FIRST: &[(u32, u8, [u8; 6])] = &[
    (3, 0, [0, 0, 0, 0, 1, 70]),
    (3, 1, [1, 0, 0, 0, 1, 71]),
    (1, 0, [2, 0, 0, 0, 1, 72]),
    (1, 1, [3, 0, 0, 0, 1, 73]),
    (0, 0, [4, 0, 0, 0, 1, 74]),
    (0, 1, [5, 0, 0, 0, 1, 75]),
    (2, 0, NONE),
    (2, 1, NONE),
    (4, 0, NONE),
    (4, 1, NONE),
    (5, 0, NONE),
    (5, 1, NONE),
    (6, 0, NONE),
    (6, 1, NONE),
];

// Two lots of lifts take all paths, and of eight rows of leaf 0 two are left.
const ROWS_OF_LEAF_ZERO: &[Call] = &[
    Call::Lifts(&[39, 40, 44, 45, 54, 55, 49, 50, 64, 65]),
    Call::End(End {
        cells: &[59, 60, 69, 70],
        puts: EIGHT,
        word: 0,
        lifted: &[3, 4, 5, 6, 1, 2, 0],
        filled: Ok(Filled {
            slots: DEEPEST_FIRST,
            forgets: true,
            left: &[6, 7],
        }),
    }),
];

// The stash keeps the rows that were put, so that some lie in buckets too, as those of a store may
// that lies: each row of the stash is put, also one of a key that lies in bucket 3, which isn't
// lifted now.
const ROWS_THAT_LIE_IN_BUCKETS: &[Call] = &[
    Call::End(End {
        cells: &[39, 40, 44, 45, 54, 55, 49, 50, 64, 65],
        puts: EIGHT,
        word: 0,
        lifted: &[3, 5, 1, 2, 0],
        filled: Ok(Filled {
            slots: &[
                (3, 0, [0, 0, 0, 0, 1, 70]),
                (3, 1, [1, 0, 0, 0, 1, 71]),
                (1, 1, [3, 0, 0, 0, 1, 73]),
                (0, 1, [5, 0, 0, 0, 1, 75]),
            ],
            forgets: false,
            left: &[0, 1, 2, 3, 4, 5, 6, 7],
        }),
    }),
    Call::End(End {
        cells: &[74, 75, 79, 80, 59, 60, 84, 85, 69, 70],
        puts: &[],
        word: 0,
        lifted: &[4, 6, 1, 2, 0],
        filled: Ok(Filled {
            slots: &[
                (3, 0, [0, 0, 0, 0, 1, 70]),
                (3, 1, [1, 0, 0, 0, 1, 71]),
                (1, 0, [0, 0, 0, 0, 1, 70]),
                (1, 1, [1, 0, 0, 0, 1, 71]),
                (0, 0, [2, 0, 0, 0, 1, 72]),
                (0, 1, [3, 0, 0, 0, 1, 73]),
                (4, 0, NONE),
            ],
            forgets: false,
            left: &[0, 1, 2, 3, 4, 5, 6, 7],
        }),
    }),
];

// As `SMALL`, with four evictions, which take all paths, and room for two rows, or for one; the
// first bucket in the cells 29 to 33.
const ROOM_FOR_TWO: [u32; 9] = [8, 2, 2, 3, 2, 2, 2, 4, 2];

const ROOM_FOR_ONE: [u32; 9] = [8, 2, 2, 3, 2, 2, 2, 4, 1];

// Of eight rows of leaf 0 as many are left as the stash may keep, or one more.
const AS_MANY_AS_MAY_BE: &[Call] = &[Call::End(End {
    cells: &[29, 30, 34, 35, 44, 45, 39, 40, 54, 55, 49, 50, 59, 60],
    puts: EIGHT,
    word: 0,
    lifted: &[3, 4, 5, 6, 1, 2, 0],
    filled: Ok(Filled {
        slots: DEEPEST_FIRST,
        forgets: true,
        left: &[6, 7],
    }),
})];

const ONE_TOO_MANY: &[Call] = &[Call::End(End {
    cells: &[29, 30, 34, 35, 44, 45, 39, 40, 54, 55, 49, 50, 59, 60],
    puts: EIGHT,
    word: 0,
    lifted: &[3, 4, 5, 6, 1, 2, 0],
    filled: Err(2),
})];

// Four keys; three buckets of two real slots and a dummy one, the first in the cells 19 to 21; room
// for one row.
const TINY: [u32; 9] = [4, 1, 2, 1, 1, 1, 4, 1, 1];

// Four rows of one leaf, of which the root takes two.
const FULL: &[Call] = &[
    Call::Fetch(Fetch {
        key: None,
        number: 0,
        cells: &[21, 19, 20, 24, 22, 23],
        first: 6,
    }),
    Call::End(End {
        cells: &[],
        puts: &[(0, 97), (1, 97), (2, 97), (3, 97)],
        word: 1,
        lifted: &[1, 0],
        filled: Err(2),
    }),
];

// Three rows of that leaf, of which one may be left.
const ROOT_ALONE: &[Call] = &[Call::End(End {
    cells: &[19, 20, 22, 23],
    puts: &[(0, 97), (1, 98), (2, 99)],
    word: 1,
    lifted: &[1, 0],
    filled: Ok(Filled {
        slots: &[
            (0, 0, [0, 0, 0, 0, 1, 97]),
            (0, 1, [1, 0, 0, 0, 1, 98]),
            (1, 0, NONE),
        ],
        forgets: true,
        left: &[2],
    }),
})];

const PLANS: &[([u32; 9], &[Call])] = &[
    (SMALL, PADS),
    (SMALL, ROW),
    (SMALL, ROWS_OF_LEAF_ZERO),
    (SMALL, ROWS_THAT_LIE_IN_BUCKETS),
    (ROOM_FOR_TWO, AS_MANY_AS_MAY_BE),
    (ROOM_FOR_ONE, ONE_TOO_MANY),
    (TINY, FULL),
    (TINY, ROOT_ALONE),
];

#[test]
fn small_trees_are_planned_so(rt: HostRuntime) {
    for (numbers, calls) in PLANS {
        let [n, l, z, s, r, br, bw, e, t] = *numbers;
        let p = Params::new(n, l, z, s, r, br, bw, e, t).expect(&rt, "parameters");
        plan(&rt, rt.alloc(), &p, calls);
    }
}
