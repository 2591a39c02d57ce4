//! Random calls on a ring vault and on a plain vault, and crashes of the ring store between.

ghost use Rattle.std.specs.Prelude.{◌≡◌};
ghost use Rattle.ob_mem.specs.Memory.{disk_of_store};

use crate::opening::{Setting, new_store, open_ring, serve, serve_store, setting_of, test_keys};
use crate::random::{Random, calls_of};
use ob_base::{Params, Value, ring_cells};
use ob_flat::FlatVault;
use ob_mem::MemStore;
use ob_plain_serial::{Reply, Request};
use ob_seal::ChaChaTape;
use ob_serial::Vault;
use ob_store::{Blind, Note, Store, Watch};
use std::alloc::Global;
use std::process::Abort;
use std::thread::Threads;

// Counts writes and syncs.
#[derive(Drop)]
struct Count {
    made: usize,
}

impl Watch for Count {
    ghost use Rattle.std.specs.Prelude.{None, false, []};

    ghost trace = { λ _. record { written = None; broken = false; faults = 0; anchors = [] } };

    fn note(&mut self, note: Note) {
        match note {
            Note::Write(_) | Note::Sync => self.made = self.made.saturating_add(1),
            Note::Label(_) | Note::Read(_) => {}
        }
    }

    fn broken(&self) -> bool {
        false
    }
}

// A tape of random words.
fn new_tape() -> ChaChaTape
    ensures { result.generation ≡ 0 }
{
    ChaChaTape::new(&[7; 32])
}

// What a new plain vault answers.
fn plain_replies<R: Abort + Threads + Sync>(
    rt: &R,
    alloc: Global,
    p: &Params,
    calls: &[Request],
) -> Vec<Reply> {
    let keys = test_keys();
    let cells = ob_flat::cells(p) as usize;
    let mut store = MemStore::new(alloc, cells, Vec::new(alloc)).expect(rt, "memory");
    assert!(rt; ob_flat::format(&mut store, &keys, p, &mut Blind).is_ok());
    let opened = ob_flat::prepare(alloc, &mut store, &keys, p, &mut Blind);
    let mut vault = FlatVault::over(&mut store, opened.ok().expect(rt, "an opening"));
    let held = vault.params();
    let replies = serve(rt, alloc, &mut vault, &held, calls, &mut Blind);
    let _store = vault.into_store();
    replies.expect(rt, "memory")
}

fn are_same_values(one: &[Option<Value>], other: &[Option<Value>]) -> bool {
    if one.len() != other.len() {
        return false;
    }
    for i in 0..one.len() {
        if one[i] != other[i] {
            return false;
        }
    }
    true
}

// Whether both are the same, and no refusal.
fn is_same_reply(one: &Reply, other: &Reply) -> bool {
    match (one, other) {
        (Reply::Values(one), Reply::Values(other)) => are_same_values(one, other),
        (Reply::Ended, Reply::Ended) => true,
        _ => false,
    }
}

// Whether these are so many replies from this place on.
fn are_from(replies: &[Reply], wanted: &[Reply], place: usize, many: usize) -> bool {
    if replies.len() != many || wanted.len() < many || wanted.len() - many < place {
        return false;
    }
    for i in 0..many {
        if !is_same_reply(&replies[i], &wanted[place + i]) {
            return false;
        }
    }
    true
}

// What a crash leaves at this moment: in the cells that aren't sure what they got last, or other
// bytes.
fn left_after(
    rt: &impl Abort,
    alloc: Global,
    store: &MemStore,
    moment: usize,
    cells: u64,
    random: &mut Random,
) -> MemStore
    ensures { (disk_of_store result).out ≡ 0 }
{
    let mut fillings = Vec::new(alloc);
    let all = random.below(2) == 0;
    for cell in 0..cells {
        if all || random.below(2) == 0 {
            let byte = if random.below(2) == 0 { 0xA5 } else { 0 };
            fillings.push((cell, [byte; 128])).expect(rt, "memory");
        }
    }
    store.crash(moment, &fillings).expect(rt, "memory")
}

// Where among these calls a vault stands that was opened at an epoch, with batches that are left,
// and the calls of two epochs from there on.
fn part_behind<'a>(
    rt: &impl Abort,
    calls: &'a [Request],
    p: &Params,
    epoch: u64,
    left: u32,
) -> (usize, &'a [Request]) {
    let batches = u64::from(p.batches);
    let begun = batches.saturating_sub(u64::from(left));
    let place = epoch.saturating_mul(batches + 1).saturating_add(begun);
    assert!(rt; place <= calls.len() as u64);
    let place = place as usize;
    let many = (calls.len() - place).min(2 * (p.batches as usize + 1));
    (place, &calls[place..place + many])
}

// Opens what a crash left, and makes the calls of two epochs from where it stands on; whether they
// are answered as without a crash.
fn serves_on<R: Abort + Threads + Sync>(
    rt: &R,
    alloc: Global,
    left: &mut MemStore,
    setting: &Setting,
    calls: &[Request],
    wanted: &[Reply],
) -> bool
    requires { (disk_of_store left.old).out ≡ 0 }
{
    let mut tape = new_tape();
    match open_ring(rt, alloc, left, &mut tape, setting, &mut Blind) {
        Ok(mut vault) => {
            let (place, part) = part_behind(rt, calls, &setting.p, vault.epoch(), vault.left());
            let replies = serve(rt, alloc, &mut vault, &setting.p, part, &mut Blind);
            let _lent = vault.into_lent();
            are_from(&replies.expect(rt, "memory"), wanted, place, part.len())
        }
        Err(_) => false,
    }
}

const SETS: &[[u32; 9]] = &[
    [8, 2, 2, 3, 2, 2, 2, 2, 8],
    [1, 1, 1, 1, 1, 1, 1, 1, 1],
    [4, 1, 2, 1, 1, 1, 4, 1, 4],
    [16, 3, 2, 2, 3, 3, 5, 1, 16],
    [40, 3, 8, 1, 2, 4, 40, 2, 40],
    [64, 4, 4, 6, 4, 4, 8, 8, 64],
    [100, 5, 4, 5, 16, 2, 16, 4, 100],
    [256, 8, 4, 6, 4, 4, 8, 8, 256],
];

const EPOCHS: u32 = 50;

const CRASHES: usize = 20;

// Makes all of these calls on a new ring store; whether they are answered so.
fn serves_all<R: Abort + Threads + Sync, W: Watch>(
    rt: &R,
    alloc: Global,
    store: &mut MemStore,
    setting: &Setting,
    calls: &[Request],
    wanted: &[Reply],
    watch: &mut W,
) -> bool
    requires { (disk_of_store store.old).out ≡ 0 }
{
    let mut tape = new_tape();
    match serve_store(rt, alloc, store, &mut tape, setting, calls, watch) {
        Ok(served) => are_from(&served.replies, wanted, 0, calls.len()),
        Err(_) => false,
    }
}

// A ring store that crashes at so many moments of these calls; each time another opening of what is
// left serves on.
fn crash_often<R: Abort + Threads + Sync>(
    rt: &R,
    alloc: Global,
    setting: &Setting,
    calls: &[Request],
    wanted: &[Reply],
    random: &mut Random,
) {
    let mut count = Count { made: 0 };
    let mut store = new_store(rt, alloc, &setting.p, &[], &mut count);
    let formatted = count.made;
    assert!(rt; serves_all(rt, alloc, &mut store, setting, calls, wanted, &mut count));
    let part = count.made.saturating_sub(formatted) / CRASHES;
    for i in 0..CRASHES {
        let within = random.below(part.min(1_000_000) as u32 + 1) as usize;
        let moment = formatted
            .saturating_add(part.saturating_mul(i))
            .saturating_add(within);
        let mut left = left_after(rt, alloc, &store, moment, ring_cells(&setting.p), random);
        assert!(rt; serves_on(rt, alloc, &mut left, setting, calls, wanted));
    }
}

#[test]
fn a_ring_vault_answers_as_a_plain_one_and_after_each_crash(rt: HostRuntime) {
    let alloc = rt.alloc();
    let mut random = Random { state: 1 };
    for numbers in SETS {
        let setting = setting_of(&rt, *numbers, random.below(16) as usize + 1);
        let calls = calls_of(&rt, alloc, &mut random, &setting.p, EPOCHS);
        let wanted = plain_replies(&rt, alloc, &setting.p, &calls);
        assert_eq!(rt; wanted.len(), calls.len());
        crash_often(&rt, alloc, &setting, &calls, &wanted, &mut random);
    }
}

// What a cell holds.
fn bytes_in(rt: &impl Abort, store: &mut MemStore, cell: u64) -> [u8; 128] {
    let mut bytes = [9; 128];
    let mut lane = store.lane().expect(rt, "a lane");
    assert!(rt; store.read(&mut lane, cell, &mut bytes).is_ok());
    store.absorb(lane);
    bytes
}

// Whether crashes at this moment leave the same cells of two stores.
fn leave_the_same(
    rt: &impl Abort,
    one: &MemStore,
    other: &MemStore,
    moment: usize,
    cells: u64,
) -> bool {
    let mut one = one.crash(moment, &[]).expect(rt, "memory");
    let mut other = other.crash(moment, &[]).expect(rt, "memory");
    for cell in 0..cells {
        if bytes_in(rt, &mut one, cell) != bytes_in(rt, &mut other, cell) {
            return false;
        }
    }
    true
}

// A new ring store behind these calls, which are answered so, and how many writes and syncs its
// format and they made.
fn filled<R: Abort + Threads + Sync>(
    rt: &R,
    alloc: Global,
    setting: &Setting,
    calls: &[Request],
    wanted: &[Reply],
) -> (MemStore, usize) {
    let mut count = Count { made: 0 };
    let mut store = new_store(rt, alloc, &setting.p, &[], &mut count);
    assert!(rt; serves_all(rt, alloc, &mut store, setting, calls, wanted, &mut count));
    (store, count.made)
}

// A first batch reads 6 slots, 20, and 36.
const FEW: &[[u32; 9]] = &[
    [8, 2, 2, 3, 2, 2, 2, 2, 8],
    [64, 4, 4, 6, 4, 4, 8, 8, 64],
    [256, 8, 4, 6, 4, 4, 8, 8, 256],
];

const LONG: u32 = 100;

#[test]
fn a_store_is_the_same_by_one_lane_and_by_sixteen(rt: HostRuntime) {
    let alloc = rt.alloc();
    let mut random = Random { state: 2 };
    for numbers in FEW {
        let one = setting_of(&rt, *numbers, 1);
        let all = setting_of(&rt, *numbers, 16);
        let calls = calls_of(&rt, alloc, &mut random, &one.p, LONG);
        let wanted = plain_replies(&rt, alloc, &one.p, &calls);
        let (first, made) = filled(&rt, alloc, &one, &calls, &wanted);
        let (second, again) = filled(&rt, alloc, &all, &calls, &wanted);
        assert_eq!(rt; made, again);
        for _crash in 0..CRASHES {
            let moment = random.below(made.min(1_000_000) as u32 + 1) as usize;
            assert!(rt; leave_the_same(&rt, &first, &second, moment, ring_cells(&one.p)));
        }
        assert!(rt; leave_the_same(&rt, &first, &second, made, ring_cells(&one.p)));
    }
}
