//! Calls that a ring vault refuses: they leave it spent, and another opening serves on.

ghost use Rattle.std.specs.Prelude.{◌≡◌};
ghost use Rattle.ob_mem.specs.Memory.{disk_of_store};

use crate::opening::{Setting, new_store, serve_store, setting_of};
use crate::steps::{Put, Step, Told, requests_of, told_by};
use ob_base::{Check, Fault, Params};
use ob_mem::{Fail, MemStore};
use ob_seal::ListTape;
use ob_store::{Blind, Store};
use std::alloc::Global;
use std::process::Abort;
use std::thread::Threads;

const PADS: Step = Step::Ask(None);

const HI: &[Put] = &[Put {
    key: 5,
    text: b"hi",
}];

const FOUR: &[Put] = &[
    Put { key: 0, text: b"a" },
    Put { key: 1, text: b"b" },
    Put { key: 2, text: b"c" },
    Put { key: 3, text: b"d" },
];

const EPOCH: &[Step] = &[PADS, PADS, Step::End(HI)];

const SMALL: [u32; 9] = [8, 2, 2, 3, 2, 2, 2, 2, 8];

// Four keys, one batch of one place, and a stash that may keep one row.
const NARROW: [u32; 9] = [4, 1, 2, 1, 1, 1, 4, 1, 1];

const FAILED: Fault = Fault::StoreFault { unsure: None };

// What comes over a store behind its format (62 writes, 10 syncs; its opening has 2 and 3).
#[derive(Drop)]
enum Trouble {
    // These calls fail.
    Fails(&'static [Fail]),
    // The lane of this number is refused.
    RefusesLane(u64),
    // A bit of this cell is changed.
    Flips(u64),
}

// How a call is refused.
#[derive(Drop)]
enum Refusal {
    // Nothing was changed.
    Before(Fault),
    // This cell was torn, and nothing was changed.
    Torn(u64),
    // The epoch may have ended.
    Unsure(Fault),
}

// Changes a bit of a cell.
fn flip(rt: &impl Abort, store: &mut MemStore, cell: u64)
    requires { (disk_of_store store.old).out ≡ 0 }
    ensures { (disk_of_store store.new).out ≡ 0 }
{
    let mut lane = store.lane().expect(rt, "a lane");
    let mut bytes = [0; 128];
    assert!(rt; store.read(&mut lane, cell, &mut bytes).is_ok());
    store.absorb(lane);
    bytes[40] ^= 4;
    assert!(rt; store.write(cell, &bytes).is_ok());
}

// A new store over which this comes.
fn troubled<R: Abort + Threads + Sync>(
    rt: &R,
    alloc: Global,
    p: &Params,
    trouble: &Trouble,
) -> MemStore
    ensures { (disk_of_store result).out ≡ 0 }
{
    match trouble {
        Trouble::Fails(fails) => new_store(rt, alloc, p, fails, &mut Blind),
        Trouble::RefusesLane(lane) => { new_store(rt, alloc, p, &[Fail::Lane(*lane)], &mut Blind) }
        Trouble::Flips(cell) => {
            let mut store = new_store(rt, alloc, p, &[], &mut Blind);
            flip(rt, &mut store, *cell);
            store
        }
    }
}

// Whether answers tell just this refusal.
fn is_refused_so(told: Told, refusal: &Refusal) -> bool {
    match refusal {
        Refusal::Before(fault) => told.refused == Some(*fault) && told.doubt.is_none(),
        Refusal::Unsure(fault) => told.doubt == Some(*fault) && told.refused.is_none(),
        Refusal::Torn(torn) => match told.refused {
            Some(Fault::Damaged { cell, check, .. }) => cell == *torn && check == Check::Tag,
            _ => false,
        },
    }
}

// What comes over a store; how many calls are then answered, how the last of these is refused, and
// the batches that are left; and the epoch and the batches left that another opening finds, where
// it isn't refused.
#[derive(Drop)]
struct Row {
    trouble: Trouble,
    answered: usize,
    refusal: Refusal,
    left: u32,
    again: Option<(u64, u32)>,
}

// Of the small store's epoch.
const ROWS: &[Row] = &[
    Row {
        trouble: Trouble::Fails(&[Fail::Write(64)]),
        answered: 1,
        refusal: Refusal::Before(FAILED),
        left: 2,
        again: Some((0, 2)),
    },
    Row {
        trouble: Trouble::Fails(&[Fail::Read {
            cell: 41,
            writes: 66,
        }]),
        answered: 1,
        refusal: Refusal::Before(FAILED),
        left: 2,
        again: Some((0, 1)),
    },
    Row {
        trouble: Trouble::Fails(&[Fail::Write(68)]),
        answered: 3,
        refusal: Refusal::Before(FAILED),
        left: 0,
        again: Some((0, 0)),
    },
    Row {
        trouble: Trouble::Fails(&[Fail::Sync(18)]),
        answered: 3,
        refusal: Refusal::Before(FAILED),
        left: 0,
        again: Some((0, 0)),
    },
    Row {
        trouble: Trouble::Fails(&[Fail::Sync(19)]),
        answered: 3,
        refusal: Refusal::Unsure(Fault::StoreFault { unsure: Some(1) }),
        left: 0,
        again: Some((1, 2)),
    },
    // The first slot of the first batch is torn, or the first slot of the final lifts.
    Row {
        trouble: Trouble::Flips(41),
        answered: 1,
        refusal: Refusal::Torn(41),
        left: 2,
        again: None,
    },
    Row {
        trouble: Trouble::Flips(49),
        answered: 3,
        refusal: Refusal::Torn(49),
        left: 0,
        again: Some((0, 0)),
    },
];

const FULL: Row = Row {
    trouble: Trouble::Fails(&[]),
    answered: 2,
    refusal: Refusal::Before(Fault::StashFull { rows: 2 }),
    left: 0,
    again: Some((0, 0)),
};

// The epoch that ended last in a store, and the batches that are left, if it can be opened.
fn found_again<R: Abort + Threads + Sync>(
    rt: &R,
    alloc: Global,
    store: &mut MemStore,
    setting: &Setting,
) -> Option<(u64, u32)>
    requires { (disk_of_store store.old).out ≡ 0 }
{
    let mut tape = ListTape::new(alloc, &[]).expect(rt, "memory");
    match serve_store(rt, alloc, store, &mut tape, setting, &[], &mut Blind) {
        Ok(next) => Some(next.began),
        Err(_) => None,
    }
}

// Opens a store over which a row's trouble comes, makes these calls on a tape of these words, and
// opens the store again; whether all is as the row says.
fn plays_so<R: Abort + Threads + Sync>(
    rt: &R,
    alloc: Global,
    setting: &Setting,
    words: &[u64],
    steps: &[Step],
    row: &Row,
) -> bool {
    let calls = requests_of(rt, alloc, &setting.p, steps);
    let mut tape = ListTape::new(alloc, words).expect(rt, "memory");
    let mut store = troubled(rt, alloc, &setting.p, &row.trouble);
    match serve_store(
        rt, alloc, &mut store, &mut tape, setting, &calls, &mut Blind,
    ) {
        Ok(first) => {
            let answered = first.replies.len() == row.answered;
            let refused = is_refused_so(told_by(&first.replies), &row.refusal);
            let spent = first.stands == (0, row.left, true);
            let again = found_again(rt, alloc, first.store, setting) == row.again;
            answered && refused && spent && again
        }
        Err(_) => false,
    }
}

#[test]
fn a_refusal_leaves_a_vault_spent_and_another_opening_serves(rt: HostRuntime) {
    for lanes in 1..17 {
        let setting = setting_of(&rt, SMALL, lanes);
        for row in ROWS {
            assert!(rt; plays_so(&rt, rt.alloc(), &setting, &[], EPOCH, row));
        }
    }
}

// The first lane of what a call reads and the one behind its last; how many calls are then
// answered, and how many batches are left; and what another opening finds left of the epoch.
struct Phase {
    first: u64,
    behind: u64,
    answered: usize,
    left: u32,
    again: u32,
}

// By 16 lanes an opening makes 4 of them in turn; then the first batch has one for each of its 6
// reads, the second one for each of 9, and the final lifts one for each of 4.
const PHASES: &[Phase] = &[
    Phase {
        first: 4,
        behind: 10,
        answered: 1,
        left: 2,
        again: 1,
    },
    Phase {
        first: 10,
        behind: 19,
        answered: 2,
        left: 1,
        again: 0,
    },
    Phase {
        first: 19,
        behind: 23,
        answered: 3,
        left: 0,
        again: 0,
    },
];

#[test]
fn a_refused_lane_leaves_a_vault_spent_and_another_opening_serves(rt: HostRuntime) {
    let setting = setting_of(&rt, SMALL, 16);
    for phase in PHASES {
        for lane in phase.first..phase.behind {
            let row = Row {
                trouble: Trouble::RefusesLane(lane),
                answered: phase.answered,
                refusal: Refusal::Before(FAILED),
                left: phase.left,
                again: Some((0, phase.again)),
            };
            assert!(rt; plays_so(&rt, rt.alloc(), &setting, &[], EPOCH, &row));
        }
    }
}

#[test]
fn a_stash_that_is_too_full_leaves_a_vault_spent(rt: HostRuntime) {
    let steps = [PADS, Step::End(FOUR)];
    for lanes in 1..17 {
        let setting = setting_of(&rt, NARROW, lanes);
        assert!(rt; plays_so(&rt, rt.alloc(), &setting, &[0, 1, 1, 1, 1], &steps, &FULL));
    }
}
