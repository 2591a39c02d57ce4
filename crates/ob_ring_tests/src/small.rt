//! The small ring store and its images.

ghost use Rattle.std.specs.Prelude.{◌≡◌, ◌≤◌};
ghost use Rattle.ob_mem.specs.Memory.{disk_of_store};

use crate::serving::{Outcome, Plan, Step, run_steps};
use ob_base::{Fault, Params};
use ob_mem::{Fail, MemStore};
use ob_opening::format;
use ob_seal::{Keys, ListTape, Tape};
use ob_store::{Blind, Store, Watch};
use std::alloc::Global;
use std::process::Abort;
use std::thread::Threads;

/// The keys of the bytes 0 to 95.
pub fn test_keys() -> Keys {
    let mut bytes = [0; 96];
    for i in 0..96 {
        bytes[i] = i as u8;
    }
    Keys::from_bytes(&bytes)
}

/// A store of 8 keys in a tree of four leaves.
pub fn small_store(rt: &impl Abort) -> Params {
    Params::new(8, 2, 2, 3, 2, 2, 2, 2, 8).expect(rt, "parameters")
}

/// Formats a store with this tape.
pub fn format_with<R: Threads + Sync, S: Store, T: Tape>(
    rt: &R,
    alloc: Global,
    store: &mut S,
    tape: &mut T,
    p: &Params,
) -> Result<(), Fault>
    requires none_out { (S.disk store.old).out ≡ 0 }
    requires unstarted { T.present tape.old ≡ 0 }
    ensures { (S.disk store.new).out ≡ 0 }
{
    format(rt, alloc, store, tape, &test_keys(), p, &mut Blind)
}

/// A new store of these parameters, of so many cells, where these calls fail.
pub fn store_of<R: Abort + Threads + Sync>(
    rt: &R,
    alloc: Global,
    p: &Params,
    cells: usize,
    fails: &[Fail],
) -> MemStore
    ensures { (disk_of_store result).out ≡ 0 }
{
    let fails = fails.to_vec(alloc).expect(rt, "memory");
    let mut store = MemStore::new(alloc, cells, fails).expect(rt, "memory");
    let mut tape = ListTape::new(alloc, &[]).expect(rt, "memory");
    assert!(rt; format_with(rt, alloc, &mut store, &mut tape, p).is_ok());
    store
}

/// A new small store, where these calls fail: its format has 62 writes and 10 syncs.
pub fn new_store<R: Abort + Threads + Sync>(rt: &R, alloc: Global, fails: &[Fail]) -> MemStore
    ensures { (disk_of_store result).out ≡ 0 }
{
    store_of(rt, alloc, &small_store(rt), 109, fails)
}

/// A run of a store on a tape of these words, and of zeros behind them.
pub fn run_on<R: Abort + Threads + Sync, W: Watch>(
    rt: &R,
    alloc: Global,
    store: &mut MemStore,
    words: &[u64],
    plan: &Plan,
    watch: &mut W,
) -> Outcome
    requires none_out { (disk_of_store store.old).out ≡ 0 }
    requires lanes { (1 ≤ plan.now.lanes) × (plan.now.lanes ≤ 16) }
    ensures { (disk_of_store store.new).out ≡ 0 }
{
    let mut tape = ListTape::new(alloc, words).expect(rt, "memory");
    run_steps(rt, alloc, store, &mut tape, plan, watch)
}

/// A run of the small store by so many lanes on a tape of zeros, which nobody watches.
pub fn run_by<R: Abort + Threads + Sync>(
    rt: &R,
    alloc: Global,
    store: &mut MemStore,
    lanes: usize,
    steps: &[Step],
) -> Outcome
    requires none_out { (disk_of_store store.old).out ≡ 0 }
    requires lanes { (1 ≤ lanes) × (lanes ≤ 16) }
    ensures { (disk_of_store store.new).out ≡ 0 }
{
    let plan = Plan {
        params: &small_store(rt),
        lanes,
        steps,
    };
    run_on(rt, alloc, store, &[], &plan, &mut Blind)
}

/// The same by one lane.
pub fn run<R: Abort + Threads + Sync>(
    rt: &R,
    alloc: Global,
    store: &mut MemStore,
    steps: &[Step],
) -> Outcome
    requires { (disk_of_store store.old).out ≡ 0 }
    ensures { (disk_of_store store.new).out ≡ 0 }
{
    run_by(rt, alloc, store, 1, steps)
}

/// What a crash leaves where the cells that aren't sure hold this byte, or what they got last.
pub fn left_after(rt: &impl Abort, store: &MemStore, moment: usize, filling: Option<u8>) -> MemStore
    ensures { (disk_of_store result).out ≡ 0 }
{
    let left = match filling {
        None => store.crash(moment, &[]),
        Some(byte) => {
            let mut fillings = [(0, [byte; 128]); 109];
            for i in 0..109 {
                fillings[i] = (i as u64, [byte; 128]);
            }
            store.crash(moment, &fillings)
        }
    };
    left.expect(rt, "memory")
}
