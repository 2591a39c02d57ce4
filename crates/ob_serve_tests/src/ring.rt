//! Ring stores in memory, and vaults over them.

ghost use Rattle.std.specs.Prelude.{◌≡◌};
ghost use Rattle.ob_mem.specs.Memory.{disk_of_store};

use crate::runs::{blank, small, test_keys};
use ob_base::ring_cells;
use ob_lanes::Lanes;
use ob_mem::{Fail, MemStore};
use ob_opening::{format, prepare};
use ob_seal::{ListTape, Tape};
use ob_store::Blind;
use ob_vault::RingVault;
use std::alloc::Global;
use std::process::Abort;
use std::thread::Threads;

/// A tape of zeros.
pub fn new_tape(rt: &impl Abort, alloc: Global) -> ListTape
    ensures { result.generation ≡ 0 }
{
    ListTape::new(alloc, &[]).expect(rt, "memory")
}

/// A new ring store of the tests' parameters, of which this call fails.
pub fn new_store<R: Threads + Sync + Abort>(rt: &R, alloc: Global, fail: Fail) -> MemStore
    ensures { (disk_of_store result).out ≡ 0 }
{
    let p = small(rt);
    let mut store = blank(rt, alloc, ring_cells(&p) as usize, fail);
    let mut tape = new_tape(rt, alloc);
    let keys = test_keys();
    assert!(rt; format(rt, alloc, &mut store, &mut tape, &keys, &p, &mut Blind).is_ok());
    store
}

/// A vault over such a store, by one lane.
pub fn open_ring<'a, S: Lanes, R: Threads + Sync + Abort, T: Tape>(
    rt: &R,
    alloc: Global,
    store: &'a mut S,
    tape: &'a mut T,
) -> RingVault<'a, S, T>
    requires none_out { (S.disk store.old).out ≡ 0 }
    requires unstarted { T.present tape.old ≡ 0 }
{
    let (keys, p) = (test_keys(), small(rt));
    let Ok(opening) = prepare(rt, alloc, store, tape, &keys, &p, 1, &mut Blind) else {
        panic!(rt; "no opening")
    };
    RingVault::over(store, tape, opening)
}
