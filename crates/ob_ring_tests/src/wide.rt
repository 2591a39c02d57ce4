//! Epochs that write more cells than one thread seals alone.

ghost use Rattle.std.specs.Prelude.{◌≡◌, ◌≤◌};

use crate::serving::{Plan, Put, Step, Told, run_steps};
use crate::small::store_of;
use ob_base::{Params, Value};
use ob_cells::read_cells;
use ob_mem::{MemSink, MemStore};
use ob_seal::ListTape;
use ob_store::{Blind, SinkWatch};
use std::alloc::Global;
use std::process::Abort;
use std::thread::Threads;

// What epochs left: all cells of the store, and what was shown.
#[derive(Drop)]
struct Left {
    cells: Vec<[u8; 128]>,
    shown: MemSink,
}

const PUTS: &[Put] = &[
    Put {
        key: 5,
        text: b"five",
    },
    Put {
        key: 63,
        text: b"last",
    },
    Put {
        key: 0,
        text: b"none",
    },
];

const AGAIN: &[Put] = &[Put { key: 5, text: b"V" }];

const STEPS: &[Step] = &[
    Step::Ask(Some(5)),
    Step::End(PUTS),
    Step::Ask(Some(63)),
    Step::End(AGAIN),
    Step::Ask(Some(5)),
];

// All cells of a store.
fn cells_of(rt: &impl Abort, alloc: Global, store: &mut MemStore) -> Vec<[u8; 128]> {
    let mut cells = vec![in alloc; [0u8; 128]; 3000].expect(rt, "memory");
    assert!(rt; read_cells(store, 0, cells.as_mut_slice(), &mut Blind).is_ok());
    cells
}

// Two epochs of a store of 64 keys in a tree of 32 leaves, by so many lanes. Each end lifts 16
// paths: 47 buckets of 12 slots.
fn run_wide<R: Abort + Threads + Sync>(rt: &R, alloc: Global, lanes: usize) -> Left
    requires { (1 ≤ lanes) × (lanes ≤ 16) }
{
    let p = Params::new(64, 5, 4, 8, 1, 2, 4, 16, 64).expect(rt, "parameters");
    let plan = Plan {
        params: &p,
        lanes,
        steps: STEPS,
    };
    let mut store = store_of(rt, alloc, &p, 3000, &[]);
    let mut tape = ListTape::new(alloc, &[3, 1, 4, 1, 5, 9, 2, 6]).expect(rt, "memory");
    let mut shown = MemSink::new(alloc, 50000, Vec::new(alloc)).expect(rt, "memory");
    let mut watch = SinkWatch::new(&mut shown);
    let outcome = run_steps(rt, alloc, &mut store, &mut tape, &plan, &mut watch);
    assert!(rt; outcome.told == Told::Done { epoch: 2, left: 0 });
    assert!(rt; outcome.found == Value::new(b"V"));
    Left {
        cells: cells_of(rt, alloc, &mut store),
        shown,
    }
}

// However many threads seal, an epoch's end writes the same cells, in the same order.
#[test]
fn several_threads_leave_what_one_leaves(rt: HostRuntime) {
    let one = run_wide(&rt, rt.alloc(), 1);
    for lanes in [2, 4, 16] {
        let left = run_wide(&rt, rt.alloc(), lanes);
        assert!(rt; left.cells.as_slice() == one.cells.as_slice(), "by {lanes}");
        assert!(rt; left.shown.written() == one.shown.written(), "by {lanes}");
    }
}
