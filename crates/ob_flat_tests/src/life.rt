//! The calls on a plain store in memory as acts of its life.

use ob_base::Params;
use ob_flat::{
    FlatVault, begin_life, calls_are_acts, flat_chains_are_runs, head_in_life, open_in_life,
};
use ob_mem::MemStore;
use ob_pads::{pads_are_fresh, runs_join};
use ob_seal::Keys;
use ob_store::Blind;
use std::alloc::Global;
use std::process::Abort;

// The generation that begins with an opening of what a crash leaves after so many calls.
fn next_generation(
    rt: &impl Abort,
    alloc: Global,
    store: &MemStore,
    moment: usize,
    keys: &Keys,
) -> u64 {
    let mut left = store.crash(moment, &[]).expect(rt, "memory");
    let params = head_in_life(&mut left, keys, &mut Blind).expect(rt, "a head");
    let opening = open_in_life(alloc, &mut left, keys, &params, &mut Blind);
    let (generation, _) = opening.expect(rt, "an opening").sealer.next();
    generation
}

// A store that is begun, and then opened.
fn opened(rt: &impl Abort, alloc: Global, keys: &Keys) -> MemStore {
    let params = Params::new(8, 2, 2, 3, 2, 2, 2, 2, 8).expect(rt, "parameters in range");
    let mut store = MemStore::new(alloc, 25, Vec::new(alloc)).expect(rt, "memory");
    assert!(rt; begin_life(&mut store, keys, &params, &mut Blind).is_ok());
    assert!(rt; open_in_life(alloc, &mut store, keys, &params, &mut Blind).is_ok());
    store
}

// A beginning has 30 calls. Then come the opening's first sync, its body and its gate, each made
// sure of: the gate decides.
const GENERATIONS: &[(usize, u64)] = &[(30, 2), (33, 2), (34, 3), (35, 3)];

#[test]
fn each_opening_begins_a_generation(rt: HostRuntime) {
    let keys = Keys::from_bytes(&[7; 96]);
    let store = opened(&rt, rt.alloc(), &keys);
    for (moment, wanted) in GENERATIONS {
        let generation = next_generation(&rt, rt.alloc(), &store, *moment, &keys);
        assert!(rt; generation == *wanted, "at {moment}");
    }
}

#[test]
fn laws_hold_of_a_store_in_memory(_rt: HostRuntime) {
    calls_are_acts::<MemStore>();
    flat_chains_are_runs::<FlatVault<'_, MemStore>, MemStore>();
    runs_join::<MemStore>();
    pads_are_fresh::<MemStore>();
}
