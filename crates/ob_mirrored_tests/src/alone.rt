//! Runs by more lanes, and mirrors of other stores.

ghost use Rattle.std.specs.Prelude.{◌≡◌};
ghost use Rattle.ob_mem.specs.Memory.{disk_of_store};

use crate::playing::{
    Call, FORMAT, NONE, PUT, TWO_ALONE, blank, expect_alone, expect_under, formatted, insist,
    let_both_go, ran,
};
use ob_mem::{BareStore, MemSink};
use ob_mirrored::Room;
use ob_top_calls::{CELLS, Noting, are_alike, let_noting_go};
use std::process::Abort;
use std::sync::Wait;
use std::thread::Threads;

// Two stores have the same in each cell.
fn expect_alike<R: Abort>(rt: &R, one: &mut Noting, other: &mut Noting, words: &str)
    requires one { (disk_of_store one.old.store).out ≡ 0 }
    requires other { (disk_of_store other.old.store).out ≡ 0 }
    ensures one { (disk_of_store one.new.store).out ≡ 0 }
    ensures other { (disk_of_store other.new.store).out ≡ 0 }
{
    let alike = are_alike(&mut one.store, &mut other.store, CELLS as u64);
    insist(rt, alike.expect(rt, "the cells"), words);
}

// A run by these words leaves in each half what this store has.
fn expect_same<R: AllocGlobal + Threads + Wait + Sync + Abort>(
    rt: &R,
    wanted: &mut Noting,
    words: &'static str,
)
    requires { (disk_of_store wanted.old.store).out ≡ 0 }
    ensures { (disk_of_store wanted.new.store).out ≡ 0 }
{
    let mut halves = ran(rt, NONE, NONE, &Call { words, ..TWO_ALONE });
    expect_alike(rt, wanted, &mut halves.first, words);
    expect_alike(rt, wanted, &mut halves.second, words);
    let_both_go(halves);
}

// It is what a run over one store alone leaves, by any number of lanes.
fn expect_lanes<R: AllocGlobal + Threads + Wait + Sync + Abort>(rt: &R) {
    let mut wanted = formatted(rt, NONE);
    expect_alone(rt, &mut wanted, &TWO_ALONE);
    expect_same(rt, &mut wanted, "run S K --lanes 1 --mirror F");
    expect_same(rt, &mut wanted, "run S K --lanes 4 --mirror F");
    expect_same(rt, &mut wanted, "run S K --lanes 16 --mirror F");
    let_noting_go(wanted);
}

#[test]
fn lanes_make_no_difference_to_either_half(rt: HostRuntime) {
    expect_lanes(&rt);
}

// Such a call over a store that tells its cells alone, with a second store in memory that is new.
fn expect_bare<R: AllocGlobal + Threads + Wait + Sync + Abort>(
    rt: &R,
    first: &mut BareStore,
    call: &Call,
) {
    let mut second: Option<Noting> = Some(blank(rt, CELLS, NONE));
    let mut none: Option<MemSink> = None;
    expect_under(rt, first, &mut second, Room::new(), call, &mut none);
}

// Behind a run of an epoch.
const NEXT: Call = Call {
    script: "client 1/begin/get 5/commit",
    told: "epoch 2/txn 1 client 1 committed/get 5 = hi/",
    ..PUT
};

#[test]
fn a_store_that_tells_its_cells_alone_is_mirrored(rt: HostRuntime) {
    let mut first = BareStore::new(rt.alloc(), CELLS).expect(&rt, "memory");
    expect_bare(&rt, &mut first, &FORMAT);
    expect_bare(&rt, &mut first, &PUT);
    expect_bare(&rt, &mut first, &NEXT);
}
