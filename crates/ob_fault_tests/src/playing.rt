//! Calls of the top over a store in memory, and what a crash leaves of it.

ghost use Rattle.std.specs.Prelude.{◌≡◌};
ghost use Rattle.ob_mem.specs.Memory.{disk_of_store};

use ob_mem::{Fail, MemStore};
use ob_top_calls as calls;
use ob_top_calls::{CELLS, ask_for};
use std::process::Abort;
use std::sync::Wait;
use std::thread::Threads;

/// Ends the test where this isn't so, and names the case.
pub fn insist<R: Abort>(rt: &R, so: bool, case: &str) {
    assert!(rt; so, "{case}");
}

/// The same of a case by its number.
pub fn insist_at<R: Abort>(rt: &R, so: bool, case: u64) {
    assert!(rt; so, "{case}");
}

/// A run, by as many lanes as there are where no number is given.
pub const RUN: &str = "run S K";

/// The script of an epoch.
pub const PUT: &str = "client 1/begin/put 5 hi/commit";

/// What is told of it.
pub const ONE_EPOCH: &str = "epoch 1/txn 1 client 1 committed/put 5 hi/";

/// How many writes and syncs its run makes.
pub const STEPS: usize = 56;

/// The cells that its run reads, in this order: 24 of the opening; six of the first batch; nine of
/// the second one, and four of the lifts.
pub static READS: [u64; 43] = [
    0, 1, 2, 3, 4, 5, 6, 7, 8, 17, 18, 19, 20, 21, 22, 23, 24, 25, 26, 27, 13, 14, 15, 16, 41, 46,
    56, 42, 47, 57, 43, 39, 40, 48, 44, 45, 58, 54, 55, 49, 50, 64, 65,
];

/// How many writes a store has behind it at one of these reads, the format's 62 among them, and how
/// many writes and syncs the run has made: the opening writes two cells and syncs three times, each
/// record two and two.
pub fn made_before(place: usize) -> (u64, usize) {
    if place < 24 {
        (62, 0)
    } else if place < 30 {
        (66, 9)
    } else {
        (68, 13)
    }
}

/// Makes a call over a store with this script, and compares its status and what it tells.
pub fn expect<R: AllocGlobal + Threads + Wait + Sync + Abort>(
    rt: &R,
    store: &mut MemStore,
    words: &str,
    script: &str,
    status: u8,
    told: &str,
)
    requires { (disk_of_store store.old).out ≡ 0 }
    ensures { (disk_of_store store.new).out ≡ 0 }
{
    let answer = calls::call(rt, store, &ask_for(words, script)).expect(rt, "memory");
    let so = answer.was(u64::from(status), told) && store.starved() == 0;
    insist(rt, so, told);
}

/// A new store of so many cells, of which these calls fail.
pub fn blank<R: AllocGlobal + Abort>(rt: &R, cells: usize, fails: &[Fail]) -> MemStore
    ensures { (disk_of_store result).out ≡ 0 }
{
    calls::blank(rt.alloc(), cells, fails).expect(rt, "memory")
}

/// A store of 8 keys, of which these calls fail, just formatted: by 62 writes and 10 syncs.
pub fn formatted<R: AllocGlobal + Threads + Wait + Sync + Abort>(rt: &R, fails: &[Fail]) -> MemStore
    ensures { (disk_of_store result).out ≡ 0 }
{
    let mut store = blank(rt, CELLS, fails);
    let words = "format S K 8 2 2 3 2 2 2 2 8";
    expect(rt, &mut store, words, "", 0, "store of 109 cells/");
    insist(rt, store.moments() == 72, words);
    store
}

/// What a crash at this moment leaves: in the cells that aren't sure what they got last, or this
/// byte throughout.
pub fn left_after<R: AllocGlobal + Abort>(
    rt: &R,
    store: &MemStore,
    moment: usize,
    filling: Option<u8>,
) -> MemStore
    ensures { (disk_of_store result).out ≡ 0 }
{
    calls::left_after(store, moment, filling).expect(rt, "memory")
}
