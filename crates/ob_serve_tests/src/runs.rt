//! Runs of two clients over a store in memory.

ghost use Rattle.std.specs.Prelude.{◌≡◌, suc};
ghost use Rattle.ob_mem.specs.Memory.{disk_of_store};
ghost use Rattle.ob_desk.specs.Desk.{new_desk, setup_of};
ghost use Rattle.ob_driver.specs.Testing.{two_clients};
ghost use Rattle.ob_run.specs.Ends.{IsQuiet};
ghost use Rattle.ob_serve_tests.specs.Pairs.{AreTwo, CanOpen};

use crate::scripted::{Heard, Hold, clients, heard_at};
use ob_base::Params;
use ob_conduct::RunErr;
use ob_desk::{Desk, Eager};
use ob_flat::{FlatVault, format, head, prepare};
use ob_mem::{Fail, MemSink, MemStore};
use ob_run::run;
use ob_seal::Keys;
use ob_serial::Vault;
use ob_session::Runner;
use ob_shares::NO_SHARES;
use ob_store::{Blind, Store};
use std::alloc::Global;
use std::process::Abort;
use std::sync::Wait;
use std::sync::atomic::Ordering::SeqCst;
use std::thread::Threads;

/// Keys of 96 bytes of 7.
pub fn test_keys() -> Keys {
    Keys::from_bytes(&[7; 96])
}

/// A write that no run of the tests comes to.
pub const NEVER: Fail = Fail::Write(1000);

/// So many cells of zeros, of which this call fails.
pub fn blank(rt: &impl Abort, alloc: Global, cells: usize, fail: Fail) -> MemStore
    ensures { (disk_of_store result).out ≡ 0 }
{
    let fails = [fail].to_vec(alloc).expect(rt, "memory");
    MemStore::new(alloc, cells, fails).expect(rt, "memory")
}

/// Eight keys, two batches of two places, two writes.
pub fn small(rt: &impl Abort) -> Params {
    Params::new(8, 2, 2, 3, 2, 2, 2, 2, 8).expect(rt, "parameters in range")
}

/// A new plain store of these, of which this call fails.
pub fn formatted(rt: &impl Abort, alloc: Global, fail: Fail) -> MemStore
    ensures { (disk_of_store result).out ≡ 0 }
{
    let params = small(rt);
    let mut store = blank(rt, alloc, 25, fail);
    assert!(rt; format(&mut store, &test_keys(), &params, &mut Blind).is_ok());
    store
}

/// An output that takes so many bytes.
pub fn new_output(rt: &impl Abort, alloc: Global, room: usize) -> MemSink {
    let Ok(output) = MemSink::new(alloc, room, Vec::new(alloc)) else {
        panic!(rt; "no memory")
    };
    output
}

/// Opens a plain store.
pub fn open<'a, S: Store>(rt: &impl Abort, alloc: Global, store: &'a mut S) -> FlatVault<'a, S>
    requires { (S.disk store.old).out ≡ 0 }
{
    let Ok(params) = head(store, &test_keys(), &mut Blind) else {
        panic!(rt; "no head")
    };
    let Ok(opening) = prepare(alloc, store, &test_keys(), &params, &mut Blind) else {
        panic!(rt; "no opening")
    };
    FlatVault::over(store, opening)
}

/// A desk of the clients 1 and 2 at a vault over a store of the tests, which serves.
pub fn desk_at<V: Vault>(rt: &impl Abort, alloc: Global, params: &Params, vault: &V) -> Desk
    ensures opens { CanOpen params.now (V.counts vault.now) }
    ensures desk { result
        ≡ new_desk (setup_of params.now) (suc (V.counts vault.now).epoch)
        (V.counts vault.now).left two_clients }
{
    assert!(rt; params.keys == 8);
    assert!(rt; !vault.spent());
    assert!(rt; vault.left() <= params.batches);
    let Ok(desk) = Desk::new(
        alloc,
        params,
        vault.epoch() + 1,
        vault.left(),
        &[1, 2],
        NO_SHARES,
    ) else {
        panic!(rt; "no memory")
    };
    desk
}

// ---- runs

/// A run of both clients.
#[derive(Clone, Copy)]
pub enum Run {
    /// In threads, over a plain store: the room of its output.
    Plain { room: usize },
    /// In threads or by hand, where the second client finds no memory.
    Starved { threads: bool },
    /// In threads, over a ring store that holds its first batch.
    Batch,
    /// In threads, over a ring store that holds its first end: the room of its output, and whether
    /// the second client stops the desk meanwhile.
    End { room: usize, stops: bool },
    /// The next one at that ring store, by hand, in which each client reads one key.
    Next,
}

const PLAIN: &[u8] =
    b"client 1\nbegin\nput 5 hi\ncommit\nbegin\nget 5\ncommit\nclient 2\nbegin\nget 6\ncommit\n";

const STARVED: &[u8] = b"client 1\nbegin\nabort\nclient 2\nbegin\nabort\n";

// Each client waits for a key.
const BATCH: &[u8] = b"client 1\nbegin\nget 5\ncommit\nclient 2\nbegin\nget 6\nput 6 b\ncommit\n";

const END: &[u8] =
    b"client 1\nbegin\nput 5 a\ncommit\nclient 2\nbegin\nabort\nbegin\nput 6 b\ncommit\n";

// In an epoch that was cut off no batch is left, so the keys are read in the one behind it.
const READS: &[u8] = b"client 1\nbegin\ncommit\nbegin\nget 5\ncommit\n\
    client 2\nbegin\ncommit\nbegin\nget 6\ncommit\n";

// Its script, the room of its output, whether the second client stops the desk, and whether the
// clients run in threads.
fn setting_of(run: Run) -> (&'static [u8], usize, bool, bool) {
    match run {
        Run::Plain { room } => (PLAIN, room, false, true),
        Run::Starved { threads } => (STARVED, 1000, true, threads),
        Run::Batch => (BATCH, 1000, false, true),
        Run::End { room, stops } => (END, room, stops, true),
        Run::Next => (READS, 1000, false, false),
    }
}

/// How a run went: how it ended, whether a write was held, what each client was told, and what was
/// written.
#[derive(Drop)]
pub struct Went {
    pub fault: Option<RunErr>,
    pub reached: bool,
    pub first: Heard,
    pub second: Heard,
    pub output: MemSink,
}

// Runs the clients 1 and 2 over a vault.
fn run_over<R: Threads + Wait + Sync + Abort, V: Vault, U: Runner + Send>(
    rt: &R,
    alloc: Global,
    params: &Params,
    vault: &mut V,
    runners: &mut Vec<U>,
    output: &mut MemSink,
    threads: bool,
) -> Result<(), RunErr>
    requires params { V.params vault.old ≡ params.now }
    requires two { AreTwo U.client U.bound U.fits runners.old.items }
    requires quiet { IsQuiet U.turn }
{
    let desk = desk_at(rt, alloc, params, vault);
    let clients = [1, 2];
    run(
        rt, alloc, params, desk, &clients, runners, vault, &mut Blind, &mut Eager, output, threads,
    )
}

/// Runs both clients over a vault.
pub fn run_pair<R: Threads + Wait + Sync + Abort, V: Vault>(
    rt: &R,
    alloc: Global,
    params: &Params,
    vault: &mut V,
    hold: &Hold,
    run: Run,
) -> Went
    requires { V.params vault.old ≡ params.now }
{
    let (script, room, stops, threads) = setting_of(run);
    let mut output = new_output(rt, alloc, room);
    let mut pair = clients(rt, alloc, script, hold, stops);
    let ended = run_over(rt, alloc, params, vault, &mut pair, &mut output, threads);
    Went {
        fault: ended.err(),
        reached: hold.reached.load(SeqCst),
        first: heard_at(&pair, 0),
        second: heard_at(&pair, 1),
        output,
    }
}

/// Runs both clients over a new plain store, of which this call fails.
pub fn run_plain<R: Threads + Wait + Sync + Abort>(
    rt: &R,
    alloc: Global,
    fail: Fail,
    run: Run,
) -> Went {
    let mut store = formatted(rt, alloc, fail);
    let mut vault = open(rt, alloc, &mut store);
    let params = vault.params();
    run_pair(rt, alloc, &params, &mut vault, &Hold::new(true), run)
}
