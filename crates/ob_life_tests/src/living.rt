//! Calls of the top over one store in memory, with a crash between two of them: what each answers
//! is what the next one asks for, all of them are one life of the store, and of each run the
//! headline holds.

ghost use Rattle.std.specs.Prelude.{◌≡◌, ◌≢◌, IfOk, IfErr};
ghost use Rattle.ob_life_tests.specs.Lived.{AreOneLife, HasRun, HasFormatted};
ghost use Rattle.ob_mem.specs.Memory.{disk_of_store};
ghost use Rattle.ob_seal.specs.Draws.{list_drawn};
ghost use Rattle.ob_seal.specs.declared.keys.Keys.{Keys};
ghost use Rattle.ob_top.specs.Outside.{Given, words_given};

use crate::maps::insist;
use ob_desk::Eager;
use ob_mem::{MemSink, MemSource, MemStore};
use ob_pads::pads_are_fresh;
use ob_seal::ListTape;
use ob_top::{obladi, stood_again};
use ob_vault::runs_are_one_life;
use ob_word_forms::forms_are_read;
use std::process::Abort;
use std::sync::Wait;
use std::thread::Threads;

// The keys of the bytes 0 to 95.
const KEYS: &str = "\
    000102030405060708090a0b0c0d0e0f101112131415161718191a1b1c1d1e1f\
    202122232425262728292a2b2c2d2e2f303132333435363738393a3b3c3d3e3f\
    404142434445464748494a4b4c4d4e4f505152535455565758595a5b5c5d5e5f";

// The cells of a store of 8 keys.
const CELLS: usize = 109;

// Room for each output.
const WIDE: usize = 1000;

fn sink<R: AllocGlobal + Abort>(rt: &R) -> MemSink {
    let made = MemSink::new(rt.alloc(), WIDE, Vec::new(rt.alloc()));
    made.expect(rt, "memory")
}

fn source<R: AllocGlobal + Abort>(rt: &R, text: &str) -> MemSource {
    let text = text.as_bytes().to_vec(rt.alloc());
    MemSource::new(text.expect(rt, "memory"), Vec::new(rt.alloc()))
}

// Makes an empty store of 8 keys, and answers the status.
fn format_store<R: AllocGlobal + Threads + Wait + Sync + Abort>(
    rt: &R,
    keys: &[u8],
    store: &mut MemStore,
) -> u8
    requires none_out { (disk_of_store store.old).out ≡ 0 }
    ensures none_out { (disk_of_store store.new).out ≡ 0 }
    ensures made { result ≡ 0 → (made_by : Given)
        × HasFormatted disk_of_store keys.now made_by store.old store.new }
{
    forms_are_read();
    let words = [
        "format", "store", "keys", "8", "2", "2", "3", "2", "2", "2", "2", "8",
    ];
    let tape = ListTape::new(rt.alloc(), &[]);
    let mut trace: Option<MemSink> = None;
    obladi(
        rt,
        &words,
        Some(keys),
        Some(store),
        &mut tape.expect(rt, "memory"),
        &mut source(rt, ""),
        &mut sink(rt),
        &mut trace,
        &mut Eager,
    )
}

// Runs a script by hand, with a new tape, and answers the status.
fn run_store<R: AllocGlobal + Threads + Wait + Sync + Abort>(
    rt: &R,
    keys: &[u8],
    store: &mut MemStore,
    tape: &mut ListTape,
    script: &str,
    output: &mut MemSink,
) -> u8
    requires none_out { (disk_of_store store.old).out ≡ 0 }
    requires unstarted { tape.old.generation ≡ 0 }
    ensures none_out { (disk_of_store store.new).out ≡ 0 }
    ensures ran { result ≡ 0 → HasRun disk_of_store keys.now
        (words_given tape.new.generation (list_drawn tape.new)) store.old store.new }
{
    forms_are_read();
    let mut trace: Option<MemSink> = None;
    obladi(
        rt,
        &["run", "store", "keys"],
        Some(keys),
        Some(store),
        tape,
        &mut source(rt, script),
        output,
        &mut trace,
        &mut Eager,
    )
}

// A format, a run, a crash behind all that it did, and a run on what that left: the store then, and
// what the second run printed; or the status that told why one of them ended early.
fn live<R: AllocGlobal + Threads + Wait + Sync + Abort>(
    rt: &R,
    first: &str,
    second: &str,
) -> Result<(MemStore, MemSink), u8>
    ensures lived { IfOk result (λ end. (keys : Keys) × (made_by : Given) × (first_by : Given)
        × (second_by : Given) × (formatted : MemStore)
        × AreOneLife disk_of_store keys made_by first_by second_by formatted end.0) }
    ensures told { IfErr result (λ status. status ≢ 0) }
{
    runs_are_one_life::<MemStore>();
    pads_are_fresh::<MemStore>();
    stood_again::<MemStore>();
    let keys = KEYS.as_bytes();
    let mut store = MemStore::new(rt.alloc(), CELLS, Vec::new(rt.alloc())).expect(rt, "memory");
    let status = format_store(rt, keys, &mut store);
    if status != 0 {
        return Err(status);
    }
    let mut tape = ListTape::new(rt.alloc(), &[]).expect(rt, "memory");
    let status = run_store(rt, keys, &mut store, &mut tape, first, &mut sink(rt));
    if status != 0 {
        return Err(status);
    }
    let mut left = store.crash(store.moments(), &[]).expect(rt, "memory");
    let mut tape = ListTape::new(rt.alloc(), &[]).expect(rt, "memory");
    let mut output = sink(rt);
    let status = run_store(rt, keys, &mut left, &mut tape, second, &mut output);
    if status != 0 {
        return Err(status);
    }
    Ok((left, output))
}

#[test]
fn two_runs_are_one_life(rt: HostRuntime) {
    let lived = live(
        &rt,
        "client 1\nbegin\nput 5 hi\ncommit",
        "client 1\nbegin\nget 5\ncommit",
    );
    let (_, output) = lived.ok().expect(&rt, "a life");
    let told = "epoch 2\ntxn 1 client 1 committed\nget 5 = hi\n";
    insist(&rt, output.written() == told.as_bytes(), told);
}
