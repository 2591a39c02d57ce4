//! Runs of scripts over a store in memory: by hand, in threads, and by hand beside the driver.

ghost use Rattle.std.specs.Prelude.{◌≡◌, ◌≤◌, false};
ghost use Rattle.ob_mem.specs.Memory.{disk_of_store};
ghost use Rattle.ob_script.specs.Script.{AreSound};

use ob_base::{Fault, Params};
use ob_conduct::RunErr;
use ob_desk::{Beat, Desk, Eager, Hasty};
use ob_flat::{FlatVault, format, head, prepare};
use ob_mem::{Fail, MemSink, MemStore};
use ob_run::{run, run_in_threads};
use ob_runner::runners;
use ob_script::{Scripts, parse};
use ob_seal::Keys;
use ob_serial::Vault;
use ob_shares::NO_SHARES;
use ob_store::{Blind, SinkWatch, Watch};
use std::alloc::Global;
use std::process::Abort;
use std::sync::Wait;
use std::thread::Threads;

fn test_keys() -> Keys {
    Keys::from_bytes(&[7; 96])
}

// A store of eight keys, two batches of two places, two writes, of which this call fails.
// Formatting makes 20 writes and 10 syncs; opening 2 writes and 3 syncs; an end 10 and 3.
fn formatted<R: AllocGlobal + Abort>(rt: &R, fail: Fail) -> MemStore
    ensures { (disk_of_store result).out ≡ 0 }
{
    let params = Params::new(8, 2, 2, 3, 2, 2, 2, 2, 8).expect(rt, "parameters in range");
    let fails = [fail].to_vec(rt.alloc()).expect(rt, "memory");
    let mut store = MemStore::new(rt.alloc(), 25, fails).expect(rt, "memory");
    assert!(rt; format(&mut store, &test_keys(), &params, &mut Blind).is_ok());
    store
}

// Who makes the clients' calls.
#[derive(Clone, Copy)]
enum Way {
    // All are made by hand, one behind the other.
    ByHand,
    InThreads,
    // Those of the first ones are made in threads, where so many starts are tried; the others by
    // hand, beside the driver.
    Starts(usize),
}

// The clients of a script, over a vault.
fn run_over<R: Threads + Wait + Sync + Abort, V: Vault, W: Watch, B: Beat>(
    rt: &R,
    alloc: Global,
    params: &Params,
    scripts: &Scripts,
    vault: &mut V,
    watch: &mut W,
    beat: &mut B,
    output: &mut MemSink,
    way: Way,
) -> Result<(), RunErr>
    requires params { V.params vault.old ≡ params.now }
    requires serves { (V.counts vault.old).spent ≡ false }
    requires whole { (W.trace watch.old).broken ≡ false }
    requires few { (V.counts vault.old).left ≤ params.now.batches }
    requires sound { AreSound scripts.now }
    requires keys { scripts.now.keys ≡ params.now.keys }
{
    let Ok(mut runners) = runners(alloc, scripts) else {
        panic!(rt; "no memory")
    };
    let clients = scripts.clients();
    let Ok(desk) = Desk::new(
        alloc,
        params,
        vault.epoch() + 1,
        vault.left(),
        clients,
        NO_SHARES,
    ) else {
        panic!(rt; "no memory")
    };
    if let Way::Starts(count) = way {
        return run_in_threads(
            rt,
            alloc,
            params,
            desk,
            clients,
            &mut runners,
            vault,
            watch,
            beat,
            output,
            count,
        );
    }
    run(
        rt,
        alloc,
        params,
        desk,
        clients,
        &mut runners,
        vault,
        watch,
        beat,
        output,
        matches!(way, Way::InThreads),
    )
}

// A script, run over a store; the run's calls are shown to a watch.
fn run_script<R: Threads + Wait + Sync + Abort, W: Watch, B: Beat>(
    rt: &R,
    alloc: Global,
    store: &mut MemStore,
    script: &[u8],
    watch: &mut W,
    beat: &mut B,
    output: &mut MemSink,
    way: Way,
) -> Result<(), RunErr>
    requires out { (disk_of_store store.old).out ≡ 0 }
    requires whole { (W.trace watch.old).broken ≡ false }
{
    let Ok(params) = head(store, &test_keys(), &mut Blind) else {
        panic!(rt; "no head")
    };
    let Ok(scripts) = parse(alloc, script, params.keys) else {
        panic!(rt; "no script")
    };
    let Ok(opening) = prepare(alloc, store, &test_keys(), &params, &mut Blind) else {
        panic!(rt; "no opening")
    };
    let mut vault = FlatVault::over(store, opening);
    run_over(
        rt, alloc, &params, &scripts, &mut vault, watch, beat, output, way,
    )
}

// A run: who makes the clients' calls, whether epochs are ended with haste, the script, and what is
// written.
type Run = (Way, bool, &'static [u8], &'static [u8]);

// Runs a script over a store: how that ends, and what it writes to an output with so much room.
fn ends<R: AllocGlobal + Threads + Wait + Sync + Abort>(
    rt: &R,
    store: &mut MemStore,
    run: &Run,
    room: usize,
) -> (Option<RunErr>, MemSink)
    requires { (disk_of_store store.old).out ≡ 0 }
{
    let &(way, hasty, script, _) = run;
    let alloc = rt.alloc();
    let mut output = MemSink::new(alloc, room, Vec::new(alloc)).expect(rt, "memory");
    let ended = if hasty {
        run_script(
            rt,
            alloc,
            store,
            script,
            &mut Blind,
            &mut Hasty,
            &mut output,
            way,
        )
    } else {
        run_script(
            rt,
            alloc,
            store,
            script,
            &mut Blind,
            &mut Eager,
            &mut output,
            way,
        )
    };
    assert!(rt; store.starved() == 0);
    (ended.err(), output)
}

// Runs a script over a store, and compares how that ends, and what it writes: where it fails, a
// front of what it is to write.
fn expect<R: AllocGlobal + Threads + Wait + Sync + Abort>(
    rt: &R,
    store: &mut MemStore,
    run: &Run,
    room: usize,
    fault: &Option<RunErr>,
)
    requires { (disk_of_store store.old).out ≡ 0 }
{
    let (ended, output) = ends(rt, store, run, room);
    let written = output.written();
    assert!(rt; ended == *fault && run.3.starts_with(written));
    assert!(rt; fault.is_some() || written.len() == run.3.len());
}

// The same over a new store, of which this call fails.
fn expect_anew<R: AllocGlobal + Threads + Wait + Sync + Abort>(
    rt: &R,
    fail: Fail,
    run: &Run,
    room: usize,
    fault: &Option<RunErr>,
) {
    let mut store = formatted(rt, fail);
    expect(rt, &mut store, run, room, fault);
}

// A call that no run comes to.
const NEVER: Fail = Fail::Write(1000);

// Two clients, each of which begins a transaction and gives it up.
const QUITTERS: &[u8] = b"client 1\nbegin\nabort\nclient 2\nbegin\nabort\n";

const GIVEN_UP: &[u8] = b"epoch 1\ntxn 1 client 1 aborted asked\ntxn 2 client 2 aborted asked\n";

const ALONE: &[u8] = b"client 1\nbegin\nput 5 hi\ncommit\nbegin\nget 5\ncommit\n";

const TWO_EPOCHS: &[u8] =
    b"epoch 1\ntxn 1 client 1 committed\nput 5 hi\nepoch 2\ntxn 1 client 1 committed\nget 5 = hi\n";

const CROSSED: &[u8] = b"client 1\nbegin\nget 7\nput 5 a\ncommit\nclient 2\nbegin\nget 5\ncommit\n";

const CONFLICT: &[u8] =
    b"epoch 1\ntxn 1 client 1 aborted conflict key 5 reader 2\nget 7 absent\ntxn 2 client 2 committed\nget 5 absent\n";

const EMPTY: &[u8] = b"client 1\nbegin\ncommit\n";

const CUT_OFF_ALONE: &[u8] = b"epoch 1\ntxn 1 client 1 aborted epoch end\n";

const CUT_OFF: &[u8] =
    b"epoch 1\ntxn 1 client 1 aborted epoch end\ntxn 2 client 2 aborted epoch end\n";

static RUNS: [Run; 14] = [
    (Way::InThreads, false, b"# nobody\n", b""),
    (
        Way::InThreads,
        false,
        b"client 1\nclient 2\nclient 64\n",
        b"",
    ),
    (Way::Starts(0), false, b"client 1\nclient 2\n", b""),
    (Way::InThreads, false, ALONE, TWO_EPOCHS),
    (Way::ByHand, false, ALONE, TWO_EPOCHS),
    (Way::Starts(0), false, ALONE, TWO_EPOCHS),
    (Way::ByHand, false, CROSSED, CONFLICT),
    (Way::Starts(0), false, CROSSED, CONFLICT),
    (Way::ByHand, true, EMPTY, CUT_OFF_ALONE),
    (Way::Starts(0), true, EMPTY, CUT_OFF_ALONE),
    (Way::ByHand, true, QUITTERS, CUT_OFF),
    (Way::ByHand, false, QUITTERS, GIVEN_UP),
    (Way::Starts(0), false, QUITTERS, GIVEN_UP),
    (
        Way::InThreads,
        false,
        b"client 1\nbegin\nabort\n",
        b"epoch 1\ntxn 1 client 1 aborted asked\n",
    ),
];

#[test]
fn the_lines_are_those_of_the_epochs(rt: HostRuntime) {
    for run in &RUNS {
        expect_anew(&rt, NEVER, run, 1000, &None);
    }
}

// The next run goes on in the next epoch.
#[test]
fn the_next_run_is_in_the_next_epoch(rt: HostRuntime) {
    let mut store = formatted(&rt, NEVER);
    let run = (Way::ByHand, false, QUITTERS, GIVEN_UP);
    expect(&rt, &mut store, &run, 1000, &None);
    let mut left = store.crash(1000, &[]).expect(&rt, "memory");
    let next = (Way::ByHand, false, QUITTERS, NEXT_GIVEN_UP);
    expect(&rt, &mut left, &next, 1000, &None);
}

const NEXT_GIVEN_UP: &[u8] =
    b"epoch 2\ntxn 1 client 1 aborted asked\ntxn 2 client 2 aborted asked\n";

// One transaction that puts, and its lines.
const PUTS: &[u8] = b"client 1\nbegin\nput 5 hi\ncommit\n";

const PUT: &[u8] = b"epoch 1\ntxn 1 client 1 committed\nput 5 hi\n";

const SINK: Option<RunErr> = Some(RunErr::Fault(Fault::SinkFault));

// Outputs that have too little room.
fn expect_cut_short<R: AllocGlobal + Threads + Wait + Sync + Abort>(rt: &R, run: &Run) {
    for room in 0..run.3.len() {
        expect_anew(rt, NEVER, run, room, &SINK);
    }
}

#[test]
fn a_failing_output_ends_the_run(rt: HostRuntime) {
    for run in &CUT_SHORT {
        expect_cut_short(&rt, run);
    }
}

static CUT_SHORT: [Run; 4] = [
    (Way::ByHand, false, ALONE, TWO_EPOCHS),
    (Way::InThreads, false, ALONE, TWO_EPOCHS),
    (Way::ByHand, false, QUITTERS, GIVEN_UP),
    (Way::Starts(0), false, PUTS, PUT),
];

// ---- traces

// How a run of a script by itself ends, in two epochs, where its output and its trace have so much
// room, and what it writes to them.
fn traced<R: AllocGlobal + Threads + Wait + Sync + Abort>(
    rt: &R,
    way: Way,
    room: usize,
    lines: usize,
) -> (Option<RunErr>, MemSink, MemSink) {
    let alloc = rt.alloc();
    let mut store = formatted(rt, NEVER);
    let mut output = MemSink::new(alloc, room, Vec::new(alloc)).expect(rt, "memory");
    let mut trace = MemSink::new(alloc, lines, Vec::new(alloc)).expect(rt, "memory");
    let mut watch = SinkWatch::new(&mut trace);
    let ended = run_script(
        rt,
        alloc,
        &mut store,
        ALONE,
        &mut watch,
        &mut Eager,
        &mut output,
        way,
    );
    (ended.err(), output, trace)
}

// Two ends: the rows in the other half of the store's cells, and the register's other place, whose
// gate the second end closes first.
const ENDS: &[u8] =
    b"W 17\nW 18\nW 19\nW 20\nW 21\nW 22\nW 23\nW 24\nS\nW 7\nS\nW 8\nS\nW 9\nW 10\nW 11\nW 12\nW 13\nW 14\nW 15\nW 16\nS\nW 6\nS\nW 5\nS\nW 6\nS\n";

// So many of these bytes are the first end's.
const FIRST: usize = 54;

// A trace without room for its last byte: the epoch in whose end it breaks is told, and no other.
fn expect_unwatched<R: AllocGlobal + Threads + Wait + Sync + Abort>(rt: &R, way: Way) {
    for lines in 0..ENDS.len() {
        let (ended, output, trace) = traced(rt, way, 1000, lines);
        let told = if lines < FIRST { PUT } else { TWO_EPOCHS };
        assert!(rt; ended == Some(RunErr::Unwatched) && output.written() == told);
        assert!(rt; trace.written() == &ENDS[..lines]);
    }
}

#[test]
fn a_failing_trace_ends_the_run_behind_its_epochs_lines(rt: HostRuntime) {
    expect_unwatched(&rt, Way::ByHand);
    expect_unwatched(&rt, Way::InThreads);
    expect_unwatched(&rt, Way::Starts(0));
}

#[test]
fn a_trace_with_room_is_whole(rt: HostRuntime) {
    for way in &[Way::ByHand, Way::InThreads] {
        let (ended, output, trace) = traced(&rt, *way, 1000, ENDS.len());
        assert!(&rt; ended == None && output.written() == TWO_EPOCHS && trace.written() == ENDS);
    }
}

#[test]
fn the_outputs_fault_is_told_where_both_fail(rt: HostRuntime) {
    for way in &[Way::ByHand, Way::InThreads] {
        let (ended, output, _) = traced(&rt, *way, 10, 10);
        assert!(&rt; ended == SINK && output.written() == &PUT[..10]);
    }
}

// ---- a store that fails

// Calls of the store that fail, and the faults that a run ends with then.
type Faults = &'static [(Fail, Option<RunErr>)];

// A call of the store that fails, and the fault that a run's first epoch ends with then: the last
// write of an end, and the last sync, leave open whether it has ended.
const FAULTS: Faults = &[
    (Fail::Write(22), STORE),
    (Fail::Write(23), STORE),
    (Fail::Write(24), STORE),
    (Fail::Write(25), STORE),
    (Fail::Write(26), STORE),
    (Fail::Write(27), STORE),
    (Fail::Write(28), STORE),
    (Fail::Write(29), STORE),
    (Fail::Write(30), STORE),
    (Fail::Write(31), UNSURE),
    (Fail::Sync(15), UNSURE),
];

const STORE: Option<RunErr> = Some(RunErr::Fault(Fault::StoreFault { unsure: None }));

const UNSURE: Option<RunErr> = Some(RunErr::Fault(Fault::StoreFault { unsure: Some(1) }));

// Calls of the store that come behind an epoch.
const BEHIND: Faults = &[(Fail::Write(32), None), (Fail::Sync(16), None)];

static FAILED: [(Run, Faults); 6] = [
    ((Way::ByHand, true, QUITTERS, CUT_OFF), FAULTS),
    ((Way::ByHand, true, QUITTERS, CUT_OFF), BEHIND),
    ((Way::Starts(0), false, PUTS, PUT), FAULTS),
    ((Way::Starts(0), false, PUTS, PUT), BEHIND),
    ((Way::ByHand, false, ALONE, TWO_EPOCHS), FAULTS),
    ((Way::InThreads, false, ALONE, TWO_EPOCHS), FAULTS),
];

fn expect_faults<R: AllocGlobal + Threads + Wait + Sync + Abort>(
    rt: &R,
    run: &Run,
    faults: &[(Fail, Option<RunErr>)],
) {
    for (fail, fault) in faults {
        expect_anew(rt, *fail, run, 1000, fault);
    }
}

#[test]
fn a_failing_store_is_told(rt: HostRuntime) {
    for (run, faults) in &FAILED {
        expect_faults(&rt, run, faults);
    }
}

// What a run over a new store writes, which ends well.
fn written_by<R: AllocGlobal + Threads + Wait + Sync + Abort>(rt: &R, run: &Run) -> MemSink {
    let mut store = formatted(rt, NEVER);
    let (ended, output) = ends(rt, &mut store, run, 1000);
    assert!(rt; ended == None);
    output
}

#[test]
fn a_hasty_end_aborts_or_comes_late(rt: HostRuntime) {
    for _ in 0..20 {
        let output = written_by(&rt, &(Way::InThreads, true, EMPTY, b""));
        let written = output.written();
        assert!(&rt; written == LATE || written == CUT_OFF_ALONE);
    }
}

const LATE: &[u8] = b"epoch 1\ntxn 1 client 1 committed\n";

// Three clients, of which no two want the same.
const THREE: &[u8] =
    b"client 1\nbegin\nput 1 a\ncommit\nbegin\ncommit\nclient 2\nbegin\nput 2 b\ncommit\nbegin\ncommit\nclient 3\nbegin\ncommit\nbegin\ncommit\n";

// What a client's first transaction leaves in a report, and its second one behind it.
static TOLD: [(&str, &str); 3] = [
    ("client 1 committed\nput 1 a\n", "client 1 committed\n"),
    ("client 2 committed\nput 2 b\n", "client 2 committed\n"),
    ("client 3 committed\n", "client 3 committed\n"),
];

// Asserts that a report tells of the two transactions of each of these clients.
fn tells_of_three<R: Abort>(rt: &R, text: &str) {
    for (first, second) in &TOLD {
        let (_, rest) = text.split_once(*first).expect(rt, "the first transaction");
        assert!(rt; rest.contains(*second), "{text}");
    }
}

fn count_committed(text: &str) -> u64 {
    let mut count = 0_u64;
    for line in text.lines() {
        if line.ends_with(" committed") {
            count = count.saturating_add(1);
        }
    }
    count
}

#[test]
fn where_starts_are_refused_clients_are_made_by_hand(rt: HostRuntime) {
    let by_hand = written_by(&rt, &(Way::ByHand, false, THREE, b""));
    for count in 0..4 {
        let output = written_by(&rt, &(Way::Starts(count), false, THREE, b""));
        let text = str::from_utf8(output.written()).ok().expect(&rt, "a text");
        tells_of_three(&rt, text);
        assert!(&rt; count_committed(text) == 6);
        assert!(&rt; count > 0 || output.written() == by_hand.written());
    }
}
