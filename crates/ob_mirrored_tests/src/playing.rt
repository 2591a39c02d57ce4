//! Calls of the top over two stores in memory, compared with what each has to answer.

ghost use Rattle.std.specs.Prelude.{◌≡◌};
ghost use Rattle.ob_mem.specs.Memory.{disk_of_store};
ghost use Rattle.ob_mirrored.specs.Mirrored.{SecondIn, SecondStays};

use ob_desk::Eager;
use ob_lanes::Lanes;
use ob_mem::{Fail, MemSink};
use ob_mirrored::{Room, obladi_mirrored};
use ob_seal::ListTape;
use ob_store::Store;
use ob_top_calls::{
    CELLS, KEYS, NEVER, Noting, WIDE, has, let_noting_go, noted, noted_blank, sink_of, source_of,
    words_of,
};
use std::process::Abort;
use std::sync::Wait;
use std::thread::Threads;

/// Ends the test where this isn't so, and names the case.
pub fn insist<R: Abort>(rt: &R, so: bool, case: &str) {
    assert!(rt; so, "{case}");
}

/// A call of the top: its words and its script, and what it has to answer, its status and what it
/// tells. A `/` stands for the end of a line.
#[derive(Clone, Copy)]
pub struct Call {
    pub words: &'static str,
    pub script: &'static str,
    pub status: u8,
    pub told: &'static str,
}

/// A run of an epoch over a mirror.
pub const PUT: Call = Call {
    words: "run S K --mirror F",
    script: "client 1/begin/put 5 hi/commit",
    status: 0,
    told: "epoch 1/txn 1 client 1 committed/put 5 hi/",
};

/// A run of two epochs over one store.
pub const TWO_ALONE: Call = Call {
    words: "run S K",
    script: "client 1/begin/put 5 hi/commit/begin/get 5/commit",
    status: 0,
    told: "epoch 1/txn 1 client 1 committed/put 5 hi/epoch 2/txn 1 client 1 committed/get 5 = hi/",
};

/// No call comes to this number.
pub const NONE: Fail = Fail::Lane(NEVER);

/// Makes a call over two stores, with what is handed in as its trace, and compares its status and what
/// it tells.
pub fn expect_under<
    'a,
    R: AllocGlobal + Threads + Wait + Sync + Abort,
    S: Lanes + 'a,
    M: Store + 'a,
>(
    rt: &R,
    first: &mut S,
    second: &mut Option<M>,
    room: Room<S::Lane, M::Lane>,
    call: &Call,
    trace: &mut Option<MemSink>,
)
    requires first { (S.disk first.old).out ≡ 0 }
    requires second { SecondIn M.disk second.old }
    ensures first { (S.disk first.new).out ≡ 0 }
    ensures second { SecondStays M.disk second.old second.new }
{
    let words = words_of(rt.alloc(), call.words).expect(rt, "memory");
    let mut tape = ListTape::new(rt.alloc(), &[]).expect(rt, "memory");
    let mut input = source_of(rt.alloc(), call.script, NEVER).expect(rt, "memory");
    let mut output = sink_of(rt.alloc(), WIDE, NEVER).expect(rt, "memory");
    let status = obladi_mirrored(
        rt,
        &words,
        Some(KEYS.as_bytes()),
        Some(first),
        second,
        room,
        &mut tape,
        &mut input,
        &mut output,
        trace,
        &mut Eager,
    );
    insist(
        rt,
        status == call.status && has(&output, call.told),
        call.told,
    );
}

/// The same over two stores of one kind.
pub fn expect<R: AllocGlobal + Threads + Wait + Sync + Abort>(
    rt: &R,
    first: &mut Noting,
    second: &mut Option<Noting>,
    call: &Call,
    trace: &mut Option<MemSink>,
)
    requires first { (disk_of_store first.old.store).out ≡ 0 }
    requires second { SecondIn (λ n. disk_of_store n.store) second.old }
    ensures first { (disk_of_store first.new.store).out ≡ 0 }
    ensures second { SecondStays (λ n. disk_of_store n.store) second.old second.new }
{
    expect_under(rt, first, second, Room::new(), call, trace);
}

/// The same over one store alone, without a trace.
pub fn expect_alone<R: AllocGlobal + Threads + Wait + Sync + Abort>(
    rt: &R,
    store: &mut Noting,
    call: &Call,
)
    requires { (disk_of_store store.old.store).out ≡ 0 }
    ensures { (disk_of_store store.new.store).out ≡ 0 }
{
    let mut none: Option<Noting> = None;
    let mut untraced: Option<MemSink> = None;
    expect(rt, store, &mut none, call, &mut untraced);
}

/// Both halves behind a run.
#[derive(Drop)]
pub struct Halves {
    pub first: Noting,
    pub second: Noting,
}

/// Lets both go.
pub fn let_both_go(halves: Halves) {
    let Halves { first, second } = halves;
    let_noting_go(first);
    let_noting_go(second);
}

/// A call over these two, with what is handed in as its trace: both behind it.
pub fn run_over<R: AllocGlobal + Threads + Wait + Sync + Abort>(
    rt: &R,
    mut first: Noting,
    second: Noting,
    call: &Call,
    trace: &mut Option<MemSink>,
) -> Halves
    requires first { (disk_of_store first.store).out ≡ 0 }
    requires second { (disk_of_store second.store).out ≡ 0 }
    ensures first { (disk_of_store result.first.store).out ≡ 0 }
    ensures second { (disk_of_store result.second.store).out ≡ 0 }
{
    let mut second: Option<Noting> = Some(second);
    expect(rt, &mut first, &mut second, call, trace);
    let second = second.expect(rt, "the second");
    Halves { first, second }
}

/// The same over a first half that was just formatted and a second one that is new, of each of which
/// this call fails.
pub fn ran<R: AllocGlobal + Threads + Wait + Sync + Abort>(
    rt: &R,
    first_fails: Fail,
    second_fails: Fail,
    call: &Call,
) -> Halves
    ensures first { (disk_of_store result.first.store).out ≡ 0 }
    ensures second { (disk_of_store result.second.store).out ≡ 0 }
{
    let mut none: Option<MemSink> = None;
    let first = formatted(rt, first_fails);
    let second = blank(rt, CELLS, second_fails);
    run_over(rt, first, second, call, &mut none)
}

/// A run of two epochs over one store alone, behind so many epochs, of which the second one reads
/// what was put.
pub fn expect_next<R: AllocGlobal + Threads + Wait + Sync + Abort>(
    rt: &R,
    store: &mut Noting,
    ended: u64,
)
    requires { (disk_of_store store.old.store).out ≡ 0 }
    ensures { (disk_of_store store.new.store).out ≡ 0 }
{
    let told = match ended {
        0 => "epoch 1/txn 1 client 1 committed/epoch 2/txn 1 client 1 committed/get 5 absent/",
        1 => "epoch 2/txn 1 client 1 committed/epoch 3/txn 1 client 1 committed/get 5 = hi/",
        _ => "epoch 3/txn 1 client 1 committed/epoch 4/txn 1 client 1 committed/get 5 = hi/",
    };
    let call = Call {
        words: "run S K",
        script: "client 1/begin/commit/begin/get 5/commit/",
        status: 0,
        told,
    };
    expect_alone(rt, store, &call);
}

/// A new store of so many cells, of which this call fails.
pub fn blank<R: AllocGlobal + Abort>(rt: &R, cells: usize, fail: Fail) -> Noting
    ensures { (disk_of_store result.store).out ≡ 0 }
{
    noted_blank(rt.alloc(), cells, &[fail]).expect(rt, "memory")
}

/// Makes a store of 8 keys.
pub const FORMAT: Call = Call {
    words: "format S K 8 2 2 3 2 2 2 2 8",
    script: "",
    status: 0,
    told: "store of 109 cells/",
};

/// A store of 8 keys, of which this call fails, just formatted: by 62 writes and 10 syncs.
pub fn formatted<R: AllocGlobal + Threads + Wait + Sync + Abort>(rt: &R, fail: Fail) -> Noting
    ensures { (disk_of_store result.store).out ≡ 0 }
{
    let mut made = blank(rt, CELLS, fail);
    expect_alone(rt, &mut made, &FORMAT);
    let Noting { store, .. } = made;
    insist(rt, store.moments() == 72, "72 writes and syncs");
    noted(rt.alloc(), store).expect(rt, "memory")
}

/// The text of bytes.
pub fn text_of<'a, R: Abort>(rt: &R, bytes: &'a [u8]) -> &'a str {
    str::from_utf8(bytes).ok().expect(rt, "a text")
}

/// What was asked of a store, in lines.
pub fn asked<'a, R: Abort>(rt: &R, store: &'a Noting) -> &'a str {
    insist(rt, store.told.faults() == 0, "room for all lines");
    text_of(rt, store.told.written())
}
