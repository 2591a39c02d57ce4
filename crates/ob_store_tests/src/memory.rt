//! Planned failures, and what a crash may leave.

ghost use Rattle.std.specs.Prelude.{◌≡◌};

use crate::steps::Step::{NoLane, NotRead, NotSynced, NotWritten, Read, Synced, Write};
use crate::steps::{Step, insist, new_sink, new_store, play};
use ob_io::{Sink, Source, put_all, read_all};
use ob_mem::{BareStore, Fail, MemSink, MemSource, MemStore, Void};
use ob_store::{SinkWatch, Store, write_run};
use std::alloc::Global;
use std::process::Abort;

// Of a source of three bytes whose second read fails: how many bytes a read of two gives, and how
// many are left then.
const READS: &[(Option<usize>, usize)] = &[(Some(2), 1), (None, 1), (Some(1), 0), (Some(0), 0)];

// A source of these bytes whose reads of these numbers fail.
fn new_source(rt: &impl Abort, alloc: Global, bytes: &[u8], fails: &[u64]) -> MemSource {
    let bytes = bytes.to_vec(alloc).expect(rt, "memory");
    let fails = fails.to_vec(alloc).expect(rt, "memory");
    MemSource::new(bytes, fails)
}

// Whether it gives all that.
fn gives_so(source: &mut MemSource) -> bool {
    let mut piece = [0; 2];
    for &(count, left) in READS {
        if source.read(&mut piece).ok() != count || source.left().len() != left {
            return false;
        }
    }
    piece == [3, 2] && source.faults() == 1
}

#[test]
fn a_source_fails_at_the_named_calls(rt: HostRuntime) {
    let mut source = new_source(&rt, rt.alloc(), &[1, 2, 3], &[1]);
    insist(&rt, gives_so(&mut source), "three bytes");
}

#[test]
fn a_source_is_read_to_its_end(rt: HostRuntime) {
    let mut source = new_source(&rt, rt.alloc(), &[7; 5000], &[]);
    let read = read_all(rt.alloc(), &mut source, 10_000).ok();
    let bytes = read.expect(&rt, "bytes");
    insist(&rt, bytes.len() == 5000, "its end");
}

// Of a sink with room for five bytes whose second write fails: what is written, and how much of it
// is taken.
const WRITES: &[(&[u8], Option<usize>)] = &[(b"ab", Some(2)), (b"cd", None), (b"cdef", Some(3))];

// Whether it takes all that, and nothing behind it.
fn takes_so(sink: &mut MemSink) -> bool {
    for &(bytes, count) in WRITES {
        if sink.write(bytes).ok() != count {
            return false;
        }
    }
    put_all(sink, b"g").is_err() && sink.written() == b"abcde".as_slice() && sink.faults() == 2
}

#[test]
fn a_sink_fails_at_the_named_calls_and_without_room(rt: HostRuntime) {
    let mut sink = new_sink(&rt, rt.alloc(), 5, &[1]);
    insist(&rt, takes_so(&mut sink), "five bytes");
}

#[test]
fn a_void_takes_all(rt: HostRuntime) {
    insist(&rt, put_all(&mut Void, b"abc").is_ok(), "three bytes");
}

const PLANNED: [Fail; 4] = [
    Fail::Write(1),
    Fail::Sync(0),
    Fail::Lane(1),
    Fail::Read { cell: 2, writes: 3 },
];

// On three cells, where these calls fail.
const FAILING: &[Step] = &[
    Write(2, 1),
    NotWritten(2, 2),
    NotSynced,
    NotWritten(3, 3),
    NotRead(2),
    NoLane,
    Read(7, 0),
];

#[test]
fn planned_calls_of_a_store_fail(rt: HostRuntime) {
    let mut store = new_store(&rt, rt.alloc(), 3, &PLANNED);
    play(&rt, &mut store, FAILING);
    let counts = store.faults() == 5 && store.starved() == 0;
    insist(&rt, counts, "five faults");
}

// Two cells, of which the first is sure.
const HALF_SURE: &[Step] = &[Write(0, 1), Synced, Write(1, 2), NotSynced];

// The moment of a crash, and what is read then.
const CRASHES: &[(usize, &[Step])] = &[
    (0, &[Read(0, 0), Read(1, 0), Read(5, 0)]),
    (1, &[Read(0, 7), Read(1, 0), Read(5, 0)]),
    (2, &[Read(0, 1), Read(1, 0), Read(5, 0)]),
    (3, &[Read(0, 1), Read(1, 9), Read(5, 0)]),
    (4, &[Read(0, 1), Read(1, 9), Read(5, 0)]),
    (9, &[Read(0, 1), Read(1, 9), Read(5, 0)]),
];

// Makes calls on what a crash leaves that fills cells with these bytes, the second one twice.
fn play_filled(rt: &impl Abort, store: &MemStore, moment: usize, steps: &[Step]) {
    let fillings = [(0, [7; 128]), (1, [8; 128]), (1, [9; 128]), (5, [9; 128])];
    let left = store.crash(moment, &fillings);
    play(rt, &mut left.expect(rt, "memory"), steps);
}

const LAST: &[Step] = &[Read(1, 2)];

#[test]
fn a_crash_fills_what_is_not_sure(rt: HostRuntime) {
    let mut store = new_store(&rt, rt.alloc(), 4, &[Fail::Sync(1)]);
    play(&rt, &mut store, HALF_SURE);
    for (moment, steps) in CRASHES {
        play_filled(&rt, &store, *moment, steps);
    }
    let left = store.crash(4, &[]);
    play(&rt, &mut left.expect(&rt, "memory"), LAST);
}

// On a store of two cells.
const BARE: &[Step] = &[Write(1, 5), NotWritten(2, 5), Synced, Read(1, 5)];

#[test]
fn a_bare_store_reads_what_was_written(rt: HostRuntime) {
    let mut store = BareStore::new(rt.alloc(), 2).expect(&rt, "memory");
    play(&rt, &mut store, BARE);
}

// What two runs leave, of which the second one's last write failed.
const RUNS: &[Step] = &[Read(0, 0), Read(1, 5), Read(2, 7), Read(3, 8)];

// Writes two runs, which is shown.
fn write_runs(rt: &impl Abort, sink: &mut MemSink, store: &mut MemStore)
    requires { store.old.log.out ≡ 0 }
    ensures { store.new.log.out ≡ 0 }
{
    let mut watch = SinkWatch::new(sink);
    let first = write_run(store, 1, &[[5; 128], [6; 128]], &mut watch);
    let second = write_run(store, 2, &[[7; 128], [8; 128], [9; 128]], &mut watch);
    insist(rt, first.is_ok() && second.is_err(), "two runs");
}

#[test]
fn a_run_is_written_cell_by_cell(rt: HostRuntime) {
    let mut store = new_store(&rt, rt.alloc(), 4, &[Fail::Write(3)]);
    let mut sink = new_sink(&rt, rt.alloc(), 40, &[]);
    write_runs(&rt, &mut sink, &mut store);
    let shown = sink.written() == b"W 1\nW 2\nW 2\nW 3\n".as_slice();
    insist(&rt, shown, "four writes");
    play(&rt, &mut store, RUNS);
}
