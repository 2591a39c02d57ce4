//! A store that asks, at each of its writes, whether its line is in the trace.

ghost use Rattle.std.specs.Prelude.{◌≡◌, ◌≤◌, ◌+◌, ◌-◌, ◌∷◌, [], OnOk, OnErr, IfOk, None};
ghost use Rattle.ob_base.specs.Causes.{HasCause};
ghost use Rattle.ob_store.specs.declared.event.Event.{Event};
ghost use Rattle.ob_store.specs.Images.{SameBut, Tears, Shrinks, Elapses, IsSynced};
ghost use Rattle.ob_store.specs.Calls.{GoesOn, Serves, IsFailed, Keeps, Notes, NotesLane, TellsOn, IsFreshLane, AddsFaults};
ghost use Rattle.ob_mem.specs.Heard.{told};
ghost use Rattle.ob_mem.specs.Memory.{disk_of_store};
ghost use Rattle.ob_mem.specs.Laws.{counts_now, only_now, includes_reads};

use crate::calling::{EMPTY, FORMAT, RUNS, ask_for, blank, insist};
use ob_base::Failed;
use ob_claims::{Claims, Round};
use ob_desk::Eager;
use ob_io::Sink;
use ob_lanes::{Hand, Lanes, SealedJobs, read_hands};
use ob_mem::{MemLane, MemStore};
use ob_store::Store;
use ob_top_calls::{CELLS, NEVER, WIDE, call_by, let_go, sink_of};
use std::process::Abort;
use std::sync::Wait;
use std::sync::atomic::AtomicU64;
use std::sync::atomic::Ordering::SeqCst;
use std::thread::Threads;

// The cell of a write's line, and one more; 0 where these bytes are no such line.
fn cell_behind(line: &[u8]) -> u64 {
    let Ok(text) = str::from_utf8(line) else {
        return 0;
    };
    let Some(cell) = text
        .strip_prefix("W ")
        .and_then(|rest| rest.strip_suffix('\n'))
    else {
        return 0;
    };
    match cell.parse::<u64>() {
        Ok(cell) => cell.saturating_add(1),
        Err(_) => 0,
    }
}

/// A trace that tells of its last line which cell's write it is, and one more.
#[derive(Drop)]
pub struct LastLine<'a> {
    last: &'a AtomicU64,
}

impl Sink for LastLine<'_> {
    ghost written = { λ _. None };

    ghost faults = { λ _. 0 };

    fn write(&mut self, bytes: &[u8]) -> Result<usize, Failed> {
        self.last.store(cell_behind(bytes), SeqCst);
        Ok(bytes.len())
    }
}

// How often a store was written to, and how often with another last line than the write's own.
#[derive(Clone, Copy)]
struct Writes {
    all: u64,
    late: u64,
}

// Counts a write of a cell.
fn count(writes: &mut Writes, last: &AtomicU64, cell: u64) {
    writes.all = writes.all.saturating_add(1);
    if last.load(SeqCst) != cell.saturating_add(1) {
        writes.late = writes.late.saturating_add(1);
    }
}

/// A store in memory beside such a trace.
#[derive(Drop)]
pub struct Asking<'a> {
    store: MemStore,
    last: &'a AtomicU64,
    writes: Writes,
}

impl Store for Asking<'_> {
    type Lane = MemLane;

    ghost disk = { λ m. disk_of_store m.store };

    ghost lane_faults = { λ lane. lane.faults };

    ghost lane_seen = { λ lane. told lane.starved lane.events.items };

    ghost counts_now = { λ m t c le left. counts_now m.store.past t c le left };

    ghost only_now = { λ m c left. only_now m.store.past c left };

    ghost includes_reads = { λ m tells leaves. includes_reads m.store.past };

    fn lane(&mut self) -> Result<MemLane, Failed> {
        self.store.lane()
    }

    fn read(&self, lane: &mut MemLane, cell: u64, out: &mut [u8; 128]) -> Result<(), Failed> {
        self.store.read(lane, cell, out)
    }

    fn absorb(&mut self, lane: MemLane) {
        self.store.absorb(lane);
    }

    fn write(&mut self, cell: u64, bytes: &[u8; 128]) -> Result<(), Failed> {
        count(&mut self.writes, self.last, cell);
        self.store.write(cell, bytes)
    }

    fn sync(&mut self) -> Result<(), Failed> {
        self.store.sync()
    }
}

impl Lanes for Asking<'_> {
    fn read_parts<R: Threads + Sync>(
        &self,
        rt: &R,
        hands: &mut [Option<Hand<MemLane>>],
        claims: &Claims,
        round: &Round,
        asked: &SealedJobs,
    ) {
        read_hands(rt, self, hands, claims, round, asked);
    }
}

// Makes a call, each of whose lines is noted.
fn make<R: AllocGlobal + Threads + Wait + Sync + Abort>(
    rt: &R,
    store: &mut Asking<'_>,
    last: &AtomicU64,
    words: &str,
)
    requires { (disk_of_store store.old.store).out ≡ 0 }
    ensures { (disk_of_store store.new.store).out ≡ 0 }
{
    let mut output = sink_of(rt.alloc(), WIDE, NEVER).expect(rt, "memory");
    let mut trace = Some(LastLine { last });
    let ask = ask_for(words, EMPTY);
    let status = call_by(rt, store, &ask, &mut output, &mut trace, &mut Eager);
    insist(rt, status.expect(rt, "memory") == 0, words);
}

// A format writes 62 times, and a run of one epoch 46 times.
fn expect_none_late<R: AllocGlobal + Threads + Wait + Sync + Abort>(rt: &R, words: &str) {
    let last = AtomicU64::new(0);
    let mut store = Asking {
        store: blank(rt, CELLS, &[]),
        last: &last,
        writes: Writes { all: 0, late: 0 },
    };
    make(rt, &mut store, &last, FORMAT);
    make(rt, &mut store, &last, words);
    let none_late = store.writes.all == 108 && store.writes.late == 0;
    insist(rt, none_late, words);
    let Asking { store, .. } = store;
    let_go(store);
}

#[test]
fn each_line_stands_before_its_write(rt: HostRuntime) {
    for &words in &RUNS {
        expect_none_late(&rt, words);
    }
}
