//! Traces: the lines that a sink gets, and when it gets them.

ghost use Rattle.std.specs.Prelude.{◌≡◌, None};
ghost use Rattle.ob_mem.specs.Heard.{told};
ghost use Rattle.ob_mem.specs.Memory.{disk_of_store};
ghost use Rattle.ob_mem.specs.Laws.{counts_now, only_now, includes_reads};

use crate::steps::{insist, insist_at, new_sink, new_store};
use ob_base::{Failed, Params};
use ob_io::Sink;
use ob_mem::{Fail, MemLane, MemStore};
use ob_store::{Note, SinkWatch, Start, Store, Watch, sync_noted, write_noted, write_run};
use std::cell::Cell;
use std::process::Abort;

// How a trace begins.
enum Begins {
    // With these parameters.
    Format([u32; 9]),
    Run { mirrored: bool },
}

// A sink's room, and the number of its call that fails; how a trace begins; what is written of it
// and of four notes; and whether the watch has broken then.
struct Trace {
    room: usize,
    fails: &'static [u64],
    begins: Begins,
    written: &'static [u8],
    broken: bool,
}

const NOTES: [Note; 4] = [
    Note::Label(3),
    Note::Read(41),
    Note::Write(u64::MAX),
    Note::Sync,
];

const SMALL: [u32; 9] = [8, 2, 2, 3, 2, 2, 2, 2, 8];

const LARGEST: [u32; 9] = [65536, 16, 16, 32, 16, 64, 256, 64, 1024];

// A line is one call of the sink. Once that fails, or takes a front of the line, no more is
// written.
const TRACES: &[Trace] = &[
    Trace {
        room: 200,
        fails: &[],
        begins: Begins::Format(SMALL),
        written: b"P 8 2 2 3 2 2 2 2 8\nL 3\nR 41\nW 18446744073709551615\nS\n",
        broken: false,
    },
    Trace {
        room: 200,
        fails: &[],
        begins: Begins::Run { mirrored: false },
        written: b"O\nL 3\nR 41\nW 18446744073709551615\nS\n",
        broken: false,
    },
    Trace {
        room: 200,
        fails: &[0],
        begins: Begins::Run { mirrored: false },
        written: b"",
        broken: true,
    },
    Trace {
        room: 200,
        fails: &[1],
        begins: Begins::Format(LARGEST),
        written: b"P 65536 16 16 32 16 64 256 64 1024\n",
        broken: true,
    },
    Trace {
        room: 200,
        fails: &[3],
        begins: Begins::Run { mirrored: false },
        written: b"O\nL 3\nR 41\n",
        broken: true,
    },
    Trace {
        room: 200,
        fails: &[4],
        begins: Begins::Run { mirrored: false },
        written: b"O\nL 3\nR 41\nW 18446744073709551615\n",
        broken: true,
    },
    Trace {
        room: 5,
        fails: &[],
        begins: Begins::Format(SMALL),
        written: b"P 8 2",
        broken: true,
    },
    Trace {
        room: 8,
        fails: &[],
        begins: Begins::Run { mirrored: false },
        written: b"O\nL 3\nR ",
        broken: true,
    },
    Trace {
        room: 200,
        fails: &[],
        begins: Begins::Run { mirrored: true },
        written: b"O M\nL 3\nR 41\nW 18446744073709551615\nS\n",
        broken: false,
    },
    Trace {
        room: 3,
        fails: &[],
        begins: Begins::Run { mirrored: true },
        written: b"O M",
        broken: true,
    },
];

fn start_of(rt: &impl Abort, begins: &Begins) -> Start {
    match begins {
        Begins::Format(numbers) => {
            let [n, l, z, s, r, br, bw, e, t] = *numbers;
            let params = Params::new(n, l, z, s, r, br, bw, e, t).expect(rt, "parameters in range");
            Start::Format { params }
        }
        Begins::Run { mirrored } => Start::Run {
            mirrored: *mirrored,
        },
    }
}

// Whether a trace is written so, and breaks where it has to.
fn is_written<R: AllocGlobal + Abort>(rt: &R, trace: &Trace) -> bool {
    let mut sink = new_sink(rt, rt.alloc(), trace.room, trace.fails);
    let mut watch = SinkWatch::new(&mut sink);
    watch.start(&start_of(rt, &trace.begins));
    for note in &NOTES {
        watch.note(*note);
    }
    watch.broken() == trace.broken && sink.written() == trace.written
}

#[test]
fn a_trace_has_a_line_a_call(rt: HostRuntime) {
    for i in 0..TRACES.len() {
        insist_at(&rt, is_written(&rt, &TRACES[i]), i);
    }
}

// It counts the lines that it is handed, and takes all.
#[derive(Drop)]
struct LineSink<'a> {
    lines: &'a Cell<u64>,
}

impl<'a> Sink for LineSink<'a> {
    ghost written = { λ _. None };

    ghost faults = { λ _. 0 };

    fn write(&mut self, bytes: &[u8]) -> Result<usize, Failed> {
        if bytes.ends_with(b"\n") {
            self.lines.set(self.lines.get().saturating_add(1));
        }
        Ok(bytes.len())
    }
}

// A store in memory that looks at each write and sync how many lines a sink was handed: how many
// there have to be, and at how many calls there weren't as many.
#[derive(Drop)]
struct LookingStore<'a> {
    store: MemStore,
    lines: &'a Cell<u64>,
    wanted: u64,
    missed: u64,
}

fn looking<'a>(store: MemStore, lines: &'a Cell<u64>) -> LookingStore<'a>
    ensures { result.store ≡ store }
{
    LookingStore {
        store,
        lines,
        wanted: 0,
        missed: 0,
    }
}

impl<'a> LookingStore<'a> {
    // 1 where there aren't as many lines as there have to be.
    fn miss(&self) -> u64 {
        u64::from(self.lines.get() != self.wanted)
    }
}

impl<'a> Store for LookingStore<'a> {
    type Lane = MemLane;

    ghost disk = { λ m. disk_of_store m.store };

    ghost lane_faults = { λ lane. lane.faults };

    ghost lane_seen = { λ lane. told lane.starved lane.events.items };

    ghost counts_now = { λ m t c le left. counts_now m.store.past t c le left };

    ghost only_now = { λ m c left. only_now m.store.past c left };

    ghost includes_reads = { λ m tells leaves. includes_reads m.store.past };

    fn lane(&mut self) -> Result<MemLane, Failed> {
        self.store.lane()
    }

    fn read(&self, lane: &mut MemLane, cell: u64, out: &mut [u8; 128]) -> Result<(), Failed> {
        self.store.read(lane, cell, out)
    }

    fn absorb(&mut self, lane: MemLane) {
        self.store.absorb(lane);
    }

    // Its line is there, whatever it answers.
    fn write(&mut self, cell: u64, bytes: &[u8; 128]) -> Result<(), Failed> {
        self.wanted = self.wanted.saturating_add(1);
        self.missed = self.missed.saturating_add(self.miss());
        self.store.write(cell, bytes)
    }

    // Its line comes once it has succeeded.
    fn sync(&mut self) -> Result<(), Failed> {
        self.missed = self.missed.saturating_add(self.miss());
        let synced = self.store.sync();
        self.wanted = self.wanted.saturating_add(u64::from(synced.is_ok()));
        synced
    }
}

// Four writes and two syncs, the last of each of which fails.
fn call<W: Watch>(store: &mut LookingStore, watch: &mut W) -> [bool; 5]
    requires { (disk_of_store store.old.store).out ≡ 0 }
    ensures { (disk_of_store store.new.store).out ≡ 0 }
{
    let cell = [1; 128];
    [
        write_noted(store, 2, &cell, watch).is_ok(),
        sync_noted(store, watch).is_ok(),
        write_run(store, 0, &[cell, cell], watch).is_ok(),
        write_noted(store, 3, &cell, watch).is_ok(),
        sync_noted(store, watch).is_ok(),
    ]
}

const FAILS: [Fail; 2] = [Fail::Write(3), Fail::Sync(1)];

#[test]
fn the_line_of_a_write_is_there_when_it_is_made(rt: HostRuntime) {
    let lines = Cell::new(0);
    let mut sink = LineSink { lines: &lines };
    let mut watch = SinkWatch::new(&mut sink);
    let mut store = looking(new_store(&rt, rt.alloc(), 4, &FAILS), &lines);
    let answers = call(&mut store, &mut watch);
    let shown = (store.wanted, store.missed, lines.get()) == (5, 0, 5);
    // One that isn't shown has no line.
    let written = store.write(0, &[1; 128]).is_ok() && store.missed == 1;
    let answered = answers == [true, true, true, false, false];
    insist(&rt, answered && shown && written, "six calls");
}
