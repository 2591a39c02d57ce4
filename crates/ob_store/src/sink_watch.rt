//! A watch that writes a line for each note.

ghost use Rattle.std.specs.Prelude.{◌≡◌, false};
ghost use Rattle.ob_store.specs.Lines.{AddsOnly, first_line, sink_trace};

use crate::line::{Start, put_note, put_start};
use crate::{Note, Watch};
use ob_base::Failed;
use ob_io::Sink;

/// It writes a line for each note: `L x`, `R c`, `W c` or `S`, ended by a line feed, each by one
/// call of its sink.
#[derive(Drop)]
pub struct SinkWatch<'a, S: Sink> {
    sink: &'a mut S,
    broken: bool,
}

impl<'a, S: Sink> SinkWatch<'a, S> {
    /// A watch that has written nothing yet, over a sink.
    pub fn new(sink: &'a mut S) -> SinkWatch<'a, S>
        ensures name { result.sink.ghost_name ≡ sink.entry.ghost_name }
        ensures sink { result.sink.now ≡ sink.entry.now }
        ensures broken { result.broken ≡ false }
    {
        SinkWatch {
            sink,
            broken: false,
        }
    }

    /// Writes the first line of a trace, `P` and the nine parameters of a store that is made, `O` of
    /// a run or `O M` of a run with a mirror, or a front of it where the watch breaks then. Once
    /// broken it writes nothing.
    pub fn start(&mut self, start: &Start)
        ensures { AddsOnly (first_line start.now)
            (sink_trace (S.written self.old.sink.now) self.old.broken (S.faults self.old.sink.now)
            self.old.sink.ghost_name)
            (sink_trace (S.written self.new.sink.now) self.new.broken (S.faults self.new.sink.now)
            self.new.sink.ghost_name) }
    {
        if self.broken {
            return;
        }
        match put_start(self.sink, start) {
            Ok(()) => {}
            Err(Failed) => self.broken = true,
        }
    }
}

impl<'a, S: Sink> Watch for SinkWatch<'a, S> {
    ghost trace = { λ w. sink_trace (S.written w.sink.now) w.broken (S.faults w.sink.now) w.sink.ghost_name };

    fn note(&mut self, note: Note) {
        if self.broken {
            return;
        }
        match put_note(self.sink, note) {
            Ok(()) => {}
            Err(Failed) => self.broken = true,
        }
    }

    fn broken(&self) -> bool {
        self.broken
    }
}
