//! What is shown of a call, and to whom.

ghost use Rattle.std.specs.Prelude.{◌≡◌, [], ◌∷◌, None, Bool, false};

/// What is shown of a call: the label of a path that is read, a read, a write, or a sync.
#[derive(Clone, Copy, PartialEq, Eq)]
pub enum Note {
    /// The leaf of the path.
    Label(u64),
    /// The cell.
    Read(u64),
    /// The cell.
    Write(u64),
    Sync,
}

/// Who is told of labels, reads, writes and syncs.
pub trait Watch {
    ghost use Rattle.ob_store.specs.Lines.{Trace, Shows};

    /// All that the watch tells.
    ghost trace: { Self → Trace };

    /// Writes the line of a note, or a front of it where it breaks then. Once broken it writes
    /// nothing.
    fn note(&mut self, note: Note)
        ensures { Shows (note ∷ []) (trace self.old) (trace self.new) };

    /// Whether it has broken: its sink has failed, and it writes no more.
    fn broken(&self) -> bool
        ensures { result ≡ (trace self.now).broken };
}

/// It notes nothing, and never breaks.
#[derive(Clone, Copy)]
pub struct Blind;

impl Watch for Blind {
    ghost trace = { λ _. record { written = None; broken = false; faults = 0; anchors = [] } };

    fn note(&mut self, _note: Note) {}

    fn broken(&self) -> bool {
        false
    }
}
