//! Refusals that all crates share: what failed, what is damaged, what is exhausted.

use std::fmt::{self, Debug, Formatter, Write};

/// An object that was handed in failed: its count of faults rose in the call.
#[derive(Clone, Copy, Debug)]
pub struct Failed;

/// Memory was wanting.
#[derive(Clone, Copy, Debug)]
pub struct Memory;

/// What of a cell failed: its tag, its identity, its epoch, or the form of what it holds.
#[derive(Clone, Copy, PartialEq, Eq)]
pub enum Check {
    Tag,
    Seal,
    Epoch,
    Form,
}

/// A number, or the keys, that a user gives.
#[derive(Clone, Copy, Debug, PartialEq, Eq)]
pub enum Field {
    N,
    L,
    Z,
    S,
    R,
    BR,
    BW,
    E,
    T,
    LANES,
    COUNT,
    KEYS,
    READS,
    WRITES,
}

/// A cell that holds other bytes than it must: what it keeps at the failed check, and what was
/// computed there.
#[derive(Clone, Copy)]
pub struct Damaged {
    pub cell: u64,
    pub check: Check,
    pub kept: [u8; 16],
    pub computed: [u8; 16],
}

/// Epochs, generations and the numbers of seals are below this one.
pub const NUMBER_LIMIT: u64 = 1 << 62;

/// The next number of a kind is `2^62`, which may not be used.
#[derive(Clone, Copy)]
pub struct Worn {
    pub number: u64,
}

/// More rows are left after a refill than the stash may keep.
#[derive(Clone, Copy)]
pub struct StashFull {
    pub rows: u64,
}

/// Why the program refused.
#[derive(Clone, Copy, PartialEq, Eq)]
pub enum Fault {
    /// Memory was wanting.
    Memory,
    /// The words are no command with its operands and options.
    Usage,
    /// This line, counted from 1, is the first that breaks the script's grammar.
    BadScript {
        line: u64,
    },
    /// This is the first parameter that is out of its range.
    BadParams {
        field: Field,
    },
    /// The store has no head of a known version, or a register with no open gate.
    NotStore,
    /// A cell holds other bytes than it must.
    Damaged {
        cell: u64,
        check: Check,
        kept: [u8; 16],
        computed: [u8; 16],
    },
    /// The store failed. Where that leaves open whether an epoch ended, the epoch.
    StoreFault {
        unsure: Option<u64>,
    },
    /// More rows are left after a refill than the stash may keep.
    StashFull {
        rows: u64,
    },
    /// A number has reached `2^62`.
    Worn {
        number: u64,
    },
    /// The input or the key file failed.
    SourceFault,
    /// The output or the trace failed.
    SinkFault,
}

// Writes the kind alone.
impl Debug for Fault {
    fn fmt<W: Write>(&self, f: &mut Formatter<W>) -> fmt::Result {
        f.write_str(match *self {
            Fault::Memory => "Memory",
            Fault::Usage => "Usage",
            Fault::BadScript { .. } => "BadScript",
            Fault::BadParams { .. } => "BadParams",
            Fault::NotStore => "NotStore",
            Fault::Damaged { .. } => "Damaged",
            Fault::StoreFault { .. } => "StoreFault",
            Fault::StashFull { .. } => "StashFull",
            Fault::Worn { .. } => "Worn",
            Fault::SourceFault => "SourceFault",
            Fault::SinkFault => "SinkFault",
        })
    }
}
