//! Which run over a mirror the words ask for.

ghost use Rattle.std.specs.Prelude.{◌≡◌, ◌≢◌, map, IfOk, MatchResult};
ghost use Rattle.ob_base.specs.declared.fault.Fault.TheVariants as faults;
ghost use Rattle.ob_mirrored.specs.Asked.{IsAsked, mirror_of};

use ob_base::{Fault, Memory};
use ob_shares::Shares;
use ob_words::{Command, Work, work_of};
use std::alloc::Global;

/// A run over a mirror.
#[derive(Clone, Copy)]
pub struct MirrorRun {
    /// The most lanes that share a phase's reads, from 1 to 16.
    pub lanes: u32,
    /// Whether all its clients' calls are made by hand.
    pub turns: bool,
    /// Whether it has a trace.
    pub traced: bool,
    /// How many different keys each client may name in an epoch.
    pub shares: Shares,
}

// Whether there is more to be said of the words than want of memory.
fn refused_for(fault: Fault) -> Result<Option<MirrorRun>, Memory>
    ensures { MatchResult result (λ none. (none ≡ None) × (fault ≢ faults.Memory))
        (λ err. fault ≡ faults.Memory) }
{
    match fault {
        Fault::Memory => Err(Memory),
        _ => Ok(None),
    }
}

// The run of a work with a mirror.
fn mirrored(work: &Work) -> Option<MirrorRun>
    ensures { result ≡ mirror_of work.now }
{
    match *work {
        Work::OnStore(
            Command::Run {
                lanes,
                turns,
                traced,
                mirrored: true,
                shares,
            },
        ) => Some(MirrorRun {
            lanes,
            turns,
            traced,
            shares,
        }),
        Work::OnStore(Command::Run { .. }) => None,
        Work::OnStore(Command::Format { .. }) => None,
        Work::Audit => None,
        Work::Drill { .. } => None,
    }
}

/// The run over a mirror that the words ask for, if they ask for one.
///
/// # Errors
/// Memory was wanting.
pub fn mirror_asked(alloc: Global, words: &[&str]) -> Result<Option<MirrorRun>, Memory>
    ensures { IfOk result (λ run. IsAsked (map (λ w. w.now) words.entry.now) run) }
{
    match work_of(alloc, words) {
        Ok(work) => Ok(mirrored(&work)),
        Err(fault) => refused_for(fault),
    }
}
