//! Tests of clients in threads beside the driver: faults, a batch that is read meanwhile, an end that
//! is held meanwhile, want of memory, and that no thread is left behind.
#![tactic(auto)]

#[cfg(test)]
mod ending;
mod first;
#[cfg(test)]
mod overlap;
#[cfg(test)]
mod ring;
#[cfg(test)]
mod runs;
#[cfg(test)]
mod scripted;

pub use first::First;
#[cfg(test)]
use std::process::Abort;

// That this holds of a case.
#[cfg(test)]
fn insist(rt: &impl Abort, holds: bool, case: usize) {
    assert!(rt; holds, "case {case}");
}
