//! Tests of turns, bells, claims and halls, alone and by threads: clients' calls, and clients'
//! threads.
#![tactic(auto)]

#[cfg(test)]
mod asking;
#[cfg(test)]
mod bells;
#[cfg(test)]
mod calls;
#[cfg(test)]
mod claims;
#[cfg(test)]
mod driver;
#[cfg(test)]
mod halls;
#[cfg(test)]
mod scripts;
#[cfg(test)]
mod shared;
#[cfg(test)]
mod starts;
#[cfg(test)]
mod turns;
#[cfg(test)]
mod visitor;

#[cfg(test)]
use std::process::Abort;

// That this holds of a case.
#[cfg(test)]
fn insist(rt: &impl Abort, holds: bool, case: usize) {
    assert!(rt; holds, "case {case}");
}
