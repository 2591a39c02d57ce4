//! Tests of checkpoints: against cells that were made elsewhere, each rule broken once, and tables
//! that look random, written and read back; laws over any store, at one; and runs that several
//! threads seal.
#![tactic(auto)]

#[cfg(test)]
mod cells;
#[cfg(test)]
mod checkpoints;
#[cfg(test)]
mod drawn;
#[cfg(test)]
mod laws;
#[cfg(test)]
mod long;
#[cfg(test)]
mod text;
