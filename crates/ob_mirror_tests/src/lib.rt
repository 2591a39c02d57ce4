//! Tests of a mirror of two stores in memory.
#![tactic(auto)]

#[cfg(test)]
mod bare;
#[cfg(test)]
mod batches;
#[cfg(test)]
mod calls;
#[cfg(test)]
mod crashes;
#[cfg(test)]
mod spy;
#[cfg(test)]
mod steps;
