//! Tests of a ring store's epochs: openings, read batches and ends, one behind the other.
#![tactic(auto)]

#[cfg(test)]
mod crashes;
#[cfg(test)]
mod rows;
#[cfg(test)]
mod serving;
#[cfg(test)]
mod shown;
#[cfg(test)]
mod small;
#[cfg(test)]
mod wide;
