//! Runs over a store in memory, one behind the other, of which some are cut off or refused: what
//! they show, held against what was shown before them, and against an audit of all in a row.
#![tactic(auto)]

#[cfg(test)]
mod asking;
#[cfg(test)]
mod changed;
#[cfg(test)]
mod freshness;
#[cfg(test)]
mod shown;
#[cfg(test)]
mod threes;
