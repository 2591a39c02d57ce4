//! Tests of seals, stamps, pads and keys, of tapes, and of registers.
#![tactic(auto)]

#[cfg(test)]
mod registers;
#[cfg(test)]
mod seals;
#[cfg(test)]
mod shared;
#[cfg(test)]
mod tapes;
