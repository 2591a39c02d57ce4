//! Tests of audits: lines, what may stand next in a trace, and verdicts over whole traces.
#![tactic(auto)]

#[cfg(test)]
mod lines;
#[cfg(test)]
mod random;
#[cfg(test)]
mod recipes;
#[cfg(test)]
mod traces;
