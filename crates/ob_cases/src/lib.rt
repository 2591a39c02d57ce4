//! Worked cases through the top call: each with its words, script, output and status, its trace,
//! and its store behind a crash; refusals in their order; audits of traces in a row; self-tests.
#![tactic(auto)]

#[cfg(test)]
mod ahead;
#[cfg(test)]
mod audits;
#[cfg(test)]
mod calling;
#[cfg(test)]
mod forms;
#[cfg(test)]
mod lines;
#[cfg(test)]
mod lives;
#[cfg(test)]
mod refused;
#[cfg(test)]
mod rows;
#[cfg(test)]
mod summaries;
#[cfg(test)]
mod traced;
#[cfg(test)]
mod worked;
