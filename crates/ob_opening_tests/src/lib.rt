//! Tests of a ring store's format and of its openings: what is found, what is shown again, and what
//! stands after a crash.
#![tactic(auto)]

#[cfg(test)]
mod finding;
#[cfg(test)]
mod formats;
#[cfg(test)]
mod new_store;
#[cfg(test)]
mod openings;
#[cfg(test)]
mod replaying;
#[cfg(test)]
mod small;
#[cfg(test)]
mod two_epochs;
