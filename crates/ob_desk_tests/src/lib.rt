//! Tests of the desk and of what it stands on: works, keys in a queue, chains; and worked rows of
//! calls, each with the answer that is wanted.
#![tactic(auto)]

#[cfg(test)]
mod beside;
#[cfg(test)]
mod chains;
#[cfg(test)]
mod desks;
#[cfg(test)]
mod queues;
#[cfg(test)]
mod rows;
#[cfg(test)]
mod shares;
#[cfg(test)]
mod works;
