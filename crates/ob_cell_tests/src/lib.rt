//! Tests of cells: sealed runs, batches, a store's log.
#![tactic(auto)]

#[cfg(test)]
mod batches;
#[cfg(test)]
mod claiming;
#[cfg(test)]
mod late;
#[cfg(test)]
mod logs;
#[cfg(test)]
mod sealed;
#[cfg(test)]
mod shared;
