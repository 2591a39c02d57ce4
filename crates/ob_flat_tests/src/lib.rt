//! Tests of plain stores and of plain programs: the vault, its rows, its calls as acts of a life;
//! records one by one on a map.
#![tactic(auto)]

#[cfg(test)]
mod fixtures;
#[cfg(test)]
mod life;
#[cfg(test)]
mod replays;
#[cfg(test)]
mod rows;
#[cfg(test)]
mod vault;
