//! Runs over a store in memory that is refused, damaged, forged or cut off: each call, each cell,
//! each moment, each room for a trace; and each kind of refusal.
#![tactic(auto)]

#[cfg(test)]
mod crashes;
#[cfg(test)]
mod cut;
#[cfg(test)]
mod damaged;
#[cfg(test)]
mod forged;
#[cfg(test)]
mod playing;
#[cfg(test)]
mod refused;
#[cfg(test)]
mod rows;
#[cfg(test)]
mod statuses;
#[cfg(test)]
mod worn;
