//! Runs over a mirror of two stores in memory, and over each half alone.
#![tactic(auto)]

#[cfg(test)]
mod alone;
#[cfg(test)]
mod crashes;
#[cfg(test)]
mod events;
#[cfg(test)]
mod playing;
#[cfg(test)]
mod refused;
