//! Tests of parameters and layouts, of streams, of stores in memory and in files, and of traces.
#![tactic(auto)]

#[cfg(test)]
mod base;
#[cfg(test)]
mod files;
#[cfg(test)]
mod lanes;
#[cfg(test)]
mod memory;
#[cfg(test)]
mod steps;
#[cfg(test)]
mod streams;
#[cfg(test)]
mod watches;
