//! Tests of scripts' runners, call by call over a desk; and of runs of scripts over a store: by
//! hand, in threads, and by hand beside the driver.
#![tactic(auto)]

#[cfg(test)]
mod runs;
#[cfg(test)]
mod steps;
