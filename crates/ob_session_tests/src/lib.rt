//! Tests of sessions in threads beside the driver: calls in one epoch, and beside an end.
#![tactic(auto)]

#[cfg(test)]
mod served;
#[cfg(test)]
mod sessions;
