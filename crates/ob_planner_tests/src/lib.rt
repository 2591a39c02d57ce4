//! Tests of the planner: buckets, tables, plans of small trees.
#![tactic(auto)]

#[cfg(test)]
mod alike;
#[cfg(test)]
mod buckets;
#[cfg(test)]
mod params;
#[cfg(test)]
mod plans;
#[cfg(test)]
mod tables;
