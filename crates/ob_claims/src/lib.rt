//! Numbers that threads claim from one word, in rounds, each number once.
//!
//! `Claims` is a counter that one atomic addition moves (fetch-and-add: Gottlieb, Lubachevsky and
//! Rudolph, "Basic Techniques for the Efficient Coordination of Very Large Numbers of Cooperating
//! Sequential Processors"). Who has all of its seats opens a round of numbers; who has one claims
//! the next number of a round. The docs of a call name its linearization point (Herlihy and Wing,
//! "Linearizability: A Correctness Condition for Concurrent Objects"): the one atomic step at
//! which it takes effect. No call waits, and `new` alone takes memory.
#![tactic(auto)]

mod claim_calls;
mod claims;

pub use claims::{ClaimSeat, Claims, EachOnce, Hold, Round};
