//! The beginning of a store, which each kind of vault shares: a head of a version, told or refused
//! exactly; both registers, of which all cells are read before either is judged; the begin of a
//! generation; and a new store's registers.
#![tactic(auto)]

mod beginning;
mod heads;
mod laying;
mod registers;

pub use beginning::begin;
pub use heads::{head_cell, read_head};
pub use laying::{lay_registers, set_first};
pub use registers::{Numbers, read_registers};
