//! Scripts: what clients ask for, line by line.
#![tactic(auto)]

mod drilling;
mod integers;
mod line;
mod parsing;
mod reader;
mod reading;
mod scripts;

pub use drilling::drill;
pub use integers::integer_of;
pub use line::{Ask, Ending, Line, ScriptTxn};
pub use parsing::{LIMIT, parse};
pub use reading::number_of;
pub use scripts::Scripts;
