//! The plain vault: a map by epochs over a store. The end of each epoch writes a row for every key, in a
//! sealed cell of its own. Its calls are acts of its store's life.
#![tactic(auto)]

mod acts;
mod ends;
mod formatting;
mod heads;
mod held;
mod held_end;
mod opening;
mod places;
mod preparing;
mod reading;
mod row;
mod values;
mod vault;
mod writing;

pub use acts::{begin_life, calls_are_acts, flat_chains_are_runs, head_in_life, open_in_life};
pub use formatting::format;
pub use heads::head;
pub use opening::Opening;
pub use places::cells;
pub use preparing::prepare;
pub use reading::read_values;
pub use vault::FlatVault;
pub use writing::{write_blanks, write_rows};
