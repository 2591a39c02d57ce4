//! All that stands directly over the system: the standard descriptors, the words that the program is
//! handed, the files that these name, opened and locked, a store in a file, and sources and sinks over
//! readers and writers of std. What these lines do of the system itself no proof can see.
#![tactic(auto)]

mod cell;
mod files;
mod gathering;
mod lanes;
mod locking;
mod process;
mod store;
mod streams;

pub use files::{Files, Named, open_named};
pub use locking::open_locked;
pub use process::{hold_standard, words_of};
pub use store::{FileLane, FileStore, OpenErr};
pub use streams::{StdSink, StdSource};
