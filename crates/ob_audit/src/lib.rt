//! An audit: the lines of a trace are read, each is held against what may stand there, and the
//! answer is written.
#![tactic(auto)]

mod lines;
mod numbers;
mod reader;
mod reading;
mod spelling;
mod text;
mod verdict;

pub use lines::line_of;
pub use reading::{audit, audit_up_to};
pub use spelling::lines_are_the_writers;
pub use text::verdict_text;
pub use verdict::Audit;
