//! Keys, and what is made of them: cells that are sealed (changed by a pad and tagged) or stamped
//! (tagged alone), and the sources of random words, in generations.
#![tactic(auto)]

mod cells;
mod keys;
mod list_tape;
mod seal_run;
mod sealer;
mod stream_tape;
mod tape;

pub use keys::Keys;
pub use list_tape::ListTape;
pub use seal_run::SealRun;
pub use sealer::{Opened, Sealer};
pub use stream_tape::ChaChaTape;
pub use tape::Tape;
