//! Cells of 128 bytes on a medium that can fail: what a call does to them, what a crash may leave
//! of them, and who is told of the calls.
#![tactic(auto)]

mod event;
mod line;
mod noted;
mod run;
mod sink_watch;
mod store;
mod through;
mod watch;

pub use event::Event;
pub use line::Start;
pub use noted::{read_noted, sync_noted, write_noted};
pub use run::write_run;
pub use sink_watch::SinkWatch;
pub use store::Store;
pub use through::write_through;
pub use watch::{Blind, Note, Watch};
