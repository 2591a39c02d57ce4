//! Stores, sources and sinks in memory, which fail exactly where they are told to.
#![tactic(auto)]

mod call;
mod fail;
mod gate;
mod gate_store;
mod hold_store;
mod log;
mod mem_store;
mod past;
mod sink;
mod source;

pub use call::Call;
pub use fail::{Counts, Fail};
pub use gate_store::GateStore;
pub use hold_store::HoldStore;
pub use log::MemLane;
pub use mem_store::MemStore;
pub use ob_bare::{BareLane, BareStore, Void};
pub use sink::MemSink;
pub use source::MemSource;
