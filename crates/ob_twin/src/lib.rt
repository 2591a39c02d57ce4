//! A register of one number in two places, which a crash leaves at the old number or at the new
//! one.
#![tactic(auto)]

mod bytes;
mod gates;
mod getting;
mod keyed;
mod known;
mod set_err;
mod setting;
mod stamp;
mod twin;
mod writing;
mod zero_tag;

pub use bytes::{closed_gate, is_open, open_gate};
pub use gates::{Gates, Open};
pub use set_err::SetErr;
pub use stamp::Stamper;
pub use twin::Twin;
pub use writing::write_out;
pub use zero_tag::ZeroTag;
