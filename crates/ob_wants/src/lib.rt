//! What is wanted of a run, in lists: what a stop finds, the notes of each step with what they
//! change, and the reads of a place and of an end.
#![tactic(auto)]

mod evicted;
mod leaves;
mod marks;
mod notes;
mod occasion;
mod rows;
mod seen;
mod standing;
mod tree;
mod visit;
mod visits;
mod wants;

pub use leaves::Leaves;
pub use notes::{body_of, check_at, record_at};
pub use seen::SeenLabel;
pub use standing::{StandingPlain, cell_at, shown_label};
pub use visit::Visit;
pub use visits::{final_visits, place_visits};
pub use wants::{
    format_wants, push_end, push_found, push_places, push_record, push_registers, set_wants,
};
