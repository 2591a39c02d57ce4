//! What a ring store holds: its head; its registers, the checkpoint and the open records; and the
//! planner as it was before the crash, with every recorded read batch shown again. And what such a
//! store shows: its calls show the public schedule, made of what the store may know, and over every life
//! of a store what fills it is fresh (laws of definitions).
#![tactic(auto)]

mod finding;
mod found;
mod heads;
mod lives;
mod reading;
mod repeating;
mod replaying;
mod schedule;
mod showing;

pub use finding::find;
pub use found::Found;
pub use heads::{VERSION, head};
pub use lives::{
    attempts_agree, lifts_agree, lifts_are_scheduled, lives_are_fresh, lives_go_on, pads_differ,
    parts_are_fresh, picks_are_scheduled,
};
pub use reading::{read_batch, read_jobs};
pub use replaying::replay;
pub use schedule::{
    batches_are_scheduled, batches_are_told, cuts_of_fronts, ends_are_scheduled, ends_are_told,
    fills_go_on, format_is_public, lifts_come_first, lives_show_fills, one_lane_as_planned,
    one_lane_in_order, openings_are_cut, openings_are_scheduled, openings_are_told, openings_begin,
    phases_join, sampled,
};
