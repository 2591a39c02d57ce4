//! What the planner keeps. Buckets: the permutation of their slots, and what is known of each.
//! Tables: which leaf each key has, and the rows that lie in no bucket. And what a checkpoint keeps
//! of them: their content at an epoch's end, its rules, and its text.
#![tactic(auto)]

mod book;
mod content;
mod decode;
mod encode;
mod entry;
mod laws;
mod meta;
mod metas;
mod rank;
mod rows;
mod stash;
mod tables;

pub use book::Book;
pub use content::{content_length, content_once};
pub use entry::Entry;
pub use laws::books_are_maps;
pub use meta::{Meta, spelled_once};
pub use metas::Metas;
pub use rank::ranks;
pub use stash::Stash;
pub use tables::Tables;
