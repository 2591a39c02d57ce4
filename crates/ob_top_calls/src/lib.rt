//! The top call for tests, over a store in memory or over none: from what is asked for, as texts and
//! numbers, to what it answers. New stores, what a crash leaves of one, and single cells; a store that
//! tells what it is asked; and scripts of many clients.
#![tactic(auto)]

mod calls;
mod noting;
mod scripts;
mod stores;

pub use calls::{
    Answer, Ask, KEYS, NEVER, WIDE, ask_for, call, call_alone, call_by, call_over, has, has_front,
    lines_of, sink_of, source_of, words_of,
};
pub use noting::{Noting, let_noting_go, noted, noted_after, noted_blank};
pub use scripts::{Txn, push_client, push_txn};
pub use stores::{CELLS, END, are_alike, blank, cell_of, flip, left_after, let_go};
