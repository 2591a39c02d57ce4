//! The bell: a number that only rises, read without a turn.

ghost use Rattle.std.specs.Prelude.{◌≡◌};

use atomic_table::{Join, Play, Seat, Split, Table, TableRule};
use std::alloc::Global;
use std::collections::LinkedList;

/// What a seat at a bell knows: how many parts it has, whether it may raise, the numbers that
/// were raised as far as it was told, and what it and each seat that was joined into it had been
/// told when they were joined. No value of it is made.
pub struct Heard {
    pub parts: u64,
    pub raises: bool,
    pub seen: LinkedList<u64>,
    pub joined: LinkedList<LinkedList<u64>>,
}

/// The rule of the word: it is the last number of one rising history.
pub struct Rising;

impl TableRule<(), Heard, u32> for Rising {
    ghost use Rattle.ob_turn.specs.BellHistory.{Rung, first_heard};

    ghost holds = { λ seats s. Rung seats s };

    ghost first = { first_heard };
}

// A load of the word.
pub(crate) struct Look;

impl Play<(), Heard> for Look {
    ghost use Rattle.ob_turn.specs.BellHistory.{Looks};

    ghost then = { Looks };
}

// An addition to the word, by the seat that raises.
pub(crate) struct Add;

impl Play<(), Heard> for Add {
    ghost use Rattle.ob_turn.specs.BellHistory.{AddsNumber};

    ghost then = { AddsNumber };
}

// How a part is taken off a seat, and how a seat takes in another.
pub(crate) struct Part;

impl Split<Heard> for Part {
    ghost use Rattle.ob_turn.specs.BellHistory.{kept_part, heard_anew};

    ghost left = { kept_part };

    ghost right = { heard_anew };
}

impl Join<Heard> for Part {
    ghost use Rattle.ob_turn.specs.BellHistory.{both_heard, spent_heard};

    ghost both = { both_heard };

    ghost spent = { spent_heard };
}

/// A seat at a bell. It has no bytes, and may cross threads.
pub type BellSeat = Seat<(), Heard>;

/// A number that one seat raises and every seat reads, in one word: the durable epoch. The word
/// only rises, and its values are one history, each of whose numbers stands from its raise (one
/// atomic addition) to the next one.
#[derive(Drop)]
pub struct Bell {
    pub(crate) table: Table<(), Heard, u32, Rising, Global>,
    ghost one: { (table.shared.table_id.words ≡ 1) × (table.shared.table_id.slots ≡ 0) },
}
