//! The word that claims are made on, its seats, and the rule of both.

ghost use Rattle.std.specs.Prelude.{◌≡◌, ◌+◌, ◌^◌, ◌≤◌};

use atomic_table::{Join, Play, Seat, Split, Table, TableRule};
use std::alloc::Global;
use std::collections::LinkedList;

/// What a seat knows: how many seats the claims were made with, how many parts of these it has,
/// whether its next step may be a claim, what the counter had reached when it last stepped, and the
/// numbers that it has claimed, in order, with those of the seats that it took in. No value of it
/// is made.
pub struct Hold {
    pub seats: u64,
    pub parts: u64,
    pub ready: bool,
    pub reached: u64,
    pub claimed: LinkedList<u64>,
}

/// The rule of the word: each number below it is claimed by one seat, once, and no other number.
pub struct EachOnce;

impl TableRule<(), Hold, u64> for EachOnce {
    ghost use Rattle.ob_claims.specs.ClaimRule.{Claimed, first_hold};

    ghost holds = { λ seats s. Claimed seats s };

    ghost first = { first_hold };
}

// A load of the word.
pub(crate) struct Look;

impl Play<(), Hold> for Look {
    ghost use Rattle.ob_claims.specs.ClaimRule.{SeesCounter};

    ghost then = { SeesCounter };
}

// An addition of one, behind a load that found the word below the end of a round.
pub(crate) struct Claim;

impl Play<(), Hold> for Claim {
    ghost use Rattle.ob_claims.specs.ClaimRule.{TakesNumber};

    ghost then = { TakesNumber };
}

// A store of 0, by who has all parts.
pub(crate) struct Clear;

impl Play<(), Hold> for Clear {
    ghost use Rattle.ob_claims.specs.ClaimRule.{CountsAnew};

    ghost then = { CountsAnew };
}

// How a part is taken off a seat, and how a seat takes in another.
pub(crate) struct Part;

impl Split<Hold> for Part {
    ghost use Rattle.ob_claims.specs.ClaimRule.{kept_hold, new_hold};

    ghost left = { kept_hold };

    ghost right = { new_hold };
}

impl Join<Hold> for Part {
    ghost use Rattle.ob_claims.specs.ClaimRule.{both_holds, spent_hold};

    ghost both = { both_holds };

    ghost spent = { spent_hold };
}

/// A seat at claims. It has no bytes, and may cross threads.
pub type ClaimSeat = Seat<(), Hold>;

/// So many numbers, from one on, that are to be claimed. A claim tells a number's place in it.
#[derive(Drop)]
pub struct Round {
    pub(crate) start: u64,
    pub(crate) count: u64,
    ghost small: { start + count ≤ 2 ^ 62 },
}

/// A counter of numbers, of which each is claimed once, in one word.
#[derive(Drop)]
pub struct Claims {
    pub(crate) table: Table<(), Hold, u64, EachOnce, Global>,
    pub(crate) seats: u64,
    ghost one: { table.shared.table_id.words ≡ 1 },
    ghost told: { table.shared.key ≡ seats },
}
