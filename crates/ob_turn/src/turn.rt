//! A turn: one history, and who may add to it.

ghost use Rattle.std.specs.Prelude.{◌≡◌, ℕ};

use crate::sleepers::Sleepers;
use atomic_table::{Join, Play, Seat, Split, Table, TableRule};
use std::alloc::Global;
use std::collections::LinkedList;
use std::snapshot::Snapshot;

/// What a call in a turn may do to the value that is shared: the caller's place, the value before,
/// the call and the value behind it. E names a call and its reply.
pub trait Stepped<E>: Drop {
    ghost steps: { ℕ → Self → E → Self → Type 0 };
}

/// A turn in the history: the caller, by its place among the seats, and what it did, in order.
/// No value of it is made.
pub struct Entry<E> {
    pub by: u64,
    pub calls: LinkedList<E>,
}

/// How far a seat is: at rest, about to draw a ticket, waiting with it, or in its turn.
pub enum Stage {
    Idle,
    Ready,
    Waiting(u64),
    Inside(u64),
}

/// A seat that was joined into another: the value at the opening, the caller, what it had seen of
/// the history, and the entries that it made. No value of it is made.
pub struct Joined<T, E> {
    pub opening: Option<T>,
    pub by: u64,
    pub seen: LinkedList<Entry<E>>,
    pub mine: LinkedList<Entry<E>>,
}

/// What a seat knows: the value at the opening, its caller, how many parts it has, whether others
/// are still cut off it, how far it is, the calls noted in this turn, the history that it has
/// seen, the entries that it made, and the seats that were joined into it. No value of it is made.
pub struct View<T, E> {
    pub opening: Option<T>,
    pub by: u64,
    pub parts: u64,
    pub cuts: bool,
    pub stage: Stage,
    pub noted: LinkedList<E>,
    pub seen: LinkedList<Entry<E>>,
    pub mine: LinkedList<Entry<E>>,
    pub joined: LinkedList<Joined<T, E>>,
}

/// The slot: the value at rest, nothing, a call that is noted, or the value as a turn leaves it,
/// with the turn's last call.
#[derive(Drop)]
pub enum Slot<T, E> {
    Rests(T),
    Out,
    Noted(Snapshot<E>),
    Leaves(T, Snapshot<E>),
}

/// What the table is told once.
#[derive(Drop)]
pub struct Opened<T> {
    pub value: Snapshot<T>,
    pub seats: u32,
}

/// The rule of the turn: one legal history, of which each seat has seen a beginning.
pub struct OneHistory;

impl<E, T: Stepped<E>> TableRule<Slot<T, E>, View<T, E>, Opened<T>> for OneHistory {
    ghost use Rattle.ob_turn.specs.TurnRule.{TurnKept, first_view};

    ghost holds = { λ k s. TurnKept T.steps k.value.value k.seats s };

    ghost first = { λ k. first_view k.value.value k.seats };
}

// A load of the next ticket.
pub(crate) struct Arrive;

impl<E, T: Stepped<E>> Play<Slot<T, E>, View<T, E>> for Arrive {
    ghost use Rattle.ob_turn.specs.TurnRule.{Arrives};

    ghost then = { Arrives };
}

// The ticket is drawn.
pub(crate) struct Draw;

impl<E, T: Stepped<E>> Play<Slot<T, E>, View<T, E>> for Draw {
    ghost use Rattle.ob_turn.specs.TurnRule.{Draws};

    ghost then = { Draws };
}

// A load of the ticket that is served, by a seat that waits.
pub(crate) struct Watch;

impl<E, T: Stepped<E>> Play<Slot<T, E>, View<T, E>> for Watch {
    ghost use Rattle.ob_turn.specs.TurnRule.{Watches};

    ghost then = { Watches T.steps };
}

// The same, by the seat whose turn it is: it notes the call in its slot.
pub(crate) struct Note;

impl<E, T: Stepped<E>> Play<Slot<T, E>, View<T, E>> for Note {
    ghost use Rattle.ob_turn.specs.TurnRule.{NotesStep};

    ghost then = { NotesStep };
}

// The next ticket is served.
pub(crate) struct Go;

impl<E, T: Stepped<E>> Play<Slot<T, E>, View<T, E>> for Go {
    ghost use Rattle.ob_turn.specs.TurnRule.{GoesStep};

    ghost then = { GoesStep };
}

// How the seats of a new turn are cut, and how a seat takes in another.
pub(crate) struct Cut;

impl<T, E> Split<View<T, E>> for Cut {
    ghost use Rattle.ob_turn.specs.TurnRule.{kept_back, handed_on};

    ghost left = { kept_back };

    ghost right = { handed_on };
}

impl<T, E> Join<View<T, E>> for Cut {
    ghost use Rattle.ob_turn.specs.TurnRule.{both_views, spent_view};

    ghost both = { both_views };

    ghost spent = { spent_view };
}

/// A seat at a turn: one caller's right to take turns. It has no bytes, and may cross threads
/// where the value may.
pub type TurnSeat<T, E> = Seat<Slot<T, E>, View<T, E>>;

/// A table of two words and one slot, and the words on which callers sleep. It stands apart from
/// the alias `Turn`, so that threads can be proved to share it.
#[derive(Drop)]
pub struct Board<S, V, K, P: TableRule<S, V, K>> {
    pub(crate) table: Table<S, V, K, P, Global>,
    pub(crate) sleepers: Sleepers,
    ghost sized: { (table.shared.table_id.words ≡ 2) × (table.shared.table_id.slots ≡ 1) },
}

/// A value that threads have in turns, behind a ticket lock. Word 0 is the next ticket, word 1
/// the ticket that is served, and the slot has the value. There is one history of the turns, as
/// long as tickets were served, and the value at rest is what it leads to from the opening value.
pub type Turn<T, E> = Board<Slot<T, E>, View<T, E>, Opened<T>, OneHistory>;
