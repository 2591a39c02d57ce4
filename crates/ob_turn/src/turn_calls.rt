//! A turn's calls: drawn, waited for, served.

ghost use Rattle.std.specs.Prelude.{◌≡◌, ◌<◌, ◌≤◌, ◌++◌, [], ◌∷◌, suc, true, IfOk};
ghost use Rattle.ob_turn.specs.History.{IsAt};
ghost use Rattle.ob_turn.specs.TurnRule.{staged, Entered, kept_back, handed_on};
ghost use Rattle.ob_turn.specs.TurnCalls.{IsTurnSeat, IsSame, IsIdle, IsInside, AreSeats, Enters, StandsBehind, NotesCall, EndsTurn, Joins};
ghost use Rattle.ob_turn.specs.declared.turn.Stage.TheVariants.{Idle, Waiting};

use crate::sleepers::Sleepers;
use crate::turn::{
    Arrive, Board, Cut, Draw, Go, Note, Opened, Slot, Stepped, Turn, TurnSeat, Watch,
};
use atomic_table::Table;
use ob_base::Memory;
use std::alloc::{AllocError, Global};
use std::hint;
use std::snapshot::Snapshot;
use std::sync::Wait;

// The tickets below this may be drawn.
const LAST: u64 = 1 << 63;

// So often a caller looks before it sleeps.
const LOOKS: u32 = 100;

// Once in so many turns who comes to the gate lies down at once, behind those that lie there.
const FAIR: u64 = 64;

// Waits for good.
fn wait_for_good<R: Wait>(rt: &R) -> ! {
    for _ in rt.forever() {}
    unreachable!()
}

// How many turns there are with that of the ticket. It waits for good where the caller was told of
// as many before.
fn turns_with<R: Wait>(rt: &R, ticket: u64, told: u64) -> u64
    ensures with_this { result ≡ suc ticket }
    ensures behind { told < result }
{
    match ticket.checked_add(1) {
        Some(count) if told < count => count,
        _ => wait_for_good(rt),
    }
}

impl<E, T: Stepped<E>> Turn<T, E> {
    // Whether the turn is nobody's: each ticket drawn was served, and is done.
    fn is_free(&self) -> bool {
        let served = self.table.shared.peek(1);
        self.table.shared.peek(0) == served
    }

    // Whether the turn is nobody's within a moment.
    fn is_soon_free(&self) -> bool {
        for _ in 0..LOOKS {
            if self.is_free() {
                return true;
            }
            hint::spin_loop();
        }
        false
    }

    // Whether the ticket is served within a moment.
    fn is_soon_served(&self, ticket: u64) -> bool {
        for _ in 0..LOOKS {
            if self.table.shared.peek(1) == ticket {
                return true;
            }
            hint::spin_loop();
        }
        false
    }

    // Waits at the gate until the turn is nobody's.
    fn pass_gate<R: Wait>(&self, rt: &R) {
        if self.is_free() {
            return;
        }
        let mut awake = self.table.shared.peek(1) % FAIR != 0 && self.sleepers.stays_awake();
        for _ in rt.forever() {
            if awake && self.is_soon_free() {
                break;
            }
            self.sleepers.lies_down(awake);
            if !(self.is_free() && self.sleepers.rouses()) {
                self.sleepers.sleep_at_gate(rt);
            }
            awake = true;
        }
        self.sleepers.goes();
    }

    // Draws a ticket. It waits for good once they are used up.
    fn draw<R: Wait>(&self, rt: &R, seat: &mut TurnSeat<T, E>) -> u64
        requires own { IsTurnSeat self.now seat.old }
        requires idle { (seat.old.me.0.stage ≡ Idle) × (0 < seat.old.me.0.parts) }
        ensures same { IsSame seat.old seat.new }
        ensures drawn { seat.new.me ≡ (staged seat.old.me.0 (Waiting result), seat.old.me.1) }
    {
        if self.table.shared.load::<Arrive>(seat, 0) >= LAST {
            wait_for_good(rt);
        }
        self.table.shared.fetch_add::<Draw>(seat, 0, 1)
    }

    // Waits until the ticket is served, and takes the slot.
    fn wait<R: Wait>(&self, rt: &R, seat: &mut TurnSeat<T, E>, ticket: u64)
        requires own { IsTurnSeat self.now seat.old }
        requires waiting { seat.old.me.0.stage ≡ Waiting ticket }
        ensures same { IsSame seat.old seat.new }
        ensures entered { Entered T.steps seat.old.me ticket seat.new.me }
    {
        for _ in rt.forever() {
            let soon = self.is_soon_served(ticket);
            if !soon {
                self.sleepers.announce(ticket);
            }
            let served = self.table.shared.load::<Watch>(seat, 1);
            if served == ticket {
                return;
            }
            if !soon {
                self.sleepers.sleep(rt, ticket);
            }
        }
        unreachable!()
    }

    // Wakes who waits for the ticket behind this one, where it is drawn, else one at the gate.
    fn wake_behind(&self, served: u64) {
        let next = served.saturating_add(1);
        if next < self.table.shared.peek(0) {
            self.sleepers.wake(next);
        } else {
            self.sleepers.call();
        }
    }

    /// Waits for the seat's turn, as `take` does, and tells with the value how many turns there are
    /// with this one: its entry stands at that place of the history. It stands behind all those of
    /// which the caller was told, by this seat or another one: the call would wait for good else,
    /// which can't be, since a ticket drawn later is served later.
    pub fn take_behind<R: Wait>(&self, rt: &R, seat: &mut TurnSeat<T, E>, told: u64) -> (T, u64)
        requires own { IsTurnSeat self.now seat.old }
        requires idle { IsIdle seat.old }
        ensures entered { Enters T.steps seat.old seat.new result.0 }
        ensures stands { StandsBehind told result.1 seat.new }
    {
        self.pass_gate(rt);
        let ticket = self.draw(rt, seat);
        self.wait(rt, seat, ticket);
        let count = turns_with(rt, ticket, told);
        match self.table.shared.exchange(seat, 0, Slot::Out) {
            Slot::Rests(value) => (value, count),
            Slot::Leaves(value, _) => (value, count),
            Slot::Noted(_) => unreachable!(),
            Slot::Out => unreachable!(),
        }
    }

    /// Waits for the seat's turn, and takes the value out. A ticket is drawn when the turn is
    /// nobody's, so a thread that takes turn after turn goes on, and others wait at the gate. Its
    /// linearization point is the load that finds the seat's ticket served: the seat has then seen
    /// the whole history, which leads to the value. It waits for good once `2^63` tickets are
    /// drawn.
    pub fn take<R: Wait>(&self, rt: &R, seat: &mut TurnSeat<T, E>) -> T
        requires own { IsTurnSeat self.now seat.old }
        requires idle { IsIdle seat.old }
        ensures entered { Enters T.steps seat.old seat.new result }
    {
        let (value, _) = self.take_behind(rt, seat, 0);
        value
    }

    /// Notes a call of this turn, behind those that are noted. It waits for nobody and takes no
    /// memory, so a turn may have any number of calls, which are one entry of the history.
    pub fn note(&self, seat: &mut TurnSeat<T, E>, call: Snapshot<E>)
        requires own { IsTurnSeat self.now seat.old }
        requires inside { IsInside seat.old }
        ensures noted { NotesCall seat.old seat.new call.value }
    {
        self.table.shared.exchange(seat, 0, Slot::Noted(call));
        self.table.shared.load::<Note>(seat, 1);
    }

    /// Puts the value back, and ends the turn with its last call. Its linearization point is the
    /// addition to the ticket that is served, which puts the turn's entry, the calls noted and
    /// the last one, at the end of the history. It waits for nobody and takes no memory. It wakes
    /// the caller with the next ticket, else one that lies at the gate, and makes no system call
    /// where there is neither.
    pub fn put(&self, seat: &mut TurnSeat<T, E>, value: T, last: Snapshot<E>)
        requires own { IsTurnSeat self.now seat.old }
        requires inside { IsInside seat.old }
        requires value { IsAt T.steps seat.old.me.0 (seat.old.me.0.noted ++ last.value ∷ []) value }
        ensures left { EndsTurn seat.old seat.new last.value }
    {
        let shared = &self.table.shared;
        shared.exchange(seat, 0, Slot::Leaves(value, last));
        let served = shared.fetch_add::<Go>(seat, 1, 1);
        self.wake_behind(served);
    }

    // Cuts off the seat that is done. The other goes on.
    fn cut(&self, seat: &mut TurnSeat<T, E>) -> TurnSeat<T, E>
        requires own { IsTurnSeat self.now seat.old }
        requires cuts { (seat.old.me.0.stage ≡ Idle) × (seat.old.me.0.cuts ≡ true)
            × (2 ≤ seat.old.me.0.parts) }
        ensures same { IsSame seat.old seat.new × (result.table_id ≡ seat.old.table_id) }
        ensures kept { seat.new.me ≡ (kept_back seat.old.me.0, seat.old.me.1) }
        ensures given { result.me ≡ (handed_on seat.old.me.0, []) }
    {
        self.table.shared.split_seat::<Cut>(seat)
    }

    // A turn with its seats, as `new` gives it.
    fn seated(
        alloc: Global,
        value: T,
        seats: u32,
    ) -> Result<(Turn<T, E>, Vec<TurnSeat<T, E>>), AllocError>
        requires { 1 ≤ seats }
        ensures opened { IfOk result (λ r. AreSeats r.0 value seats r.1.items) }
    {
        // Made first: a want of memory then leaves no turn to drop.
        let sleepers = Sleepers::new(alloc, seats)?;
        let mut places = Vec::with_capacity(alloc, seats as usize)?;
        let about = Opened {
            value: Snapshot::of(&value),
            seats,
        };
        let mut slots = Vec::new(alloc);
        slots.push(Slot::Rests(value))?;
        let Ok((table, seat)) = Table::new(alloc, &[0, 0], slots, &about) else {
            return Err(AllocError);
        };
        let turn = Board { table, sleepers };
        let mut last = seat;
        for _ in 1..seats {
            let next = turn.cut(&mut last);
            places.push_reserved(last);
            last = next;
        }
        places.push_reserved(last);
        Ok((turn, places))
    }

    /// A turn round this value, and a seat for each caller (1 to `2^32 - 1` of them), named by
    /// their places from 0 on. It fails only for want of memory, and then the value is dropped.
    pub fn new(
        alloc: Global,
        value: T,
        seats: u32,
    ) -> Result<(Turn<T, E>, Vec<TurnSeat<T, E>>), Memory>
        requires { 1 ≤ seats }
        ensures opened { IfOk result (λ r. AreSeats r.0 value seats r.1.items) }
    {
        Ok(Self::seated(alloc, value, seats)?)
    }

    /// Takes in another seat, with its parts. The seat then knows what the other had seen and made.
    pub fn join(&self, seat: &mut TurnSeat<T, E>, other: TurnSeat<T, E>)
        requires own { IsTurnSeat self.now seat.old × IsTurnSeat self.now other }
        requires idle { IsIdle seat.old × IsIdle other }
        ensures joined { Joins seat.old other seat.new }
    {
        self.table.shared.join_seat::<Cut>(seat, other)
    }
}
