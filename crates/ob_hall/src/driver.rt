//! Turns at a hall, the bell, and the words on which callers sleep.

ghost use Rattle.std.specs.Prelude.{◌≡◌, ◌≤◌, [], ◌∷◌, ◌++◌, true};
ghost use Rattle.ob_turn.specs.History.{IsAt};
ghost use Rattle.ob_turn.specs.TurnCalls.{IsInside};
ghost use Rattle.ob_session.specs.Steps.{steps_of};
ghost use Rattle.ob_hall.specs.Turns.{IsTurn};
ghost use Rattle.ob_hall.specs.Passes.{IsPassOf, IsOutOfTurn, EntersTurn, IsTurnBehind, NotesTurn, LeavesTurn, IsNumberTold, IsRaised, told_by, may_raise};
ghost use Rattle.ob_hall.specs.Calling.{IsReady, StandsAs};

use crate::hall::{Beside, Hall, Pass};
use crate::turned::Turned;
use ob_desk::Desk;
use ob_session::Made;
use std::snapshot::Snapshot;
use std::sync::Wait;
use std::sync::atomic::Ordering::SeqCst;
use std::time::Duration;

// The driver looks again after at most so many milliseconds.
const REST: u64 = 10;

// A caller that waits asks again after at most so many milliseconds.
const NAP: u64 = 50;

impl Hall {
    /// Waits for the pass's turn, takes the desk out, and tells with it how many turns there are
    /// with this one. The pass has then seen the whole history, which leads to the desk. The turn
    /// stands behind all those of which the caller was told, by this pass or another one.
    pub fn enter_behind<R: Wait>(&self, rt: &R, pass: &mut Pass, told: u64) -> (Desk, u64)
        requires own { IsPassOf self.now pass.old }
        requires idle { IsOutOfTurn pass.old }
        ensures entered { EntersTurn self.now pass.old pass.new result.0 }
        ensures behind { IsTurnBehind told pass.new result.1 }
        ensures own { IsPassOf self.now pass.new }
    {
        self.turn.take_behind(rt, &mut pass.seat, told)
    }

    /// Notes calls of this turn, behind those that are noted. It waits for nobody and takes no
    /// memory.
    pub fn note(&self, pass: &mut Pass, calls: Snapshot<Turned>)
        requires own { IsPassOf self.now pass.old }
        requires inside { IsInside pass.old.seat }
        ensures noted { NotesTurn pass.old pass.new calls.value }
        ensures own { IsPassOf self.now pass.new }
    {
        self.turn.note(&mut pass.seat, calls)
    }

    /// Puts the desk back, and ends the turn with its last calls. It waits for nobody and takes no
    /// memory.
    pub fn leave(&self, pass: &mut Pass, desk: Desk, last: Snapshot<Turned>)
        requires own { IsPassOf self.now pass.old }
        requires inside { IsInside pass.old.seat }
        requires desk { IsAt IsTurn pass.old.seat.me.0 (pass.old.seat.me.0.noted ++ last.value ∷ [])
            desk }
        ensures left { LeavesTurn pass.old pass.new last.value }
        ensures own { IsPassOf self.now pass.new }
        ensures idle { IsOutOfTurn pass.new }
    {
        self.turn.put(&mut pass.seat, desk, last)
    }

    /// Ends a client's turn with what it did.
    pub fn leave_client(&self, pass: &mut Pass, desk: Desk, made: Made)
        requires own { IsPassOf self.now pass.old }
        requires inside { IsInside pass.old.seat }
        requires desk { IsAt IsTurn pass.old.seat.me.0
            (pass.old.seat.me.0.noted ++ steps_of made ∷ []) desk }
        ensures left { LeavesTurn pass.old pass.new (steps_of made) }
    {
        let turned = Turned::client(made);
        self.leave(pass, desk, Snapshot::of(&turned));
    }

    /// The epoch last raised, 0 before the first. It waits for nobody and takes no memory, and is
    /// never below what this pass was told before.
    pub fn durable(&self, pass: &mut Pass) -> u64
        requires own { IsPassOf self.now pass.old }
        ensures durable_last_raised { IsNumberTold pass.old pass.new result }
        ensures own { IsPassOf self.now pass.new }
        ensures ready { IsReady self.now pass.old → IsReady self.now pass.new }
        ensures stands { StandsAs pass.old pass.new }
    {
        self.bell.durable(&mut pass.ear)
    }

    /// Raises the durable epoch to one that isn't below the last, by the driver's pass.
    pub fn raise(&self, pass: &mut Pass, epoch: u64)
        requires own { IsPassOf self.now pass.old }
        requires driver { may_raise pass.old ≡ true }
        requires rising { told_by pass.old ≤ epoch }
        ensures raised { IsRaised pass.old pass.new epoch }
        ensures own { IsPassOf self.now pass.new }
    {
        self.bell.raise(&mut pass.ear, epoch)
    }

    // Wakes the driver, where it sleeps: a call waits, or a client is done.
    pub(crate) fn ask_driver(&self) {
        self.asks.fetch_add(1, SeqCst);
        self.asks.wake_all();
    }

    /// How often the driver had news for callers that sleep.
    pub fn news(&self) -> u64 {
        self.news.load(SeqCst)
    }

    /// Wakes the driver, and sleeps until it has news that weren't there yet when the caller read
    /// `news`, or a while.
    pub fn nap<R: Wait>(&self, rt: &R, seen: u64) {
        self.ask_driver();
        self.news
            .park_timeout(rt, (seen % (1 << 32)) as u32, Duration::from_millis(NAP));
    }

    /// How often a client whose call waits, or that is done, has asked for the driver.
    pub fn asked(&self) -> u64 {
        self.asks.load(SeqCst)
    }

    /// The driver sleeps until a client asks that hadn't yet when it read `asked`, or a while.
    pub fn rest<R: Wait>(&self, rt: &R, asked: u64) {
        self.asks.park_timeout(rt, (asked % (1 << 32)) as u32, Duration::from_millis(REST));
    }

    /// Wakes the callers that sleep until there is news. The driver calls it where a call that
    /// waits may now be answered.
    pub fn wake(&self) {
        self.news.fetch_add(1, SeqCst);
        self.news.wake_all();
    }
}
