//! Words on which waiting callers sleep.

ghost use Rattle.std.specs.Prelude.{◌≤◌, ◌≡◌, length, IfOk};

use std::alloc::{AllocError, Global};
use std::sync::Wait;
use std::sync::atomic::AtomicU64;
use std::sync::atomic::Ordering::SeqCst;

// The places of the gate's two words, behind which stand the words of the tickets.
const AT_GATE: usize = 0;

const CALLED: usize = 1;

const GATE: usize = 2;

// In the gate's first word: that one is awake there, and one that lies there.
const AWAKE: u64 = 1;

const LIES: u64 = 2;

// What a ticket's word is while its caller may sleep, and else.
const MAY_SLEEP: u64 = 1;

const UP: u64 = 0;

/// Where callers sleep: a row of plain words. No clause speaks of what they hold.
///
/// Who waits with ticket t sleeps on word t modulo the seats, behind those of the gate. No more
/// tickets are out than there are seats, so no two that wait share a word. No wake-up falls
/// between: a caller says that it may sleep before it reads the ticket that is served, and the turn
/// before it reads that after it has served the ticket.
///
/// Who has drawn no ticket waits at the gate. At most one is awake there; the others lie, until one
/// is called, which is then the one that is awake. The gate's first word has how many lie there and
/// whether one is awake, so that a call changes both in one step; the second counts the calls that
/// no one has taken. No call falls between: who lies down looks for the turn once more behind that
/// (`Turn::take`), and whoever changes the first word while another tries to call is itself awake,
/// so it looks, or has a turn, behind which it calls.
#[derive(Drop)]
pub struct Sleepers {
    words: Vec<AtomicU64>,
    ghost some_word: { 1 ≤ length words.items },
}

impl Sleepers {
    /// A row for so many seats. It fails only for want of memory.
    pub(crate) fn new(alloc: Global, seats: u32) -> Result<Sleepers, AllocError>
        requires { 1 ≤ seats }
    {
        let mut words = Vec::new(alloc);
        words.push(AtomicU64::new(0))?;
        for _ in 1..u64::from(seats) + GATE as u64 {
            words.push(AtomicU64::new(0))?;
        }
        Ok(Sleepers { words })
    }

    fn word(&self, place: usize) -> &AtomicU64 {
        &self.words[place % self.words.len()]
    }

    fn of_ticket(&self, ticket: u64) -> &AtomicU64 {
        let seats = self.words.len().saturating_sub(GATE).max(1) as u64;
        self.word(((ticket % seats) as usize).saturating_add(GATE))
    }

    /// Says that the caller with this ticket may sleep.
    pub(crate) fn announce(&self, ticket: u64) {
        self.of_ticket(ticket).store(MAY_SLEEP, SeqCst);
    }

    /// Sleeps until the ticket's caller is woken. It may end for no reason.
    pub(crate) fn sleep<R: Wait>(&self, rt: &R, ticket: u64) {
        self.of_ticket(ticket).park(rt, MAY_SLEEP as u32);
    }

    /// Wakes the caller with this ticket, where it may sleep.
    pub(crate) fn wake(&self, ticket: u64) {
        let word = self.of_ticket(ticket);
        if word.swap(UP, SeqCst) == MAY_SLEEP {
            word.wake_one();
        }
    }

    // Changes the gate's first word, unless another does so meanwhile.
    fn changes_gate(&self, from: u64, to: u64) -> bool {
        self.word(AT_GATE)
            .compare_exchange(from, to, SeqCst, SeqCst)
            .is_ok()
    }

    /// Whether the caller is the one that is awake at the gate from now on.
    pub(crate) fn stays_awake(&self) -> bool {
        let gate = self.word(AT_GATE).load(SeqCst);
        gate % LIES != AWAKE && self.changes_gate(gate, gate.saturating_add(AWAKE))
    }

    /// The caller goes from the gate, at which it was awake.
    pub(crate) fn goes(&self) {
        self.word(AT_GATE).fetch_sub(AWAKE, SeqCst);
    }

    /// The caller lies down at the gate, where it may have been the one that was awake.
    pub(crate) fn lies_down(&self, awake: bool) {
        let change = if awake { LIES - AWAKE } else { LIES };
        self.word(AT_GATE).fetch_add(change, SeqCst);
    }

    /// Whether one that lies at the gate, and no longer does, is the one that is awake there from
    /// now on: there was one, and none was awake.
    pub(crate) fn rouses(&self) -> bool {
        let gate = self.word(AT_GATE).load(SeqCst);
        gate >= LIES
            && gate % LIES != AWAKE
            && self.changes_gate(gate, gate.saturating_sub(LIES - AWAKE))
    }

    /// Calls one that lies at the gate, where none is awake there.
    pub(crate) fn call(&self) {
        if self.rouses() {
            self.word(CALLED).fetch_add(1, SeqCst);
            self.word(CALLED).wake_one();
        }
    }

    /// Sleeps at the gate until the caller is called. It is awake there then.
    pub(crate) fn sleep_at_gate<R: Wait>(&self, rt: &R) {
        let called = self.word(CALLED);
        for _ in rt.forever() {
            let calls = called.load(SeqCst);
            if calls != 0
                && called
                    .compare_exchange(calls, calls - 1, SeqCst, SeqCst)
                    .is_ok()
            {
                return;
            }
            called.park(rt, 0);
        }
    }
}
