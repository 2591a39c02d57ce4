//! Self-tests: over stores in memory that are handed in, and by the top call, which touches none.

ghost use Rattle.std.specs.Prelude.{◌≡◌};
ghost use Rattle.ob_seal.specs.Draws.{list_drawn};

use crate::playing::insist;
use ob_base::Fault;
use ob_desk::Eager;
use ob_lanes::Lanes;
use ob_mem::{Fail, MemSink};
use ob_seal::{ChaChaTape, ListTape, Tape};
use ob_top::{Drilled, drill_on, obladi};
use ob_top_calls as calls;
use ob_top_calls::{NEVER, WIDE, let_noting_go, noted_blank, sink_of, source_of};
use std::process::Abort;
use std::sync::Wait;
use std::thread::Threads;

// How many cells a self-test takes.
const CELLS: usize = 11_291;

// The digest of 1 at key 179 and of 1 at key 205, by another implementation.
const OF_TWO: [u8; 32] = [
    0x4d, 0x3b, 0xe5, 0x08, 0xa3, 0xf5, 0x14, 0x71, 0xf0, 0xd5, 0x22, 0x30, 0x20, 0x1a, 0xe0, 0xeb,
    0x4e, 0x4c, 0xc1, 0x58, 0xcd, 0x17, 0x77, 0x8d, 0xc1, 0xcb, 0xce, 0xb9, 0x41, 0xe1, 0xb1, 0x29,
];

// What a store is asked for first.
const FIRST: &[u8] = b"W 0\nS\nW 2\nW 4\nW 6\nW 8\n";

// A self-test of two transactions.
fn drill_over<R: AllocGlobal + Threads + Wait + Sync, S: Lanes>(
    rt: &R,
    store: &mut S,
) -> Result<Drilled, Fault>
    requires tells { (S.disk store.old).tells }
    requires none_out { (S.disk store.old).out ≡ 0 }
{
    let mut made = ChaChaTape::new(&[0; 32]);
    let mut tape = ChaChaTape::new(&[0; 32]);
    drill_on(rt, 2, store, &mut made, &mut tape, &mut Eager)
}

// What a self-test answers, how often its store failed, and whether it began with a format.
#[derive(Drop)]
struct Told {
    drilled: Result<Drilled, Fault>,
    faults: u64,
    begins: bool,
}

// A self-test of two transactions over a new store of which these calls fail.
fn drill_two<R: AllocGlobal + Threads + Wait + Sync + Abort>(rt: &R, fails: &[Fail]) -> Told {
    let mut store = noted_blank(rt.alloc(), CELLS, fails).expect(rt, "memory");
    let drilled = drill_over(rt, &mut store);
    let faults = store.store.faults();
    let begins = store.told.written().starts_with(FIRST);
    let_noting_go(store);
    Told {
        drilled,
        faults,
        begins,
    }
}

#[test]
fn two_transactions_leave_two_keys(rt: HostRuntime) {
    let Told {
        drilled,
        faults,
        ..
    } = drill_two(&rt, &[]);
    let drilled = drilled.ok().expect(&rt, "a self-test");
    let went = drilled.epochs == 2 && faults == 0;
    let left = drilled.digest.keys == 2 && drilled.digest.map == OF_TWO;
    insist(&rt, went && left, "two keys");
}

#[test]
fn a_store_that_fails_is_told(rt: HostRuntime) {
    let Told {
        drilled,
        faults,
        ..
    } = drill_two(&rt, &[Fail::Write(0)]);
    let fault = drilled.err().expect(&rt, "a refusal");
    let told = fault == Fault::StoreFault { unsure: None };
    insist(&rt, told && faults == 1, "the first write");
}

#[test]
fn a_self_test_begins_with_its_format(rt: HostRuntime) {
    let Told {
        drilled,
        begins,
        ..
    } = drill_two(&rt, &[]);
    insist(&rt, drilled.is_ok() && begins, "a format");
}

// A tape of zeros that counts its calls.
#[derive(Drop)]
struct Counted {
    tape: ListTape,
    calls: u64,
}

impl Tape for Counted {
    ghost present = { λ t. t.tape.generation };

    ghost drawn = { λ t. list_drawn t.tape };

    fn start(&mut self, generation: u64) {
        self.calls = self.calls.saturating_add(1);
        self.tape.start(generation);
    }

    fn draw(&mut self) -> u64 {
        self.calls = self.calls.saturating_add(1);
        self.tape.draw()
    }
}

fn wide<R: AllocGlobal + Abort>(rt: &R) -> MemSink {
    sink_of(rt.alloc(), WIDE, NEVER).expect(rt, "memory")
}

fn counting<R: AllocGlobal + Abort>(rt: &R) -> Counted
    ensures { result.tape.generation ≡ 0 }
{
    let tape = ListTape::new(rt.alloc(), &[]).expect(rt, "memory");
    Counted { tape, calls: 0 }
}

// A self-test of so many transactions beside a store, a tape, an input and a trace, none of which
// it touches: its status.
fn drill_beside<R: AllocGlobal + Threads + Wait + Sync + Abort>(rt: &R, count: &str) -> u8 {
    let mut store = noted_blank(rt.alloc(), calls::CELLS, &[]).expect(rt, "memory");
    let mut tape = counting(rt);
    let mut input = source_of(rt.alloc(), "client 1/", NEVER).expect(rt, "memory");
    let mut output = wide(rt);
    let mut trace = Some(wide(rt));
    let status = obladi(
        rt,
        &["drill", count],
        None,
        Some(&mut store),
        &mut tape,
        &mut input,
        &mut output,
        &mut trace,
        &mut Eager,
    );
    let trace = trace.expect(rt, "a trace");
    let unasked = store.told.written().is_empty() && tape.calls == 0;
    let unread = input.left() == b"client 1\n".as_slice() && trace.written().is_empty();
    insist(rt, unasked && unread, count);
    let_noting_go(store);
    status
}

#[test]
fn what_is_handed_in_is_left_as_it_was(rt: HostRuntime) {
    for (count, status) in [("1", 0), ("10001", 2), ("-1", 2)] {
        insist(&rt, drill_beside(&rt, count) == status, count);
    }
}
