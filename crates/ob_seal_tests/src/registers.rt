//! Registers at each moment of a set, and a store of another version that begins with them.

ghost use Rattle.std.specs.Prelude.{◌≡◌, ℕ};
ghost use Rattle.ob_mem.specs.Replay.{zeros};
ghost use Rattle.ob_mem.specs.Memory.{disk_of_store};

use crate::shared::{damaged, left_after, new_sink, new_store};
use ob_base::{Check, Fault};
use ob_mem::{Fail, MemStore};
use ob_seal::{Keys, Sealer};
use ob_start::{begin, lay_registers, read_head, read_registers, set_first};
use ob_store::{Blind, SinkWatch, Store};
use ob_twin::{Gates, SetErr, Twin, ZeroTag};
use std::alloc::Global;
use std::process::Abort;

type Got = Result<Option<u64>, Fault>;

// The epoch register's number after a crash of a store, which leaves in its cells, where they
// aren't sure, this byte throughout, or what they got last.
fn number_after(rt: &impl Abort, store: &MemStore, moment: usize, filling: Option<u8>) -> Got {
    let mut left = left_after(rt, store, moment, &[5, 6, 7, 8], filling);
    Twin::EPOCH.get(&mut left, &ZeroTag, &mut Gates::new(), &mut Blind)
}

// Sets 0, 1 and 2 in a new store: which set was refused first, and whether before its gate.
fn refused_at(store: &mut MemStore) -> (u64, bool)
    requires none_out { store.old.log.out ≡ 0 }
    requires blank { (k : ℕ) → (disk_of_store store.old).cells k ≡ zeros }
{
    let mut gates = Gates::new();
    for number in 0..3 {
        match Twin::EPOCH.set(store, &ZeroTag, &mut gates, number, &mut Blind) {
            Ok(()) => {}
            Err(SetErr::Before(_)) => return (number, true),
            Err(SetErr::Unsure(_)) => return (number, false),
        }
    }
    (3, false)
}

// The numbers after so many calls and a crash, where the cells that aren't sure hold what they got
// last, zeros, or A5 in every byte. The first set has six calls, the second four, the third six.
type Numbers = (usize, Option<u64>, Option<u64>, Option<u64>);

const NUMBERS: &[Numbers] = &[
    (0, None, None, None),
    (6, Some(0), Some(0), Some(0)),
    (7, Some(0), Some(0), Some(0)),
    (8, Some(0), Some(0), Some(0)),
    (9, Some(1), Some(0), Some(1)),
    (10, Some(1), Some(1), Some(1)),
    (11, Some(1), Some(1), Some(1)),
    (12, Some(1), Some(1), Some(1)),
    (13, Some(1), Some(1), Some(1)),
    (14, Some(1), Some(1), Some(1)),
    (15, Some(2), Some(1), Some(2)),
    (16, Some(2), Some(2), Some(2)),
];

// Whether the register stands at these numbers then.
fn stands_at(rt: &impl Abort, store: &MemStore, numbers: &Numbers) -> bool {
    let &(moment, last, zeros, open) = numbers;
    number_after(rt, store, moment, None) == Ok(last)
        && number_after(rt, store, moment, Some(0)) == Ok(zeros)
        && number_after(rt, store, moment, Some(0xA5)) == Ok(open)
}

#[test]
fn a_crash_leaves_old_or_new(rt: HostRuntime) {
    let mut store = new_store(&rt, rt.alloc(), 20, &[]);
    assert!(rt; refused_at(&mut store) == (3, false));
    for numbers in NUMBERS {
        assert!(rt; stands_at(&rt, &store, numbers), "at {}", numbers.0);
    }
    assert!(rt; store.starved() == 0);
}

// The call that fails, the set that is refused, and whether before its gate.
const REFUSED: &[(Fail, u64, bool)] = &[
    (Fail::Write(0), 0, true),
    (Fail::Sync(0), 0, true),
    (Fail::Write(1), 0, true),
    (Fail::Sync(1), 0, true),
    (Fail::Write(2), 0, false),
    (Fail::Sync(2), 0, false),
    (Fail::Write(3), 1, true),
    (Fail::Sync(3), 1, true),
    (Fail::Write(4), 1, false),
    (Fail::Sync(4), 1, false),
    (Fail::Write(5), 2, true),
    (Fail::Sync(5), 2, true),
    (Fail::Write(6), 2, true),
    (Fail::Sync(6), 2, true),
    (Fail::Write(7), 2, false),
    (Fail::Sync(7), 2, false),
];

#[test]
fn a_failing_call_is_told(rt: HostRuntime) {
    for &(fail, at, before) in REFUSED {
        let mut store = new_store(&rt, rt.alloc(), 20, &[fail]);
        assert!(rt; refused_at(&mut store) == (at, before), "set {at}");
    }
}

#[test]
fn the_order_is_shown(rt: HostRuntime) {
    let alloc = rt.alloc();
    let mut store = new_store(&rt, alloc, 20, &[]);
    let mut sink = new_sink(&rt, alloc, 200);
    let mut gates = Gates::new();
    let mut watch = SinkWatch::new(&mut sink);
    let set = Twin::GENERATION.set(&mut store, &ZeroTag, &mut gates, 1, &mut watch);
    assert!(rt; set.is_ok());
    let found = Twin::GENERATION.get(&mut store, &ZeroTag, &mut gates, &mut watch);
    assert!(rt; found == Ok(Some(1)));
    let shown = b"W 4\nS\nW 3\nS\nW 4\nS\nR 1\nR 2\nR 3\nR 4\n";
    assert!(rt; sink.written() == shown.as_slice());
}

// Whether this is told where a cell of a body is written and its gate opened.
fn tells(rt: &impl Abort, store: &mut MemStore, cell: u64, bytes: &[u8; 128], told: Fault) -> bool
    requires { store.old.log.out ≡ 0 }
    ensures { store.new.log.out ≡ 0 }
{
    assert!(rt; store.write(cell.saturating_add(1), &[0xA5; 128]).is_ok());
    assert!(rt; store.write(cell, bytes).is_ok());
    Twin::EPOCH.get(store, &ZeroTag, &mut Gates::new(), &mut Blind) == Err(told)
}

#[test]
fn a_body_that_breaks_a_rule_is_named(rt: HostRuntime) {
    let mut store = new_store(&rt, rt.alloc(), 20, &[]);
    let mut great = [0; 128];
    great[7] = 0x40;
    let form = damaged(7, Check::Form, (1 << 62, 0), (0, 0));
    assert!(rt; tells(&rt, &mut store, 7, &great, form));
    let ones = u64::from_le_bytes([1; 8]);
    let tag = damaged(5, Check::Tag, (ones, ones), (0, 0));
    assert!(rt; tells(&rt, &mut store, 5, &[1; 128], tag));
}

// Lays the registers of a store without a head, which is shown, and sets the first epoch.
fn lay(rt: &impl Abort, alloc: Global, store: &mut MemStore, sealer: &Sealer)
    requires { store.old.log.out ≡ 0 }
    ensures { store.new.log.out ≡ 0 }
{
    let mut sink = new_sink(rt, alloc, 200);
    let mut watch = SinkWatch::new(&mut sink);
    assert!(rt; lay_registers(store, sealer, &[12, 14], &mut watch).is_ok());
    let written = b"W 0\nS\nW 2\nW 4\nW 6\nW 8\nW 12\nW 14\nS\nW 4\nS\nW 3\nS\nW 4\nS\n";
    assert!(rt; sink.written() == written.as_slice());
    let head = read_head(store, &sealer.keys(), 103, &mut Blind);
    assert!(rt; head.err() == Some(Fault::NotStore));
    assert!(rt; set_first(Twin::EPOCH, store, sealer, 0, &mut Blind).is_ok());
}

#[test]
fn a_store_is_begun(rt: HostRuntime) {
    let sealer = Sealer::new(&Keys::from_bytes(&[7; 96]), 0);
    let mut store = new_store(&rt, rt.alloc(), 20, &[]);
    lay(&rt, rt.alloc(), &mut store, &sealer);
    let mut gates = Gates::new();
    let numbers = read_registers(&mut store, &sealer, &mut gates, &mut Blind);
    let numbers = numbers.expect(&rt, "registers");
    assert!(rt; numbers.generation == 1 && numbers.epoch == 0);
    assert!(rt; begin(&mut store, &sealer, &mut gates, 1, &mut Blind) == Ok(2));
}
