//! What each half of a mirror is asked, and what the mirror answers.

ghost use Rattle.std.specs.Prelude.{◌≡◌};
ghost use Rattle.ob_mem.specs.Memory.{disk_of_store};

use crate::spy::{Spy, let_go};
use crate::steps::{NONE, holds, insist_at, new_spy, play};
use ob_mem::Fail;
use ob_mirror::{Mirror, Places, join};
use ob_store::Blind;
use std::alloc::Global;
use std::process::Abort;

// Two stores of four cells: what fails in each (behind four writes and a sync), what is called of
// the mirror behind a join; what each was asked then, behind the join's own calls; and what fills the
// first cells of both.
type Row = (
    Fail,
    Fail,
    &'static str,
    &'static str,
    &'static str,
    &'static str,
);

static ROWS: [Row; 13] = [
    // Nothing fails: the second has the first's writes and syncs, and no read.
    (
        NONE,
        NONE,
        "R12 W19 S R19 W37 R01 S",
        "R1W1S.R1W3R0S.",
        "W1S.W3S.",
        "1937",
    ),
    // A read of the first fails: the second serves it, and just that one.
    (READ, NONE, "W19 R23 R01 R19", "W1R2R0R1", "W1R2", "19"),
    // It fails of both.
    (
        READ,
        Fail::Read { cell: 2, writes: 9 },
        "W19 r2 R01",
        "W1R2R0",
        "W1R2",
        "19",
    ),
    // A lane of the second is refused, and the first's given back: else no write could be made.
    (NONE, Fail::Lane(0), "l W06 R06", "W0R0", "W0", "6234"),
    // A lane of the first.
    (Fail::Lane(1), NONE, "l W06 R06", "W0R0", "W0", "6234"),
    // A write or a sync of either is refused: the other is asked no less.
    (
        NONE,
        Fail::Write(8),
        "w19 S R19 W37 S",
        "W1S.R1W3S.",
        "W1S.W3S.",
        "1937",
    ),
    (
        NONE,
        Fail::Sync(2),
        "W19 s R19 W37 S",
        "W1S.R1W3S.",
        "W1S.W3S.",
        "1937",
    ),
    (
        NONE,
        Fail::Write(9),
        "W19 S w37 S",
        "W1S.W3S.",
        "W1S.W3S.",
        "1937",
    ),
    (
        NONE,
        Fail::Sync(3),
        "W19 S W37 s",
        "W1S.W3S.",
        "W1S.W3S.",
        "1937",
    ),
    (
        Fail::Write(4),
        NONE,
        "w19 S W37 S",
        "W1S.W3S.",
        "W1S.W3S.",
        "1937",
    ),
    (
        Fail::Sync(1),
        NONE,
        "W19 s W37 S",
        "W1S.W3S.",
        "W1S.W3S.",
        "1937",
    ),
    (
        Fail::Write(5),
        NONE,
        "W19 S w37 S",
        "W1S.W3S.",
        "W1S.W3S.",
        "1937",
    ),
    (
        Fail::Sync(2),
        NONE,
        "W19 S W37 s",
        "W1S.W3S.",
        "W1S.W3S.",
        "1937",
    ),
];

// The first half refuses cell 2 behind a write of the mirror.
const READ: Fail = Fail::Read { cell: 2, writes: 5 };

// What a join asks of the first, and of the second.
const JOIN_FIRST: &str = "R0R1R2R3";

const JOIN_SECOND: &str = "W0W1W2W3S.";

/// Makes these calls of a mirror.
pub fn mirror_plays(rt: &impl Abort, first: &mut Spy, second: &mut Spy, steps: &str)
    requires first { (disk_of_store first.old.store).out ≡ 0 }
    requires second { (disk_of_store second.old.store).out ≡ 0 }
{
    let mut mirror = Mirror::over(first, second, Places::new());
    play(rt, &mut mirror, steps);
}

// Whether a store was asked this, behind that.
fn was_asked(spy: &Spy, before: &str, then: &str) -> bool {
    let heard = spy.heard.as_slice();
    heard.len().checked_sub(before.len()) == Some(then.len())
        && heard.starts_with(before.as_bytes())
        && heard.ends_with(then.as_bytes())
}

// Whether a join is made, or refused, and each half was asked so, and is left so; of a refused join
// the second isn't looked at.
fn asks_so(rt: &impl Abort, first: &mut Spy, second: &mut Spy, row: &Row, is_joined: bool) -> bool
    requires first { (disk_of_store first.old.store).out ≡ 0 }
    requires second { (disk_of_store second.old.store).out ≡ 0 }
{
    let (_, _, steps, asked_first, asked_second, left) = *row;
    if join(first, second, 4, &mut Blind).is_err() {
        return !is_joined
            && was_asked(first, "", asked_first)
            && was_asked(second, "", asked_second)
            && holds(first, left);
    }
    mirror_plays(rt, first, second, steps);
    is_joined
        && was_asked(first, JOIN_FIRST, asked_first)
        && was_asked(second, JOIN_SECOND, asked_second)
        && holds(first, left)
        && holds(second, left)
}

// The same of two stores that are made for it.
fn row_goes_so(rt: &impl Abort, alloc: Global, row: &Row, is_joined: bool) -> bool {
    let mut first = new_spy(rt, alloc, b"1234", row.0);
    let mut second = new_spy(rt, alloc, b"0909", row.1);
    let so = asks_so(rt, &mut first, &mut second, row, is_joined);
    let_go(first);
    let_go(second);
    so
}

// Each of these rows goes so.
fn rows_go_so(rt: &impl Abort, alloc: Global, rows: &[Row], is_joined: bool) {
    for i in 0..rows.len() {
        insist_at(rt, row_goes_so(rt, alloc, &rows[i], is_joined), i);
    }
}

#[test]
fn each_half_is_asked_in_its_turn(rt: HostRuntime) {
    rows_go_so(&rt, rt.alloc(), &ROWS, true);
}

// What fails in each half, and what a refused join has asked of each.
static REFUSED: [Row; 7] = [
    (Fail::Lane(0), NONE, "", "", "", "1234"),
    (
        Fail::Read { cell: 2, writes: 4 },
        NONE,
        "",
        "R0R1R2",
        "W0W1",
        "12",
    ),
    (NONE, Fail::Write(4), "", "R0", "W0", "1234"),
    (NONE, Fail::Write(5), "", "R0R1", "W0W1", "1234"),
    (NONE, Fail::Write(6), "", "R0R1R2", "W0W1W2", "1234"),
    (NONE, Fail::Write(7), "", "R0R1R2R3", "W0W1W2W3", "1234"),
    (NONE, Fail::Sync(1), "", JOIN_FIRST, JOIN_SECOND, "1234"),
];

#[test]
fn a_refused_join_only_reads_the_first(rt: HostRuntime) {
    rows_go_so(&rt, rt.alloc(), &REFUSED, false);
}
