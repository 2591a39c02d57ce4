//! Rows of tables: what stands before a call, the call, and what it answers.
//!
//! What stands there is a store by its name, of 8 keys and just formatted where nothing else is said,
//! and what is done to its cells: a bit is changed, or a cell is forged under the keys.

ghost use Rattle.std.specs.Prelude.{◌≡◌};
ghost use Rattle.ob_mem.specs.Memory.{disk_of_store};

use crate::playing::{ONE_EPOCH, PUT, RUN, blank, expect, insist, left_after};
use ob_mem::{Fail, MemStore};
use ob_seal::{Keys, Sealer};
use ob_store::Store;
use ob_top_calls as calls;
use ob_top_calls::{Ask, CELLS, END, KEYS, NEVER, ask_for, let_go};
use std::process::Abort;
use std::sync::Wait;
use std::thread::Threads;

// A sealer of a generation under the keys of the bytes 0 to 95.
fn sealer_of(generation: u64) -> Sealer {
    let mut bytes = [0; 96];
    for i in 0..96 {
        bytes[i] = i as u8;
    }
    Sealer::new(&Keys::from_bytes(&bytes), generation)
}

// Sets plain bytes of a cell from a place on, so many, to the low ones of a number: of `n` the place,
// the number and how many stand behind the cell.
fn put<R: Abort>(rt: &R, bytes: &mut [u8], n: [u64; 4]) {
    let (place, low, many) = (n[1] as usize, n[2].to_le_bytes(), n[3] as usize);
    assert!(*rt; many <= 8 && place <= bytes.len() && many <= bytes.len() - place);
    bytes[place..place + many].copy_from_slice(&low[..many]);
}

// A stamped cell with plain bytes set.
fn stamped<R: Abort>(rt: &R, bytes: &[u8; 128], n: [u64; 4]) -> [u8; 128] {
    let mut plain = [0; 112];
    plain.copy_from_slice(&bytes[..112]);
    put(rt, &mut plain, n);
    sealer_of(0).stamp(n[0], &plain)
}

// A sealed cell that is sealed anew for a cell: with plain bytes set, or under the number behind its
// own.
fn resealed<R: Abort>(rt: &R, kind: &str, bytes: &[u8; 128], n: [u64; 4], to: u64) -> [u8; 128] {
    let opened = sealer_of(0).unseal(n[0], None, bytes);
    let opened = opened.ok().expect(rt, "a sealed cell");
    let mut plain = opened.plain;
    if kind == "seal" {
        put(rt, &mut plain, n);
    }
    let number = opened.number.saturating_add((kind == "renumber") as u64);
    assert!(*rt; number < 1 << 62);
    sealer_of(opened.generation).seal_at(to, number, &plain)
}

// The numbers of a text, of which there are at most four, and zeros behind them.
fn numbers_of<R: Abort>(rt: &R, text: &str) -> [u64; 4] {
    let mut n = [0; 4];
    let mut many: usize = 0;
    for word in text.split_whitespace() {
        assert!(*rt; many < 4);
        n[many] = number_of(rt, word);
        many = many.saturating_add(1);
    }
    n
}

// What a cell then has, of which a harm is done to these bytes.
fn harmed<R: Abort>(rt: &R, kind: &str, bytes: &[u8; 128], n: [u64; 4], to: u64) -> [u8; 128] {
    match kind {
        "flip" => {
            let mut bytes = *bytes;
            bytes[20] ^= 1;
            bytes
        }
        "open" => [0xA5; 128],
        "stamp" => stamped(rt, bytes, n),
        _ => resealed(rt, kind, bytes, n, to),
    }
}

// Does a harm to a store:
//
//   flip CELL                     a bit of its byte 20 is changed
//   open CELL                     all its bytes are those of an open gate
//   seal CELL PLACE NUMBER MANY   of the plain bytes of a sealed cell, from a place on, so many are the
//                                 low ones of a number; it is sealed anew under its own identity
//   stamp CELL PLACE NUMBER MANY  the same of a stamped cell
//   renumber CELL                 a sealed cell's plain bytes are sealed anew under the number behind
//                                 its own
//   move CELL TO                  a second cell has the plain bytes of a sealed one, and its identity
fn harm<R: Abort>(rt: &R, store: &mut MemStore, text: &str)
    requires { (disk_of_store store.old).out ≡ 0 }
    ensures { (disk_of_store store.new).out ≡ 0 }
{
    let (kind, numbers) = parted(rt, text, " ");
    let n = numbers_of(rt, numbers);
    let to = if kind == "move" { n[1] } else { n[0] };
    let bytes = calls::cell_of(store, n[0]).expect(rt, "a cell");
    let bytes = harmed(rt, kind, &bytes, n, to);
    insist(rt, store.write(to, &bytes).is_ok(), text);
}

// Does all harms of a text to a store.
fn harm_all<R: Abort>(rt: &R, store: &mut MemStore, harms: &str)
    requires { (disk_of_store store.old).out ≡ 0 }
    ensures { (disk_of_store store.new).out ≡ 0 }
{
    for text in harms.split(", ") {
        if !text.is_empty() {
            harm(rt, store, text);
        }
    }
}

/// A number in digits.
pub fn number_of<R: Abort>(rt: &R, text: &str) -> u64 {
    text.parse::<u64>().ok().expect(rt, "a number")
}

/// What stands in a line before the first place of a mark, and behind it.
pub fn parted<'a, R: Abort>(rt: &R, line: &'a str, mark: &str) -> (&'a str, &'a str) {
    line.split_once(mark).expect(rt, mark)
}

// The calls of a store that fail: a lane, a sync, or a cell's reads while a batch or the lifts are
// read, behind the format's 62 writes, a harm's and the run's.
fn fails_of<R: Abort>(rt: &R, kind: &str, number: &str) -> [Fail; 2] {
    match kind {
        "lane" => [Fail::Lane(number_of(rt, number)); 2],
        "sync" => [Fail::Sync(number_of(rt, number)); 2],
        "read" => {
            let (cell, writes) = (number_of(rt, number), 67);
            [Fail::Read { cell, writes }, Fail::Read { cell, writes: 69 }]
        }
        _ => [Fail::Lane(NEVER); 2],
    }
}

// A store's cells, its format and what is told of it. Of `tall`, at a tree of 15 buckets, the path that
// an epoch's end fills has four places; the stash of `narrow` may keep one row.
fn format_of(kind: &str) -> (usize, &'static str, &'static str) {
    match kind {
        "blank" => (CELLS, "", ""),
        "tall" => (87, "format S K 8 3 1 1 1 1 8 1 1", "store of 87 cells/"),
        "narrow" => (37, "format S K 4 1 2 1 1 1 4 1 1", "store of 37 cells/"),
        "single" => (29, "format S K 1 1 1 1 1 2 1 1 1", "store of 29 cells/"),
        _ => (CELLS, "format S K 8 2 2 3 2 2 2 2 8", "store of 109 cells/"),
    }
}

// What a crash leaves of a store behind a run, by its script and what is told of it; the crash comes
// behind so many of the run's writes and syncs.
fn ran_to<R: AllocGlobal + Threads + Wait + Sync + Abort>(
    rt: &R,
    mut store: MemStore,
    script: &str,
    told: &str,
    moment: usize,
) -> MemStore
    requires { (disk_of_store store).out ≡ 0 }
    ensures { (disk_of_store result).out ≡ 0 }
{
    let moment = store.moments().saturating_add(moment);
    expect(rt, &mut store, RUN, script, 0, told);
    let left = left_after(rt, &store, moment, None);
    let_go(store);
    left
}

// A store by its name. A record is open in `recorded` and `single`: a run's opening made five writes and
// syncs, and the record four. Behind `ended` is an epoch that put key 5.
fn base_of<R: AllocGlobal + Threads + Wait + Sync + Abort>(rt: &R, name: &str) -> MemStore
    ensures { (disk_of_store result).out ≡ 0 }
{
    let (kind, number) = name.split_once(' ').unwrap_or((name, ""));
    let (cells, words, told) = format_of(kind);
    let mut store = blank(rt, cells, &fails_of(rt, kind, number));
    if !words.is_empty() {
        expect(rt, &mut store, words, "", 0, told);
    }
    let (script, told, moment) = match kind {
        "recorded" | "single" => (
            "client 1/begin/commit",
            "epoch 1/txn 1 client 1 committed/",
            9,
        ),
        "ended" => (PUT, ONE_EPOCH, END),
        _ => return store,
    };
    ran_to(rt, store, script, told, moment)
}

/// What stands before a call, `NAME`, or `NAME, HARM, HARM` and so on.
pub fn stand<R: AllocGlobal + Threads + Wait + Sync + Abort>(rt: &R, found: &str) -> MemStore
    ensures { (disk_of_store result).out ≡ 0 }
{
    let (name, harms) = found.split_once(", ").unwrap_or((found, ""));
    let mut store = base_of(rt, name);
    harm_all(rt, &mut store, harms);
    store
}

// A call at what stands before it: `short` and `keyless` say so of the keys, `input` and `output` that
// the first call on that one fails.
fn ask_at<'a>(found: &str, words: &'a str, script: &'a str) -> Ask<'a> {
    let mut ask = ask_for(words, script);
    match found {
        "short" => ask.keys = Some(&KEYS[..190]),
        "keyless" => ask.keys = None,
        "input" => ask.bad_read = 0,
        "output" => ask.bad_write = 0,
        _ => {}
    }
    ask
}

/// Makes a call at what stands before it, which is answered `STATUS OUTPUT`. How many writes and syncs
/// it made, and how often the store failed.
pub fn play<R: AllocGlobal + Threads + Wait + Sync + Abort>(
    rt: &R,
    found: &str,
    words: &str,
    script: &str,
    wanted: &str,
) -> (usize, u64) {
    let (status, told) = parted(rt, wanted, " ");
    let mut store = stand(rt, found);
    let before = store.moments();
    let answer = calls::call(rt, &mut store, &ask_at(found, words, script)).expect(rt, "memory");
    insist(rt, answer.was(number_of(rt, status), told), found);
    let (steps, faults) = (store.moments().saturating_sub(before), store.faults());
    let_go(store);
    (steps, faults)
}

/// Plays rows, `FOUND: WORDS < SCRIPT -> STATUS OUTPUT`, or `FOUND -> STATUS OUTPUT` for a run that gets
/// key 5. How many writes and syncs their calls made.
pub fn play_all<R: AllocGlobal + Threads + Wait + Sync + Abort>(rt: &R, rows: &str) -> usize {
    let mut steps: usize = 0;
    for row in rows.lines() {
        let (left, wanted) = parted(rt, row, " -> ");
        let got = "run S K < client 1/begin/get 5/commit";
        let (found, call) = left.split_once(": ").unwrap_or((left, got));
        let (words, script) = parted(rt, call, " < ");
        steps = steps.saturating_add(play(rt, found, words, script, wanted).0);
    }
    steps
}
