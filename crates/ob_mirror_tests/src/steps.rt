//! Calls on a store as words: what is called, and what it has to answer.

ghost use Rattle.std.specs.Prelude.{◌≡◌, ◌≤◌};
ghost use Rattle.ob_mem.specs.Memory.{disk_of_store};

use crate::spy::Spy;
use ob_mem::{Fail, MemStore};
use ob_store::Store;
use std::alloc::Global;
use std::process::Abort;

/// Ends the test where this isn't so, and names the case.
pub fn insist<R: Abort>(rt: &R, so: bool, case: &str) {
    assert!(rt; so, "{case}");
}

/// The same of a case by its number.
pub fn insist_at<R: Abort>(rt: &R, so: bool, case: usize) {
    assert!(rt; so, "{case}");
}

// Reads a cell by a lane of its own: the byte that fills it; none where the store refused, or where
// no byte does.
fn read_byte<S: Store>(store: &mut S, cell: u64) -> Option<u8>
    ensures { (S.disk store.new).out ≤ (S.disk store.old).out }
{
    let Ok(mut lane) = store.lane() else {
        return None;
    };
    let mut bytes = [0x99; 128];
    let read = store.read(&mut lane, cell, &mut bytes).is_ok();
    store.absorb(lane);
    if read && bytes == [bytes[0]; 128] {
        Some(bytes[0])
    } else {
        None
    }
}

/// Whether the cells from 0 on are filled with these bytes.
pub fn holds<S: Store>(store: &mut S, bytes: &str) -> bool {
    let bytes = bytes.as_bytes();
    for cell in 0..bytes.len() {
        if read_byte(store, cell as u64) != Some(bytes[cell]) {
            return false;
        }
    }
    true
}

// Whether no lane is made.
fn has_no_lane<S: Store>(store: &mut S) -> bool
    ensures { (S.disk store.new).out ≤ (S.disk store.old).out }
{
    let Ok(lane) = store.lane() else {
        return true;
    };
    store.absorb(lane);
    false
}

// Whether a call answers as it has to.
fn answers_so<S: Store>(store: &mut S, call: u8, cell: u64, byte: u8) -> bool
    requires { (S.disk store.old).out ≡ 0 }
    ensures { (S.disk store.new).out ≡ 0 }
{
    match call {
        b'W' => store.write(cell, &[byte; 128]).is_ok(),
        b'w' => store.write(cell, &[byte; 128]).is_err(),
        b'S' => store.sync().is_ok(),
        b's' => store.sync().is_err(),
        b'R' => read_byte(store, cell) == Some(byte),
        b'r' => read_byte(store, cell).is_none(),
        _ => has_no_lane(store),
    }
}

// The letter at a place of a word.
fn letter(word: &str, place: usize) -> u8 {
    let letters = word.as_bytes();
    if place < letters.len() {
        letters[place]
    } else {
        b'-'
    }
}

/// Makes calls one behind the other, each of which has to answer so: `W19` fills cell 1 with the byte
/// `9`, `S` syncs, `R19` reads cell 1 as filled with `9`; `w19`, `s` and `r1` are refused, and at `l`
/// no lane is made.
pub fn play<S: Store>(rt: &impl Abort, store: &mut S, steps: &str)
    requires { (S.disk store.old).out ≡ 0 }
    ensures { (S.disk store.new).out ≡ 0 }
{
    for word in steps.split(' ') {
        let cell = u64::from(letter(word, 1).saturating_sub(b'0'));
        let so = answers_so(store, letter(word, 0), cell, letter(word, 2));
        insist(rt, so, word);
    }
}

/// No call of a test comes to this number.
pub const NONE: Fail = Fail::Lane(99);

/// Four cells of these bytes, where this call fails: four writes and a sync stand before it.
pub fn new_spy(rt: &impl Abort, alloc: Global, bytes: &[u8; 4], fail: Fail) -> Spy
    ensures { (disk_of_store result.store).out ≡ 0 }
{
    let fails = [fail].to_vec(alloc).expect(rt, "memory");
    let mut store = MemStore::new(alloc, 4, fails).expect(rt, "memory");
    for i in 0..4 {
        let written = store.write(i as u64, &[bytes[i]; 128]).is_ok();
        insist_at(rt, written, i);
    }
    insist(rt, store.sync().is_ok(), "a sync");
    Spy::new(alloc, store)
}
