//! Position maps and stashes of a few keys.

use ob_base::{Key, Value};
use ob_tables::{Book, Entry, Stash, Tables};
use std::process::Abort;

#[test]
fn keys_are_kept_and_forgotten(rt: HostRuntime) {
    let mut book = Book::new(rt.alloc(), 8).expect(&rt, "memory");
    let entry = Entry {
        generation: 2,
        index: 7,
        leaf: 1,
    };
    let before = book.get(5);
    book.set(5, entry);
    let kept = book.get(5);
    let other = book.get(4);
    book.forget(5);
    assert!(rt; before.is_none() && kept == Some(entry) && other.is_none());
    assert!(rt; book.get(5).is_none());
}

// Puts a row where there is room.
fn put<R: Abort>(rt: &R, stash: &mut Stash, key: Key, bytes: &[u8]) {
    let value = Value::new(bytes).expect(rt, "few bytes");
    if stash.len() < stash.room() || stash.get(key).is_some() {
        stash.put(key, value);
    }
}

fn are_rows(stash: &Stash, expected: &[(Key, &[u8])]) -> bool {
    if stash.len() != expected.len() {
        return false;
    }
    for i in 0..expected.len() {
        let (key, value) = stash.row(i);
        if key != expected[i].0 || value.as_slice() != expected[i].1 {
            return false;
        }
    }
    true
}

fn is_value(found: Option<Value>, bytes: &[u8]) -> bool {
    match found {
        Some(value) => value.as_slice() == bytes,
        None => false,
    }
}

// Rows that are put, how they stand then, and how they stand where key 5 is taken.
static PUT: [(Key, &[u8]); 4] = [(5, &[1]), (2, &[2, 3]), (9, &[1]), (5, &[2, 3])];

static STANDING: [(Key, &[u8]); 3] = [(2, &[2, 3]), (5, &[2, 3]), (9, &[1])];

static LEFT: [(Key, &[u8]); 2] = [(2, &[2, 3]), (9, &[1])];

#[test]
fn rows_stand_in_key_order(rt: HostRuntime) {
    let mut stash = Stash::new(rt.alloc(), 3).expect(&rt, "memory");
    assert!(rt; stash.is_empty());
    for &(key, bytes) in &PUT {
        put(&rt, &mut stash, key, bytes);
    }
    assert!(rt; are_rows(&stash, &STANDING));
    assert!(rt; is_value(stash.get(5), &[2, 3]) && stash.get(6).is_none());
    assert!(rt; is_value(stash.take(5), &[2, 3]) && stash.take(5).is_none());
    assert!(rt; are_rows(&stash, &LEFT));
}

#[test]
fn tables_of_any_metas(rt: HostRuntime) {
    let tables = Tables {
        book: Book::new(rt.alloc(), 8).expect(&rt, "memory"),
        metas: 7,
        stash: Stash::new(rt.alloc(), 8).expect(&rt, "memory"),
        counter: 3,
    };
    assert!(rt; tables.metas == 7 && tables.counter == 3);
    assert!(rt; tables.stash.is_empty() && tables.book.get(0).is_none());
}
