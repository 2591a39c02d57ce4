//! The versions of a key and its readers, on a small case.

use ob_base::{Key, Op, Value};
use ob_key_versions::chain::Link;
use ob_key_versions::table::{
    Table, has_versions, make_room, mark_of_base, newest, note, put, raise, raise_base,
    reader_above, take,
};
use ob_key_versions::unlink::unlink;
use std::alloc::Global;
use std::collections::HashMap;

// A call on a table, of key 1 where it names none, and what it is answered.
enum Row {
    // The ticket's version with this byte: whether the key had none.
    Put(u64, u8, bool),
    // The ticket's version goes: whether it had the last one.
    Take(u64, bool),
    // What the ticket deleted goes: how many keys lost their last version.
    Unlink(u64, u64),
    // The ticket's version, or the value before all, is read by this one.
    Raise(u64, u64),
    RaiseBase(u64),
    Note(u64),
    Has(bool),
    // At or below a ticket: none, or the version of ticket 3, with the value 1 and this mark.
    Newest(Key, u64, Option<u64>),
    MarkOfBase(u64),
    // Above a ticket.
    Reader(u64, Option<u64>),
}

fn link(byte: u8) -> Link {
    Link {
        value: Value::new(&[byte]),
        mark: 0,
    }
}

// Whether it is none, or the version of ticket 3, with the value 1 and this mark.
fn is_first(found: Option<(u64, Link)>, mark: Option<u64>) -> bool {
    match found {
        Some((at, link)) => { at == 3 && Some(link.mark) == mark && link.value == Value::new(&[1]) }
        None => mark.is_none(),
    }
}

// Makes a call: whether it is answered so.
fn is_answered(alloc: Global, table: &mut Table, row: &Row) -> bool {
    if make_room(table, alloc, 1).is_err() {
        return false;
    }
    match *row {
        Row::Put(t, byte, first) => {
            matches!(put(table, 1, t, link(byte)), Ok(had_none) if had_none == first)
        }
        Row::Take(t, last) => take(table, 1, t) == last,
        Row::Unlink(t, lost) => unlink(table, &[Op::Del { key: 1 }], t, 8) == lost,
        Row::Raise(t, reader) => {
            raise(table, 1, t, reader);
            true
        }
        Row::RaiseBase(reader) => {
            raise_base(table, 1, reader);
            true
        }
        Row::Note(reader) => note(table, 1, reader).is_ok(),
        Row::Has(has) => has_versions(table, 1) == has,
        Row::Newest(key, t, mark) => is_first(newest(table, key, t), mark),
        Row::MarkOfBase(mark) => mark_of_base(table, 1) == mark,
        Row::Reader(t, reader) => reader_above(table, 1, t) == reader,
    }
}

// How many of these calls are answered so, up to the first that isn't, on a new table.
fn answered(alloc: Global, rows: &[Row]) -> usize {
    let mut table: Table = HashMap::new(alloc);
    for i in 0..rows.len() {
        if !is_answered(alloc, &mut table, &rows[i]) {
            return i;
        }
    }
    rows.len()
}

const ROWS: &[Row] = &[
    // A key has versions, of which each has its mark.
    Row::Has(false),
    Row::Put(3, 1, true),
    Row::Put(7, 2, false),
    Row::Raise(3, 5),
    Row::RaiseBase(2),
    Row::Newest(1, 2, None),
    Row::Newest(1, 6, Some(5)),
    Row::Newest(2, 3, None),
    Row::MarkOfBase(2),
    // And readers.
    Row::Note(5),
    Row::Note(9),
    Row::Reader(5, Some(9)),
    Row::Reader(9, None),
    // They go one by one.
    Row::Take(7, false),
    Row::Newest(1, 9, Some(5)),
    Row::Take(3, true),
    Row::Has(false),
    // What a ticket deleted goes.
    Row::Put(3, 1, true),
    Row::Unlink(3, 1),
    Row::Newest(1, 9, None),
];

#[test]
fn a_key_has_versions_and_readers(rt: HostRuntime) {
    assert!(rt; answered(rt.alloc(), ROWS) == ROWS.len());
}
