//! The readers of what a transaction wrote.

ghost use Rattle.std.specs.Prelude.{◌≡◌, ℕ, ◌<◌, ◌≤◌, length, is_some, true, Some};
ghost use Rattle.ob_order.specs.Works as works;
ghost use Rattle.ob_key_versions.specs.Tables.{is_reader};
ghost use Rattle.ob_key_versions.specs.Agendas.{has_ticket, Adds, IsReaderAbove};

use crate::agenda::Agenda;
use crate::table::{Table, reader_above};
use crate::unlink::written_key;
use ob_base::{Key, Op};
use ob_order::Work;

/// The key's readers above ticket t are on the agenda from now on. It has room for each reader.
pub fn add_readers(agenda: &mut Agenda, table: &Table, key: Key, t: u64)
    requires drawn { (u : ℕ) → is_reader table.now key u ≡ true → (0 < u) × (u ≤ agenda.old.room) }
    ensures has { (u : ℕ) → is_reader table.now key u ≡ true → t < u
        → has_ticket agenda.new.tickets u ≡ true }
    ensures adds { Adds agenda.old agenda.new (IsReaderAbove table.now t) }
{
    let mut at = t;
    while let Some(reader) = reader_above(table, key, at) {
        agenda.add(reader);
        at = reader;
    }
}

fn add_readers_of_op(agenda: &mut Agenda, table: &Table, op: &Op<Key>, t: u64)
    requires drawn { (k u : ℕ) → is_reader table.now k u ≡ true → (0 < u) × (u ≤ agenda.old.room) }
    ensures has { (k u : ℕ) → is_some (works.write_of op.now k) ≡ true
        → is_reader table.now k u ≡ true → t < u → has_ticket agenda.new.tickets u ≡ true }
    ensures adds { Adds agenda.old agenda.new (IsReaderAbove table.now t) }
{
    if let Some(key) = written_key(op) {
        add_readers(agenda, table, key, t);
    }
}

fn add_readers_of_ops(agenda: &mut Agenda, table: &Table, ops: &[Op<Key>], t: u64)
    requires drawn { (k u : ℕ) → is_reader table.now k u ≡ true → (0 < u) × (u ≤ agenda.old.room) }
    ensures has { (k u : ℕ) → is_some (works.last_write ops.now k) ≡ true
        → is_reader table.now k u ≡ true → t < u → has_ticket agenda.new.tickets u ≡ true }
    ensures adds { Adds agenda.old agenda.new (IsReaderAbove table.now t) }
{
    for op in ops {
        add_readers_of_op(agenda, table, op, t);
    }
}

/// The readers above ticket t of each key that it wrote are on the agenda from now on. It has room
/// for each reader.
pub fn add_readers_of(agenda: &mut Agenda, table: &Table, list: &[Work], t: u64)
    requires in_range { (0 < t) × (t ≤ length list.now) }
    requires drawn { (k u : ℕ) → is_reader table.now k u ≡ true → (0 < u) × (u ≤ agenda.old.room) }
    ensures has { (w : works.Work) → works.at_ticket list.now t ≡ Some w → (k u : ℕ)
        → is_some (works.last_write w.ops k) ≡ true → is_reader table.now k u ≡ true → t < u
        → has_ticket agenda.new.tickets u ≡ true }
    ensures adds { Adds agenda.old agenda.new (IsReaderAbove table.now t) }
{
    let work = &list[(t - 1) as usize];
    add_readers_of_ops(agenda, table, &work.ops, t);
}
