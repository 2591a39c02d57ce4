//! An abort: those fall that depend on who is aborted, directly or not.

ghost use Rattle.std.specs.Prelude.{◌≡◌, ℕ, ◌+◌, ◌-◌, ◌<◌, ◌≤◌, length, true, false, if◌then◌else◌, get_or, set, None};
ghost use Rattle.ob_order.specs.Works as works;
ghost use Rattle.ob_order.specs.Chains.{Sourced};
ghost use Rattle.ob_key_versions.specs.Agendas.{Adds};
ghost use Rattle.ob_versions.specs.Ledgers.{IsLedger, IsReadyAgenda, HasReaders, ReadersIn, IsAbove};

use ob_base::Key;
use ob_key_versions::agenda::Agenda;
use ob_key_versions::readers::add_readers_of;
use ob_key_versions::table::Table;
use ob_key_versions::unlink::unlink_at;
use ob_order::{Fate, Work, end_in, fall_in, fell_on};

/// Whether the work at a place isn't aborted.
pub fn goes_on_at(list: &[Work], n: usize) -> bool
    requires { n < length list.now }
    ensures { (w : works.Work) → w ≡ get_or list.now n w → result ≡ works.is_going w.fate }
{
    let work = &list[n];
    matches!(work.fate, Fate::Going)
}

// The least source of the work at a place that is aborted, where it goes on.
fn falls_on(list: &[Work], n: usize) -> Option<u64>
    requires { n < length list.now }
    ensures { (w : works.Work) → w ≡ get_or list.now n w
        → result ≡ (if works.is_going w.fate then works.least_source (works.is_gone list.now) w.ops
        else None) }
{
    if goes_on_at(list, n) {
        fell_on(list, n)
    } else {
        None
    }
}

/// Ticket t is aborted in a call of its own, and its versions go.
pub fn end_at(table: &mut Table, list: &mut Vec<Work>, written: &mut u64, t: u64, keys: u32)
    requires in_range { (0 < t) × (t ≤ length list.old.items) }
    requires kept { IsLedger keys written.old list.old.items table.old }
    ensures list { list.new.items ≡ works.edit works.end_work list.old.items t }
    ensures kept { IsLedger keys written.new list.new.items table.new }
{
    *written -= unlink_at(table, list, t, keys);
    end_in(list, t as usize);
}

// Ticket t is aborted because of this one, and its versions go.
fn fall_at(table: &mut Table, list: &mut Vec<Work>, written: &mut u64, t: u64, on: u64, keys: u32)
    requires in_range { (0 < t) × (t ≤ length list.old.items) }
    requires kept { IsLedger keys written.old list.old.items table.old }
    ensures list { list.new.items ≡ works.edit (works.fall_to on) list.old.items t }
    ensures kept { IsLedger keys written.new list.new.items table.new }
{
    *written -= unlink_at(table, list, t, keys);
    fall_in(list, t as usize, on);
}

// Each ticket above t that has read what it wrote is on the agenda from now on.
fn note_readers(agenda: &mut Agenda, table: &Table, list: &[Work], t: u64)
    requires in_range { (0 < t) × (t ≤ length list.now) }
    requires room { length list.now ≤ agenda.old.room }
    requires sourced { Sourced list.now }
    requires readers { HasReaders list.now table.now }
    ensures has { ReadersIn list.now agenda.new.tickets t t }
    ensures adds { Adds agenda.old agenda.new (IsAbove t list.now) }
{
    add_readers_of(agenda, table, list, t);
}

// The work at a place falls because of its least source that is aborted, where it has one and
// goes on, and then those above that have read from it are on the agenda.
fn fall(
    table: &mut Table,
    list: &mut Vec<Work>,
    written: &mut u64,
    agenda: &mut Agenda,
    n: u64,
    keys: u32,
)
    requires in_range { n < length list.old.items }
    requires room { length list.old.items ≤ agenda.old.room }
    requires kept { IsLedger keys written.old list.old.items table.old }
    ensures list { (w : works.Work) → w ≡ get_or list.old.items n w
        → list.new.items
        ≡ set list.old.items n
        (works.fall (works.least_source (works.is_gone list.old.items) w.ops) w) }
    ensures kept { IsLedger keys written.new list.new.items table.new }
    ensures has { works.goes_on list.old.items (n + 1) ≡ true
        → works.goes_on list.new.items (n + 1) ≡ false
        → ReadersIn list.old.items agenda.new.tickets (n + 1) (n + 1) }
    ensures adds { Adds agenda.old agenda.new (IsAbove (n + 1) list.old.items) }
{
    if let Some(on) = falls_on(list, n as usize) {
        note_readers(agenda, table, list, n + 1);
        fall_at(table, list, written, n + 1, on, keys);
    }
}

/// Aborts ticket t, which isn't aborted, and with it each that depends on it, directly or not. It
/// looks at those that have read what goes, in rising order.
#[tactic(auto, using(ob_order::proofs::Steps::live_above, ob_order::proofs::Steps::live_within))]
pub fn abort_in(
    table: &mut Table,
    list: &mut Vec<Work>,
    written: &mut u64,
    agenda: &mut Agenda,
    t: u64,
    keys: u32,
)
    requires live { works.goes_on list.old.items t ≡ true }
    requires tidy { works.Tidy list.old.items }
    requires kept { IsLedger keys written.old list.old.items table.old }
    requires ready { IsReadyAgenda list.old.items agenda.old }
    ensures list { list.new.items ≡ works.aborted list.old.items t }
    ensures kept { IsLedger keys written.new list.new.items table.new }
    ensures ready { IsReadyAgenda list.new.items agenda.new }
{
    note_readers(agenda, table, list, t);
    end_at(table, list, written, t, keys);
    while let Some(next) = agenda.take_least() {
        fall(table, list, written, agenda, next - 1, keys);
    }
}
