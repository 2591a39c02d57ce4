//! What the transactions of an epoch did, by ticket, with the chains of their versions.

ghost use Rattle.std.specs.Prelude.{◌≡◌, ℕ, ◌+◌, ◌-◌, ◌<◌, ◌≤◌, length, true, not, ◌&&◌, ◌==◌, if◌then◌else◌, is_some, IfOk, OnOk, OnErr, MatchOption, get_or, set, Some, None, [], ◌∷◌, ◌++◌, map};
ghost use Rattle.ob_order.specs.Works as works;
ghost use Rattle.ob_order.specs.Order as rules;
ghost use Rattle.std.specs.Option.{option_map, unwrap_or};
ghost use Rattle.ob_key_versions.specs.Tables.{chain_at, link_at, has_links, is_reader, SameLinks, SameBases, SameKeys, SameReaders, IsMarkRaised};
ghost use Rattle.ob_versions.specs.Ledgers.{covered_mark, NotesReader};

use crate::cascade::{abort_in, end_at, goes_on_at};
use ob_base::{Key, Memory, Op, Value};
use ob_key_versions::agenda::Agenda;
use ob_key_versions::chain::Link;
use ob_key_versions::table::{
    Table, has_versions, make_room, mark_of_base, newest, note, put, raise, raise_base,
};
use ob_key_versions::unlink::count_where;
use ob_order::{Fate, Version, Work, add_awaited, add_to, make_wait, set_waiting};
use std::alloc::Global;
use std::collections::HashMap;
use std::marker::Model;
use std::mem;

/// The works by ticket, from 1, an index of their versions by key, and room for an abort.
#[derive(Drop)]
pub struct Ledger {
    alloc: Global,
    keys: u32,
    works: Vec<Work>,
    table: Table,
    written: u64,
    agenda: Agenda,
}

impl Model for Ledger {
    ghost use Rattle.ob_versions.specs.Ledgers.{LedgerModel, IsLedger, IsReadyAgenda};

    ghost Value = { LedgerModel };

    ghost view = { λ l. record { keys = l.keys; works = l.works.items } };

    ghost invariant = { λ l. IsLedger l.keys l.written l.works.items l.table × IsReadyAgenda l.works.items l.agenda };
}

// The operation that sets the key to this.
fn write_op(key: Key, value: Option<Value>) -> Op<Key>
    ensures { result ≡ rules.write_op key value }
{
    match value {
        None => Op::Del { key },
        Some(value) => Op::Put { key, value },
    }
}

// An answered get.
fn get_op(key: Key, version: &Version) -> Op<Key>
    ensures { result ≡ works.Get key version.now.value version.now.source }
{
    Op::Get {
        key,
        reply: version.value,
        source: version.source,
    }
}

// A version with this value that nobody has read.
fn unread(value: &Option<Value>) -> Link
    ensures { result ≡ record { value = value.now; mark = 0 } }
{
    Link {
        value: *value,
        mark: 0,
    }
}

// The mark of a version, or else this one.
fn mark_of(version: Option<(u64, Link)>, base: u64) -> u64
    ensures { result ≡ unwrap_or (option_map (λ p. p.1.mark) version) base }
{
    match version {
        Some((_, link)) => link.mark,
        None => base,
    }
}

// What the source wrote, or the value that the epoch began with for source 0, was read by this
// reader too.
fn raise_mark(table: &mut Table, key: Key, source: u64, reader: u64)
    requires { is_some (chain_at table.old key) ≡ true }
    ensures raises { IsMarkRaised table.old table.new key source reader }
    ensures keys { SameKeys table.old table.new }
    ensures readers { SameReaders table.old table.new }
{
    if source == 0 {
        raise_base(table, key, reader);
    } else {
        raise(table, key, source, reader);
    }
}

// Room for the key's chain is made, and the ticket is noted there as a reader.
fn note_reader(table: &mut Table, alloc: Global, key: Key, t: u64) -> Result<(), Memory>
    ensures ok { OnOk result ((is_some (chain_at table.new key) ≡ true)
        × (is_reader table.new key t ≡ true)) }
    ensures notes { NotesReader table.old table.new t }
    ensures links { SameLinks table.old table.new }
    ensures bases { SameBases table.old table.new }
    ensures keys { SameKeys table.old table.new }
{
    make_room(table, alloc, key)?;
    note(table, key, t)?;
    Ok(())
}

// Room for the key's chain is made, and where the source is a ticket the reader is noted there.
fn note_source(
    table: &mut Table,
    alloc: Global,
    key: Key,
    source: u64,
    t: u64,
) -> Result<(), Memory>
    ensures ok { OnOk result ((is_some (chain_at table.new key) ≡ true)
        × (0 < source → is_reader table.new key t ≡ true)) }
    ensures notes { NotesReader table.old table.new t }
    ensures links { SameLinks table.old table.new }
    ensures bases { SameBases table.old table.new }
    ensures keys { SameKeys table.old table.new }
{
    if source == 0 {
        make_room(table, alloc, key)
    } else {
        note_reader(table, alloc, key, t)
    }
}

fn waiting_of(list: &[Work], t: u64) -> Option<Key>
    requires { (0 < t) × (t ≤ length list.now) }
    ensures { result ≡ works.waiting_at list.now t }
{
    let work = &list[(t - 1) as usize];
    work.waiting
}

// A write by ticket t: its operation and its version. Room for the operation is made first, as for
// a get that waits. Answers whether the key had no version.
fn put_write(
    table: &mut Table,
    list: &mut Vec<Work>,
    t: u64,
    key: Key,
    value: &Option<Value>,
) -> Result<bool, Memory>
    requires room { is_some (chain_at table.old key) ≡ true }
    requires in_range { (0 < t) × (t ≤ length list.old.items) }
    ensures ok { OnOk result (list.new.items
        ≡ works.with_op list.old.items t (rules.write_op key value.now)) }
    ensures first { IfOk result (λ first. first ≡ not (has_links table.old key)) }
    ensures links { OnOk result ((k u : ℕ)
        → link_at table.new k u
        ≡ (if (key == k) && (t == u) then Some (record { value = value.now; mark = 0 }) else link_at
        table.old k u)) }
    ensures keys { OnOk result ((k : ℕ)
        → has_links table.new k ≡ (if key == k then true else has_links table.old k)) }
    ensures bases { SameBases table.old table.new }
    ensures readers { SameReaders table.old table.new }
    ensures err { OnErr result (list.new.items ≡ list.old.items) }
    ensures err_links { OnErr result (SameLinks table.old table.new) }
    ensures err_keys { OnErr result (SameKeys table.old table.new) }
{
    let waiting = waiting_of(list, t);
    make_wait(list, t as usize, key)?;
    match put(table, key, t, unread(value)) {
        Ok(first) => {
            add_awaited(list, t as usize, write_op(key, *value));
            Ok(first)
        }
        Err(error) => {
            set_waiting(list, t as usize, waiting);
            Err(error)
        }
    }
}

impl Ledger {
    /// No transactions, and so many keys that count.
    pub(crate) fn new(alloc: Global, keys: u32) -> Ledger
        ensures { result ≡ record { keys = keys; works = [] } }
    {
        Ledger {
            alloc,
            keys,
            works: Vec::new(alloc),
            table: HashMap::new(alloc),
            written: 0,
            agenda: Agenda::new(alloc),
        }
    }

    /// Forgets all transactions.
    pub(crate) fn clear(&mut self)
        ensures { self.new ≡ record self.old { works = [] } }
    {
        self.works.clear();
        self.table.clear();
        self.written = 0;
    }

    /// Hands over what the transactions did, by ticket. None are left.
    pub(crate) fn finish(&mut self) -> Vec<Work>
        ensures works { result.items ≡ self.old.works }
        ensures none { self.new ≡ record self.old { works = [] } }
    {
        self.table.clear();
        self.written = 0;
        mem::replace(&mut self.works, Vec::new(self.alloc))
    }

    /// A transaction begins.
    ///
    /// # Errors
    /// Memory was wanting. All is as before.
    pub(crate) fn begin(&mut self) -> Result<(), Memory>
        ensures ok { OnOk result (self.new
            ≡ record self.old { works = self.old.works ++ rules.fresh ∷ [] }) }
        ensures err { OnErr result (self.new ≡ self.old) }
    {
        self.agenda.make_room(self.works.len() as u64 + 1)?;
        self.works.reserve(1)?;
        self.works.push_reserved(Work::new(self.alloc));
        Ok(())
    }

    /// How many transactions have begun.
    pub(crate) fn len(&self) -> u64
        ensures { result ≡ length self.now.works }
    {
        self.works.len() as u64
    }

    /// The newest version of the key at or below ticket t.
    pub(crate) fn newest(&self, t: u64, key: Key) -> Option<Version>
        ensures { result ≡ works.newest self.now.works t key }
    {
        match newest(&self.table, key, t) {
            Some((source, link)) => Some(Version {
                source,
                value: link.value,
            }),
            None => None,
        }
    }

    /// The greatest ticket that has read what a write of the key by ticket t would cover, where
    /// that is above t.
    pub(crate) fn reader_above(&self, t: u64, key: Key) -> Option<u64>
        ensures { MatchOption result (covered_mark self.now.works t key ≤ t) (λ reader. (t < reader)
            × (covered_mark self.now.works t key ≡ reader)) }
    {
        let newest = newest(&self.table, key, t);
        let mark = mark_of(newest, mark_of_base(&self.table, key));
        if t < mark { Some(mark) } else { None }
    }

    /// How many of the keys but this one have versions.
    pub(crate) fn other_keys(&self, key: Key) -> u64
        ensures { result
            ≡ rules.count_below (rules.is_other_written self.now.works key) self.now.keys }
    {
        self.written - count_where(has_versions(&self.table, key), key, self.keys)
    }

    /// How the ticket stands: none where it wasn't drawn.
    pub(crate) fn fate(&self, t: u64) -> Option<Fate>
        requires { 0 < t }
        ensures { result ≡ works.fate_at self.now.works t }
    {
        match self.works.get((t - 1) as usize) {
            Some(work) => Some(work.fate),
            None => None,
        }
    }

    /// The key of ticket t's get that isn't answered yet.
    pub(crate) fn waiting(&self, t: u64) -> Option<Key>
        requires { 0 < t }
        ensures { result ≡ works.waiting_at self.now.works t }
    {
        match self.works.get((t - 1) as usize) {
            Some(work) => work.waiting,
            None => None,
        }
    }

    /// A get by ticket t was answered with the version.
    ///
    /// # Errors
    /// Memory was wanting. All is as before.
    pub(crate) fn add_get(&mut self, t: u64, key: Key, version: &Version) -> Result<(), Memory>
        requires in_range { (0 < t) × (t ≤ length self.old.works) }
        requires source { 0 < version.now.source
            → is_some (works.version self.old.works version.now.source key) ≡ true }
        ensures ok { OnOk result (self.new
            ≡ record self.old {
              works = works.with_op self.old.works t
                  (works.Get key version.now.value version.now.source);
            }) }
        ensures err { OnErr result (self.new ≡ self.old) }
    {
        note_source(&mut self.table, self.alloc, key, version.source, t)?;
        add_to(&mut self.works, t as usize, get_op(key, version))?;
        raise_mark(&mut self.table, key, version.source, t);
        Ok(())
    }

    /// A get by ticket t that had to wait was answered with the version.
    pub(crate) fn add_awaited(&mut self, t: u64, key: Key, version: &Version)
        requires in_range { (0 < t) × (t ≤ length self.old.works) }
        requires waits { works.waiting_at self.old.works t ≡ Some key }
        requires source { 0 < version.now.source
            → is_some (works.version self.old.works version.now.source key) ≡ true }
        ensures { self.new
            ≡ record self.old {
              works = works.with_op self.old.works t
                  (works.Get key version.now.value version.now.source);
            } }
    {
        add_awaited(&mut self.works, t as usize, get_op(key, version));
        raise_mark(&mut self.table, key, version.source, t);
    }

    /// A get of the key by ticket t has to wait.
    ///
    /// # Errors
    /// Memory was wanting. All is as before.
    pub(crate) fn wait(&mut self, t: u64, key: Key) -> Result<(), Memory>
        requires in_range { (0 < t) × (t ≤ length self.old.works) }
        ensures ok { OnOk result (self.new
            ≡ record self.old { works = works.edit (works.wait_for key) self.old.works t }) }
        ensures err { OnErr result (self.new ≡ self.old) }
    {
        note_reader(&mut self.table, self.alloc, key, t)?;
        make_wait(&mut self.works, t as usize, key)?;
        Ok(())
    }

    /// A write by ticket t, which isn't aborted, that covers nothing that a later ticket has read.
    ///
    /// # Errors
    /// Memory was wanting. All is as before.
    #[tactic(auto, using(ob_order::proofs::Steps::live_above, ob_order::proofs::Steps::live_within))]
    pub(crate) fn add_write(&mut self, t: u64, key: Key, value: Option<Value>) -> Result<(), Memory>
        requires live { works.goes_on self.old.works t ≡ true }
        requires unread { covered_mark self.old.works t key ≤ t }
        ensures ok { OnOk result (self.new
            ≡ record self.old {
              works = works.with_op self.old.works t
                  (rules.write_op key value);
            }) }
        ensures err { OnErr result (self.new ≡ self.old) }
    {
        make_room(&mut self.table, self.alloc, key)?;
        let first = put_write(&mut self.table, &mut self.works, t, key, &value)?;
        self.written += count_where(first, key, self.keys);
        Ok(())
    }

    // Ticket t is aborted in a call of its own.
    fn end(&mut self, t: u64)
        requires { (0 < t) × (t ≤ length self.old.works) }
        ensures { self.new
            ≡ record self.old { works = works.edit works.end_work self.old.works t } }
    {
        end_at(
            &mut self.table,
            &mut self.works,
            &mut self.written,
            t,
            self.keys,
        );
    }

    /// Aborts ticket t, which isn't aborted, and with it each that depends on it, directly or not.
    /// It looks at those that have read what goes, and takes no memory.
    pub(crate) fn abort(&mut self, t: u64)
        requires live { works.goes_on self.old.works t ≡ true }
        requires tidy { works.Tidy self.old.works }
        ensures { self.new ≡ record self.old { works = works.aborted self.old.works t } }
    {
        abort_in(
            &mut self.table,
            &mut self.works,
            &mut self.written,
            &mut self.agenda,
            t,
            self.keys,
        );
    }

    // Stops the work at a place, if it goes on.
    fn stop_one(&mut self, n: u64)
        requires { n < length self.old.works }
        ensures { (w : works.Work) → w ≡ get_or self.old.works n w
            → self.new ≡ record self.old { works = set self.old.works n (works.stop_work w) } }
    {
        if goes_on_at(&self.works, n as usize) {
            self.end(n + 1);
        }
    }

    /// Aborts all that aren't aborted, at once and none because of another.
    pub(crate) fn stop(&mut self)
        ensures { self.new ≡ record self.old { works = map works.stop_work self.old.works } }
    {
        for n in 0..self.len() {
            self.stop_one(n);
        }
    }
}
