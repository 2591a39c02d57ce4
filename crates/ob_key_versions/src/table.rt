//! The versions of all keys: a hash map from keys to their chains.

ghost use Rattle.std.specs.Prelude.{◌≡◌, ℕ, ◌+◌, ◌<◌, ◌≤◌, max, not, ◌&&◌, if◌then◌else◌, ◌==◌, is_some, true, IfOk, OnOk, OnErr, Some, None};
ghost use Rattle.std.specs.Option.{option_map};
ghost use Rattle.ob_key_versions.specs.Chains.{IsNewest, IsNextReader};
ghost use Rattle.ob_key_versions.specs.Tables.{chain_at, link_at, base_mark, has_links, raised, is_reader, SameLinks, SameBases, SameKeys, SameReaders, KeepsChainRoom};

use crate::chain::{Chain, Link};
use ob_base::{Key, Memory, Value};
use std::alloc::Global;
use std::collections::HashMap;

/// The chains by their keys.
pub type Table = HashMap<Key, Chain>;

/// The newest version of the key at or below the ticket, and its ticket.
pub fn newest(table: &Table, key: Key, t: u64) -> Option<(u64, Link)>
    ensures { IsNewest (link_at table.now key) t result }
{
    match table.get(&key) {
        Some(chain) => chain.newest(t),
        None => None,
    }
}

/// The greatest ticket that has read the value that the epoch began with.
pub fn mark_of_base(table: &Table, key: Key) -> u64
    ensures { result ≡ base_mark table.now key }
{
    match table.get(&key) {
        Some(chain) => chain.base_mark,
        None => 0,
    }
}

/// Whether the key has versions.
pub fn has_versions(table: &Table, key: Key) -> bool
    ensures { result ≡ has_links table.now key }
{
    match table.get(&key) {
        Some(chain) => 0 < chain.len(),
        None => false,
    }
}

/// Makes room for the key's versions.
///
/// # Errors
/// Memory was wanting. All is as before.
pub fn make_room(table: &mut Table, alloc: Global, key: Key) -> Result<(), Memory>
    ensures ok { OnOk result (is_some (chain_at table.new key) ≡ true) }
    ensures links { SameLinks table.old table.new }
    ensures bases { SameBases table.old table.new }
    ensures keys { SameKeys table.old table.new }
    ensures readers { SameReaders table.old table.new }
    ensures room { KeepsChainRoom table.old table.new }
{
    if !table.contains_key(&key) {
        table.insert(key, Chain::new(alloc))?;
    }
    Ok(())
}

/// The ticket has this version of the key from now on. Answers whether the key had no version.
///
/// # Errors
/// Memory was wanting. All is as before.
pub fn put(table: &mut Table, key: Key, t: u64, link: Link) -> Result<bool, Memory>
    requires { is_some (chain_at table.old key) ≡ true }
    ensures first { IfOk result (λ first. first ≡ not (has_links table.old key)) }
    ensures links { OnOk result ((k u : ℕ)
        → link_at table.new k u
        ≡ (if (key == k) && (t == u) then Some link else link_at table.old k u)) }
    ensures keys { OnOk result ((k : ℕ)
        → has_links table.new k ≡ (if key == k then true else has_links table.old k)) }
    ensures bases { SameBases table.old table.new }
    ensures readers { SameReaders table.old table.new }
    ensures room { KeepsChainRoom table.old table.new }
    ensures err_links { OnErr result (SameLinks table.old table.new) }
    ensures err_keys { OnErr result (SameKeys table.old table.new) }
{
    // The prover has to see this type named here.
    let _told: Option<Value> = None;
    match table.get_mut(&key) {
        Some(chain) => {
            let first = chain.len() == 0;
            chain.put(t, link)?;
            Ok(first)
        }
        None => Ok(false),
    }
}

/// The ticket has no version of the key from now on. Answers whether it had the last one.
pub fn take(table: &mut Table, key: Key, t: u64) -> bool
    ensures last { result ≡ (has_links table.old key && not (has_links table.new key)) }
    ensures links { (k u : ℕ)
        → link_at table.new k u ≡ (if (key == k) && (t == u) then None else link_at table.old k u) }
    ensures keys { (k : ℕ) → (key ≡ k → ⊥) → has_links table.new k ≡ has_links table.old k }
    ensures fewer { has_links table.new key ≡ true → has_links table.old key ≡ true }
    ensures bases { SameBases table.old table.new }
    ensures readers { SameReaders table.old table.new }
    ensures room { KeepsChainRoom table.old table.new }
{
    match table.get_mut(&key) {
        Some(chain) => chain.take(t) && chain.len() == 0,
        None => false,
    }
}

/// The ticket's version of the key, where it has one, was read by this reader too.
pub fn raise(table: &mut Table, key: Key, t: u64, reader: u64)
    ensures links { (k u : ℕ)
        → link_at table.new k u
        ≡ (if (key == k) && (t == u) then option_map (raised reader) (link_at table.old k u) else
        link_at table.old k u) }
    ensures bases { SameBases table.old table.new }
    ensures keys { SameKeys table.old table.new }
    ensures readers { SameReaders table.old table.new }
    ensures room { KeepsChainRoom table.old table.new }
{
    if let Some(chain) = table.get_mut(&key) {
        chain.raise(t, reader);
    }
}

/// The value that the epoch began with was read by this reader too.
pub fn raise_base(table: &mut Table, key: Key, reader: u64)
    requires { is_some (chain_at table.old key) ≡ true }
    ensures links { SameLinks table.old table.new }
    ensures bases { (k : ℕ)
        → base_mark table.new k
        ≡ (if key == k then max (base_mark table.old k) reader else base_mark table.old k) }
    ensures keys { SameKeys table.old table.new }
    ensures readers { SameReaders table.old table.new }
    ensures room { KeepsChainRoom table.old table.new }
{
    if let Some(chain) = table.get_mut(&key) {
        chain.base_mark = chain.base_mark.max(reader);
    }
}

/// The ticket is among the key's readers from now on.
///
/// # Errors
/// Memory was wanting. All is as before.
pub fn note(table: &mut Table, key: Key, reader: u64) -> Result<(), Memory>
    requires { is_some (chain_at table.old key) ≡ true }
    ensures ok { OnOk result ((k u : ℕ)
        → is_reader table.new k u
        ≡ (if (key == k) && (reader == u) then true else is_reader table.old k u)) }
    ensures err { OnErr result (SameReaders table.old table.new) }
    ensures links { SameLinks table.old table.new }
    ensures bases { SameBases table.old table.new }
    ensures keys { SameKeys table.old table.new }
    ensures room { KeepsChainRoom table.old table.new }
{
    if let Some(chain) = table.get_mut(&key) {
        chain.note(reader)?;
    }
    Ok(())
}

/// The least reader of the key above the ticket.
pub fn reader_above(table: &Table, key: Key, t: u64) -> Option<u64>
    ensures { IsNextReader (is_reader table.now key) t result }
{
    match table.get(&key) {
        Some(chain) => chain.reader_above(t),
        None => None,
    }
}
