//! The versions of a transaction that is aborted go.

ghost use Rattle.std.specs.Prelude.{◌≡◌, ℕ, ◌+◌, ◌-◌, ◌<◌, ◌≤◌, ◌&&◌, ◌==◌, if◌then◌else◌, length, take, nat_lt, is_some, true, Some, None};
ghost use Rattle.ob_order.specs.Works as works;
ghost use Rattle.ob_order.specs.Order.{count_below};
ghost use Rattle.ob_key_versions.specs.Tables.{link_at, has_links, key_of, SameBases, SameReaders, KeepsChainRoom};

use crate::table::{Table, take};
use ob_base::{Key, Op};
use ob_order::Work;

/// The key that an operation writes.
pub fn written_key(op: &Op<Key>) -> Option<Key>
    ensures { result ≡ key_of op.now }
{
    match *op {
        Op::Get { .. } => None,
        Op::Put { key, .. } => Some(key),
        Op::Del { key } => Some(key),
    }
}

/// One for a key that is counted, where this is so.
pub fn count_where(is_so: bool, key: Key, keys: u32) -> u64
    ensures { result ≡ (if is_so && nat_lt key keys then 1 else 0) }
{
    if is_so && key < keys { 1 } else { 0 }
}

// What one operation of ticket t wrote goes. Answers how many of the first keys have lost their
// last version.
fn unlink_one(table: &mut Table, op: &Op<Key>, t: u64, keys: u32) -> u64
    ensures links { (k u : ℕ)
        → link_at table.new k u
        ≡ (if (t == u) && is_some (works.write_of op.now k) then None else link_at table.old k u) }
    ensures count { count_below (has_links table.old) keys
        ≡ count_below (has_links table.new) keys + result }
    ensures few { result ≤ 1 }
    ensures bases { SameBases table.old table.new }
    ensures readers { SameReaders table.old table.new }
    ensures room { KeepsChainRoom table.old table.new }
{
    match written_key(op) {
        None => 0,
        Some(key) => count_where(take(table, key, t), key, keys),
    }
}

/// What ticket t wrote by these operations goes. Answers how many of the first keys have lost
/// their last version.
#[tactic(auto, using(crate::proofs::Unlinks::unlinked_more))]
pub fn unlink(table: &mut Table, ops: &[Op<Key>], t: u64, keys: u32) -> u64
    ensures links { (k u : ℕ)
        → link_at table.new k u
        ≡ (if (t == u) && is_some (works.last_write ops.now k) then None else link_at table.old k
        u) }
    ensures count { count_below (has_links table.old) keys
        ≡ count_below (has_links table.new) keys + result }
    ensures bases { SameBases table.old table.new }
    ensures readers { SameReaders table.old table.new }
    ensures room { KeepsChainRoom table.old table.new }
{
    let mut lost = 0;
    for op in ops {
        lost += unlink_one(table, op, t, keys);
    }
    lost
}

/// What ticket t wrote goes.
pub fn unlink_at(table: &mut Table, list: &[Work], t: u64, keys: u32) -> u64
    requires { (0 < t) × (t ≤ length list.now) }
    ensures links { (w : works.Work) → works.at_ticket list.now t ≡ Some w → (k u : ℕ)
        → link_at table.new k u
        ≡ (if (t == u) && is_some (works.last_write w.ops k) then None else link_at table.old k u) }
    ensures count { count_below (has_links table.old) keys
        ≡ count_below (has_links table.new) keys + result }
    ensures bases { SameBases table.old table.new }
    ensures readers { SameReaders table.old table.new }
    ensures room { KeepsChainRoom table.old table.new }
{
    let work = &list[(t - 1) as usize];
    unlink(table, &work.ops, t, keys)
}
