//! One epoch of the desk, running or closed.

ghost use Rattle.std.specs.Prelude.{◌≡◌, ℕ, ◌+◌, ◌-◌, ◌<◌, ◌≤◌, length, map, slice_get, take, true, false, if◌then◌else◌, Some, None, [], ◌∷◌, ◌++◌, filter, vec_len, vec_capacity, is_some, IfOk, OnOk, OnErr};
ghost use Rattle.std.specs.Option.{option_and_then, option_map, unwrap_or, is_none};
ghost use Rattle.std.specs.List.{count_by, range_with_len};
ghost use Rattle.ob_order.specs.Works as works;
ghost use Rattle.ob_order.specs.Order as rules;
ghost use Rattle.ob_serial.specs.Views.{txn_of, record_of};
ghost use Rattle.ob_desk.specs.Desk as desks;
ghost use Rattle.ob_desk.specs.Parts.{part_of, HasRecordRoom, HasGoing, ListsGoing, KeepsRoom, told_at};

use crate::clients::Holder;
use ob_base::{Fault, Key, Memory, Op, Params, Value};
use ob_order::{EpochOrder, Fate, Work};
use ob_serial::{EpochRecord, Outcome, TxnRecord, Why};
use ob_shares::{Uses, clear_uses};
use ob_versions::Order;
use std::alloc::Global;
use std::mem;

/// One epoch: the order of its transactions and, by ticket, who holds each. `going` lists the
/// tickets that go on, beside some that were aborted since the last begin. `told` is empty, with
/// room for the record of each. `uses` has what clients' calls named, where they have a share.
#[derive(Drop)]
pub struct Part {
    pub epoch: u64,
    pub order: Order,
    pub holders: Vec<Holder>,
    pub going: Vec<u64>,
    pub told: Vec<TxnRecord<Key>>,
    pub uses: Uses,
}

fn cause_at(holders: &[Holder], t: u64) -> Option<Why<Key>>
    ensures { result ≡ desks.cause_at holders.now t }
{
    if t == 0 || t > holders.len() as u64 {
        return None;
    }
    holders[(t - 1) as usize].cause
}

/// The cause of an abort, where the ticket is aborted.
pub fn why_of(fate: Option<Fate>, cause: Option<Why<Key>>) -> Option<Why<Key>>
    ensures { result ≡ option_and_then (λ f. desks.why_of f cause) fate }
{
    match fate {
        None => None,
        Some(Fate::Going) => None,
        Some(Fate::Ended) => Some(cause.unwrap_or(Why::Asked)),
        Some(Fate::Fell { on }) => Some(Why::Depends { on }),
    }
}

/// Why the ticket was aborted, if it was.
pub fn why_in(part: &Part, t: u64) -> Option<Why<Key>>
    ensures { result ≡ desks.why_at (part_of part.now) t }
{
    if t == 0 {
        return None;
    }
    why_of(part.order.fate(t), cause_at(&part.holders, t))
}

// Notes why the ticket was aborted.
#[tactic(auto, using(ob_order::proofs::Steps::edit_zero, ob_order::proofs::Steps::edit_outside))]
fn set_cause(holders: &mut Vec<Holder>, t: u64, why: Why<Key>)
    ensures { holders.new.items ≡ works.edit (desks.note_cause why) holders.old.items t }
{
    if t == 0 {
        return;
    }
    if t > holders.len() as u64 {
        return;
    }
    holders[(t - 1) as usize].cause = Some(why);
}

// Notes that the ticket asked to commit.
#[tactic(auto, using(ob_order::proofs::Steps::edit_zero, ob_order::proofs::Steps::edit_outside))]
fn set_asked(holders: &mut Vec<Holder>, t: u64)
    ensures { holders.new.items ≡ works.edit desks.note_asked holders.old.items t }
{
    if t == 0 {
        return;
    }
    if t > holders.len() as u64 {
        return;
    }
    holders[(t - 1) as usize].asked = true;
}

/// Whether the ticket was drawn and isn't aborted.
pub fn goes_on(order: &Order, t: u64) -> bool
    ensures { result ≡ works.goes_on order.now.state.works t }
{
    t != 0 && matches!(order.fate(t), Some(Fate::Going))
}

/// Whether the ticket asked to commit.
pub fn has_asked(holders: &[Holder], t: u64) -> bool
    ensures { result ≡ unwrap_or (option_map (λ h. h.asked) (works.at_ticket holders.now t)) false }
{
    if t == 0 || t > holders.len() as u64 {
        return false;
    }
    holders[(t - 1) as usize].asked
}

// Whether the ticket has an unanswered get that can't be answered now.
fn is_stuck(order: &Order, t: u64) -> bool
    requires { works.goes_on order.now.state.works t ≡ true }
    ensures { result
        ≡ unwrap_or (option_map (λ k. is_none (rules.answer order.now.state t k))
        (works.waiting_at order.now.state.works t)) false }
{
    match order.waiting(t) {
        Some(key) => !order.answerable(t, key),
        None => false,
    }
}

// Whether the ticket isn't aborted, and asked to commit or is stuck.
fn waits(part: &Part, t: u64) -> bool
    ensures { result ≡ desks.waits (part_of part.now) t }
{
    goes_on(&part.order, t) && (has_asked(&part.holders, t) || is_stuck(&part.order, t))
}

/// How many of the part's transactions wait: they asked to commit, or have a get that can't be
/// answered yet.
#[tactic(auto, using(crate::proofs::Counted::count_item))]
pub fn count_waiting(part: &Part) -> u64
    requires { ListsGoing part.now }
    ensures { result
        ≡ count_by (desks.waits (part_of part.now))
        (range_with_len 1 (length part.now.order.state.works)) }
{
    let mut count = 0;
    for t in &part.going {
        if waits(part, *t) {
            count += 1;
        }
    }
    count
}

/// How many transactions aren't aborted.
#[tactic(auto, using(crate::proofs::Counted::count_item))]
pub fn count_live(part: &Part) -> u64
    requires { ListsGoing part.now }
    ensures { result
        ≡ count_by (works.goes_on part.now.order.state.works)
        (range_with_len 1 (length part.now.order.state.works)) }
{
    let mut count = 0;
    for t in &part.going {
        if goes_on(&part.order, *t) {
            count += 1;
        }
    }
    count
}

// Leaves those that go on.
fn prune(going: &mut Vec<u64>, order: &Order)
    ensures { going.new.items ≡ filter (works.goes_on order.now.state.works) going.old.items }
{
    going.retain(|t| goes_on(order, *t));
}

/// The ticket asked to commit.
#[tactic(auto, using(crate::proofs::Rooms::length_edited))]
pub fn ask(part: &mut Part, t: u64)
    ensures part { part_of part.new ≡ desks.with_holder desks.note_asked (part_of part.old) t }
    ensures room { KeepsRoom part.old part.new }
{
    set_asked(&mut part.holders, t);
}

/// Aborts the ticket for this cause, and those that depend on it.
#[tactic(auto, using(crate::proofs::Rooms::length_edited))]
pub fn end(part: &mut Part, t: u64, why: Why<Key>)
    requires { works.goes_on part.old.order.state.works t ≡ true }
    ensures part { part_of part.new ≡ desks.end_of (part_of part.old) t why }
    ensures room { KeepsRoom part.old part.new }
{
    part.order.abort(t);
    set_cause(&mut part.holders, t, why);
}

// At the close, the ticket is aborted where it goes on and hasn't asked to commit.
fn end_if_unasked(part: &mut Part, t: u64)
    ensures part { part_of part.new ≡ desks.end_unasked (part_of part.old) t }
    ensures room { KeepsRoom part.old part.new }
{
    if goes_on(&part.order, t) && !has_asked(&part.holders, t) {
        end(part, t, Why::EpochEnd);
    }
}

/// At the close, each that hasn't asked to commit is aborted, in rising tickets, each with those
/// that depend on it.
pub fn end_unasked(part: &mut Part)
    ensures part { part_of part.new ≡ desks.closing (part_of part.old) }
    ensures room { KeepsRoom part.old part.new }
{
    for n in 0..part.order.txns() {
        end_if_unasked(part, n + 1);
    }
}

fn stop_holder(holder: &mut Holder, fault: Fault)
    ensures { holder.new ≡ desks.stop_holder fault holder.old }
{
    if holder.cause.is_none() {
        holder.cause = Some(Why::Stopped { fault });
    }
}

fn stop_holders(holders: &mut Vec<Holder>, fault: Fault)
    ensures { holders.new.items ≡ map (desks.stop_holder fault) holders.old.items }
{
    for i in 0..holders.len() {
        stop_holder(&mut holders[i], fault);
    }
}

/// Stops all that go on at once, none because of another.
pub fn stop(part: &mut Part, fault: Fault)
    ensures part { part_of part.new ≡ desks.stop_part fault (part_of part.old) }
    ensures room { KeepsRoom part.old part.new }
{
    part.order.stop();
    stop_holders(&mut part.holders, fault);
}

/// A part whose order this is, and whose calls named this.
pub fn new_part(alloc: Global, epoch: u64, order: Order, uses: Uses) -> Part
    ensures order { result.order ≡ order }
    ensures uses { result.uses ≡ uses }
    ensures epoch { result.epoch ≡ epoch }
    ensures none { result.holders.items ≡ [] }
    ensures none_going { result.going.items ≡ [] }
    ensures room { HasRecordRoom result }
{
    // The prover has to see this type named here.
    let _told: Option<Value> = None;
    Part {
        epoch,
        order,
        holders: Vec::new(alloc),
        going: Vec::new(alloc),
        told: Vec::new(alloc),
        uses,
    }
}

/// Draws the next ticket, for this client.
///
/// # Errors
/// Memory was wanting. All is as before.
pub fn draw(part: &mut Part, client: u32) -> Result<u64, Memory>
    requires room { HasRecordRoom part.old }
    requires going { ListsGoing part.old }
    ensures ticket { IfOk result (λ t. t ≡ length part.old.order.state.works + 1) }
    ensures ok { OnOk result (part_of part.new
        ≡ record (part_of part.old) {
          order = rules.after_begin part.old.order.state;
          holders =
              part.old.holders.items ++ desks.new_holder client ∷ [];
        }) }
    ensures err { OnErr result (part_of part.new ≡ part_of part.old) }
    ensures params { part.new.order.params ≡ part.old.order.params }
    ensures room { HasRecordRoom part.new }
    ensures going { ListsGoing part.new }
{
    // The prover has to see this type named here.
    let _told: Option<Value> = None;
    prune(&mut part.going, &part.order);
    part.going.reserve(1)?;
    part.holders.reserve(1)?;
    part.told.reserve(part.holders.len() + 1)?;
    let ticket = part.order.begin()?;
    part.going.push_reserved(ticket);
    part.holders.push_reserved(Holder {
        client,
        asked: false,
        cause: None,
    });
    Ok(ticket)
}

/// Begins an epoch with all its batches left.
pub fn restart(part: &mut Part, epoch: u64)
    ensures part { part_of part.new ≡ desks.new_part epoch part.old.order.params.batches }
    ensures params { part.new.order.params ≡ part.old.order.params }
    ensures told { part.new.told ≡ part.old.told }
    ensures going { ListsGoing part.new }
{
    let batches = part.order.params().batches;
    part.epoch = epoch;
    part.order.clear(batches);
    part.holders.clear();
    part.going.clear();
    clear_uses(&mut part.uses);
}

// How a transaction of a part that is published ended.
fn outcome_of(fate: Fate, cause: Option<Why<Key>>) -> Outcome<Key>
    ensures { result
        ≡ unwrap_or (option_map desks.AbortedBy (desks.why_of fate cause)) desks.Committed }
{
    match why_of(Some(fate), cause) {
        Some(why) => Outcome::Aborted { why },
        None => Outcome::Committed,
    }
}

// Tells a transaction whose ticket is the next one, where it has a holder.
fn tell(told: &mut Vec<TxnRecord<Key>>, epoch: u64, work: Work, holders: &[Holder])
    requires { length told.old.items < length holders.now
        → vec_len told.old < vec_capacity told.old }
    ensures told { map (λ t. txn_of t) told.new.items
        ≡ map (λ t. txn_of t) told.old.items ++ told_at epoch (length told.old.items) work
        holders.now }
    ensures room { vec_capacity told.old ≤ vec_capacity told.new }
{
    // The prover has to see this type named here.
    let _told: Option<Value> = None;
    let at = told.len();
    if let Some(holder) = holders.get(at) {
        let outcome = outcome_of(work.fate, holder.cause);
        let txn = TxnRecord {
            epoch,
            ticket: at as u64 + 1,
            client: holder.client,
            ops: work.into_ops(),
            outcome,
        };
        told.push_reserved(txn);
    }
}

// Tells the transactions.
fn tell_all(told: &mut Vec<TxnRecord<Key>>, epoch: u64, list: Vec<Work>, holders: &[Holder])
    requires none_yet { told.old.items ≡ [] }
    requires fits { length holders.now ≤ vec_capacity told.old }
    ensures { map (λ t. txn_of t) told.new.items ≡ desks.txns_from epoch 1 list.items holders.now }
{
    for work in list {
        tell(told, epoch, work, holders);
    }
}

/// The record of the part, whose transactions that aren't aborted are committed. No transaction is
/// left in it.
pub fn publish(part: &mut Part, alloc: Global) -> EpochRecord<Key>
    requires { HasRecordRoom part.old }
    ensures told { record_of result ≡ desks.record_of (part_of part.old) }
    ensures params { part.new.order.params ≡ part.old.order.params }
    ensures room { HasRecordRoom part.new }
{
    let mut txns = mem::replace(&mut part.told, Vec::new(alloc));
    tell_all(&mut txns, part.epoch, part.order.finish(), &part.holders);
    part.holders.clear();
    EpochRecord {
        epoch: part.epoch,
        txns,
    }
}
