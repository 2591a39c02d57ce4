//! Whether a call may be made now.

ghost use Rattle.std.specs.Prelude.{◌≡◌, ◌<◌, true, false, is_some, []};
ghost use Rattle.ob_desk.specs.Desk as desks;

use ob_base::{Key, NUMBER_LIMIT};
use ob_desk::{
    Desk, Txn, batches_left, client_of, has_closed, in_flight, is_asked, is_going, outcome_of,
    running_epoch, waits_for,
};
use ob_serial::{Outcome, Why};

fn is_last(desk: &Desk, txn: &Txn) -> bool
    ensures { result ≡ true → desks.IsLast desk.now txn.now }
{
    match client_of(desk, txn.client) {
        Some(client) => client.last == Some(*txn),
        None => false,
    }
}

fn is_live(desk: &Desk, txn: &Txn) -> bool
    ensures { result ≡ true → desks.IsLive desk.now txn.now }
{
    txn.epoch == running_epoch(desk) && is_going(desk, txn.ticket)
}

// It is live, and hasn't asked to commit.
fn is_open(desk: &Desk, txn: &Txn) -> bool
    ensures live { result ≡ true → desks.IsLive desk.now txn.now }
    ensures not_asked { result ≡ true → desks.asked_at desk.now.running txn.now.ticket ≡ false }
{
    is_live(desk, txn) && !is_asked(desk, txn.ticket)
}

fn why_aborted(desk: &Desk, txn: &Txn) -> Option<Why<Key>>
    ensures { result ≡ desks.aborted_why (desks.outcome_at desk.now txn.now) }
{
    match outcome_of(desk, txn) {
        Some(Outcome::Aborted { why }) => Some(why),
        _ => None,
    }
}

/// Whether this transaction may be aborted.
pub fn may_abort(desk: &Desk, txn: &Txn) -> bool
    ensures { result ≡ true → desks.MayCall desk.now (desks.Abort txn.now) }
{
    if !is_last(desk, txn) {
        return false;
    }
    if why_aborted(desk, txn).is_some() {
        return true;
    }
    is_open(desk, txn)
}

/// Whether this transaction may be committed.
pub fn may_commit(desk: &Desk, txn: &Txn) -> bool
    ensures { result ≡ true → desks.MayCall desk.now (desks.Commit txn.now) }
{
    if !is_last(desk, txn) {
        return false;
    }
    if why_aborted(desk, txn).is_some() {
        return true;
    }
    is_open(desk, txn) && waits_for(desk, txn.ticket).is_none()
}

/// Whether this transaction may get, put or delete this key.
pub fn may_access(desk: &Desk, txn: &Txn, key: Key) -> bool
    ensures commit { result ≡ true → desks.MayCall desk.now (desks.Commit txn.now) }
    ensures key { result ≡ true → key < desk.now.setup.params.keys }
{
    may_commit(desk, txn) && key < desk.params().keys
}

/// Whether this transaction may ask again for the get that waits.
pub fn may_poll(desk: &Desk, txn: &Txn) -> bool
    ensures { result ≡ true → desks.MayCall desk.now (desks.Poll txn.now) }
{
    if !is_last(desk, txn) {
        return false;
    }
    if why_aborted(desk, txn).is_some() {
        return true;
    }
    is_live(desk, txn) && waits_for(desk, txn.ticket).is_some()
}

/// Whether the outcome of this transaction may be asked for.
pub fn may_settle(desk: &Desk, txn: &Txn) -> bool
    ensures { result ≡ true → desks.MayCall desk.now (desks.Settled txn.now) }
{
    is_last(desk, txn)
}

/// Whether the client of this number may begin a transaction.
pub fn may_begin(desk: &Desk, number: u32) -> bool
    ensures { result ≡ true → desks.MayCall desk.now (desks.Begin number) }
{
    match client_of(desk, number) {
        Some(client) => {
            !client.signed_off
                && client
                    .last
                    .is_none_or(|txn| outcome_of(desk, &txn).is_some())
        }
        None => false,
    }
}

/// Whether the driver may look: no end is under way.
pub fn may_look(desk: &Desk) -> bool
    ensures { result ≡ true → desks.MayCall desk.now desks.Looks }
{
    !has_closed(desk)
}

/// Whether a batch may be taken.
pub fn may_take(desk: &Desk) -> bool
    ensures { result ≡ true → desks.MayCall desk.now desks.TakeBatch }
{
    !has_closed(desk) && batches_left(desk) > 0 && in_flight(desk) == 0
}

/// Whether the epoch may be closed.
pub fn may_close(desk: &Desk) -> bool
    ensures { result ≡ true → desks.MayCall desk.now desks.Close }
{
    !has_closed(desk) && batches_left(desk) == 0 && in_flight(desk) == 0 && desk.stopped().is_none()
}

/// Whether the closed epoch may be published under this number, with so many batches left.
pub fn may_publish(desk: &Desk, epoch: u64, left: u32) -> bool
    ensures { result ≡ true → desks.MayCall desk.now (desks.Publish epoch left) }
{
    has_closed(desk)
        && epoch == running_epoch(desk)
        && epoch <= NUMBER_LIMIT
        && left == desk.params().batches
}

// It has asked to commit, if it goes on.
fn has_left(desk: &Desk, txn: &Txn) -> bool
    ensures { result ≡ true → desks.IsLive desk.now txn.now
        → desks.asked_at desk.now.running txn.now.ticket ≡ true }
{
    if !is_going(desk, txn.ticket) {
        return true;
    }
    is_asked(desk, txn.ticket)
}

/// Whether the client of this number may sign off.
pub fn may_sign_off(desk: &Desk, number: u32) -> bool
    ensures { result ≡ true → desks.MayCall desk.now (desks.SignOff number) }
{
    match client_of(desk, number) {
        Some(client) => { !client.signed_off && client.last.is_none_or(|txn| has_left(desk, &txn)) }
        None => false,
    }
}
