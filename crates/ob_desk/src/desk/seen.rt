//! What can be seen of a desk at any time: from it follows which calls may be made, for who doesn't
//! know it from the calls before.

ghost use Rattle.std.specs.Prelude.{◌≡◌, length, is_some};
ghost use Rattle.ob_order.specs.Works as works;
ghost use Rattle.ob_desk.specs.Desk as desks;

use crate::calls::Txn;
use crate::clients::Client;
use crate::desk::Desk;
use crate::part::{goes_on, has_asked};
use crate::roll::client_in;
use ob_base::Key;
use ob_order::EpochOrder;
use ob_serial::Outcome;

/// The client of this number, none where the desk has no such client.
pub fn client_of(desk: &Desk, number: u32) -> Option<Client>
    ensures { result ≡ desks.client_at desk.now number }
{
    client_in(&desk.clients, number)
}

/// How the transaction ended, if it has, where it is its client's last one.
pub fn outcome_of(desk: &Desk, txn: &Txn) -> Option<Outcome<Key>>
    ensures { result ≡ desks.outcome_at desk.now txn.now }
{
    desk.outcome(txn)
}

/// The number of the epoch that runs.
pub fn running_epoch(desk: &Desk) -> u64
    ensures { result ≡ desk.now.running.epoch }
{
    desk.running.epoch
}

/// Whether the running epoch's ticket was drawn and isn't aborted.
pub fn is_going(desk: &Desk, ticket: u64) -> bool
    ensures { result ≡ works.goes_on desk.now.running.order.works ticket }
{
    goes_on(&desk.running.order, ticket)
}

/// Whether the running epoch's ticket asked to commit.
pub fn is_asked(desk: &Desk, ticket: u64) -> bool
    ensures { result ≡ desks.asked_at desk.now.running ticket }
{
    has_asked(&desk.running.holders, ticket)
}

/// The key of the running epoch's ticket's get that isn't answered yet, if it has one.
pub fn waits_for(desk: &Desk, ticket: u64) -> Option<Key>
    ensures { result ≡ desks.waiting_at desk.now.running ticket }
{
    if ticket == 0 {
        return None;
    }
    desk.running.order.waiting(ticket)
}

/// How many batches of the running epoch aren't taken yet.
pub fn batches_left(desk: &Desk) -> u64
    ensures { result ≡ desk.now.running.order.left }
{
    desk.running.order.left()
}

/// How many keys of the batch that was taken last aren't delivered yet.
pub fn in_flight(desk: &Desk) -> u64
    ensures { result ≡ length desk.now.running.order.flying }
{
    desk.running.order.in_flight()
}

/// Whether an epoch is closed and its end under way.
pub fn has_closed(desk: &Desk) -> bool
    ensures { result ≡ is_some desk.now.closed }
{
    desk.is_closed
}
