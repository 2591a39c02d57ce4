//! The list of clients.

ghost use Rattle.std.specs.Prelude.{◌≡◌, ◌==◌, if◌then◌else◌, not, length, map, IfOk, None};
ghost use Rattle.std.specs.List.{count_by};
ghost use Rattle.ob_desk.specs.Desk as desks;
ghost use Rattle.ob_desk.specs.Parts.{part_of};

use crate::calls::Txn;
use crate::clients::Client;
use crate::part::{Part, why_in};
use ob_base::{Key, Memory};
use ob_serial::Outcome;
use std::alloc::Global;

/// Clients that have begun nothing.
pub fn enrol(alloc: Global, numbers: &[u32]) -> Result<Vec<Client>, Memory>
    ensures { IfOk result (λ clients. clients.items ≡ map desks.new_client numbers.now) }
{
    let mut clients = Vec::new(alloc);
    for number in numbers {
        clients.push(Client {
            number: *number,
            last: None,
            outcome: None,
            signed_off: false,
        })?;
    }
    Ok(clients)
}

fn begin_one(client: &mut Client, txn: &Txn)
    ensures { client.new
        ≡ (if client.old.number == txn.now.client then desks.begin_client txn.now client.old else
        client.old) }
{
    if client.number == txn.client {
        client.last = Some(*txn);
        client.outcome = None;
    }
}

/// The transaction is its client's last one.
pub fn begin_client(clients: &mut Vec<Client>, txn: &Txn)
    ensures { clients.new.items
        ≡ desks.on_client (desks.begin_client txn.now) clients.old.items txn.now.client }
{
    for i in 0..clients.len() {
        begin_one(&mut clients[i], txn);
    }
}

fn sign_off_one(client: &mut Client, number: u32)
    ensures { client.new
        ≡ (if client.old.number == number then desks.sign_off_client client.old else client.old) }
{
    if client.number == number {
        client.signed_off = true;
    }
}

/// The client of this number has signed off.
pub fn sign_off(clients: &mut Vec<Client>, number: u32)
    ensures { clients.new.items ≡ desks.on_client desks.sign_off_client clients.old.items number }
{
    for i in 0..clients.len() {
        sign_off_one(&mut clients[i], number);
    }
}

/// The client of this number.
pub fn client_in(clients: &[Client], number: u32) -> Option<Client>
    ensures { result ≡ desks.client_in clients.now number }
{
    for client in clients {
        if client.number == number {
            return Some(*client);
        }
    }
    None
}

/// How many clients haven't signed off.
#[tactic(auto, using(crate::proofs::Counted::count_item))]
pub fn count_here(clients: &[Client]) -> u64
    ensures { result ≡ count_by (λ c. not c.signed_off) clients.now }
{
    let mut count = 0;
    for client in clients {
        if !client.signed_off {
            count += 1;
        }
    }
    count
}

// How the transaction of a part that ends fared: aborted, or else this.
fn outcome_in(part: &Part, otherwise: Outcome<Key>, t: u64) -> Outcome<Key>
    ensures { result ≡ desks.outcome_in (part_of part.now) otherwise t }
{
    match why_in(part, t) {
        Some(why) => Outcome::Aborted { why },
        None => otherwise,
    }
}

fn settle_one(client: &mut Client, part: &Part, otherwise: Outcome<Key>)
    ensures { client.new ≡ desks.settle_client (part_of part.now) otherwise client.old }
{
    if let Some(txn) = client.last {
        if txn.epoch == part.epoch {
            client.outcome = Some(outcome_in(part, otherwise, txn.ticket));
        }
    }
}

/// A part ends: each client whose last transaction is of it gets that one's outcome, aborted or
/// else this.
pub fn settle(clients: &mut Vec<Client>, part: &Part, otherwise: Outcome<Key>)
    ensures { clients.new.items ≡ desks.settle (part_of part.now) otherwise clients.old.items }
{
    for i in 0..clients.len() {
        settle_one(&mut clients[i], part, otherwise);
    }
}
