//! A desk's calls as data, and what each is answered.

use ob_base::{Fault, Key, Params, Value, Write};
use ob_desk::{Begun, Desk, Done, Got, Txn, has_closed};
use ob_desk_calls as calls;
use ob_desk_calls::{may_close, may_look, may_publish, may_sign_off, may_take};
use ob_serial::{EpochRecord, Outcome, Why};
use ob_shares::{NO_SHARES, Shares};
use std::alloc::Global;
use std::process::Abort;

/// A call. The transaction of number n is the first epoch's of ticket n, which client n began; that
/// of number 20 + n is the second epoch's of ticket n, which client n + 1 began.
pub enum Call {
    // Another desk from here on, on which clients 1 to n have begun.
    Anew(u32),
    // Another desk with so many batches left, whose two clients have begun, and may name one key each
    // by gets, and one by puts and deletes.
    Shared(u32),
    Begin(u32),
    Get(u32, Key),
    Poll(u32),
    Put(u32, Key),
    Del(u32, Key),
    Commit(u32),
    Abort(u32),
    Settled(u32),
    SignOff(u32),
    // A batch is taken, and each of its keys is absent.
    Round,
    Close,
    Publish,
    Look,
    Stop(Fault),
    Unsure(Fault),
    Stopped,
}

/// What it is answered.
#[derive(Clone, Copy, PartialEq)]
pub enum Answer {
    // It may not be made.
    Not,
    Yes,
    Began {
        epoch: u64,
        ticket: u64,
    },
    Seven,
    Absent,
    Queued,
    Aborted(Why<Key>),
    Open,
    Committed,
    Unsure(u64),
    StoppedBy(Fault),
    Runs,
    // A close with these writes, of two at most.
    Wrote(Option<Wrote>, Option<Wrote>),
    // A publish that tells of so many transactions, and how the first three ended.
    Told {
        epoch: u64,
        txns: usize,
        first: Option<Outcome<Key>>,
        second: Option<Outcome<Key>>,
        third: Option<Outcome<Key>>,
    },
    Seen {
        waiting: u64,
        live: u64,
        queued: u64,
        left: u64,
        txns: u64,
        clients: u64,
    },
}

/// A call and its answer. The first of a table opens a desk, as do others behind it.
pub type Row = (Call, Answer);

/// A write of a batch, where the value of a put is seven.
#[derive(Clone, Copy, PartialEq)]
pub enum Wrote {
    Put(Key),
    Del(Key),
}

fn txn(number: u32) -> Txn {
    if number > 40 {
        return Txn {
            client: 1,
            epoch: 1,
            ticket: u64::from(number - 40),
        };
    }
    if number > 20 {
        let ticket = number - 20;
        return Txn {
            client: ticket + 1,
            epoch: 2,
            ticket: u64::from(ticket),
        };
    }
    Txn {
        client: number,
        epoch: 1,
        ticket: u64::from(number),
    }
}

fn seven() -> Option<Value> {
    Value::new(b"7")
}

fn of_got(got: &Option<Got>) -> Answer {
    match *got {
        Some(Got::Value { value: None }) => Answer::Absent,
        Some(Got::Value { value }) if value == seven() => Answer::Seven,
        Some(Got::Queued) => Answer::Queued,
        Some(Got::Aborted { why }) => Answer::Aborted(why),
        _ => Answer::Not,
    }
}

fn of_done(done: &Option<Done>) -> Answer {
    match *done {
        Some(Done::Yes) => Answer::Yes,
        Some(Done::Aborted { why }) => Answer::Aborted(why),
        None => Answer::Not,
    }
}

// One key for each client.
const ONE_EACH: Shares = Shares {
    reads: Some(1),
    writes: Some(1),
};

// The desk that the call opens, if it opens one: of 8 keys, 2 read batches of 2 places, and 2 write
// places. At one with shares are 2 clients, else 6, of whom none has begun.
fn open(alloc: Global, call: &Call) -> Option<Desk> {
    let Ok(p) = Params::new(8, 2, 2, 3, 2, 2, 2, 2, 6) else {
        return None;
    };
    match *call {
        Call::Anew(_) => Desk::new(alloc, &p, 1, 2, &[1, 2, 3, 4, 5, 6], NO_SHARES).ok(),
        Call::Shared(left) if left <= 2 => Desk::new(alloc, &p, 1, left, &[1, 2], ONE_EACH).ok(),
        _ => None,
    }
}

// The calls, as far as they may be made. Want of memory is no answer that is wanted.
fn begin(desk: &mut Desk, client: u32) -> Answer {
    match calls::begin(desk, client) {
        Ok(Some(Begun::Txn { txn })) => Answer::Began {
            epoch: txn.epoch,
            ticket: txn.ticket,
        },
        Ok(Some(Begun::Stopped { fault })) => Answer::StoppedBy(fault),
        _ => Answer::Not,
    }
}

fn get(desk: &mut Desk, txn: &Txn, key: Key) -> Answer {
    match calls::get(desk, txn, key) {
        Ok(got) => of_got(&got),
        Err(_) => Answer::Not,
    }
}

// A put of seven, or a delete where there is no value.
fn write(desk: &mut Desk, txn: &Txn, key: Key, value: &Option<Value>) -> Answer {
    match calls::write(desk, txn, key, value) {
        Ok(done) => of_done(&done),
        Err(_) => Answer::Not,
    }
}

fn abort(desk: &mut Desk, txn: &Txn) -> Answer {
    match calls::abort(desk, txn) {
        Some(why) => Answer::Aborted(why),
        None => Answer::Not,
    }
}

fn settled(desk: &Desk, txn: &Txn) -> Answer {
    match calls::settled(desk, txn) {
        None => Answer::Not,
        Some(None) => Answer::Open,
        Some(Some(Outcome::Committed)) => Answer::Committed,
        Some(Some(Outcome::Aborted { why })) => Answer::Aborted(why),
        Some(Some(Outcome::Unsure { epoch })) => Answer::Unsure(epoch),
    }
}

fn sign_off(desk: &mut Desk, client: u32) -> Answer {
    if !may_sign_off(desk, client) {
        return Answer::Not;
    }
    desk.sign_off(client);
    Answer::Yes
}

#[tactic(auto, using(ob_order::proofs::Batches::taken_in_flight))]
fn round(desk: &mut Desk) -> Answer {
    let mut keys = [None; 2];
    let values = [None; 2];
    if !may_take(desk) || desk.params().places != 2 {
        return Answer::Not;
    }
    desk.take_batch(&mut keys);
    desk.deliver(&keys, &values);
    Answer::Yes
}

// The nth write, where that is a delete, or a put of seven.
fn wrote_at(writes: &[Write], n: usize) -> Option<Wrote> {
    let write = writes.get(n)?;
    if write.value.is_none() {
        return Some(Wrote::Del(write.key));
    }
    if write.value == seven() {
        Some(Wrote::Put(write.key))
    } else {
        None
    }
}

fn close(desk: &mut Desk, alloc: Global) -> Answer {
    let Ok(mut out) = Vec::with_capacity(alloc, desk.params().writes as usize) else {
        return Answer::Not;
    };
    if !may_close(desk) {
        return Answer::Not;
    }
    desk.close(&mut out);
    if out.len() > 2 {
        return Answer::Not;
    }
    Answer::Wrote(wrote_at(&out, 0), wrote_at(&out, 1))
}

// How the transaction ended whose ticket is the nth.
fn ended(told: &EpochRecord<Key>, n: usize, ticket: u64) -> Option<Outcome<Key>> {
    match told.txns.get(n) {
        Some(txn) if txn.ticket == ticket => Some(txn.outcome),
        _ => None,
    }
}

fn publish(desk: &mut Desk) -> Answer {
    if !may_publish(desk, 2, 2) {
        return Answer::Not;
    }
    let told = desk.publish(2, 2);
    Answer::Told {
        epoch: told.epoch,
        txns: told.txns.len(),
        first: ended(&told, 0, 1),
        second: ended(&told, 1, 2),
        third: ended(&told, 2, 3),
    }
}

fn look(desk: &Desk) -> Answer {
    if !may_look(desk) {
        return Answer::Not;
    }
    let seen = desk.look();
    Answer::Seen {
        waiting: seen.waiting,
        live: seen.live,
        queued: seen.queued,
        left: seen.left,
        txns: seen.txns,
        clients: seen.clients,
    }
}

fn unsure(desk: &mut Desk, fault: Fault) -> Answer {
    if !has_closed(desk) {
        return Answer::Not;
    }
    desk.unsure(fault);
    Answer::Yes
}

fn stopped(desk: &Desk) -> Answer {
    match desk.stopped() {
        None => Answer::Runs,
        Some(fault) => Answer::StoppedBy(fault),
    }
}

// A call's answer, where it opens no desk.
fn make(desk: &mut Desk, alloc: Global, call: &Call) -> Answer {
    match *call {
        Call::Anew(_) | Call::Shared(_) => Answer::Not,
        Call::Begin(client) => begin(desk, client),
        Call::Get(n, key) => get(desk, &txn(n), key),
        Call::Poll(n) => of_got(&calls::poll(desk, &txn(n))),
        Call::Put(n, key) => write(desk, &txn(n), key, &seven()),
        Call::Del(n, key) => write(desk, &txn(n), key, &None),
        Call::Commit(n) => of_done(&calls::commit(desk, &txn(n))),
        Call::Abort(n) => abort(desk, &txn(n)),
        Call::Settled(n) => settled(desk, &txn(n)),
        Call::SignOff(n) => sign_off(desk, n),
        Call::Round => round(desk),
        Call::Close => close(desk, alloc),
        Call::Publish => publish(desk),
        Call::Look => look(desk),
        Call::Stop(fault) => {
            desk.stop(fault);
            Answer::Yes
        }
        Call::Unsure(fault) => unsure(desk, fault),
        Call::Stopped => stopped(desk),
    }
}

// How many clients have begun at the desk that a call opens.
fn begun_at(call: &Call) -> u32 {
    match *call {
        Call::Anew(begun) => begun,
        _ => 2,
    }
}

// How many of the calls are answered as wanted, up to the first that isn't, or opens another desk.
fn played(desk: &mut Desk, alloc: Global, rows: &[Row]) -> usize {
    for i in 0..rows.len() {
        if make(desk, alloc, &rows[i].0) != rows[i].1 {
            return i;
        }
    }
    rows.len()
}

// The same at the desk that the call opens; none where it opens none.
fn played_at(alloc: Global, call: &Call, rows: &[Row]) -> Option<usize> {
    let mut desk = open(alloc, call)?;
    for n in 0..begun_at(call) {
        begin(&mut desk, n + 1);
    }
    Some(played(&mut desk, alloc, rows))
}

// How many of the calls are answered as wanted, up to the first that isn't.
fn answered(alloc: Global, rows: &[Row]) -> usize {
    let mut next: usize = 0;
    for i in 0..rows.len() {
        if i == next {
            let Some(many) = played_at(alloc, &rows[i].0, &rows[i + 1..]) else {
                return i;
            };
            next = i.saturating_add(many).saturating_add(1);
        }
    }
    next
}

/// Makes the calls, each of which has to be answered as wanted.
pub fn expect_all(rt: &impl Abort, alloc: Global, rows: &[Row]) {
    let many = answered(alloc, rows);
    assert!(rt; many == rows.len(), "call {many}");
}
