//! A desk and a plain desk: each call is made at both, and they are answered alike.

ghost use Rattle.std.specs.Prelude.{◌≡◌, ℕ, ◌*◌, ◌<◌, ◌≤◌, true, Some};

use crate::plain_desk::PlainDesk;
use crate::told::{Told, are_writes, is_look, is_told, told_by_done, told_by_got};
use ob_base::{Key, Params, Value};
use ob_desk::{Begun, Desk, Txn};
use ob_desk_calls as calls;
use ob_desk_calls::{may_close, may_look, may_publish, may_take};
use ob_serial::{Outcome, Why};
use ob_shares::Shares;
use std::alloc::Global;
use std::process::Abort;

/// Numbers that look random.
#[derive(Clone, Copy)]
pub struct Random {
    pub state: u64,
}

impl Random {
    pub fn below(&mut self, many: u64) -> u64
        requires { 0 < many }
        ensures { result < many }
    {
        self.state = self
            .state
            .wrapping_mul(6364136223846793005)
            .wrapping_add(1442695040888963407);
        (self.state >> 33) % many
    }
}

/// How many keys, batches, places of a batch and places for writes there are, and how many keys each
/// client may name by its gets, and by its puts and deletes.
#[derive(Clone, Copy)]
pub struct Setup {
    pub keys: u32,
    pub batches: u32,
    pub places: u32,
    pub writes: u32,
    pub shares: Shares,
}

/// How many clients there are.
pub const CLIENTS: u32 = 8;

/// The numbers that decide what is called, and how many calls were answered with each cause of an
/// abort but a stop.
#[derive(Clone, Copy)]
pub struct Drawn {
    pub random: Random,
    pub causes: [u64; 8],
}

/// Both desks.
#[derive(Drop)]
pub struct Pair {
    pub alloc: Global,
    pub desk: Desk,
    pub plain: PlainDesk,
    pub drawn: Drawn,
}

// Whether all clients' shares have places.
fn fits(share: Option<u32>, places: u32) -> bool
    ensures { result ≡ true → (keys : ℕ) → share ≡ Some keys → 8 * keys ≤ places }
{
    match share {
        Some(keys) => keys <= places / 8,
        None => true,
    }
}

// A desk of eight clients whose first epoch has so many batches left.
fn open(rt: &impl Abort, alloc: Global, params: &Params, shares: Shares, left: u32) -> Desk {
    assert!(rt; left <= params.batches);
    assert!(rt; fits(shares.reads, params.places));
    assert!(rt; fits(shares.writes, params.writes));
    Desk::new(alloc, params, 1, left, &[1, 2, 3, 4, 5, 6, 7, 8], shares).expect(rt, "memory")
}

/// Two desks of eight clients, whose first epoch has as many batches left as is drawn.
pub fn open_both(rt: &impl Abort, alloc: Global, setup: &Setup, mut drawn: Drawn) -> Pair {
    let left = drawn.random.below(u64::from(setup.batches) + 1) as u32;
    let Setup {
        keys,
        batches,
        places,
        writes,
        shares,
    } = *setup;
    let params = Params::new(keys, 3, 4, 4, batches, places, writes, 4, 32).expect(
        rt,
        "parameters in range",
    );
    let plain = PlainDesk::new(alloc, &params, shares, CLIENTS, left);
    let desk = open(rt, alloc, &params, shares, left);
    Pair {
        alloc,
        desk,
        plain,
        drawn,
    }
}

// Counts the cause of an abort.
fn count(causes: &mut [u64; 8], why: &Why<Key>) {
    let place = match *why {
        Why::Conflict { .. } => 0,
        Why::Depends { .. } => 1,
        Why::ReadsFull { .. } => 2,
        Why::WritesFull { .. } => 3,
        Why::ShareReads { .. } => 4,
        Why::ShareWrites { .. } => 5,
        Why::EpochEnd => 6,
        Why::Asked => 7,
        Why::Stopped { .. } => return,
    };
    causes[place] = causes[place].saturating_add(1);
}

// Whether both tell the same; the cause of an abort is counted.
fn is_same(causes: &mut [u64; 8], told: Option<Told>, wanted: Option<Told>) -> bool {
    if let Some((_, Some(why))) = told {
        count(causes, &why);
    }
    told == wanted
}

/// The client begins a transaction.
pub fn begin(rt: &impl Abort, pair: &mut Pair, client: u32) -> bool {
    let txn = match calls::begin(&mut pair.desk, client).expect(rt, "memory") {
        Some(Begun::Txn { txn }) => Some(txn),
        _ => None,
    };
    txn == pair.plain.begin(rt, client)
}

/// What the desk answers a get, where the plain desk answers the same.
pub fn get(rt: &impl Abort, pair: &mut Pair, txn: &Txn, key: Key) -> bool {
    let got = calls::get(&mut pair.desk, txn, key).expect(rt, "memory");
    let wanted = pair.plain.get(rt, txn, key);
    is_same(&mut pair.drawn.causes, told_by_got(&got), wanted)
}

/// A poll.
pub fn poll(rt: &impl Abort, pair: &mut Pair, txn: &Txn) -> bool {
    let got = calls::poll(&mut pair.desk, txn);
    let wanted = pair.plain.poll(rt, txn);
    is_same(&mut pair.drawn.causes, told_by_got(&got), wanted)
}

/// A put, or a delete where there is no value.
pub fn write(rt: &impl Abort, pair: &mut Pair, txn: &Txn, key: Key, value: &Option<Value>) -> bool {
    let done = calls::write(&mut pair.desk, txn, key, value).expect(rt, "memory");
    let wanted = pair.plain.write(rt, txn, key, value);
    is_same(&mut pair.drawn.causes, told_by_done(&done), wanted)
}

/// A request to commit.
pub fn commit(pair: &mut Pair, txn: &Txn) -> bool {
    let done = calls::commit(&mut pair.desk, txn);
    let wanted = pair.plain.commit(txn);
    is_same(&mut pair.drawn.causes, told_by_done(&done), wanted)
}

/// The client aborts its transaction.
pub fn abort(pair: &mut Pair, txn: &Txn) -> bool {
    let why = calls::abort(&mut pair.desk, txn);
    if let Some(why) = why {
        count(&mut pair.drawn.causes, &why);
    }
    why == pair.plain.abort(txn)
}

/// The client asks how its transaction ended.
pub fn settled(pair: &mut Pair, txn: &Txn) -> bool {
    let outcome = calls::settled(&pair.desk, txn);
    if let Some(Some(Outcome::Aborted { why })) = outcome {
        count(&mut pair.drawn.causes, &why);
    }
    outcome == pair.plain.settled(txn)
}

/// The driver looks.
pub fn look(pair: &Pair) -> bool {
    if !may_look(&pair.desk) {
        return pair.plain.look().is_none();
    }
    let seen = pair.desk.look();
    match pair.plain.look() {
        Some(wanted) => is_look(&seen, &wanted),
        None => false,
    }
}

// What the plain desk's store has of these keys.
fn stored<const N: usize>(plain: &PlainDesk, keys: &[Option<Key>; N]) -> [Option<Value>; N] {
    let mut values = [None; N];
    for i in 0..N {
        if let Some(key) = keys[i] {
            values[i] = plain.stored(key);
        }
    }
    values
}

// A batch of so many places.
#[tactic(auto, using(ob_order::proofs::Batches::taken_in_flight))]
fn take<const N: usize>(
    rt: &impl Abort,
    alloc: Global,
    desk: &mut Desk,
    plain: &mut PlainDesk,
) -> bool {
    let mut keys = [None; N];
    if !may_take(desk) || desk.params().places as usize != N {
        return !plain.may_take();
    }
    desk.take_batch(&mut keys);
    let values = stored::<N>(plain, &keys);
    desk.deliver(&keys, &values);
    plain.may_take() && plain.take(rt, alloc, &keys)
}

/// The driver takes a batch and delivers what the store has.
pub fn round(rt: &impl Abort, pair: &mut Pair) -> bool {
    let alloc = pair.alloc;
    match pair.plain.params.places {
        2 => take::<2>(rt, alloc, &mut pair.desk, &mut pair.plain),
        8 => take::<8>(rt, alloc, &mut pair.desk, &mut pair.plain),
        _ => take::<16>(rt, alloc, &mut pair.desk, &mut pair.plain),
    }
}

/// The driver closes the epoch.
pub fn close(rt: &impl Abort, pair: &mut Pair) -> bool {
    let alloc = pair.alloc;
    let mut out = Vec::with_capacity(alloc, pair.desk.params().writes as usize).expect(
        rt, "memory",
    );
    let wanted = pair.plain.close(rt, alloc);
    if !may_close(&pair.desk) {
        return wanted.is_none();
    }
    pair.desk.close(&mut out);
    match wanted {
        Some(writes) => are_writes(&out, &writes),
        None => false,
    }
}

/// The driver publishes the closed epoch.
pub fn publish(rt: &impl Abort, pair: &mut Pair) -> bool {
    let alloc = pair.alloc;
    let epoch = pair.plain.running.number;
    let left = pair.plain.params.batches;
    if !may_publish(&pair.desk, epoch, left) {
        return !pair.plain.is_closed;
    }
    let told = pair.desk.publish(epoch, left);
    let good = pair.plain.is_closed && is_told(&pair.plain.closed, &told);
    pair.plain.publish(rt, alloc);
    good
}
