//! Keys asked for, taken and delivered.

ghost use Rattle.std.specs.Prelude.{◌≡◌, ◌≤◌, ◌<◌, length};

use ob_base::{Key, Params, Value};
use ob_queue::Queue;
use std::alloc::Global;

// A call on a queue, and what it is answered.
enum Row {
    Ask(Key),
    // The key that was queued last is queued no more.
    TakeBack,
    // A batch is taken, of these keys.
    Take(Option<Key>, Option<Key>),
    // A batch is taken, of these keys, each of which has the value, or none.
    Round(Option<Key>, bool, Option<Key>, bool),
    // So many batches are left in the next epoch, in which the queue is as new.
    Clear(u32),
    // How many keys are queued and in flight, how many batches are left, and whether it is full.
    Counts(u64, u64, u64, bool),
    // Whether the key is queued or in flight.
    Asked(Key, bool),
    // Whether the key has the value, where it was delivered.
    Base(Key, Option<bool>),
}

// A batch is taken, and its keys have these values, if any.
#[tactic(auto, using(ob_order::proofs::Batches::taken_in_flight, ob_order::proofs::Batches::none_of_length))]
fn take(queue: &mut Queue, values: Option<[Option<Value>; 2]>) -> [Option<Key>; 2] {
    let mut keys = [None; 2];
    if queue.left() == 0 || queue.in_flight() != 0 || queue.params().places != 2 {
        return keys;
    }
    queue.take_batch(&mut keys);
    if let Some(values) = values {
        queue.deliver(&keys, &values);
    }
    keys
}

fn counts(queue: &Queue) -> (u64, u64, u64, bool) {
    (
        queue.queued(),
        queue.in_flight(),
        queue.left(),
        queue.is_full(),
    )
}

// The value, or none.
fn value(some: bool) -> Option<Value> {
    if some { Value::new(&[1, 2]) } else { None }
}

// Whether the key has the value, where it was delivered.
fn is_base(queue: &Queue, key: Key, wanted: Option<bool>) -> bool {
    match (queue.base(key), wanted) {
        (Some(found), Some(some)) => found == value(some),
        (None, None) => true,
        _ => false,
    }
}

// Makes a call: whether it can be made, and is answered so.
fn is_answered(queue: &mut Queue, row: &Row) -> bool {
    match *row {
        Row::Ask(key) => queue.ask(key).is_ok(),
        Row::TakeBack if queue.queued() != 0 => {
            queue.take_back();
            true
        }
        Row::Take(first, second) => take(queue, None) == [first, second],
        Row::Round(first, one, second, other) => {
            take(queue, Some([value(one), value(other)])) == [first, second]
        }
        Row::Clear(left) if left <= queue.params().batches => {
            queue.clear(left);
            true
        }
        Row::Counts(queued, in_flight, left, is_full) => {
            counts(queue) == (queued, in_flight, left, is_full)
        }
        Row::Asked(key, is_asked) => queue.is_asked_for(key) == is_asked,
        Row::Base(key, wanted) => is_base(queue, key, wanted),
        _ => false,
    }
}

// A queue with batches of 2 places, 2 of which are left.
fn opened(alloc: Global) -> Option<Queue> {
    match Params::new(8, 2, 2, 3, 4, 2, 6, 2, 6) {
        Ok(params) if params.batches >= 2 => Queue::new(alloc, &params, 2).ok(),
        _ => None,
    }
}

// How many of these calls are answered so, up to the first that isn't.
fn answered(queue: &mut Queue, rows: &[Row]) -> usize {
    for i in 0..rows.len() {
        if !is_answered(queue, &rows[i]) {
            return i;
        }
    }
    rows.len()
}

const ROWS: &[Row] = &[
    // Keys are queued once.
    Row::Ask(5),
    Row::Ask(3),
    Row::Ask(5),
    Row::Ask(7),
    Row::Counts(3, 0, 2, false),
    Row::Asked(3, true),
    Row::Asked(4, false),
    Row::Ask(4),
    Row::Counts(4, 0, 2, true),
    Row::TakeBack,
    Row::Asked(7, true),
    Row::Asked(4, false),
    // Keys in flight aren't queued.
    Row::Clear(2),
    Row::Ask(5),
    Row::Ask(3),
    Row::Ask(7),
    Row::Take(Some(5), Some(3)),
    Row::Ask(3),
    Row::Counts(1, 2, 1, false),
    Row::Ask(1),
    Row::Counts(2, 2, 1, true),
    // Values are delivered.
    Row::Clear(2),
    Row::Ask(5),
    Row::Ask(3),
    Row::Ask(7),
    Row::Round(Some(5), true, Some(3), false),
    Row::Base(5, Some(true)),
    Row::Base(3, Some(false)),
    Row::Base(7, None),
    Row::Counts(1, 0, 1, false),
    Row::Round(Some(7), true, None, true),
    Row::Counts(0, 0, 0, true),
    // A queue that is cleared is as new, with a batch in flight too.
    Row::Clear(2),
    Row::Ask(5),
    Row::Ask(3),
    Row::Ask(7),
    Row::Round(Some(5), false, Some(3), false),
    Row::Take(Some(7), None),
    Row::Clear(4),
    Row::Counts(0, 0, 4, false),
    Row::Base(5, None),
    Row::Asked(7, false),
];

#[test]
fn keys_are_queued_taken_and_delivered(rt: HostRuntime) {
    let mut queue = opened(rt.alloc()).expect(&rt, "a queue");
    assert!(rt; answered(&mut queue, ROWS) == ROWS.len());
}
