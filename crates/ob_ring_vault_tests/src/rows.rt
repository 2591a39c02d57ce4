//! Epochs of a ring vault: what they show and answer.

ghost use Rattle.std.specs.Prelude.{◌≡◌};
ghost use Rattle.ob_mem.specs.Memory.{disk_of_store};

use crate::opening::{Setting, new_store, serve_store, setting_of};
use crate::shown::{FIRST_EPOCH, LEAF_ONE, OPENED, SECOND_EPOCH};
use crate::steps::{Put, Step, requests_of, told_by};
use ob_base::Value;
use ob_mem::{MemSink, MemStore};
use ob_seal::ListTape;
use ob_store::{Blind, SinkWatch};
use std::alloc::Global;
use std::process::Abort;
use std::thread::Threads;

const PADS: Step = Step::Ask(None);

const FIVE: Step = Step::Ask(Some(5));

const HI: &[Put] = &[Put {
    key: 5,
    text: b"hi",
}];

const ONE_EPOCH: &[Step] = &[PADS, PADS, Step::End(&[])];

const TWO_EPOCHS: &[Step] = &[PADS, PADS, Step::End(HI), FIVE, PADS, Step::End(&[])];

// Whether just these parts were shown, one behind the other.
fn is_made_of(shown: &[u8], parts: &[&[u8]]) -> bool {
    let mut rest = shown;
    for part in parts {
        match rest.strip_prefix(*part) {
            Some(behind) => rest = behind,
            None => return false,
        }
    }
    rest.is_empty()
}

// The words of a tape, zeros behind them; calls; what they show; the epoch that ended last; and
// what key 5 has in the next one, behind another opening.
struct Row {
    words: &'static [u64],
    steps: &'static [Step],
    parts: &'static [&'static [u8]],
    epoch: u64,
    text: &'static [u8],
}

const ROWS: &[Row] = &[
    Row {
        words: &[],
        steps: ONE_EPOCH,
        parts: &[OPENED, FIRST_EPOCH],
        epoch: 1,
        text: b"",
    },
    Row {
        words: &[],
        steps: TWO_EPOCHS,
        parts: &[OPENED, FIRST_EPOCH, SECOND_EPOCH],
        epoch: 2,
        text: b"hi",
    },
    Row {
        words: &[0, 0, 0, 0, 1],
        steps: TWO_EPOCHS,
        parts: &[OPENED, FIRST_EPOCH, LEAF_ONE],
        epoch: 2,
        text: b"hi",
    },
];

// Opens a store again and asks for key 5: this epoch ended last, and the key has this.
fn finds_again<R: Abort + Threads + Sync>(
    rt: &R,
    alloc: Global,
    store: &mut MemStore,
    setting: &Setting,
    epoch: u64,
    wanted: Option<Value>,
) -> bool
    requires { (disk_of_store store.old).out ≡ 0 }
{
    let calls = requests_of(rt, alloc, &setting.p, &[FIVE]);
    let mut tape = ListTape::new(alloc, &[]).expect(rt, "memory");
    match serve_store(rt, alloc, store, &mut tape, setting, &calls, &mut Blind) {
        Ok(next) => {
            let before = next.generation == 3 && next.began == (epoch, 2);
            let found = told_by(&next.replies).found;
            before && next.stands == (epoch, 1, false) && found == wanted
        }
        Err(_) => false,
    }
}

// Makes a row's calls over a new store, and asks for key 5 behind another opening; whether all is
// as the row says.
fn plays_so<R: Abort + Threads + Sync>(
    rt: &R,
    alloc: Global,
    setting: &Setting,
    row: &Row,
) -> bool {
    let wanted = Value::new(row.text);
    let wanted = if row.text.is_empty() { None } else { wanted };
    let calls = requests_of(rt, alloc, &setting.p, row.steps);
    let mut sink = MemSink::new(alloc, 4000, Vec::new(alloc)).expect(rt, "memory");
    let mut watch = SinkWatch::new(&mut sink);
    let mut tape = ListTape::new(alloc, row.words).expect(rt, "memory");
    let mut store = new_store(rt, alloc, &setting.p, &[], &mut Blind);
    match serve_store(
        rt, alloc, &mut store, &mut tape, setting, &calls, &mut watch,
    ) {
        Ok(first) => {
            let before = first.generation == 2 && first.began == (0, 2);
            let whole = first.replies.len() == calls.len();
            let after = first.stands == (row.epoch, 2, false);
            let found = told_by(&first.replies).found == wanted;
            let shown = is_made_of(sink.written(), row.parts);
            let again = finds_again(rt, alloc, first.store, setting, row.epoch, wanted);
            before && whole && after && found && shown && again
        }
        Err(_) => false,
    }
}

#[test]
fn a_ring_vault_shows_what_another_implementation_shows(rt: HostRuntime) {
    for lanes in 1..17 {
        let setting = setting_of(&rt, [8, 2, 2, 3, 2, 2, 2, 2, 8], lanes);
        for row in ROWS {
            assert!(rt; plays_so(&rt, rt.alloc(), &setting, row));
        }
    }
}

// On both tapes the put's word is 1. They differ in words of buckets alone: of the 25 slots that
// the first end fills anew.
const PUT_ONE: &[u64] = &[0, 0, 0, 0, 1];

const BUCKETS_APART: &[u64] = &[
    0, 0, 0, 0, 1, 0, 9, 8, 1, 7, 6, 5, 4, 3, 2, 1, 7, 7, 1, 0, 3, 2, 9, 4, 4, 8, 6, 1, 5, 0, 2,
];

// The leaves that another implementation showed on the first of them.
const LEAVES: &[u8] = b"00001000";

// What two epochs over a new store show, on a tape of these words.
fn shown_on<R: Abort + Threads + Sync>(
    rt: &R,
    alloc: Global,
    setting: &Setting,
    words: &[u64],
) -> MemSink {
    let calls = requests_of(rt, alloc, &setting.p, TWO_EPOCHS);
    let mut sink = MemSink::new(alloc, 4000, Vec::new(alloc)).expect(rt, "memory");
    let mut watch = SinkWatch::new(&mut sink);
    let mut tape = ListTape::new(alloc, words).expect(rt, "memory");
    let mut store = new_store(rt, alloc, &setting.p, &[], &mut Blind);
    let served = serve_store(
        rt, alloc, &mut store, &mut tape, setting, &calls, &mut watch,
    );
    assert!(rt; served.is_ok());
    sink
}

// Whether these leaves, each of one digit, are those that the lines show, in order.
fn are_leaves(shown: &[u8], leaves: &[u8]) -> bool {
    let mut found = 0;
    for i in 0..shown.len() {
        if shown[i..].starts_with(b"L ") {
            if found >= leaves.len() || shown.get(i + 2) != Some(&leaves[found]) {
                return false;
            }
            found += 1;
        }
    }
    found == leaves.len()
}

#[test]
fn words_of_buckets_decide_no_label(rt: HostRuntime) {
    let setting = setting_of(&rt, [8, 2, 2, 3, 2, 2, 2, 2, 8], 1);
    let one = shown_on(&rt, rt.alloc(), &setting, PUT_ONE);
    let other = shown_on(&rt, rt.alloc(), &setting, BUCKETS_APART);
    assert!(rt; are_leaves(one.written(), LEAVES));
    assert!(rt; are_leaves(other.written(), LEAVES));
    assert!(rt; one.written() != other.written());
}
