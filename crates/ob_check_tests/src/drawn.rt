//! Checkpoints whose text is spelled here: tables with too many rows, and tables that look random.

use crate::cells::{params_of, sealed, sealer_after, store_of};
use crate::checkpoints::{copy_into, damaged, read_of, read_plain};
use crate::text::some_text;
use ob_base::{Check, Params, checkpoint_cells};
use ob_store::Blind;
use std::alloc::Global;
use std::process::Abort;
use std::thread::Threads;

// A text as runs of one byte: the byte, and how often it stands there.
static CROWDED: [(u8, usize); 32] = [
    (0, 16),
    // Four present keys.
    (1, 1),
    (0, 20),
    (1, 1),
    (0, 20),
    (1, 1),
    (0, 20),
    (1, 1),
    (0, 20),
    // Three buckets of three slots, which hold no key.
    (0, 17),
    (255, 8),
    (0, 2),
    (1, 1),
    (0, 1),
    (2, 1),
    (0, 1),
    (0, 17),
    (255, 8),
    (0, 2),
    (1, 1),
    (0, 1),
    (2, 1),
    (0, 1),
    (0, 17),
    (255, 8),
    (0, 2),
    (1, 1),
    (0, 1),
    (2, 1),
    (0, 1),
    // Four rows, and room for one.
    (4, 1),
    (0, 72),
];

// Four keys; three buckets of two real slots and a dummy one; room for one row.
const TINY: [u32; 9] = [4, 1, 2, 1, 1, 1, 4, 1, 1];

// Four present keys that lie in no bucket, where the stash has room for one.
#[test]
fn more_rows_than_there_is_room_for_are_told(rt: HostRuntime) {
    let alloc = rt.alloc();
    let p = params_of(&rt, &TINY);
    let mut bytes = Vec::new(alloc);
    for &(byte, many) in &CROWDED {
        let len = bytes.len().saturating_add(many);
        bytes.resize(len, byte).expect(&rt, "memory");
    }
    assert!(rt; bytes.len() == 266);
    let mut store = sealed(&rt, alloc, &p, 0, &bytes);
    let read = read_of(&rt, alloc, &p, 0, &mut store, &mut Blind);
    assert!(rt; read.err() == Some(damaged(15, Check::Form, (4, 0), (1, 0))));
}

// Keys, levels, and the real and the dummy slots of a bucket.
static SIZES: [(u32, u32, u32, u32); 8] = [
    (2, 1, 1, 1),
    (4, 1, 2, 1),
    (8, 2, 2, 3),
    (30, 3, 4, 6),
    (16, 4, 1, 2),
    (32, 4, 2, 5),
    (90, 5, 3, 3),
    (200, 6, 4, 2),
];

// Whether tables that look random are written again as they were read.
fn are_copied<R: Abort + Threads + Sync>(rt: &R, alloc: Global, p: &Params) -> bool {
    let text = some_text(rt, alloc, p, 6, u64::from(p.keys));
    let mut store = sealed(rt, alloc, p, 6, &text);
    let mut sealer = sealer_after(3, 4);
    let mut copy = store_of(rt, alloc, p, &[]);
    let _ = copy_into(rt, alloc, p, 6, &mut store, &mut copy, &mut sealer);
    let room = 96 * checkpoint_cells(p) as usize;
    let mut plain = vec![in alloc; 0; room].expect(rt, "memory");
    read_plain(rt, p, 6, &mut copy, plain.as_mut_slice());
    plain.starts_with(&text)
}

#[test]
fn tables_are_read_as_they_were_written(rt: HostRuntime) {
    for &(n, l, z, s) in &SIZES {
        let p = params_of(&rt, &[n, l, z, s, 1, 1, n.min(64), 1, n]);
        assert!(rt; are_copied(&rt, rt.alloc(), &p), "{n} keys");
    }
}
