//! Parameters, numbers in bytes, and the cells and paths of small stores.

use crate::steps::{insist, insist_at};
use ob_base::{
    Field, Params, bucket_of, buckets, check_cell, checkpoint_cells, checkpoint_len, log_cell,
    record_cells, reverse, ring_cells, set_u32, set_u64, slot_cell, u32_at, u64_at,
};

fn params_of(numbers: &[u32; 9]) -> Result<Params, Field> {
    let [n, l, z, s, r, br, bw, e, t] = *numbers;
    Params::new(n, l, z, s, r, br, bw, e, t)
}

// Nine numbers, and the first one that is out of range.
const RANGES: &[([u32; 9], Option<Field>)] = &[
    ([8, 2, 2, 3, 2, 2, 2, 2, 8], None),
    ([9, 2, 2, 3, 2, 2, 2, 2, 8], Some(Field::N)),
    ([0, 0, 2, 3, 2, 2, 2, 2, 8], Some(Field::N)),
    ([8, 17, 2, 3, 2, 2, 2, 2, 8], Some(Field::L)),
    ([9, 2, 2, 3, 2, 2, 2, 65, 8], Some(Field::E)),
    ([8, 2, 2, 3, 2, 2, 2, 2, 1025], Some(Field::T)),
];

#[test]
fn the_first_field_out_of_range_is_named(rt: HostRuntime) {
    for i in 0..RANGES.len() {
        let (numbers, field) = &RANGES[i];
        insist_at(&rt, params_of(numbers).err() == *field, i);
    }
}

// Whether two numbers are set low byte first, and read so.
fn are_low_first() -> bool {
    let mut bytes = [0; 16];
    set_u32(&mut bytes, 1, 0x0403_0201);
    set_u64(&mut bytes, 6, 0x0807_0605_0403_0201);
    bytes == [0, 1, 2, 3, 4, 0, 1, 2, 3, 4, 5, 6, 7, 8, 0, 0]
        && u32_at(&bytes, 1) == 0x0403_0201
        && u64_at(&bytes, 6) == 0x0807_0605_0403_0201
}

#[test]
fn numbers_stand_low_byte_first(rt: HostRuntime) {
    insist(&rt, are_low_first(), "both numbers");
}

// A number of a store.
enum Ask {
    RingCells,
    RecordCells,
    CheckpointLen,
    CheckpointCells,
    Buckets,
    // The cell of a part of a batch's record, in a log area.
    Log(u8, u32, u64),
    // A cell of a checkpoint area.
    Check(u8, u64),
    // The cell of a bucket's slot, in a home.
    Slot(u8, u32, u8),
    // The bucket of a level on a leaf's path.
    Bucket(u32, u32),
    // The leaf that a count leads to.
    Leaf(u64),
}

// The number, where the store has one.
fn number_of(p: &Params, ask: &Ask) -> Option<u64> {
    match *ask {
        Ask::RingCells => Some(ring_cells(p)),
        Ask::RecordCells => Some(record_cells(p)),
        Ask::CheckpointLen => Some(checkpoint_len(p)),
        Ask::CheckpointCells => Some(checkpoint_cells(p)),
        Ask::Buckets => Some(u64::from(buckets(p))),
        Ask::Log(area, batch, part) if area < 2 && batch < p.batches && part <= record_cells(p) => {
            Some(log_cell(p, area, batch, part))
        }
        Ask::Check(area, i) if area < 2 && i < checkpoint_cells(p) => Some(check_cell(p, area, i)),
        Ask::Slot(home, bucket, slot)
            if home < 2 && bucket < buckets(p) && u32::from(slot) < p.real + p.dummies => {
            Some(slot_cell(p, home, bucket, slot))
        }
        Ask::Bucket(level, leaf) if level <= p.levels && leaf < 1 << p.levels => {
            Some(u64::from(bucket_of(p, level, leaf)))
        }
        Ask::Leaf(count) => Some(u64::from(reverse(p, count))),
        _ => None,
    }
}

// The number of a store with so many levels.
fn number_in(levels: u32, ask: &Ask) -> Option<u64> {
    match params_of(&[8, levels, 2, 3, 2, 2, 2, 2, 8]) {
        Ok(p) => number_of(&p, ask),
        Err(_) => None,
    }
}

// How many levels, what is asked, and the number, worked by hand.
const NUMBERS: &[(u32, Ask, u64)] = &[
    (2, Ask::RingCells, 109),
    (2, Ask::RecordCells, 1),
    (2, Ask::CheckpointLen, 985),
    (2, Ask::CheckpointCells, 11),
    (2, Ask::Log(0, 0, 0), 9),
    (2, Ask::Log(0, 1, 1), 12),
    (2, Ask::Log(1, 0, 0), 13),
    (2, Ask::Log(1, 1, 1), 16),
    (2, Ask::Check(0, 0), 17),
    (2, Ask::Check(0, 10), 27),
    (2, Ask::Check(1, 0), 28),
    (2, Ask::Check(1, 10), 38),
    (2, Ask::Slot(0, 0, 0), 39),
    (2, Ask::Slot(0, 6, 4), 73),
    (2, Ask::Slot(1, 0, 0), 74),
    (2, Ask::Slot(1, 6, 4), 108),
    (2, Ask::Buckets, 7),
    (2, Ask::Bucket(0, 3), 0),
    (2, Ask::Bucket(1, 1), 1),
    (2, Ask::Bucket(1, 2), 2),
    (2, Ask::Bucket(2, 0), 3),
    (2, Ask::Bucket(2, 3), 6),
    (3, Ask::Leaf(0), 0),
    (3, Ask::Leaf(1), 4),
    (3, Ask::Leaf(2), 2),
    (3, Ask::Leaf(3), 6),
    (3, Ask::Leaf(4), 1),
    (3, Ask::Leaf(5), 5),
    (3, Ask::Leaf(6), 3),
    (3, Ask::Leaf(7), 7),
    (3, Ask::Leaf(8), 0),
    (3, Ask::Leaf(9), 4),
    (3, Ask::Leaf(10), 2),
    (3, Ask::Leaf(11), 6),
    (3, Ask::Leaf(12), 1),
    (3, Ask::Leaf(13), 5),
    (3, Ask::Leaf(14), 3),
    (3, Ask::Leaf(15), 7),
];

#[test]
fn small_stores_have_these_cells_and_paths(rt: HostRuntime) {
    for i in 0..NUMBERS.len() {
        let (levels, ask, number) = &NUMBERS[i];
        insist_at(&rt, number_in(*levels, ask) == Some(*number), i);
    }
}
