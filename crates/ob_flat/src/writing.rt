//! Writing the rows of a plain store.

ghost use Rattle.std.specs.Prelude.{◌≡◌, ◌<◌, ◌≤◌, ◌+◌, ◌^◌, length, replicate, slice_index_or, None};
ghost use Rattle.ob_store.specs.Runs.{write_notes};
ghost use Rattle.ob_store.specs.Told.{Does};
ghost use Rattle.ob_flat.specs.Rows.{plain_of, row_bytes};
ghost use Rattle.ob_flat.specs.Writes.{RowsWritten};

use crate::row::row_bytes;
use ob_base::{Failed, Value};
use ob_cells::{Pieces, write_sealed};
use ob_seal::Sealer;
use ob_store::{Store, Watch};

// The plain bytes of rows with these values.
#[derive(Clone, Copy)]
struct Values<'a> {
    values: &'a [Option<Value>],
}

impl<'a> Pieces for Values<'a> {
    ghost plain = { λ rows i. plain_of (slice_index_or rows.values.now i None) };

    fn piece(&self, i: u64) -> [u8; 96] {
        match self.values.get(i as usize) {
            Some(value) => row_bytes(value),
            None => [0; 96],
        }
    }
}

// The plain bytes of rows without a value.
#[derive(Clone, Copy)]
struct Blanks;

impl Pieces for Blanks {
    ghost plain = { λ _ _. row_bytes None };

    fn piece(&self, _i: u64) -> [u8; 96] {
        [0; 96]
    }
}

/// Writes the rows of these values from a cell on, in rising order, under the next seals, and makes
/// not sure of them.
///
/// # Errors
/// The store failed, and its count of faults rose. Some of the first rows were sealed.
pub fn write_rows<S: Store, W: Watch>(
    store: &mut S,
    sealer: &mut Sealer,
    base: u64,
    values: &[Option<Value>],
    watch: &mut W,
) -> Result<(), Failed>
    requires none_out { (S.disk store.old).out ≡ 0 }
    requires fits { base + length values.now < 2 ^ 64 }
    requires room { sealer.old.next + length values.now ≤ 2 ^ 62 }
    ensures rows { RowsWritten base values.now sealer.old sealer.new (S.disk store.old)
        (S.disk store.new) result }
    ensures does { Does (write_notes base (length values.now)) (S.disk store.old).seen
        (S.disk store.new).seen (W.trace watch.old) (W.trace watch.new) result }
{
    write_sealed(
        store,
        sealer,
        base,
        values.len() as u64,
        &Values { values },
        watch,
    )
}

/// Writes so many rows without a value from a cell on, likewise.
///
/// # Errors
/// The store failed, and its count of faults rose. Some of the first rows were sealed.
pub fn write_blanks<S: Store, W: Watch>(
    store: &mut S,
    sealer: &mut Sealer,
    base: u64,
    keys: u64,
    watch: &mut W,
) -> Result<(), Failed>
    requires none_out { (S.disk store.old).out ≡ 0 }
    requires fits { base + keys < 2 ^ 64 }
    requires room { sealer.old.next + keys ≤ 2 ^ 62 }
    ensures rows { RowsWritten base (replicate keys None) sealer.old sealer.new (S.disk store.old)
        (S.disk store.new) result }
    ensures does { Does (write_notes base keys) (S.disk store.old).seen (S.disk store.new).seen
        (W.trace watch.old) (W.trace watch.new) result }
{
    write_sealed(store, sealer, base, keys, &Blanks, watch)
}
