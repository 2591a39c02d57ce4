//! Writing a run of sealed cells.

ghost use Rattle.std.specs.Prelude.{◌≡◌, ◌<◌, ◌≤◌, ◌+◌, ◌^◌};
ghost use Rattle.ob_seal.specs.Seals.{sealed};
ghost use Rattle.ob_store.specs.Calls.{Serves, IsFailed};
ghost use Rattle.ob_store.specs.Runs.{write_notes};
ghost use Rattle.ob_store.specs.Told.{Does};
ghost use Rattle.ob_cells.specs.Writes.{WritesRun};

use crate::Pieces;
use ob_base::Failed;
use ob_seal::Sealer;
use ob_store::{Store, Watch, write_noted};

// The cell of plain bytes, under the next seal.
fn seal_next(sealer: &mut Sealer, cell: u64, plain: &[u8; 96]) -> [u8; 128]
    requires room { sealer.old.next < 2 ^ 62 }
    ensures bytes { result
        ≡ sealed sealer.old.keys cell sealer.old.generation sealer.old.next plain.now }
    ensures next { sealer.new ≡ record sealer.old { next = sealer.old.next + 1 } }
{
    match sealer.seal(cell, plain) {
        Ok(bytes) => bytes,
        Err(_) => unreachable!(),
    }
}

/// Writes so many cells from a cell on, in rising order, under the next seals, and makes not sure
/// of them. A crash at any moment of it changes no other cell. Each write is shown, whatever it
/// answered.
///
/// # Errors
/// The store failed, and its count of faults rose. Some of the first cells were sealed.
pub fn write_sealed<S: Store, P: Pieces, W: Watch>(
    store: &mut S,
    sealer: &mut Sealer,
    base: u64,
    many: u64,
    pieces: &P,
    watch: &mut W,
) -> Result<(), Failed>
    requires none_out { (S.disk store.old).out ≡ 0 }
    requires fits { base + many < 2 ^ 64 }
    requires room { sealer.old.next + many ≤ 2 ^ 62 }
    ensures serves { Serves IsFailed (S.disk store.old) (S.disk store.new) result }
    ensures run { WritesRun base many (P.plain pieces.now) sealer.old sealer.new (S.disk store.old)
        (S.disk store.new) result }
    ensures does { Does (write_notes base many) (S.disk store.old).seen (S.disk store.new).seen
        (W.trace watch.old) (W.trace watch.new) result }
{
    for i in 0..many {
        let cell = base + i;
        write_noted(
            store,
            cell,
            &seal_next(sealer, cell, &pieces.piece(i)),
            watch,
        )?;
    }
    Ok(())
}
