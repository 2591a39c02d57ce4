//! Opening cells that were read before.

ghost use Rattle.std.specs.Prelude.{◌≡◌, ◌<◌, ◌+◌, ◌*◌, ◌^◌, [], length, slice_index_or};
ghost use Rattle.ob_cells.specs.Reads.{IsRunOpened};

use crate::{Identity, put};
use ob_base::Damaged;
use ob_seal::Sealer;

/// Opens cells that were read from a cell on: the first cell's identity, and their plain bytes one
/// behind the other. Each cell has the seal behind that of the cell before it.
///
/// # Errors
/// The first cell that breaks a rule: in its tag (check Tag, with both tags), then, from the second
/// cell on, in its seal (check Seal, with both identities). What `plain` has is not told.
pub fn open_sealed(
    sealer: &Sealer,
    base: u64,
    cells: &[[u8; 128]],
    plain: &mut [u8],
) -> Result<Identity, Damaged>
    requires some { 0 < length cells.now }
    requires fits { base + length cells.now < 2 ^ 64 }
    requires room { length plain.old ≡ 96 * length cells.now }
    ensures value { IsRunOpened sealer.now.keys base (length cells.now)
        (λ i. slice_index_or cells.now i []) plain.new result }
{
    let opened = match sealer.unseal(base, None, &cells[0]) {
        Ok(opened) => opened,
        Err(damaged) => return Err(damaged),
    };
    put(plain, 0, &opened.plain);
    let first = Identity {
        generation: opened.generation,
        number: opened.number,
    };
    for i in 1..cells.len() {
        let expected = Some(first.seal_at(i as u64));
        let opened = match sealer.unseal(base + i as u64, expected, &cells[i]) {
            Ok(opened) => opened,
            Err(damaged) => return Err(damaged),
        };
        put(plain, 96 * i, &opened.plain);
    }
    Ok(first)
}
