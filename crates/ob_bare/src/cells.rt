//! Cells of zeros.

ghost use Rattle.std.specs.Prelude.{◌≡◌, IfOk, replicate};
ghost use Rattle.ob_bare.specs.Cells.{zeros};

use std::alloc::{AllocError, Global};

/// So many cells of zeros.
pub fn blank(alloc: Global, size: usize) -> Result<Vec<[u8; 128]>, AllocError>
    ensures { IfOk result (λ v. v.items ≡ replicate size zeros) }
{
    let mut cells = Vec::new(alloc);
    for i in 0..size {
        cells.push([0; 128])?;
    }
    Ok(cells)
}
