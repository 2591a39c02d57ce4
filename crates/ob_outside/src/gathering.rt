//! Neighbouring cells of a file, gathered so that the system is called once for many.

ghost use Rattle.std.specs.Prelude.{◌≤◌, ◌≡◌, IfOk, vec_len};

use crate::cell::{CELL, write_cells};
use ob_base::Failed;
use std::alloc::{AllocError, Global};
use std::fs::File;

// How many cells are gathered at most.
const MOST: usize = 256;

/// Cells that follow each other, which were written and not yet handed to the system.
#[derive(Drop)]
pub struct Gathered {
    first: u64,
    many: usize,
    bytes: Vec<u8>,
    ghost few: { many ≤ 256 },
    ghost room: { vec_len bytes ≡ 32768 },
}

impl Gathered {
    /// Room for 256 cells, and none yet.
    ///
    /// # Errors
    /// Memory was wanting.
    pub fn new(alloc: Global) -> Result<Gathered, AllocError> {
        Ok(Gathered {
            first: 0,
            many: 0,
            bytes: vec![in alloc; 0; MOST * CELL]?,
        })
    }

    /// Takes a cell that follows those gathered, where there is room. Else it takes nothing, and
    /// answers false.
    pub fn take(&mut self, cell: u64, bytes: &[u8; 128]) -> bool {
        let next = self.first.wrapping_add(self.many as u64);
        if self.many >= MOST || self.many > 0 && cell != next {
            return false;
        }
        if self.many == 0 {
            self.first = cell;
        }
        let at = self.many * CELL;
        self.bytes[at..at + CELL].copy_from_slice(bytes);
        self.many += 1;
        true
    }

    /// Hands all cells to the system, in order, and then has none.
    ///
    /// # Errors
    /// The file can't be written there. Some of them may be written, one in part.
    pub fn hand_over(&mut self, file: &File) -> Result<(), Failed> {
        let few = self.many * CELL;
        self.many = 0;
        write_cells(file, self.first, &self.bytes[..few])
    }
}
