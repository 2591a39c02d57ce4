//! A run of cells that are to be sealed.

/// So many cells from a cell on, and their plain bytes.
#[derive(Drop)]
pub struct CellRun<'a, P> {
    /// The first cell.
    pub base: u64,
    /// How many there are.
    pub many: u64,
    /// Their plain bytes.
    pub pieces: &'a P,
}
