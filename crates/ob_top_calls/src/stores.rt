//! Stores in memory, as they are new and as a crash leaves them, and single cells of them.

ghost use Rattle.std.specs.Prelude.{◌≡◌, IfOk};
ghost use Rattle.ob_mem.specs.Memory.{disk_of_store};

use ob_base::{Failed, Memory};
use ob_mem::{Fail, MemStore};
use ob_store::Store;
use std::alloc::Global;

/// The cells of a store of 8 keys.
pub const CELLS: usize = 109;

/// The moment behind all calls.
pub const END: usize = 100_000;

/// A new store of so many cells, of which these calls fail.
///
/// # Errors
/// Memory was wanting.
pub fn blank(alloc: Global, cells: usize, fails: &[Fail]) -> Result<MemStore, Memory>
    ensures { IfOk result (λ made. (disk_of_store made).out ≡ 0) }
{
    MemStore::new(alloc, cells, fails.to_vec(alloc)?)
}

/// What a crash at this moment leaves of a store of at most 109 cells: in those that aren't sure
/// what they got last, or this byte throughout.
///
/// # Errors
/// Memory was wanting.
pub fn left_after(store: &MemStore, moment: usize, filling: Option<u8>) -> Result<MemStore, Memory>
    ensures { IfOk result (λ left. (disk_of_store left).out ≡ 0) }
{
    let Some(byte) = filling else {
        return store.crash(moment, &[]);
    };
    let mut fillings = [(0, [byte; 128]); CELLS];
    for i in 0..CELLS {
        fillings[i].0 = i as u64;
    }
    store.crash(moment, &fillings)
}

/// Lets a store go. What a drop takes is proved in each function that has one, so tests call this.
pub fn let_go(_store: MemStore) {}

/// The bytes of a cell.
///
/// # Errors
/// The store failed.
pub fn cell_of(store: &mut MemStore, cell: u64) -> Result<[u8; 128], Failed>
    requires { (disk_of_store store.old).out ≡ 0 }
    ensures { (disk_of_store store.new).out ≡ 0 }
{
    let mut bytes = [0; 128];
    let mut lane = store.lane()?;
    let read = store.read(&mut lane, cell, &mut bytes);
    store.absorb(lane);
    match read {
        Ok(()) => Ok(bytes),
        Err(failed) => Err(failed),
    }
}

/// Whether two stores have the same bytes in each of so many cells.
///
/// # Errors
/// A store failed.
pub fn are_alike(one: &mut MemStore, other: &mut MemStore, cells: u64) -> Result<bool, Failed>
    requires one { (disk_of_store one.old).out ≡ 0 }
    requires other { (disk_of_store other.old).out ≡ 0 }
    ensures one { (disk_of_store one.new).out ≡ 0 }
    ensures other { (disk_of_store other.new).out ≡ 0 }
{
    for cell in 0..cells {
        if cell_of(one, cell)? != cell_of(other, cell)? {
            return Ok(false);
        }
    }
    Ok(true)
}

/// Changes a bit of a cell.
///
/// # Errors
/// The store failed.
pub fn flip(store: &mut MemStore, cell: u64) -> Result<(), Failed>
    requires { (disk_of_store store.old).out ≡ 0 }
    ensures { (disk_of_store store.new).out ≡ 0 }
{
    let mut bytes = cell_of(store, cell)?;
    bytes[20] ^= 1;
    store.write(cell, &bytes)
}
