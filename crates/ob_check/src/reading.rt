//! Reading a checkpoint.

ghost use Rattle.std.specs.Prelude.{◌≡◌, ◌*◌, length, Err, IfErr, IfOk, replicate, false};
ghost use Rattle.ob_base.specs.declared.fault.Fault.TheVariants as fault;
ghost use Rattle.ob_base.specs.Layout.{checkpoint_cells};
ghost use Rattle.ob_tables.specs.Buckets.{Buckets};
ghost use Rattle.ob_cells.specs.Orders.{run_reads, reads_of};
ghost use Rattle.ob_tables.specs.Content.{Obeys, content_of};
ghost use Rattle.ob_store.specs.Calls.{IsStoreFault, Keeps, Serves};
ghost use Rattle.ob_store.specs.Images.{Passes, Same};
ghost use Rattle.ob_store.specs.Told.{Does};
ghost use Rattle.ob_tables.specs.declared.tables.Tables.{Tables};
ghost use Rattle.ob_check.specs.Fresh.{AreFresh, AreIdle};
ghost use Rattle.ob_check.specs.ReadBack.{IsCheckFault, IsCheckRead, IsContentRead, IsCheckReadFault, IsReadFrom};
ghost use Rattle.ob_check.specs.Written.{area_of};

use crate::accepting::accept;
use crate::sheet::Sheet;
use crate::writing::area_of;
use ob_base::{Fault, Memory, Params, checkpoint_len};
use ob_cells::read_sealed;
use ob_seal::Sealer;
use ob_store::{Store, Watch};
use ob_tables::{Book, Metas, Stash, Tables};
use std::alloc::{AllocError, Global};

// Tables in which nothing is kept, with room for all keys in the stash.
fn fresh_tables(alloc: Global, p: &Params) -> Result<Tables<Metas>, Memory>
    ensures { IfOk result (λ t. AreFresh p.now t) }
{
    Ok(Tables {
        book: Book::new(alloc, p.keys)?,
        metas: Metas::new(alloc, p)?,
        stash: Stash::new(alloc, p.keys as usize)?,
        counter: 0,
    })
}

// Marks of all keys, none of them set.
fn no_marks(alloc: Global, p: &Params) -> Result<Vec<bool>, AllocError>
    ensures { IfOk result (λ v. v.items ≡ replicate p.now.keys false) }
{
    Ok(vec![in alloc; false; p.keys as usize]?)
}

// Reads the cells of an epoch's area into the sheet, and what they tell into fresh tables.
fn read_into<S: Store, W: Watch>(
    store: &mut S,
    sealer: &Sealer,
    p: &Params,
    epoch: u64,
    sheet: &mut Sheet,
    tables: Tables<Metas>,
    placed: &mut [bool],
    watch: &mut W,
) -> Result<Tables<Metas>, Fault>
    requires sheet { length sheet.old ≡ 96 * checkpoint_cells p.now }
    requires fresh { AreFresh p.now tables }
    requires placed { placed.old ≡ replicate p.now.keys false }
    ensures serves { Serves IsStoreFault (S.disk store.old) (S.disk store.new) result }
    ensures value { (S.disk store.old).tells
        → IsCheckRead sealer.now.keys p.now epoch (S.disk store.old).cells result }
    ensures faults { IfErr result (IsCheckReadFault p.now epoch) }
    ensures obeys { IfOk result (λ t. Obeys p.now (content_of t) × AreIdle p.now t) }
    ensures keeps { Keeps (S.disk store.old) (S.disk store.new) }
    ensures passes { Passes Same (S.disk store.old) (S.disk store.new) }
    ensures does { Does (run_reads (area_of p.now epoch) (checkpoint_cells p.now) result)
        (S.disk store.old).seen (S.disk store.new).seen (W.trace watch.old) (W.trace watch.new)
        (reads_of result) }
    ensures sheet { length sheet.new ≡ length sheet.old }
{
    let base = area_of(p, epoch);
    match sheet.read(store, sealer, base, watch) {
        Ok(_) => {}
        Err(fault) => return Err(fault),
    }
    let bytes = &sheet.bytes()[..checkpoint_len(p) as usize];
    match accept(p, base, epoch, bytes, tables, placed) {
        Ok(tables) => Ok(tables),
        Err(damaged) => Err(Fault::from(damaged)),
    }
}

/// Reads the checkpoint of an epoch from its area: the cells from the first on, up to the first
/// that is refused or damaged; then the epoch; then the rules of the numbers, in the order of the
/// bytes. What stands in an absent key's other numbers, behind a value and behind the stash's rows
/// isn't looked at. Each read is shown, whatever it answered. The sheet is written over.
///
/// # Errors
/// Memory was wanting: nothing was read. The store failed, and its count of faults rose. A cell is
/// damaged: in its tag (check Tag, with both tags), then, from the second cell on, in its seal
/// (check Seal, with both identities); then the epoch is another one (check Epoch, at the first
/// cell, with both epochs); then the first number that breaks its rule (check Form, at the cell of
/// its first byte, with the number and the least one that the rule allows there).
pub fn read<S: Store, W: Watch>(
    alloc: Global,
    store: &mut S,
    sealer: &Sealer,
    p: &Params,
    epoch: u64,
    sheet: &mut Sheet,
    watch: &mut W,
) -> Result<Tables<Metas>, Fault>
    requires sheet { length sheet.old ≡ 96 * checkpoint_cells p.now }
    ensures serves { Serves IsStoreFault (S.disk store.old) (S.disk store.new) result }
    ensures value { (S.disk store.old).tells
        → IsCheckRead sealer.now.keys p.now epoch (S.disk store.old).cells result }
    ensures faults { IfErr result (IsCheckFault p.now epoch) }
    ensures accepted { (t : Tables Buckets) → (S.disk store.old).tells
        → IsReadFrom sealer.now.keys p.now epoch (S.disk store.old).cells t
        → IsContentRead (content_of t) result }
    ensures memory { result ≡ Err fault.Memory → (store.new ≡ store.old) × (watch.new ≡ watch.old) }
    ensures obeys { IfOk result (λ t. Obeys p.now (content_of t) × AreIdle p.now t) }
    ensures keeps { Keeps (S.disk store.old) (S.disk store.new) }
    ensures passes { Passes Same (S.disk store.old) (S.disk store.new) }
    ensures does { Does (run_reads (area_of p.now epoch) (checkpoint_cells p.now) result)
        (S.disk store.old).seen (S.disk store.new).seen (W.trace watch.old) (W.trace watch.new)
        (reads_of result) }
    ensures sheet { length sheet.new ≡ length sheet.old }
{
    let tables = match fresh_tables(alloc, p) {
        Ok(tables) => tables,
        Err(Memory) => return Err(Fault::Memory),
    };
    let mut placed = match no_marks(alloc, p) {
        Ok(placed) => placed,
        Err(_) => return Err(Fault::Memory),
    };
    read_into(
        store,
        sealer,
        p,
        epoch,
        sheet,
        tables,
        placed.as_mut_slice(),
        watch,
    )
}
