//! Writing a checkpoint.

ghost use Rattle.std.specs.Prelude.{◌≡◌, ◌<◌, ◌≤◌, ◌+◌, ◌*◌, ◌^◌, length, OnOk};
ghost use Rattle.ob_base.specs.Layout.{checkpoint_cells};
ghost use Rattle.ob_store.specs.Images.{SameOff, Passes};
ghost use Rattle.ob_store.specs.Calls.{Serves, IsStoreFault};
ghost use Rattle.ob_store.specs.Runs.{write_notes};
ghost use Rattle.ob_store.specs.Told.{Does};
ghost use Rattle.ob_cells.specs.Runs.{IsFurther};
ghost use Rattle.ob_tables.specs.Content.{Obeys, content_of};
ghost use Rattle.ob_check.specs.Written.{AreWriteFaults, HoldsCheckpointFrom, IsWornFor, area_of};

use crate::sheet::Sheet;
use ob_base::{Failed, Fault, NUMBER_LIMIT, Params, check_cell, checkpoint_cells, checkpoint_len};
use ob_cells::{Bench, CellRun, Cut, write_long};
use ob_seal::Sealer;
use ob_store::{Store, Watch};
use ob_tables::{Metas, Tables};
use std::thread::Threads;

/// The first cell of the area of an epoch.
pub fn area_of(p: &Params, epoch: u64) -> u64
    ensures cell { result ≡ area_of p.now epoch }
    ensures few { result + checkpoint_cells p.now < 2 ^ 64 }
    ensures low { result < 2 ^ 24 }
{
    check_cell(p, (epoch % 2) as u8, 0)
}

/// Writes the checkpoint of the tables at an epoch's end into the area of that epoch, under the
/// next seals, and makes not sure of it. A crash at any moment of it changes no other cell. Each
/// write is shown, whatever it answered. The sheet is written over. It takes no memory.
///
/// # Errors
/// Worn exactly where fewer seal numbers are left below `2^62` than a checkpoint has cells: nothing
/// was done. The store failed, and its count of faults rose: some of the first cells were sealed.
pub fn write<R: Threads + Sync, S: Store, W: Watch>(
    rt: &R,
    store: &mut S,
    sealer: &mut Sealer,
    p: &Params,
    epoch: u64,
    tables: &Tables<Metas>,
    sheet: &mut Sheet,
    bench: &mut Bench,
    watch: &mut W,
) -> Result<(), Fault>
    requires none_out { (S.disk store.old).out ≡ 0 }
    requires obeys { Obeys p.now (content_of tables.now) }
    requires epoch { epoch < 2 ^ 62 }
    requires sheet { length sheet.old ≡ 96 * checkpoint_cells p.now }
    ensures serves { Serves IsStoreFault (S.disk store.old) (S.disk store.new) result }
    ensures written { (S.disk store.old).tells
        → OnOk result (HoldsCheckpointFrom sealer.old.keys p.now epoch (content_of tables.now)
        sealer.old.generation sealer.old.next (S.disk store.new).cells) }
    ensures sealed { OnOk result (sealer.new
        ≡ record sealer.old { next = sealer.old.next + checkpoint_cells p.now }) }
    ensures some_sealed { IsFurther (checkpoint_cells p.now) sealer.old sealer.new }
    ensures faults { AreWriteFaults p.now sealer.old.next result }
    ensures after_worn { IsWornFor p.now sealer.old.next → (store.new ≡ store.old)
        × (sealer.new ≡ sealer.old) × (watch.new ≡ watch.old) }
    ensures rest { (S.disk store.old).tells
        → SameOff (area_of p.now epoch) (checkpoint_cells p.now) (S.disk store.new).cells
        (S.disk store.old).cells }
    ensures passes { Passes (SameOff (area_of p.now epoch) (checkpoint_cells p.now))
        (S.disk store.old) (S.disk store.new) }
    ensures does { Does (write_notes (area_of p.now epoch) (checkpoint_cells p.now))
        (S.disk store.old).seen (S.disk store.new).seen (W.trace watch.old) (W.trace watch.new)
        result }
    ensures sheet { length sheet.new ≡ length sheet.old }
{
    let many = checkpoint_cells(p);
    let (_, next) = sealer.next();
    if next + many > NUMBER_LIMIT {
        return Err(Fault::Worn {
            number: NUMBER_LIMIT,
        });
    }
    sheet.spell(p, epoch, tables);
    let pieces = Cut {
        bytes: &sheet.bytes()[..checkpoint_len(p) as usize],
    };
    let run = CellRun {
        base: area_of(p, epoch),
        many,
        pieces: &pieces,
    };
    match write_long(rt, store, sealer, bench, &run, watch) {
        Ok(()) => Ok(()),
        Err(Failed) => Err(Fault::StoreFault { unsure: None }),
    }
}
