//! Making an empty ring store.

ghost use Rattle.std.specs.Prelude.{◌≡◌, ◌⊎◌, ◌<◌, ◌≤◌, ◌*◌, ℕ, [], length, OnOk, OnErr, IfOk, IfErr, Err};
ghost use Rattle.ob_base.specs.declared.fault.Fault.TheVariants as fault;
ghost use Rattle.ob_base.specs.Layout.{check_cell, checkpoint_cells};
ghost use Rattle.ob_base.specs.Tree.{buckets, width};
ghost use Rattle.ob_store.specs.Disk.{Image};
ghost use Rattle.ob_store.specs.Images.{IsSynced, Passes, LeavesOnly};
ghost use Rattle.ob_store.specs.Calls.{Serves, IsFailed, IsStoreFault};
ghost use Rattle.ob_store.specs.Told.{Does};
ghost use Rattle.ob_check.specs.Written as check;
ghost use Rattle.ob_pads.specs.Lives.{IsFormattedStore};
ghost use Rattle.ob_tables.specs.Content.{Obeys, content_of};
ghost use Rattle.ob_schedule.specs.Schedule.{format_notes};
ghost use Rattle.ob_recover.specs.Life.{WordId, formatted_life};
ghost use Rattle.ob_stand.specs.Fresh.{fresh_content};
ghost use Rattle.ob_recover.specs.Known.{format_gates};
ghost use Rattle.ob_opening.specs.OpeningActs.{AreGatesIn, AreSlotsIn, StandsInLife};
ghost use Rattle.ob_start.specs.Laying.{IsOpenAlone, SameHead};
ghost use Rattle.ob_stand.specs.Stands.{Stands};
ghost use Rattle.ob_twin.specs.Clear.{InClearBy};
ghost use Rattle.ob_twin.specs.Keyed.{tagging};
ghost use Rattle.ob_twin.specs.Reading.{NoneOpen};
ghost use Rattle.ob_twin.specs.Register.{StandsAt};
ghost use Rattle.ob_opening.specs.Formats.{BeginsFirst, IsBlankTables, HasBlankSlots, HasClosedLogs, IsRingLaid, FormatBegins, FormatsInClear, RingFormatLeaves, IsFormatFault, all_gates, drawn_ranks, epoch_notes, format_words, formatted_standing};

use crate::drawing::fill_all;
use crate::gates::log_gates;
use ob_base::{Failed, Fault, Memory, Params, buckets, set_u32, slot_cell};
use ob_cells::{Bench, CellRun, Pieces, write_long};
use ob_check::Sheet;
use ob_recover::VERSION;
use ob_seal::{Keys, Sealer, Tape};
use ob_start::{head_cell, lay_registers, set_first};
use ob_store::{Store, Watch, sync_noted};
use ob_tables::{Book, Metas, Stash, Tables};
use ob_twin::{Twin, write_out};
use std::alloc::Global;
use std::thread::Threads;

// How many threads seal a new store's cells at most.
const THREADS: usize = 4;

// The number that spells that a slot has no key.
const EMPTY: u32 = 0xFFFF_FFFF;

// The plain bytes of slots that hold no row.
struct Blank;

impl Pieces for Blank {
    ghost use Rattle.ob_tables.specs.Version.{EMPTY};
    ghost use Rattle.ob_tables.specs.Spelling.{slot_bytes};

    ghost plain = { λ _ i. slot_bytes EMPTY [] };

    fn piece(&self, _i: u64) -> [u8; 96] {
        let mut plain = [0; 96];
        set_u32(&mut plain, 0, EMPTY);
        plain
    }
}

// Tables in which no key is present, over buckets of which no version was written.
fn blank_tables(alloc: Global, p: &Params) -> Result<Tables<Metas>, Memory>
    ensures { IfOk result (IsBlankTables p.now) }
{
    let book = Book::new(alloc, p.keys)?;
    let stash = Stash::new(alloc, p.keys as usize)?;
    Ok(Tables {
        book,
        metas: Metas::new(alloc, p)?,
        stash,
        counter: 0,
    })
}

// All that a format works in.
struct FormatRoom {
    gates: Vec<u64>,
    sheet: Sheet,
    tables: Tables<Metas>,
    bench: Bench,
}

// The gates of a new store's logs, tables without a key, with room for their checkpoint, and where
// cells are sealed.
fn room_for(alloc: Global, p: &Params) -> Result<FormatRoom, Memory>
    ensures { IfOk result (λ room. (room.gates.items ≡ all_gates p.now)
        × (length room.sheet ≡ 96 * checkpoint_cells p.now) × IsBlankTables p.now room.tables) }
{
    let bench = Bench::new(alloc, THREADS)?;
    let gates = match log_gates(alloc, p) {
        Ok(gates) => gates,
        Err(_) => return Err(Memory),
    };
    let sheet = Sheet::new(alloc, p)?;
    Ok(FormatRoom {
        gates,
        sheet,
        tables: blank_tables(alloc, p)?,
        bench,
    })
}

// Writes every slot of home 0 without a row, and the checkpoint of epoch 0; makes sure of them, and
// sets the epoch's register to 0.
fn lay_epoch<R: Threads + Sync, S: Store, W: Watch>(
    rt: &R,
    store: &mut S,
    sealer: &mut Sealer,
    p: &Params,
    tables: &Tables<Metas>,
    sheet: &mut Sheet,
    bench: &mut Bench,
    watch: &mut W,
) -> Result<(), Failed>
    requires none_out { (S.disk store.old).out ≡ 0 }
    requires first { sealer.old.next ≡ 0 }
    requires obeys { Obeys p.now (content_of tables.now) }
    requires sheet { length sheet.old ≡ 96 * checkpoint_cells p.now }
    requires closed { (S.disk store.old).tells → NoneOpen 5 (S.disk store.old).cells }
    ensures serves { Serves IsFailed (S.disk store.old) (S.disk store.new) result }
    ensures epoch { (S.disk store.old).tells
        → OnOk result (StandsAt (tagging sealer.old.keys) 5 (S.disk store.new).cells 0) }
    ensures gates { (S.disk store.old).tells
        → OnOk result (IsOpenAlone 5 0 (S.disk store.new).cells) }
    ensures slots { (S.disk store.old).tells
        → OnOk result (HasBlankSlots sealer.old.keys p.now sealer.old.generation
        (S.disk store.new).cells) }
    ensures checkpoint { (S.disk store.old).tells
        → OnOk result (check.HoldsCheckpointFrom sealer.old.keys p.now 0 (content_of tables.now)
        sealer.old.generation (buckets p.now * width p.now) (S.disk store.new).cells) }
    ensures clear { (S.disk store.new).tells → InClearBy (tagging sealer.old.keys)
        (S.disk store.new).seen (S.disk store.old).cells (S.disk store.new).cells result }
    ensures same_keys { sealer.new.keys ≡ sealer.old.keys }
    ensures low { (S.disk store.old).tells → (k : ℕ) → k < 5 → (S.disk store.new).cells k
        ≡ (S.disk store.old).cells k }
    ensures log { (S.disk store.old).tells → (k : ℕ) → 9 ≤ k → k < check_cell p.now 0 0
        → (S.disk store.new).cells k ≡ (S.disk store.old).cells k }
    ensures passes { Passes SameHead (S.disk store.old) (S.disk store.new) }
    ensures durable { (S.disk store.old).tells → OnOk result (IsSynced (S.disk store.new)) }
    ensures does { Does (epoch_notes p.now) (S.disk store.old).seen (S.disk store.new).seen
        (W.trace watch.old) (W.trace watch.new) result }
{
    let run = CellRun {
        base: slot_cell(p, 0, 0, 0),
        many: buckets(p) as u64 * (p.real + p.dummies) as u64,
        pieces: &Blank,
    };
    match write_long(rt, store, sealer, bench, &run, watch) {
        Ok(()) => {}
        Err(failed) => return Err(failed),
    }
    match ob_check::write(rt, store, sealer, p, 0, tables, sheet, bench, watch) {
        Ok(()) => {}
        Err(_) => return Err(Failed),
    }
    match sync_noted(store, watch) {
        Ok(()) => {}
        Err(failed) => return Err(failed),
    }
    set_first(Twin::EPOCH, store, sealer, 0, watch)
}

// The whole order.
fn lay<R: Threads + Sync, S: Store, T: Tape, W: Watch>(
    rt: &R,
    store: &mut S,
    tape: &mut T,
    sealer: &mut Sealer,
    p: &Params,
    gates: &[u64],
    tables: &mut Tables<Metas>,
    sheet: &mut Sheet,
    bench: &mut Bench,
    watch: &mut W,
) -> Result<(), Failed>
    requires none_out { (S.disk store.old).out ≡ 0 }
    requires unstarted { T.present tape.old ≡ 0 }
    requires generation { sealer.old.generation ≡ 1 }
    requires first { sealer.old.next ≡ 0 }
    requires gates { gates.now ≡ all_gates p.now }
    requires blank { IsBlankTables p.now tables.old }
    requires sheet { length sheet.old ≡ 96 * checkpoint_cells p.now }
    ensures serves { Serves IsFailed (S.disk store.old) (S.disk store.new) result }
    ensures drawn { OnOk result ((T.present tape.new ≡ 1) × (length (T.drawn tape.new)
        ≡ format_words p.now)) }
    ensures stands { (S.disk store.old).tells
        → OnOk result (Stands sealer.old.keys p.now (formatted_standing p.now (T.drawn tape.new))
        (S.disk store.new).cells) }
    ensures laid { (S.disk store.old).tells
        → OnOk result (IsRingLaid sealer.old.keys p.now (T.drawn tape.new)
        (S.disk store.new).cells) }
    ensures gates { (S.disk store.old).tells
        → OnOk result (AreGatesIn format_gates (S.disk store.new).cells) }
    ensures clear { (S.disk store.new).tells → FormatsInClear sealer.old.keys p.now
        (S.disk store.new).seen (S.disk store.old).cells (S.disk store.new).cells result }
    ensures durable { (S.disk store.old).tells → OnOk result (IsSynced (S.disk store.new)) }
    ensures crash { (S.disk store.old).tells
        → LeavesOnly (S.disk store.old) (S.disk store.new)
        (RingFormatLeaves sealer.old.keys p.now (T.drawn tape.new) (S.disk store.old)) }
    ensures begins { OnOk result (BeginsFirst S.disk sealer.old.keys p.now store.old store.new) }
    ensures begins_err { OnErr result ((tape.new ≡ tape.old)
        ⊎ BeginsFirst S.disk sealer.old.keys p.now store.old store.new) }
    ensures does { Does (format_notes p.now) (S.disk store.old).seen (S.disk store.new).seen
        (W.trace watch.old) (W.trace watch.new) result }
{
    match lay_registers(store, sealer, gates, watch) {
        Ok(()) => {}
        Err(failed) => return Err(failed),
    }
    tape.start(1);
    fill_all(tape, p, &mut tables.metas);
    match lay_epoch(rt, store, sealer, p, tables, sheet, bench, watch) {
        Ok(()) => {}
        Err(failed) => return Err(failed),
    }
    write_out(store, 0, &head_cell(sealer, VERSION, p), watch)
}

/// Makes a ring store of these parameters without a key, at epoch 0 and generation 1: no head, then
/// every gate closed, then the generation; from then on words are drawn for the buckets' slots, and
/// the slots and the checkpoint sealed; then the epoch, and the head last, each made sure of before
/// the next. The tape, which wasn't started, is at generation 1.
///
/// # Errors
/// Memory was wanting, and nothing was done; or the store failed, and its count of faults rose.
/// Then what it stands for is not told: format it again.
pub fn format<R: Threads + Sync, S: Store, T: Tape, W: Watch>(
    rt: &R,
    alloc: Global,
    store: &mut S,
    tape: &mut T,
    keys: &Keys,
    p: &Params,
    watch: &mut W,
) -> Result<(), Fault>
    requires none_out { (S.disk store.old).out ≡ 0 }
    requires unstarted { T.present tape.old ≡ 0 }
    ensures serves { Serves IsStoreFault (S.disk store.old) (S.disk store.new) result }
    ensures faults { IfErr result IsFormatFault }
    ensures memory { result ≡ Err fault.Memory → (store.new ≡ store.old) × (tape.new ≡ tape.old)
        × (watch.new ≡ watch.old) }
    // It draws a word for each index of each bucket, in generation 1, and no other.
    ensures drawn { OnOk result ((T.present tape.new ≡ 1) × (length (T.drawn tape.new)
        ≡ format_words p.now)) }
    // It stands for no key, with the ranks of these words, whatever crashes.
    ensures stands { (S.disk store.old).tells
        → OnOk result (Stands keys.now p.now (formatted_standing p.now (T.drawn tape.new))
        (S.disk store.new).cells) }
    ensures images { (S.disk store.old).tells → OnOk result ((c : Image)
        → (S.disk store.new).may_leave c
        → Stands keys.now p.now (formatted_standing p.now (T.drawn tape.new)) c) }
    // So each image stands for the life that begins.
    ensures life { (S.disk store.old).tells
        → OnOk result ((word_of : WordId → ℕ) (slot : ℕ → ℕ → ℕ) (c : Image)
        → AreSlotsIn p.now (fresh_content p.now (drawn_ranks p.now (T.drawn tape.new))) slot
        → (S.disk store.new).may_leave c
        → StandsInLife keys.now p.now word_of (formatted_life slot) c) }
    // A life over its pads begins, at generation 1.
    ensures act { (S.disk store.old).tells → (S.disk store.old).leaves
        → OnOk result (IsFormattedStore S.disk keys.now store.new) }
    ensures durable { (S.disk store.old).tells → OnOk result (IsSynced (S.disk store.new)) }
    // Its seals are the first ones of generation 1: the slots' in rising number, then the
    // checkpoint's.
    ensures laid { (S.disk store.old).tells
        → OnOk result (IsRingLaid keys.now p.now (T.drawn tape.new) (S.disk store.new).cells) }
    // In the clear it leaves the head and what registers write there, each byte of it.
    ensures clear { (S.disk store.new).tells → FormatsInClear keys.now p.now
        (S.disk store.new).seen (S.disk store.old).cells (S.disk store.new).cells result }
    // Of the registers' gates those of generation 1 and epoch 0 are open.
    ensures gates { (S.disk store.old).tells
        → OnOk result (AreGatesIn format_gates (S.disk store.new).cells) }
    // Each gate of both logs has the bytes of a closed one.
    ensures closed { (S.disk store.old).tells
        → OnOk result (HasClosedLogs p.now (S.disk store.new).cells) }
    // A crash at any moment leaves a torn head, no store, or all but the head.
    ensures crash { (S.disk store.old).tells
        → LeavesOnly (S.disk store.old) (S.disk store.new) (RingFormatLeaves keys.now p.now
        (T.drawn tape.new) (S.disk store.old)) }
    // Nothing is drawn or sealed before generation 1 is in every image.
    ensures durable_first { FormatBegins S.disk keys.now p.now store.old store.new tape.old
        tape.new result }
    ensures does { Does (format_notes p.now) (S.disk store.old).seen (S.disk store.new).seen
        (W.trace watch.old) (W.trace watch.new) result }
{
    let FormatRoom {
        gates,
        mut sheet,
        mut tables,
        mut bench,
    } = match room_for(alloc, p) {
        Ok(room) => room,
        Err(Memory) => return Err(Fault::Memory),
    };
    let mut sealer = Sealer::new(keys, 1);
    let gates = gates.as_slice();
    match lay(
        rt,
        store,
        tape,
        &mut sealer,
        p,
        gates,
        &mut tables,
        &mut sheet,
        &mut bench,
        watch,
    ) {
        Ok(()) => Ok(()),
        Err(Failed) => Err(Fault::StoreFault { unsure: None }),
    }
}
