//! The end of an epoch.

ghost use Rattle.std.specs.Prelude.{◌≡◌, ◌<◌, ◌≤◌, ◌+◌, ℕ, List, Some, suc, length, replicate, IfErr, OnOk};
ghost use Rattle.ob_base.specs.Tree.{buckets};
ghost use Rattle.ob_tables.specs.Buckets.{Buckets};
ghost use Rattle.ob_cells.specs.Writes.{Seals};
ghost use Rattle.ob_end.specs.EndWrites.{end_write_notes};
ghost use Rattle.ob_tables.specs.Content.{Content};
ghost use Rattle.ob_end.specs.Lifts.{lift_cells, lift_notes};
ghost use Rattle.ob_fetch.specs.Fetches.{MayGoOn, RunIsAt, words_since};
ghost use Rattle.ob_log.specs.Logs.{BatchRecord};
ghost use Rattle.ob_pads.specs.Lives.{Answers};
ghost use Rattle.ob_pads.specs.Seals.{CellsAreSealed, answer_of_end};
ghost use Rattle.ob_ring.specs.FlatTable.{FlatTable};
ghost use Rattle.ob_ring.specs.Picked.{SameSeals};
ghost use Rattle.ob_ring.specs.Ring.{StandsFor};
ghost use Rattle.ob_ring.specs.Writing.{write_at};
ghost use Rattle.ob_recover.specs.Ends.{gates_ended};
ghost use Rattle.ob_recover.specs.Known.{PlansFrom, fills_with_lifts, public_of_kept};
ghost use Rattle.ob_schedule.specs.Phases.{end_phases};
ghost use Rattle.ob_schedule.specs.Schedule.{end_lifts, end_notes};
ghost use Rattle.ob_serial.specs.VaultViews.{IsEndFault, IsStoreEnd};
ghost use Rattle.ob_stand.specs.Stands.{RingStanding};
ghost use Rattle.ob_store.specs.Calls.{Serves};
ghost use Rattle.ob_store.specs.Images.{IsSynced, Passes};
ghost use Rattle.ob_store.specs.Lines.{Shows};
ghost use Rattle.ob_store.specs.declared.watch.Note.{Note};
ghost use Rattle.ob_twin.specs.Opening.{GatesAre, is_closed_first};
ghost use Rattle.ob_twin.specs.Register.{place_of};
ghost use Rattle.ob_end.specs.Closings.{SameGeneration};
ghost use Rattle.ob_end.specs.EndRuns.{EndAnswered, EndRunCounts, EndDoes, EndDraws, EndStands, EndTables, IfEnded, IsEndReady, LeadsOn, end_err_of, end_writes, seals_for_end};
ghost use Rattle.ob_end.specs.Moments.{EndMoments};
ghost use Rattle.ob_end.specs.Shown.{EndShows};
ghost use Rattle.ob_end.specs.Stops.{EndStops};

use crate::closing::close_epoch;
use crate::making::make_end;
use ob_base::Write;
use ob_cells::{Bench, Crew};
use ob_fetch::Run;
use ob_lanes::Lanes;
use ob_ring::Index;
use ob_seal::Tape;
use ob_serial::EndErr;
use ob_store::Watch;
use ob_twin::SetErr;
use std::thread::Threads;

fn end_err(refused: SetErr) -> EndErr
    ensures { result ≡ end_err_of refused }
{
    match refused {
        SetErr::Before(fault) => EndErr::Before(fault),
        SetErr::Unsure(fault) => EndErr::Unsure(fault),
    }
}

/// Ends the epoch that runs: reads the final lifts, makes the epoch's writes, of which the i-th
/// takes the i-th word drawn, fills the lifted buckets anew, writes them where they then lie,
/// writes the checkpoint and closed gates for the log of the epoch behind, and sets the epoch's
/// register. All batches are left then. All counts of `index` are 0, before and behind. It takes no
/// memory.
///
/// While it runs a crash leaves the epoch that stood; from the write on that opens the register's
/// gate it leaves that or the one that ends, and once it is done the one that ends.
///
/// # Errors
/// Before anything is written: Worn with `2^62` where there is no such epoch; then a store that
/// failed, and its count of faults rose, or what is damaged first of the lifts; then Worn with
/// `2^62` where fewer words are left below that than the writes and the lifted buckets take;
/// then `StashFull` exactly where more rows would be left in the stash than it may keep; then Worn
/// with `2^62` where fewer seals are left than are made. Behind that the store alone: Before it
/// wrote the gate, or Unsure. After any of them the run is spent.
pub fn end<S: Lanes, R: Threads + Sync, T: Tape, W: Watch>(
    rt: &R,
    store: &mut S,
    tape: &mut T,
    crew: &mut Crew<S::Lane>,
    run: &mut Run,
    index: &mut Index,
    bench: &mut Bench,
    writes: &[Write],
    watch: &mut W,
) -> Result<(), EndErr>
    requires index { index.old ≡ replicate (buckets run.old.params) 0 }
    requires goes_on { MayGoOn (S.disk store.old) (T.present tape.old) (T.drawn tape.old) crew.old
        run.old }
    requires ready { IsEndReady run.old }
    requires none_left { run.old.left ≡ 0 }
    requires told { (S.disk store.old).tells
        → GatesAre run.old.gates.epoch 5 (S.disk store.old).cells }
    requires few { length writes.now ≤ run.old.params.writes }
    requires keys { (i : ℕ) → i < length writes.now
        → (write_at writes.now i).key < run.old.params.keys }
    requires short { (i : ℕ) (value : List ℕ) → i < length writes.now
        → (write_at writes.now i).value ≡ Some value → length value ≤ 64 }
    ensures serves { Serves IsStoreEnd (S.disk store.old) (S.disk store.new) result }
    ensures faults { IfErr result (IsEndFault (run.old.epoch + 1)) }
    // Exactly when each answer comes; of damage what comes first of the lifts.
    ensures answered { EndAnswered run.old (S.disk store.old) (S.disk store.new)
        (end_writes run.old.params writes.now (words_since (T.drawn tape.old) (T.drawn tape.new))
        run.old.sealer.generation run.old.drawn) result }
    ensures draws { (t : FlatTable) → StandsFor run.old.ring t
        → EndDraws run.old.params t run.old.epoch run.old.drawn (T.drawn tape.old)
        (T.drawn tape.new) result }
    ensures generation { T.present tape.new ≡ T.present tape.old }
    ensures drawn { run.new.drawn ≡ length (T.drawn tape.new) }
    ensures params { run.new.params ≡ run.old.params }
    ensures counts { EndRunCounts run.old run.new result }
    ensures goes_on { OnOk result (MayGoOn (S.disk store.new) (T.present tape.new)
        (T.drawn tape.new) crew.new run.new) }
    ensures ready { OnOk result (IsEndReady run.new) }
    ensures crew { crew.new ≡ crew.old }
    ensures index { index.new ≡ index.old }
    ensures seals { (t : FlatTable) → StandsFor run.old.ring t
        → Seals (seals_for_end run.old.params t) run.old.sealer run.new.sealer result }
    ensures told { (S.disk store.old).tells
        → OnOk result (GatesAre run.new.gates.epoch 5 (S.disk store.new).cells) }
    ensures durable { (S.disk store.old).tells → OnOk result (IsSynced (S.disk store.new)) }
    // Each cell that has changed behind the registers is a gate, or is sealed with a number of its
    // own, taken meanwhile.
    ensures sealed { (S.disk store.old).tells → IfEnded (CellsAreSealed run.old.sealer
        run.new.sealer (S.disk store.old).cells (S.disk store.new).cells) result }
    // It is an act of the store's life.
    ensures act { (S.disk store.new).tells
        → Answers (S.disk store.old) (S.disk store.new) run.old.sealer run.new.sealer
        (answer_of_end result) }
    // Neither the head nor the register of generations is written.
    ensures moments { Passes SameGeneration (S.disk store.old) (S.disk store.new) }
    // Once all was written: a put's key has its own place's word, and the lifted buckets have the
    // words behind those.
    ensures tables { EndTables run.old run.new (end_writes run.old.params writes.now
        (words_since (T.drawn tape.old) (T.drawn tape.new)) run.old.sealer.generation run.old.drawn)
        (words_since (T.drawn tape.old) (T.drawn tape.new)) result }
    // The lifts of the table, the buckets as these lie then, the checkpoint, the gates, and the
    // register.
    ensures does { (start : Buckets) (t : FlatTable) → SameSeals start run.old.ring.metas
        → StandsFor run.old.ring t
        → EndDoes crew.old.lanes (lift_cells run.old.params start.versions t)
        (lift_notes run.old.params start.versions t)
        (end_write_notes run.new.ring (suc run.old.epoch))
        (is_closed_first run.old.gates.epoch (place_of (suc run.old.epoch))) (suc run.old.epoch)
        (S.disk store.old).seen (S.disk store.new).seen (W.trace watch.old) (W.trace watch.new)
        result }
    ensures gates { OnOk result (run.new.gates ≡ gates_ended run.old.gates run.old.epoch) }
    // It shows the schedule's end of what the store knows of the epoch, whose lifts are dealt to
    // the crew's lanes, and refused what its answer says of it: up to the gate's write, or what
    // comes before that, or the lifts alone; and by how many of these notes weren't shown it leaves
    // the register's gates.
    ensures scheduled { (notes : List Note) × Shows notes (W.trace watch.old) (W.trace watch.new)
        × ((c : Content) (rs : List BatchRecord)
        → PlansFrom run.old.params run.old.sealer.generation run.old.gates run.old.ring c rs
        → EndShows crew.old.lanes (end_lifts run.old.params
        (public_of_kept run.old.params c rs run.old.epoch run.old.gates)
        (fills_with_lifts run.old.params c rs)) (end_phases run.old.params
        (public_of_kept run.old.params c rs run.old.epoch run.old.gates)
        (fills_with_lifts run.old.params c rs)) (end_notes run.old.params
        (public_of_kept run.old.params c rs run.old.epoch run.old.gates)
        (fills_with_lifts run.old.params c rs)) notes (S.disk store.old).seen
        (S.disk store.new).seen result
        × EndStops run.old.sealer.keys run.old.gates run.old.epoch (S.disk store.old)
        (S.disk store.new) (end_notes run.old.params
        (public_of_kept run.old.params c rs run.old.epoch run.old.gates)
        (fills_with_lifts run.old.params c rs)) notes result) }
    // Behind it the store knows of the next epoch what the schedule's end leaves.
    ensures onward { (c : Content) (rs : List BatchRecord)
        → PlansFrom run.old.params run.old.sealer.generation run.old.gates run.old.ring c rs
        → OnOk result (LeadsOn run.old.params run.old.sealer.generation c rs run.old.epoch
        run.old.gates run.new.ring run.new.gates) }
    // Where the store stood, it stands for the next epoch, with the writes.
    ensures stands { (s : RingStanding) → RunIsAt run.old s (S.disk store.old)
        → EndStands s (end_writes run.old.params writes.now (words_since (T.drawn tape.old)
        (T.drawn tape.new)) run.old.sealer.generation run.old.drawn) (S.disk store.new) run.new
        result }
    // A crash at any moment of it leaves what stood, or that or what then stands: the first until
    // the register is set, behind the lifts and all that is written beside it; and it leaves the
    // register's gates by how many notes lack then.
    ensures images { (s : RingStanding) → RunIsAt run.old s (S.disk store.old)
        → EndMoments S.disk crew.old.lanes s (end_writes run.old.params writes.now
        (words_since (T.drawn tape.old) (T.drawn tape.new)) run.old.sealer.generation
        run.old.drawn) run.old run.new store.old store.new result }
{
    run.spent = true;
    match make_end(rt, store, tape, crew, run, index, writes, watch) {
        Ok(()) => {}
        Err(fault) => return Err(EndErr::Before(fault)),
    }
    let epoch = run.epoch + 1;
    match close_epoch(
        rt,
        store,
        &mut run.sealer,
        &mut run.gates,
        &run.params,
        epoch,
        &mut run.ring,
        &mut run.sheet,
        bench,
        watch,
    ) {
        Ok(()) => {}
        Err(refused) => return Err(end_err(refused)),
    }
    run.epoch = epoch;
    run.left = run.params.batches;
    run.spent = false;
    Ok(())
}
