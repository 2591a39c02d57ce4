//! The planner as it was before the crash.

ghost use Rattle.std.specs.Prelude.{◌≡◌, ◌≤◌, [], IfErr, IfOk, OnOk};
ghost use Rattle.ob_base.specs.Planned.{most_jobs};
ghost use Rattle.ob_tables.specs.Content.{content_of};
ghost use Rattle.ob_store.specs.Images.{Same, Passes};
ghost use Rattle.ob_store.specs.Calls.{Serves, IsStoreFault, Keeps};
ghost use Rattle.ob_stand.specs.Table.{flat_of};
ghost use Rattle.ob_log.specs.Logs.{RecordsFit};
ghost use Rattle.ob_ring.specs.Ring.{StandsFor};
ghost use Rattle.ob_stand.specs.Stands.{RingStanding, Stands};
ghost use Rattle.ob_recover.specs.Finds.{KeepsWhatStood, ObeysFound};
ghost use Rattle.ob_recover.specs.Fits.{IsPlannerFit};
ghost use Rattle.ob_recover.specs.Repeats.{HasRepeated, IsReplayed, IsReplayOf, IsRepeatFault, RepeatDoes, RepeatsAnswer, ReplaysStanding, content_of_ring};

use crate::found::Found;
use crate::repeating::repeat_batch;
use ob_base::{Fault, Jobs, Params};
use ob_cells::Crew;
use ob_lanes::Lanes;
use ob_log::Record;
use ob_ring::Ring;
use ob_seal::Sealer;
use ob_store::Watch;
use std::thread::Threads;

// Repeats the batch of each record, in order.
fn repeat_all<S: Lanes, R: Threads + Sync, W: Watch>(
    rt: &R,
    store: &mut S,
    crew: &mut Crew<S::Lane>,
    sealer: &Sealer,
    jobs: &mut Jobs,
    ring: &mut Ring,
    records: &[Record],
    watch: &mut W,
) -> Result<(), Fault>
    requires fits { RecordsFit ring.old.p records.now }
    requires stands { StandsFor ring.old (flat_of ring.old.p (content_of_ring ring.old)) }
    requires unlisted { ring.old.metas.order ≡ [] }
    requires jobs { (jobs.old.room ≡ most_jobs ring.old.p)
        × (jobs.old.place_room ≡ ring.old.p.places) }
    requires crew { most_jobs ring.old.p ≤ crew.old.jobs }
    ensures serves { Serves IsStoreFault (S.disk store.old) (S.disk store.new) result }
    ensures faults { IfErr result IsRepeatFault }
    ensures keeps { Keeps (S.disk store.old) (S.disk store.new) }
    ensures passes { Passes Same (S.disk store.old) (S.disk store.new) }
    ensures crew { crew.new ≡ crew.old }
    ensures rooms { (jobs.new.room ≡ jobs.old.room) × (jobs.new.place_room ≡ jobs.old.place_room) }
    ensures repeated { OnOk result (HasRepeated ring.old records.now ring.new) }
    ensures fit { IsPlannerFit ring.old → OnOk result (IsPlannerFit ring.new) }
    ensures value { (S.disk store.old).tells
        → RepeatsAnswer sealer.now.keys ring.old (S.disk store.old).cells records.now
        ring.new.stash.rows result }
    ensures does { RepeatDoes crew.old.lanes ring.old.p (content_of_ring ring.old) records.now
        (S.disk store.old).seen (S.disk store.new).seen (W.trace watch.old) (W.trace watch.new)
        result }
{
    for i in 0..records.len() {
        match repeat_batch(rt, store, crew, sealer, jobs, ring, &records[i], watch) {
            Ok(()) => {}
            Err(fault) => return Err(fault),
        }
    }
    Ok(())
}

/// The planner as it was when the last run stopped: of the tables found, with each recorded batch
/// planned again with the record's own words under their ids, read, shown and settled, in order.
/// The log isn't written. It takes no memory. Beside the ring stands how many batches of the epoch
/// are left.
///
/// # Errors
/// The store failed, and its count of faults rose; or what is damaged first: in the order of the
/// batches, the first job that fails, in its cell's tag, then in its seal; or, where none does, the
/// first row that holds another key, or a length above 64.
pub fn replay<S: Lanes, R: Threads + Sync, W: Watch>(
    rt: &R,
    store: &mut S,
    crew: &mut Crew<S::Lane>,
    sealer: &Sealer,
    p: &Params,
    jobs: &mut Jobs,
    found: Found,
    watch: &mut W,
) -> Result<(Ring, u32), Fault>
    requires found { ObeysFound p.now found }
    requires jobs { (jobs.old.room ≡ most_jobs p.now) × (jobs.old.place_room ≡ p.now.places) }
    requires crew { most_jobs p.now ≤ crew.old.jobs }
    ensures serves { Serves IsStoreFault (S.disk store.old) (S.disk store.new) result }
    ensures value { (S.disk store.old).tells
        → IsReplayOf sealer.now.keys p.now (S.disk store.old).cells found result }
    ensures faults { IfErr result IsRepeatFault }
    ensures replayed { IfOk result (λ r. IsReplayed p.now found r.0 r.1) }
    // Whatever the store tells, the planner's numbers are in range, and it carries some map.
    ensures fit { IfOk result (λ r. IsPlannerFit r.0) }
    // Where the store stands for what was found, at whatever generation, the planner has its map,
    // and nothing is damaged.
    ensures stands { (s : RingStanding) → (S.disk store.old).tells
        → Stands sealer.now.keys p.now s (S.disk store.old).cells → KeepsWhatStood s found
        → ReplaysStanding sealer.now.keys p.now (S.disk store.old).cells s result }
    ensures keeps { Keeps (S.disk store.old) (S.disk store.new) }
    ensures passes { Passes Same (S.disk store.old) (S.disk store.new) }
    ensures does { RepeatDoes crew.old.lanes p.now (content_of found.tables) found.records
        (S.disk store.old).seen (S.disk store.new).seen (W.trace watch.old) (W.trace watch.new)
        result }
    ensures rooms { (jobs.new.room ≡ jobs.old.room) × (jobs.new.place_room ≡ jobs.old.place_room) }
    ensures crew { crew.new ≡ crew.old }
{
    let Found {
        tables,
        records,
        ..
    } = found;
    let mut ring = Ring::of_tables(p, tables);
    let logged = records.as_slice();
    match repeat_all(rt, store, crew, sealer, jobs, &mut ring, logged, watch) {
        Ok(()) => Ok((ring, p.batches - logged.len() as u32)),
        Err(fault) => Err(fault),
    }
}
