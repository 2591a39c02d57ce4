//! Places that a hand claims together, and whose cells it reads one behind another before it opens
//! the first of them: while one cell is fetched from memory the next ones are, too.

ghost use Rattle.std.specs.Prelude.{◌≡◌, ◌≤◌, ◌<◌, ◌+◌, ℕ, [], ◌∷◌, take, length, vec_capacity};
ghost use Rattle.ob_base.specs.Planned.{job_at};
ghost use Rattle.ob_store.specs.declared.event.Event.TheVariants as event;
ghost use Rattle.ob_store.specs.Calls.{Notes};
ghost use Rattle.ob_claims.specs.ClaimCalls.{IsClaimSeat, HasCome};
ghost use Rattle.ob_lanes.specs.Hands.{reads_of};
ghost use Rattle.ob_lanes.specs.Windows.{AreCellsRead, AreOpened, HaveDrawn, IsCellRead, IsSlotOpened, claimed_at};

use crate::reading::open_cell;
use crate::{SealedJobs, Slot};
use ob_base::{Failed, Fault, Job};
use ob_claims::{ClaimSeat, Claims, Round};
use ob_store::Store;

/// The most places that a hand claims before it reads them.
pub(crate) const WINDOW: usize = 8;

// A hand claims one place for so many that are left: where few are, a cell that is read slowly
// holds up no other job.
const LEFT_A_PLACE: usize = 64;

/// The bytes of a cell, and how its read went.
#[derive(Clone, Copy)]
pub(crate) struct RawCell {
    bytes: [u8; 128],
    read: Result<(), Failed>,
}

/// A cell that was not read.
pub(crate) const UNREAD: RawCell = RawCell {
    bytes: [0; 128],
    read: Err(Failed),
};

/// How many places a hand claims together whose part is not full: at least one, at most as many as
/// a window has and as the part has room for.
pub(crate) fn places_at_once(part: &Vec<Slot>, jobs: usize) -> usize
    requires room { length part.now.items < vec_capacity part.now }
    ensures some { 1 ≤ result }
    ensures few { result ≤ 8 }
    ensures fits { length part.now.items + result ≤ vec_capacity part.now }
{
    let last = match part.last() {
        Some(slot) => slot.place,
        None => 0,
    };
    let left = jobs.saturating_sub(last);
    (left / LEFT_A_PLACE)
        .clamp(1, WINDOW)
        .min(part.capacity() - part.len())
}

/// Claims so many places, or fewer where no more are left; tells how many were claimed.
pub(crate) fn claim_some(
    claims: &Claims,
    seat: &mut ClaimSeat,
    round: &Round,
    places: &mut [usize; WINDOW],
    most: usize,
) -> usize
    requires own { IsClaimSeat claims.now seat.old }
    requires come { HasCome seat.old round.now }
    requires start { round.now.start ≡ 0 }
    requires few { most ≤ 8 }
    ensures drawn { HaveDrawn claims.now round.now most result seat.old seat.new
        (take result places.new) }
    ensures few { result ≤ most }
{
    for i in 0..most {
        let Some(place) = claims.next(seat, round) else {
            return i;
        };
        places[i] = place;
    }
    most
}

// Reads a job's cell by a lane.
fn read_cell<S: Store>(store: &S, lane: &mut S::Lane, job: &Job, cell: &mut RawCell)
    ensures read { IsCellRead (S.disk store.now) (S.lane_faults lane.old) (S.lane_faults lane.new)
        job.now cell.new }
    ensures seen { Notes (event.Read job.now.cell ∷ []) (S.lane_seen lane.old)
        (S.lane_seen lane.new) }
    ensures later { S.lane_faults lane.old ≤ S.lane_faults lane.new }
{
    cell.read = store.read(lane, job.cell, &mut cell.bytes);
}

/// Reads the cells of the jobs at so many places by a lane, whatever became of the others.
pub(crate) fn read_cells<S: Store>(
    store: &S,
    lane: &mut S::Lane,
    asked: &SealedJobs,
    places: &[usize; WINDOW],
    many: usize,
    cells: &mut [RawCell; WINDOW],
)
    requires few { many ≤ 8 }
    requires within { (i : ℕ) → i < many → claimed_at places.now i < length asked.now.jobs.now }
    ensures read { AreCellsRead (S.disk store.now) (S.lane_faults lane.old)
        (S.lane_faults lane.new) asked.now many places.now cells.new }
    ensures seen { Notes (reads_of asked.now (take many places.now)) (S.lane_seen lane.old)
        (S.lane_seen lane.new) }
    ensures later { S.lane_faults lane.old ≤ S.lane_faults lane.new }
{
    for i in 0..many {
        read_cell(store, lane, &asked.jobs[places[i]], &mut cells[i]);
    }
}

// Opens the cell of the job at a place, where it was read; else it is the store's fault.
fn open_slot(asked: &SealedJobs, place: usize, cell: &RawCell) -> Slot
    requires within { place < length asked.now.jobs.now }
    ensures place { result.place ≡ place }
    ensures opened { IsSlotOpened asked.now.sealer.now.keys (job_at asked.now.jobs.now place)
        cell.now result }
{
    let outcome = match cell.read {
        Ok(()) => open_cell(asked.sealer, &asked.jobs[place], &cell.bytes),
        Err(Failed) => Err(Fault::StoreFault { unsure: None }),
    };
    Slot { place, outcome }
}

/// Opens the cells of the jobs at so many places, and puts what each job gave behind the part.
pub(crate) fn open_cells(
    part: &mut Vec<Slot>,
    asked: &SealedJobs,
    places: &[usize; WINDOW],
    many: usize,
    cells: &[RawCell; WINDOW],
)
    requires few { many ≤ 8 }
    requires within { (i : ℕ) → i < many → claimed_at places.now i < length asked.now.jobs.now }
    requires room { length part.old.items + many ≤ vec_capacity part.old }
    ensures opened { AreOpened asked.now many places.now cells.now (take many places.now)
        part.old.items part.new.items }
    ensures room { vec_capacity part.new ≡ vec_capacity part.old }
{
    for i in 0..many {
        part.push_reserved(open_slot(asked, places[i], &cells[i]));
    }
}
