//! What lanes read a phase with.

ghost use Rattle.std.specs.Prelude.{◌≡◌, ◌<◌, ◌≤◌, ◌+◌, All, IfOk, length, vec_capacity};
ghost use Rattle.ob_lanes.specs.Rooms.{AreReaders, jobs_of, lanes_of};

use crate::{Hand, Slot};
use ob_base::{Fault, Memory};
use ob_claims::{ClaimSeat, Claims};
use std::alloc::Global;

/// The claims of a phase's jobs with the seat that all are joined into, room for the lanes that
/// are out and for what each of them reads, and a slot for each job.
#[derive(Drop)]
pub struct Readers<L> {
    /// The claims.
    pub claims: Claims,
    /// Their seat, which has all parts while no lane is out.
    pub seat: ClaimSeat,
    /// Room for the lanes that are out.
    pub hands: Vec<Option<Hand<L>>>,
    /// Room for what each lane reads.
    pub parts: Vec<Vec<Slot>>,
    /// What was read, job by job.
    pub slots: Vec<Slot>,
}

// Parts with room for so many slots, one for each lane.
fn make_parts(alloc: Global, lanes: usize, room: usize) -> Result<Vec<Vec<Slot>>, Memory>
    ensures many { IfOk result (λ parts. length parts.items ≡ lanes) }
    ensures room { IfOk result (λ parts. lanes ≤ vec_capacity parts) }
    ensures each { IfOk result (λ parts. All (λ p. room ≤ vec_capacity p) parts.items) }
{
    let mut parts = Vec::with_capacity(alloc, lanes)?;
    for _ in 0..lanes {
        let part = match Vec::with_capacity(alloc, room) {
            Ok(part) => part,
            Err(_) => return Err(Memory),
        };
        parts.push_reserved(part);
    }
    Ok(parts)
}

impl<L> Readers<L> {
    /// Readers of at most so many lanes, from 1 to 16, with room for so many jobs.
    ///
    /// # Errors
    /// Memory was wanting.
    pub fn new(alloc: Global, lanes: usize, jobs: usize) -> Result<Readers<L>, Memory>
    where
        L: Drop,
        requires { (1 ≤ lanes) × (lanes ≤ 16) }
        ensures readers { IfOk result (λ readers. AreReaders readers) }
        ensures lanes { IfOk result (λ readers. lanes_of readers ≡ lanes) }
        ensures jobs { IfOk result (λ readers. jobs_of readers ≡ jobs) }
    {
        let (claims, seat) = Claims::new(alloc, lanes as u64 + 1)?;
        let unread = Slot {
            place: 0,
            outcome: Err(Fault::Memory),
        };
        let slots = vec![in alloc; unread; jobs]?;
        let hands = Vec::with_capacity(alloc, lanes)?;
        let parts = make_parts(alloc, lanes, (jobs.div_ceil(lanes) * 2).max(1))?;
        Ok(Readers {
            claims,
            seat,
            hands,
            parts,
            slots,
        })
    }
}
