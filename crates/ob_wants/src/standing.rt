//! What a stop finds.

ghost use Rattle.std.specs.Prelude.{◌≡◌, ◌<◌, ◌++◌, IfOk, OnOk, None, false, nat_le, slice_index, slice_index_or, map, ◌^◌, cond, ◌||◌};
ghost use Rattle.ob_base.specs.Tree.{below, buckets};
ghost use Rattle.ob_base.specs.Layout.{slot_cell};
ghost use Rattle.ob_schedule.specs.Schedule.{counts_now};
ghost use Rattle.ob_schedule.specs.Sides.{side_number, other};
ghost use Rattle.ob_wants.specs.Visits.{hole_of_visit};
ghost use Rattle.ob_wants.specs.Seen.{label_shown};
ghost use Rattle.ob_schedule.specs.Standing.{standing_formatted, public_known, is_lifted, with_slot, with_label, standing_ended};
ghost use Rattle.ob_schedule.specs.Follow.{with_gate, next_side};

use crate::evicted::{evicted_buckets, next_counter};
use crate::leaves::Leaves;
use crate::marks::marks_of;
use crate::rows::{at_or, has_bit, index_of, put_at, set_bit};
use crate::seen::SeenLabel;
use crate::visit::Visit;
use ob_base::{Params, buckets, slot_cell};
use ob_schedule::{Gate, Register, Side};
use std::alloc::{AllocError, Global};

/// What a stop finds: what the last end left, and what was shown and logged since.
#[derive(Drop)]
pub struct StandingPlain {
    /// Where the epoch that stands lies.
    pub epoch: Side,
    /// Where each bucket lies.
    pub homes: Vec<Side>,
    /// How often each bucket's version was read before the running epoch.
    pub counts: Vec<u32>,
    /// How many paths were evicted, modulo the number of leaves.
    pub counter: u32,
    /// Where the generation that stands lies.
    pub generation: Side,
    /// The gate at the other place.
    pub generation_gate: Gate,
    /// The epoch's gate at the other place.
    pub epoch_gate: Gate,
    /// The first batches of the running epoch are logged, so many.
    pub logged: u32,
    /// One more may be.
    pub maybe: bool,
    /// Which slots the buckets' versions have shown: a word each, a bit for each slot.
    pub used: Vec<u64>,
    /// What the places of the running epoch have shown.
    pub labels: Vec<SeenLabel>,
    /// What the buckets' reads have shown in the running epoch, in rows of 48: a number one
    /// greater, or 0 for nothing.
    pub slots: Vec<u8>,
}

/// The cell of a bucket's slot, wherever it would lie.
#[tactic(auto, using(ob_base::proofs::Bounds::cells_le, crate::proofs::Cells::slot_far, crate::proofs::Cells::some_buckets, crate::proofs::Cells::some_width))]
pub fn cell_at(p: &Params, home: Side, bucket: u32, slot: u8) -> u64
    ensures cell { result ≡ slot_cell p.now (side_number home) bucket slot }
    ensures few { result < 2 ^ 40 }
{
    let width = (p.real + p.dummies) as u64;
    slot_cell(p, home.number(), 0, 0) + (bucket as u64 * width + slot as u64)
}

/// The label that a place of a batch has shown.
pub fn shown_label(labels: &[SeenLabel], batch: u32, place: u32) -> Option<u16>
    ensures { result ≡ label_shown labels.now batch place }
{
    match labels
        .iter()
        .find(|seen| seen.batch == batch && seen.place == place)
    {
        Some(seen) => Some(seen.leaf),
        None => None,
    }
}

impl StandingPlain {
    ghost use Rattle.ob_wants.specs.Shown.{standing_of};

    /// What a whole format leaves.
    pub fn formatted(alloc: Global) -> StandingPlain
        ensures { standing_of result ≡ standing_formatted }
    {
        StandingPlain {
            epoch: Side::Even,
            homes: Vec::new(alloc),
            counts: Vec::new(alloc),
            counter: 0,
            generation: Side::Odd,
            generation_gate: Gate::Closed,
            epoch_gate: Gate::Closed,
            logged: 0,
            maybe: false,
            used: Vec::new(alloc),
            labels: Vec::new(alloc),
            slots: Vec::new(alloc),
        }
    }

    /// Where a bucket lies.
    pub fn home(&self, bucket: u32) -> Side
        ensures { result ≡ (standing_of self.now).homes bucket }
    {
        at_or(&self.homes, bucket as usize, Side::Even)
    }

    /// How often the bucket's version was read, these labels among it.
    pub(crate) fn count(&self, p: &Params, leaves: &Leaves, bucket: u32) -> u64
        ensures { result
            ≡ counts_now p.now (public_known p.now (standing_of self.now) leaves.now) bucket }
    {
        at_or(&self.counts, bucket as usize, 0) as u64 + leaves.passing(p, bucket)
    }

    /// Whether the bucket's version has shown the slot.
    pub fn is_used(&self, bucket: u32, slot: u8) -> bool
        ensures { result ≡ (standing_of self.now).used bucket slot }
    {
        has_bit(at_or(&self.used, bucket as usize, 0), slot)
    }

    /// The slot that a read has shown in the running epoch.
    pub fn shown_slot(&self, visit: Visit) -> Option<u8>
        ensures { result ≡ (standing_of self.now).slots (hole_of_visit visit) }
    {
        let kept = at_or(&self.slots, index_of(visit.bucket, visit.number), 0);
        if kept == 0 { None } else { Some(kept - 1) }
    }

    /// The buckets that an end after these labels writes anew.
    pub(crate) fn lifted(
        &self,
        alloc: Global,
        p: &Params,
        leaves: &Leaves,
    ) -> Result<Vec<bool>, AllocError>
        ensures { IfOk result (λ lifted. lifted.items
            ≡ map (is_lifted p.now (standing_of self.now) leaves.now) (below (buckets p.now))) }
    {
        let paths = evicted_buckets(alloc, p, self.counter)?;
        let evicted = marks_of(alloc, p, &paths)?;
        self.evicted_or_read(alloc, p, leaves, &evicted)
    }

    // Whether a bucket is evicted, or was read as often as there are dummies.
    fn is_lifted(&self, p: &Params, leaves: &Leaves, evicted: &[bool], bucket: u32) -> bool
        ensures { result ≡ (slice_index_or evicted.now bucket false || nat_le p.now.dummies
            (counts_now p.now (public_known p.now (standing_of self.now) leaves.now) bucket)) }
    {
        if at_or(evicted, bucket as usize, false) {
            return true;
        }
        p.dummies as u64 <= self.count(p, leaves, bucket)
    }

    fn evicted_or_read(
        &self,
        alloc: Global,
        p: &Params,
        leaves: &Leaves,
        evicted: &[bool],
    ) -> Result<Vec<bool>, AllocError>
        ensures { IfOk result (λ lifted. lifted.items
            ≡ map (λ u. slice_index_or evicted.now u false || nat_le p.now.dummies
            (counts_now p.now (public_known p.now (standing_of self.now) leaves.now) u))
            (below (buckets p.now))) }
    {
        let mut lifted = Vec::new(alloc);
        for bucket in 0..buckets(p) {
            lifted.push(self.is_lifted(p, leaves, evicted, bucket))?;
        }
        Ok(lifted)
    }

    fn home_after(&self, lifted: &[bool], bucket: u32) -> Side
        ensures { result ≡ cond (slice_index_or lifted.now bucket false)
            (other ((standing_of self.now).homes bucket)) ((standing_of self.now).homes bucket) }
    {
        if at_or(lifted, bucket as usize, false) {
            self.home(bucket).other()
        } else {
            self.home(bucket)
        }
    }

    // How often a bucket's version was read after an end.
    fn count_left(&self, p: &Params, leaves: &Leaves, lifted: &[bool], bucket: u32) -> u32
        ensures { result ≡ cond (slice_index_or lifted.now bucket false) 0
            (cond (nat_le p.now.dummies (counts_now p.now
            (public_known p.now (standing_of self.now) leaves.now) bucket)) 0
            (counts_now p.now (public_known p.now (standing_of self.now) leaves.now) bucket)) }
    {
        if at_or(lifted, bucket as usize, false) {
            return 0;
        }
        let count = self.count(p, leaves, bucket);
        if p.dummies as u64 <= count {
            0
        } else {
            count as u32
        }
    }

    // The slots that a bucket's version is known to have shown after an end too.
    fn used_left(&self, lifted: &[bool], bucket: u32) -> u64
        ensures { result ≡ cond (slice_index_or lifted.now bucket false) 0
            (slice_index self.now.used.items bucket) }
    {
        if at_or(lifted, bucket as usize, false) {
            return 0;
        }
        at_or(&self.used, bucket as usize, 0)
    }

    // Puts where each bucket lies after an end, how often its version was read and the slots that
    // it is known to have shown behind the lists.
    fn push_after(
        &self,
        p: &Params,
        leaves: &Leaves,
        lifted: &[bool],
        homes: &mut Vec<Side>,
        counts: &mut Vec<u32>,
        used: &mut Vec<u64>,
    ) -> Result<(), AllocError>
        ensures { OnOk result (
            (homes.new.items ≡ homes.old.items
            ++ map (λ u. cond (slice_index_or lifted.now u false)
            (other ((standing_of self.now).homes u)) ((standing_of self.now).homes u))
            (below (buckets p.now)))
            × (counts.new.items ≡ counts.old.items
            ++ map (λ u. cond (slice_index_or lifted.now u false) 0
            (cond (nat_le p.now.dummies (counts_now p.now
            (public_known p.now (standing_of self.now) leaves.now) u)) 0
            (counts_now p.now (public_known p.now (standing_of self.now) leaves.now) u)))
            (below (buckets p.now)))
            × (used.new.items ≡ used.old.items
            ++ map (λ u. cond (slice_index_or lifted.now u false) 0
            (slice_index self.now.used.items u)) (below (buckets p.now)))) }
    {
        for bucket in 0..buckets(p) {
            homes.push(self.home_after(lifted, bucket))?;
            counts.push(self.count_left(p, leaves, lifted, bucket))?;
            used.push(self.used_left(lifted, bucket))?;
        }
        Ok(())
    }

    /// What stands after the running epoch's end.
    pub fn ended(
        &self,
        alloc: Global,
        p: &Params,
        leaves: &Leaves,
    ) -> Result<StandingPlain, AllocError>
        ensures { IfOk result (λ s. standing_of s
            ≡ standing_ended p.now (standing_of self.now) leaves.now) }
    {
        let lifted = self.lifted(alloc, p, leaves)?;
        let mut homes = Vec::new(alloc);
        let mut counts = Vec::new(alloc);
        let mut used = Vec::new(alloc);
        self.push_after(p, leaves, &lifted, &mut homes, &mut counts, &mut used)?;
        Ok(StandingPlain {
            epoch: self.epoch.other(),
            homes,
            counts,
            counter: next_counter(p, self.counter),
            generation: self.generation,
            generation_gate: self.generation_gate,
            epoch_gate: Gate::Open,
            logged: 0,
            maybe: false,
            used,
            labels: Vec::new(alloc),
            slots: Vec::new(alloc),
        })
    }

    // Keeps what a read shows for the first time in the epoch.
    fn put_slot(&mut self, visit: Visit, slot: u8) -> Result<(), AllocError>
        requires { slot < 64 }
        ensures { OnOk result ((standing_of self.old).slots (hole_of_visit visit) ≡ None
            → standing_of self.new ≡ with_slot (standing_of self.old) (hole_of_visit visit) slot) }
    {
        set_bit(&mut self.used, visit.bucket, slot)?;
        let index = index_of(visit.bucket, visit.number);
        put_at(&mut self.slots, 0, index, slot + 1)
    }

    /// Keeps what a read has shown.
    pub fn keep_slot(&mut self, visit: Visit, slot: u8) -> Result<(), AllocError>
        requires { (standing_of self.old).slots (hole_of_visit visit) ≡ None → slot < 64 }
        ensures { OnOk result (standing_of self.new
            ≡ with_slot (standing_of self.old) (hole_of_visit visit) slot) }
    {
        match self.shown_slot(visit) {
            Some(_) => Ok(()),
            None => self.put_slot(visit, slot),
        }
    }

    /// Keeps what a place has shown.
    pub fn keep_label(&mut self, batch: u32, place: u32, leaf: u16) -> Result<(), AllocError>
        ensures { OnOk result (standing_of self.new
            ≡ with_label (standing_of self.old) batch place leaf) }
    {
        match shown_label(&self.labels, batch, place) {
            Some(_) => Ok(()),
            None => {
                self.labels.push(SeenLabel { batch, place, leaf })?;
                Ok(())
            }
        }
    }

    /// The gate at a register's next place is known to be so.
    pub fn set_gate(&mut self, register: Register, gate: Gate)
        ensures { standing_of self.new ≡ with_gate register gate (standing_of self.old) }
    {
        match register {
            Register::Generation => self.generation_gate = gate,
            Register::Epoch => self.epoch_gate = gate,
        }
    }

    /// Where the register's next number goes.
    pub fn next_side(&self, register: Register) -> Side
        ensures { result ≡ next_side (standing_of self.now) register }
    {
        match register {
            Register::Generation => self.generation.other(),
            Register::Epoch => self.epoch.other(),
        }
    }
}
