//! What is known behind some lines of a trace, and which line may stand next.

ghost use Rattle.std.specs.Prelude.{◌≡◌, ◌<◌, ℕ, ◌^◌, ◌∷◌, true, false, ◌++◌, [], List, Some, None, IfOk, OnOk, IfSome, MatchOption, MatchBool, ◌≤◌, drop, option_map};
ghost use Rattle.ob_base.specs.Tree.{width};
ghost use Rattle.ob_base.specs.Layout.{slot_cell};
ghost use Rattle.ob_schedule.specs.Holes.{Hole};
ghost use Rattle.ob_schedule.specs.declared.want.Want.TheVariants.{Fixed, Place, Record, Setting, Checkpoint};
ghost use Rattle.ob_schedule.specs.Sides.{side_number, other};
ghost use Rattle.ob_schedule.specs.declared.want.Change.TheVariants.{Settles, EndsEpoch};
ghost use Rattle.ob_store.specs.declared.watch.Note.TheVariants.{Label};
ghost use Rattle.ob_schedule.specs.Standing.{with_slot};
ghost use Rattle.ob_wants.specs.Visits.{hole_of_visit};
ghost use Rattle.ob_wants.specs.Shown.{standing_of};
ghost use Rattle.ob_schedule.specs.Wants.{places, record_wants, setting, found_wants};
ghost use Rattle.ob_schedule.specs.Follow.{TakesLine, started, opened, taken_up, next_step, changed, shows_label, repeated_batch, newer_or_same, next_side, opened_wants};
ghost use Rattle.ob_schedule.specs.Names.{RefusesLine, wanted_next, wanted_slot, wanted_want};

use ob_base::Params;
use ob_schedule::{Change, Gate, Line, Register, Runs, Side, Want, Wanted};
use ob_store::Note;
use ob_wants::{
    Leaves, StandingPlain, Visit, body_of, cell_at, check_at, final_visits, format_wants,
    place_visits, push_end, push_found, push_places, push_record, push_registers, record_at,
    set_wants, shown_label,
};
use std::alloc::{AllocError, Global};
use std::collections::VecDeque;

/// What is known behind some lines of a trace. Its memory grows with the store, not with the trace.
#[derive(Drop)]
pub struct FollowPlain {
    /// The store's.
    pub params: Params,
    /// The format is whole.
    pub formatted: bool,
    /// A run goes on behind what is wanted of its present step.
    pub runs: bool,
    /// What a stop finds.
    pub stands: StandingPlain,
    /// What stands if the last end's gate was opened.
    pub newer: Option<StandingPlain>,
    /// This run has found that it was.
    pub chosen: bool,
    /// Batches that this attempt has begun.
    pub batch: u32,
    /// Labels that this attempt has shown.
    pub leaves: Leaves,
    /// Slots that are wanted, before the rest.
    pub visits: VecDeque<Visit>,
    /// The rest of the present step.
    pub wants: Runs,
}

// Puts what logs a batch, and its places, behind the list.
fn push_batch(p: &Params, side: Side, batch: u32, wants: &mut Runs) -> Result<(), AllocError>
    ensures { OnOk result (wants.new
        ≡ wants.old ++ (record_wants p.now side batch ++ places p.now batch)) }
{
    push_record(p, side, batch, wants)?;
    push_places(p, batch, 0, wants)
}

impl FollowPlain {
    ghost use Rattle.ob_follow.specs.Plain.{follow_of, Took, TookWant, SlotTaken, LabelTaken};

    /// What is known behind the first line of a format.
    pub fn new(alloc: Global, p: &Params) -> Result<FollowPlain, AllocError>
        ensures { IfOk result (λ known. follow_of known ≡ started p.now) }
    {
        let wants = format_wants(alloc, p)?;
        Ok(FollowPlain {
            params: *p,
            formatted: false,
            runs: false,
            stands: StandingPlain::formatted(alloc),
            newer: None,
            chosen: false,
            batch: 0,
            leaves: Leaves::new(alloc),
            visits: VecDeque::new(alloc),
            wants,
        })
    }

    fn wanted_visit(&self, visit: Visit) -> Wanted
        ensures { result
            ≡ wanted_slot (follow_of self.now) (hole_of_visit visit)
            ((standing_of self.now.stands).slots (hole_of_visit visit)) }
    {
        match self.stands.shown_slot(visit) {
            Some(slot) => Wanted::Line(Note::Read(cell_at(
                &self.params,
                self.stands.home(visit.bucket),
                visit.bucket,
                slot,
            ))),
            None => Wanted::Slot {
                bucket: visit.bucket,
            },
        }
    }

    fn wanted_place(&self, batch: u32, place: u32) -> Wanted
        ensures { result ≡ wanted_want (follow_of self.now) (Place batch place) }
    {
        match shown_label(&self.stands.labels, batch, place) {
            Some(leaf) => Wanted::Line(Note::Label(leaf as u64)),
            None => Wanted::Label,
        }
    }

    fn wanted_want(&self, want: Want) -> Wanted
        ensures { result ≡ wanted_want (follow_of self.now) want }
    {
        let p = &self.params;
        let epoch = self.stands.epoch;
        match want {
            Want::Fixed { note, change: _ } => Wanted::Line(note),
            Want::Place { batch, place } => self.wanted_place(batch, place),
            Want::Record { batch } => Wanted::LabelOr {
                cell: record_at(p, epoch.other(), batch, 0),
            },
            Want::Setting { register } => {
                let body = body_of(register, self.stands.next_side(register));
                Wanted::EitherWrite {
                    gate: body + 1,
                    body,
                }
            }
            Want::Checkpoint => Wanted::Either {
                first: check_at(p, epoch, 0),
                second: check_at(p, epoch.other(), 0),
            },
        }
    }

    /// What may stand next, beside a stop.
    pub fn wanted(&self) -> Wanted
        ensures { result ≡ wanted_next (follow_of self.now) }
    {
        if let Some(visit) = self.visits.front() {
            return self.wanted_visit(*visit);
        }
        match self.wants.first() {
            None => Wanted::Start,
            Some(want) => self.wanted_want(want),
        }
    }

    // What an opening shows, with a mirror or without one, into an empty list.
    fn push_opening(&mut self, mirrored: bool) -> Result<(), AllocError>
        ensures { OnOk result ((follow_of self.old).wants ≡ []
            → follow_of self.new
            ≡ record (follow_of self.old) {
              wants = opened_wants self.old.params mirrored
                  (standing_of self.old.stands) (follow_of self.old).newer;
            }) }
    {
        push_registers(&self.params, mirrored, &mut self.wants)?;
        match self.newer {
            None => push_found(&self.params, &self.stands, &mut self.wants),
            Some(_) => self.wants.push(Want::Checkpoint),
        }
    }

    // Behind a stop a run begins, with a mirror or without one.
    fn open(&mut self, mirrored: bool) -> Result<(), AllocError>
        ensures { OnOk result (follow_of self.new ≡ opened mirrored (follow_of self.old)) }
    {
        self.visits.clear();
        self.wants.clear();
        self.runs = self.formatted;
        if !self.formatted {
            return self.wants.push_reads(0, 1);
        }
        self.chosen = false;
        self.batch = 0;
        self.leaves.clear();
        self.push_opening(mirrored)
    }

    // The slot of the bucket's home that the cell holds.
    fn slot_in(&self, bucket: u32, cell: u64) -> Option<u8>
        ensures found { IfSome result (λ slot. (slot < width self.now.params)
            × (cell ≡ slot_cell self.now.params
            (side_number ((standing_of self.now.stands).homes bucket)) bucket slot)) }
        ensures only { (slot : ℕ) → slot < width self.now.params
            → cell ≡ slot_cell self.now.params
            (side_number ((standing_of self.now.stands).homes bucket)) bucket slot
            → result ≡ Some slot }
    {
        let first = cell_at(&self.params, self.stands.home(bucket), bucket, 0);
        let width = (self.params.real + self.params.dummies) as u64;
        if cell < first {
            return None;
        }
        if cell - first < width {
            Some((cell - first) as u8)
        } else {
            None
        }
    }

    // Takes a read that shows a slot.
    fn take_slot(&mut self, visit: Visit, slot: u8) -> Result<(), AllocError>
        requires { (standing_of self.old.stands).slots (hole_of_visit visit) ≡ None → slot < 64 }
        ensures { OnOk result (follow_of self.new
            ≡ record (follow_of self.old) {
              stands = with_slot (standing_of self.old.stands)
                  (hole_of_visit visit) slot;
              holes = drop 1 (follow_of self.old).holes;
            }) }
    {
        self.stands.keep_slot(visit, slot)?;
        let _ = self.visits.pop_front();
        Ok(())
    }

    // The slot of a read that was shown before, if the cell holds it.
    fn slot_again(&self, visit: Visit, shown: u8, cell: u64) -> Option<u8>
        ensures { (standing_of self.now.stands).slots (hole_of_visit visit) ≡ Some shown
            → SlotTaken (follow_of self.now) (hole_of_visit visit) (Note.Read cell) result }
    {
        let home = self.stands.home(visit.bucket);
        if cell == cell_at(&self.params, home, visit.bucket, shown) {
            Some(shown)
        } else {
            None
        }
    }

    // The slot that the cell holds, if the bucket's version hasn't shown it.
    #[tactic(auto, using(crate::proofs::Slots::not_in))]
    fn slot_fresh(&self, visit: Visit, cell: u64) -> Option<u8>
        ensures { (standing_of self.now.stands).slots (hole_of_visit visit) ≡ None
            → SlotTaken (follow_of self.now) (hole_of_visit visit) (Note.Read cell) result }
    {
        match self.slot_in(visit.bucket, cell) {
            None => None,
            Some(slot) => {
                if self.stands.is_used(visit.bucket, slot) {
                    None
                } else {
                    Some(slot)
                }
            }
        }
    }

    // The slot that a note shows, if a read may show it.
    fn slot_taken(&self, visit: Visit, note: Note) -> Option<u8>
        ensures { SlotTaken (follow_of self.now) (hole_of_visit visit) note result }
    {
        let Note::Read(cell) = note else {
            return None;
        };
        match self.stands.shown_slot(visit) {
            Some(shown) => self.slot_again(visit, shown, cell),
            None => self.slot_fresh(visit, cell),
        }
    }

    // The label that a note shows.
    fn label_in(&self, note: Note) -> Option<u16>
        ensures found { IfSome result (λ leaf. (leaf < 2 ^ self.now.params.levels)
            × (note ≡ Label leaf)) }
        ensures only { (leaf : ℕ) → leaf < 2 ^ self.now.params.levels → note ≡ Label leaf
            → result ≡ Some leaf }
    {
        let Note::Label(label) = note else {
            return None;
        };
        if label < 1 << self.params.levels {
            Some(label as u16)
        } else {
            None
        }
    }

    // The label that a note shows, if a place may show it.
    fn label_taken(&self, batch: u32, place: u32, note: Note) -> Option<u16>
        ensures { LabelTaken (follow_of self.now) batch place note result }
    {
        match shown_label(&self.stands.labels, batch, place) {
            None => self.label_in(note),
            Some(shown) => {
                if is_same(note, Note::Label(shown as u64)) {
                    Some(shown)
                } else {
                    None
                }
            }
        }
    }

    // A place shows a label.
    fn show_label(
        &mut self,
        alloc: Global,
        batch: u32,
        place: u32,
        leaf: u16,
    ) -> Result<(), AllocError>
        ensures { OnOk result (follow_of self.new
            ≡ shows_label (follow_of self.old) batch place leaf) }
    {
        self.visits = place_visits(alloc, &self.params, &self.stands, &self.leaves, leaf)?;
        self.stands.keep_label(batch, place, leaf)?;
        self.leaves.push(alloc, &self.params, leaf)
    }

    // What stands for sure after a sync.
    fn settle(&mut self)
        ensures { follow_of self.new ≡ changed Settles (follow_of self.old) }
    {
        let newer = self.newer.take();
        if self.chosen {
            self.put_newer(newer);
        }
        self.chosen = false;
        self.batch = 0;
        self.leaves.clear();
    }

    fn put_newer(&mut self, newer: Option<StandingPlain>)
        ensures { follow_of self.new
            ≡ record (follow_of self.old) {
              stands = newer_or_same (standing_of self.old.stands)
                  (option_map standing_of newer);
            } }
    {
        match newer {
            Some(newer) => self.stands = newer,
            None => {}
        }
    }

    fn end_epoch(&mut self, alloc: Global) -> Result<(), AllocError>
        ensures { OnOk result (follow_of self.new ≡ changed EndsEpoch (follow_of self.old)) }
    {
        self.newer = Some(self.stands.ended(alloc, &self.params, &self.leaves)?);
        self.chosen = true;
        Ok(())
    }

    // What a line does that stands at its place.
    fn change(&mut self, alloc: Global, change: Change) -> Result<(), AllocError>
        ensures { OnOk result (follow_of self.new ≡ changed change (follow_of self.old)) }
    {
        match change {
            Change::Keeps => {}
            Change::Formats => self.formatted = true,
            Change::Settles => self.settle(),
            Change::Doubts(register) => self.stands.set_gate(register, Gate::Unsure),
            Change::Closes(register) => self.stands.set_gate(register, Gate::Closed),
            Change::SetsGeneration => {
                self.stands.generation = self.stands.generation.other();
                self.stands.generation_gate = Gate::Open;
            }
            Change::EndsEpoch => return self.end_epoch(alloc),
            Change::MayLog => self.stands.maybe = true,
            Change::Logs => {
                self.stands.logged = self.batch;
                self.stands.maybe = false;
            }
        }
        Ok(())
    }

    #[tactic(auto, using(crate::proofs::Slots::few_slots))]
    fn take_visit(&mut self, visit: Visit, note: Note) -> Result<bool, AllocError>
        ensures { IfOk result (λ took. (holes : List Hole)
            → (follow_of self.old).holes ≡ hole_of_visit visit ∷ holes
            → Took (follow_of self.old) (follow_of self.new) note took) }
    {
        match self.slot_taken(visit, note) {
            None => Ok(false),
            Some(slot) => {
                self.take_slot(visit, slot)?;
                Ok(true)
            }
        }
    }

    fn take_fixed(
        &mut self,
        alloc: Global,
        wanted: Note,
        change: Change,
        note: Note,
    ) -> Result<bool, AllocError>
        ensures { IfOk result (λ took. TookWant (follow_of self.old) (follow_of self.new)
            (Fixed wanted change) note took) }
    {
        if !is_same(note, wanted) {
            return Ok(false);
        }
        self.wants.pop();
        self.change(alloc, change)?;
        Ok(true)
    }

    fn take_label(
        &mut self,
        alloc: Global,
        batch: u32,
        place: u32,
        note: Note,
    ) -> Result<bool, AllocError>
        ensures { IfOk result (λ took. TookWant (follow_of self.old) (follow_of self.new)
            (Place batch place) note took) }
    {
        match self.label_taken(batch, place, note) {
            None => Ok(false),
            Some(leaf) => {
                self.wants.pop();
                self.show_label(alloc, batch, place, leaf)?;
                Ok(true)
            }
        }
    }

    // A batch that may be logged is.
    fn repeat(&mut self, alloc: Global, batch: u32, leaf: u16) -> Result<(), AllocError>
        ensures { OnOk result (follow_of self.new
            ≡ repeated_batch (follow_of self.old) batch (drop 1 self.old.wants) leaf) }
    {
        self.wants.pop();
        self.stands.logged = self.batch;
        self.stands.maybe = false;
        push_places(&self.params, batch, 1, &mut self.wants)?;
        self.show_label(alloc, batch, 0, leaf)
    }

    // A batch that may be logged isn't, and is begun anew.
    fn begin_anew(&mut self, alloc: Global, batch: u32) -> Result<(), AllocError>
        ensures { OnOk result (follow_of self.new
            ≡ record (follow_of self.old) {
              stands = record
                  (standing_of self.old.stands) { maybe = false };
              wants = drop 1 self.old.wants ++
                  drop 1 (record_wants self.old.params (other self.old.stands.epoch) batch ++ places
                  self.old.params batch);
            }) }
    {
        self.wants.pop();
        self.stands.maybe = false;
        let side = self.stands.epoch.other();
        let mut all = Runs::new(alloc);
        push_batch(&self.params, side, batch, &mut all)?;
        all.pop();
        self.wants.append(all)
    }

    fn take_record(&mut self, alloc: Global, batch: u32, note: Note) -> Result<bool, AllocError>
        ensures { IfOk result (λ took. TookWant (follow_of self.old) (follow_of self.new)
            (Record batch) note took) }
    {
        if let Some(leaf) = self.label_in(note) {
            self.repeat(alloc, batch, leaf)?;
            return Ok(true);
        }
        let cell = record_at(&self.params, self.stands.epoch.other(), batch, 0);
        if !is_same(note, Note::Write(cell)) {
            return Ok(false);
        }
        self.begin_anew(alloc, batch)?;
        Ok(true)
    }

    // What sets a register's next number.
    fn setting(&self, register: Register) -> [Want; 6]
        ensures { result
            ≡ setting self.now.params register (next_side (standing_of self.now.stands) register) }
    {
        set_wants(register, self.stands.next_side(register))
    }

    // What sets a register, but for the first so many lines.
    fn set_from(&mut self, register: Register, from: usize) -> Result<(), AllocError>
        requires { from ≤ 6 }
        ensures { OnOk result (follow_of self.new
            ≡ record (follow_of self.old) {
              wants = drop 1 self.old.wants ++ drop from
                  (setting self.old.params register
                  (next_side (standing_of self.old.stands) register));
            }) }
    {
        self.wants.pop();
        let all = self.setting(register);
        self.wants.push_all(&all[from..])
    }

    fn take_setting(&mut self, register: Register, note: Note) -> Result<bool, AllocError>
        ensures { IfOk result (λ took. TookWant (follow_of self.old) (follow_of self.new)
            (Setting register) note took) }
    {
        let body = body_of(register, self.stands.next_side(register));
        if is_same(note, Note::Write(body + 1)) {
            self.set_from(register, 1)?;
            return Ok(true);
        }
        if !is_same(note, Note::Write(body)) {
            return Ok(false);
        }
        self.stands.set_gate(register, Gate::Closed);
        self.set_from(register, 3)?;
        Ok(true)
    }

    fn find_older(&mut self, alloc: Global) -> Result<(), AllocError>
        ensures { OnOk result (follow_of self.new
            ≡ record (follow_of self.old) {
              wants = drop 1 self.old.wants ++ drop 1
                  (found_wants self.old.params (standing_of self.old.stands));
            }) }
    {
        self.wants.pop();
        let mut found = Runs::new(alloc);
        push_found(&self.params, &self.stands, &mut found)?;
        found.pop();
        self.wants.append(found)
    }

    // What an opening shows that finds the newer epoch.
    fn push_newer(&self, wants: &mut Runs) -> Result<(), AllocError>
        ensures { OnOk result (wants.new
            ≡ wants.old ++ found_wants self.now.params
            (newer_or_same (standing_of self.now.stands) (follow_of self.now).newer)) }
    {
        match &self.newer {
            Some(newer) => push_found(&self.params, newer, wants),
            None => push_found(&self.params, &self.stands, wants),
        }
    }

    fn find_newer(&mut self, alloc: Global) -> Result<(), AllocError>
        ensures { OnOk result (follow_of self.new
            ≡ record (follow_of self.old) {
              chosen = true;
              wants = drop 1 self.old.wants ++
                  drop 1 (found_wants self.old.params
                  (newer_or_same (standing_of self.old.stands) (follow_of self.old).newer));
            }) }
    {
        self.wants.pop();
        self.chosen = true;
        let mut found = Runs::new(alloc);
        self.push_newer(&mut found)?;
        found.pop();
        self.wants.append(found)
    }

    fn take_checkpoint(&mut self, alloc: Global, note: Note) -> Result<bool, AllocError>
        ensures { IfOk result (λ took. TookWant (follow_of self.old) (follow_of self.new) Checkpoint
            note took) }
    {
        let epoch = self.stands.epoch;
        if is_same(note, Note::Read(check_at(&self.params, epoch, 0))) {
            self.find_older(alloc)?;
            return Ok(true);
        }
        if is_same(note, Note::Read(check_at(&self.params, epoch.other(), 0))) {
            self.find_newer(alloc)?;
            return Ok(true);
        }
        Ok(false)
    }

    fn take_want(&mut self, alloc: Global, want: Want, note: Note) -> Result<bool, AllocError>
        ensures { IfOk result (λ took. TookWant (follow_of self.old) (follow_of self.new) want note
            took) }
    {
        match want {
            Want::Fixed {
                note: wanted,
                change,
            } => self.take_fixed(alloc, wanted, change, note),
            Want::Place { batch, place } => self.take_label(alloc, batch, place, note),
            Want::Record { batch } => self.take_record(alloc, batch, note),
            Want::Setting { register } => self.take_setting(register, note),
            Want::Checkpoint => self.take_checkpoint(alloc, note),
        }
    }

    // The next visit that is wanted.
    fn next_visit(&self) -> Option<Visit>
        ensures { MatchOption result (self.now.visits.items ≡ []) (λ v. self.now.visits.items
            ≡ v ∷ drop 1 self.now.visits.items) }
    {
        self.visits.front().copied()
    }

    // Takes a note, if it may stand next, but for the step that may come behind it.
    fn take(&mut self, alloc: Global, note: Note) -> Result<bool, AllocError>
        ensures { IfOk result (λ took. Took (follow_of self.old) (follow_of self.new) note took) }
    {
        match self.next_visit() {
            Some(visit) => self.take_visit(visit, note),
            None => match self.wants.first() {
                Some(want) => self.take_want(alloc, want, note),
                None => Ok(false),
            },
        }
    }

    // The batch that comes next.
    fn begin_batch(&mut self) -> Result<(), AllocError>
        requires { self.old.batch < self.old.params.batches }
        ensures { OnOk result ((follow_of self.old).wants ≡ []
            → follow_of self.new ≡ next_step (follow_of self.old)) }
    {
        let batch = self.batch;
        self.batch = batch + 1;
        if batch < self.stands.logged {
            return push_places(&self.params, batch, 0, &mut self.wants);
        }
        if batch == self.stands.logged && self.stands.maybe {
            return self.wants.push(Want::Record { batch });
        }
        let side = self.stands.epoch.other();
        push_batch(&self.params, side, batch, &mut self.wants)
    }

    #[tactic(auto, using(crate::proofs::Steps::step_end))]
    fn begin_end(&mut self, alloc: Global) -> Result<(), AllocError>
        requires { self.old.params.batches ≤ self.old.batch }
        ensures { OnOk result ((follow_of self.old).wants ≡ []
            → follow_of self.new ≡ next_step (follow_of self.old)) }
    {
        self.visits = final_visits(alloc, &self.params, &self.stands, &self.leaves)?;
        push_end(
            alloc,
            &self.params,
            &self.stands,
            &self.leaves,
            &mut self.wants,
        )
    }

    // Takes the next step up where nothing is wanted of the present one.
    fn go_on(&mut self, alloc: Global) -> Result<(), AllocError>
        ensures { OnOk result (follow_of self.new ≡ taken_up (follow_of self.old)) }
    {
        if !self.visits.is_empty() {
            return Ok(());
        }
        if !self.wants.is_empty() {
            return Ok(());
        }
        if !self.runs {
            return Ok(());
        }
        if self.batch < self.params.batches {
            self.begin_batch()
        } else {
            self.begin_end(alloc)
        }
    }

    #[tactic(auto, using(crate::proofs::Slots::refuses_note))]
    fn next_note(&mut self, alloc: Global, note: Note) -> Result<Option<Wanted>, AllocError>
        ensures { IfOk result (λ answer. MatchOption answer
            (TakesLine (follow_of self.old) (Line.Note note) (follow_of self.new))
            (λ wanted. (follow_of self.new ≡ follow_of self.old)
            × RefusesLine (follow_of self.old) (Line.Note note) wanted)) }
    {
        let took = self.take(alloc, note)?;
        if took {
            self.go_on(alloc)?;
            return Ok(None);
        }
        Ok(Some(self.wanted()))
    }

    /// Takes the next line, if it may stand there; else what may, and nothing changed.
    ///
    /// # Errors
    /// Out of memory. What is known is lost.
    #[tactic(auto, using(crate::proofs::Slots::refuses_bad))]
    pub fn next(&mut self, alloc: Global, line: &Line) -> Result<Option<Wanted>, AllocError>
        ensures { IfOk result (λ answer. MatchOption answer
            (TakesLine (follow_of self.old) line.now (follow_of self.new))
            (λ wanted. (follow_of self.new ≡ follow_of self.old)
            × RefusesLine (follow_of self.old) line.now wanted)) }
    {
        match line {
            Line::Start(p) => match FollowPlain::new(alloc, p) {
                Ok(known) => {
                    *self = known;
                    Ok(None)
                }
                Err(error) => Err(error),
            },
            Line::Open { mirrored } => match self.open(*mirrored) {
                Ok(()) => Ok(None),
                Err(error) => Err(error),
            },
            Line::Note(note) => self.next_note(alloc, *note),
            Line::Bad => Ok(Some(self.wanted())),
        }
    }
}

// Whether two notes are the same.
fn is_same(a: Note, b: Note) -> bool
    ensures { MatchBool result (a ≡ b) (a ≡ b → ⊥) }
{
    match (a, b) {
        (Note::Label(x), Note::Label(y)) => x == y,
        (Note::Read(x), Note::Read(y)) => x == y,
        (Note::Write(x), Note::Write(y)) => x == y,
        (Note::Sync, Note::Sync) => true,
        _ => false,
    }
}
