//! Two stores that are lent, each asked what the mirror is asked.

ghost use Rattle.std.specs.Prelude.{◌≡◌, ◌+◌, ◌-◌, [], Some, false};
ghost use Rattle.ob_mirror.specs.Mirrored.{Agree, Together, mirrored};
ghost use Rattle.ob_mirror.specs.Telling.{Follows};
ghost use Rattle.ob_mirror.specs.Laws.{counts_now_of_either, only_now_of_either, includes_reads_of_first};
ghost use Rattle.ob_mirror.specs.Asked.{IsLaneMade, IsLaneRead, IsAbsorbed, IsCellWritten, IsMadeSure};
ghost use Rattle.ob_mirror.specs.Both.{AreAsked, both, saturating_sum, with_refusal};
ghost use Rattle.ob_mirror.specs.Lanes.{AreLanesMade, IsReadOfEither};

use crate::lane::{MirrorLane, SecondLane};
use crate::log::Log;
use ob_base::Failed;
use ob_store::{Event, Store};
use std::snapshot::Snapshot;

/// Two stores that are lent. What they were when they were put together is remembered for the
/// contracts alone.
#[derive(Drop)]
pub struct Halves<'a, A: Store, B: Store> {
    /// The first half.
    pub first: &'a mut A,
    /// The second half.
    pub second: &'a mut B,
    /// A write went to one of them alone, or may have.
    pub apart: bool,
    /// How many calls were refused.
    pub failed: u64,
    /// The calls of both, as those of one store.
    pub made: Log,
    /// The first half when they were put together.
    pub first_then: Snapshot<A>,
    /// The second half when they were put together.
    pub second_then: Snapshot<B>,
    ghost agree: { Agree (Together apart (A.disk first_then.value) (B.disk second_then.value))
        (A.disk first.now) (B.disk second.now) },
    pub ghost follows: { ∥ Follows made.events (A.disk first_then.value) (A.disk first.now)
        (B.disk second_then.value) (B.disk second.now) ∥₁ },
}

// Both are given back.
fn absorb_both<A: Store, B: Store>(first: &mut A, second: &mut B, one: A::Lane, two: B::Lane)
    ensures first { IsAbsorbed A.lane_seen A.lane_faults one (A.disk first.old) (A.disk first.new) }
    ensures second { IsAbsorbed B.lane_seen B.lane_faults two (B.disk second.old)
        (B.disk second.new) }
{
    first.absorb(one);
    second.absorb(two);
}

// Both are to write a cell.
fn write_both<A: Store, B: Store>(
    first: &mut A,
    second: &mut B,
    cell: u64,
    bytes: &[u8; 128],
) -> Result<(), Failed>
    requires first { (A.disk first.old).out ≡ 0 }
    requires second { (B.disk second.old).out ≡ 0 }
    ensures { AreAsked (IsCellWritten cell bytes.now) (A.disk first.old) (A.disk first.new)
        (B.disk second.old) (B.disk second.new) result }
{
    let one = first.write(cell, bytes);
    let two = second.write(cell, bytes);
    answer(one, two)
}

// Both are to make sure of what was written.
fn sync_both<A: Store, B: Store>(first: &mut A, second: &mut B) -> Result<(), Failed>
    requires first { (A.disk first.old).out ≡ 0 }
    requires second { (B.disk second.old).out ≡ 0 }
    ensures { AreAsked IsMadeSure (A.disk first.old) (A.disk first.new) (B.disk second.old)
        (B.disk second.new) result }
{
    let one = first.sync();
    let two = second.sync();
    answer(one, two)
}

// Refused where either call was.
fn answer(one: Result<(), Failed>, two: Result<(), Failed>) -> Result<(), Failed>
    ensures { result ≡ both one two }
{
    match one {
        Ok(()) => two,
        Err(Failed) => Err(Failed),
    }
}

impl<'a, A: Store, B: Store> Halves<'a, A, B> {
    /// Two stores as they are.
    pub fn over(first: &'a mut A, second: &'a mut B) -> Halves<'a, A, B>
        ensures name { result.first.ghost_name ≡ first.entry.ghost_name }
        ensures first { result.first.now ≡ first.entry.now }
        ensures second_name { result.second.ghost_name ≡ second.entry.ghost_name }
        ensures second { result.second.now ≡ second.entry.now }
        ensures apart { result.apart ≡ false }
        ensures first_then { result.first_then.value ≡ first.entry.now }
        ensures second_then { result.second_then.value ≡ second.entry.now }
        ensures failed { result.failed ≡ 0 }
        ensures made { result.made.events ≡ [] }
    {
        let first_then = Snapshot::of(&*first);
        let second_then = Snapshot::of(&*second);
        Halves {
            first,
            second,
            apart: false,
            failed: 0,
            made: Log::new(),
            first_then,
            second_then,
        }
    }

    /// Gives both back.
    pub fn into_lent(self) -> (&'a mut A, &'a mut B)
        ensures name { result.0.ghost_name ≡ self.entry.first.ghost_name }
        ensures first { result.0.now ≡ self.entry.first.now }
        ensures second_name { result.1.ghost_name ≡ self.entry.second.ghost_name }
        ensures second { result.1.now ≡ self.entry.second.now }
    {
        let Halves { first, second, .. } = self;
        (first, second)
    }
}

impl<'a, A: Store, B: Store> Store for Halves<'a, A, B> {
    type Lane = MirrorLane<A, B>;

    ghost disk = { λ m. mirrored m.first.ghost_name m.second.ghost_name m.apart (A.disk m.first_then.value) (B.disk m.second_then.value) m.made.events m.failed (A.disk m.first.now) (B.disk m.second.now) };

    ghost lane_faults = { λ lane. lane.second.failed };

    ghost lane_seen = { λ lane. Some lane.second.reads.events };

    ghost counts_now = { λ m t c le left. counts_now_of_either (A.disk m.first.now) (B.disk m.second.now) (A.counts_now m.first.now) (B.counts_now m.second.now) t c le left };

    ghost only_now = { λ m c left. only_now_of_either (A.disk m.first.now) (B.disk m.second.now) (A.only_now m.first.now) (B.only_now m.second.now) c left };

    ghost includes_reads = { λ m tells leaves. includes_reads_of_first (A.disk m.first.now) (B.disk m.second.now) _ (A.includes_reads m.first.now) tells leaves };

    fn lane(&mut self) -> Result<MirrorLane<A, B>, Failed>
        ensures asked { IsLaneMade (λ lane. Some lane.second.reads.events) (λ lane. lane.second.failed)
            (⟦<Halves<'a, A, B> as Store>⟧.disk self.old)
            (⟦<Halves<'a, A, B> as Store>⟧.disk self.new) result }
        ensures halves { AreLanesMade A.lane_seen A.lane_faults B.lane_seen B.lane_faults A.disk
            B.disk self.old.first.now self.new.first.now self.old.second.now self.new.second.now
            result }
        ensures failed { self.new.failed ≡ with_refusal result self.old.failed }
    {
        let had = match self.first.lane() {
            Ok(lane) => lane,
            Err(Failed) => {
                self.failed = self.failed.saturating_add(1);
                return Err(Failed);
            }
        };
        match self.second.lane() {
            Ok(lane) => Ok(MirrorLane {
                first: had,
                second: SecondLane {
                    lane,
                    failed: 0,
                    reads: Log::new(),
                },
            }),
            Err(Failed) => {
                self.first.absorb(had);
                self.failed = self.failed.saturating_add(1);
                Err(Failed)
            }
        }
    }

    fn read(
        &self,
        lane: &mut MirrorLane<A, B>,
        cell: u64,
        out: &mut [u8; 128],
    ) -> Result<(), Failed>
        ensures asked { IsLaneRead (λ lane. Some lane.second.reads.events) (λ lane. lane.second.failed)
            (⟦<Halves<'a, A, B> as Store>⟧.disk self.now) cell lane.old lane.new out.new result }
        ensures halves { IsReadOfEither A.lane_seen A.lane_faults B.lane_seen B.lane_faults
            (A.disk self.now.first.now) (B.disk self.now.second.now) cell lane.old lane.new out.new
            result }
        ensures failed { lane.new.second.failed ≡ with_refusal result lane.old.second.failed }
    {
        lane.second.reads = lane.second.reads.noted(&Event::Read(cell));
        match self.first.read(&mut lane.first, cell, out) {
            Ok(()) => return Ok(()),
            Err(Failed) => {}
        }
        match self.second.read(&mut lane.second.lane, cell, out) {
            Ok(()) => Ok(()),
            Err(Failed) => {
                lane.second.failed = lane.second.failed.saturating_add(1);
                Err(Failed)
            }
        }
    }

    fn absorb(&mut self, lane: MirrorLane<A, B>)
        ensures asked { IsAbsorbed (λ lane. Some lane.second.reads.events) (λ lane. lane.second.failed) lane
            (⟦<Halves<'a, A, B> as Store>⟧.disk self.old)
            (⟦<Halves<'a, A, B> as Store>⟧.disk self.new) }
        ensures first { IsAbsorbed A.lane_seen A.lane_faults lane.first (A.disk self.old.first.now)
            (A.disk self.new.first.now) }
        ensures second { IsAbsorbed B.lane_seen B.lane_faults lane.second.lane
            (B.disk self.old.second.now) (B.disk self.new.second.now) }
        ensures failed { self.new.failed ≡ saturating_sum self.old.failed lane.second.failed }
    {
        let MirrorLane { first, second } = lane;
        let SecondLane {
            lane: second,
            failed,
            reads,
        } = second;
        self.failed = self.failed.saturating_add(failed);
        self.made = self.made.joined(&reads);
        absorb_both(&mut *self.first, &mut *self.second, first, second);
    }

    fn write(&mut self, cell: u64, bytes: &[u8; 128]) -> Result<(), Failed>
        requires { (A.disk self.old.first.now).out
            + ((B.disk self.old.second.now).out - (A.disk self.old.first.now).out) ≡ 0 }
        ensures asked { IsCellWritten cell bytes.now
            (⟦<Halves<'a, A, B> as Store>⟧.disk self.old)
            (⟦<Halves<'a, A, B> as Store>⟧.disk self.new) result }
        ensures halves { AreAsked (IsCellWritten cell bytes.now) (A.disk self.old.first.now)
            (A.disk self.new.first.now) (B.disk self.old.second.now) (B.disk self.new.second.now)
            result }
        ensures failed { self.new.failed ≡ with_refusal result self.old.failed }
    {
        let was = self.apart;
        self.apart = true;
        self.made = self.made.noted(&Event::Write(cell));
        match write_both(&mut *self.first, &mut *self.second, cell, bytes) {
            Ok(()) => {
                self.apart = was;
                Ok(())
            }
            Err(Failed) => {
                self.failed = self.failed.saturating_add(1);
                Err(Failed)
            }
        }
    }

    fn sync(&mut self) -> Result<(), Failed>
        requires { (A.disk self.old.first.now).out
            + ((B.disk self.old.second.now).out - (A.disk self.old.first.now).out) ≡ 0 }
        ensures asked { IsMadeSure
            (⟦<Halves<'a, A, B> as Store>⟧.disk self.old)
            (⟦<Halves<'a, A, B> as Store>⟧.disk self.new) result }
        ensures halves { AreAsked IsMadeSure (A.disk self.old.first.now) (A.disk self.new.first.now)
            (B.disk self.old.second.now) (B.disk self.new.second.now) result }
        ensures failed { self.new.failed ≡ with_refusal result self.old.failed }
    {
        self.made = self.made.noted(&Event::Sync);
        match sync_both(&mut *self.first, &mut *self.second) {
            Ok(()) => Ok(()),
            Err(Failed) => {
                self.failed = self.failed.saturating_add(1);
                Err(Failed)
            }
        }
    }
}
