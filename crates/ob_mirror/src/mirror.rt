//! The mirror.

ghost use Rattle.std.specs.Prelude.{◌≡◌, ◌≤◌, ◌<◌, ◌+◌, ◌-◌, ℕ, [], length, Some, false};
ghost use denote.Param.Send.{IsSync};
ghost use Rattle.ob_lanes.specs.Hands.{IsPlaceRead, IsPlaceReady, hand_at};
ghost use Rattle.ob_mirror.specs.Laws.{counts_now_of_either, only_now_of_either, includes_reads_of_first};
ghost use Rattle.ob_mirror.specs.Asked.{IsLaneMade, IsLaneRead, IsAbsorbed, IsCellWritten, IsMadeSure};
ghost use Rattle.ob_mirror.specs.Both.{AreAsked, saturating_sum, with_refusal};
ghost use Rattle.ob_mirror.specs.Lanes.{AreLanesMade, IsReadOfEither};
ghost use Rattle.ob_mirror.specs.Reading.{IsPlaceReadOfEither};

use crate::halves::Halves;
use crate::lane::MirrorLane;
use crate::places::{Phase, Places, read_both};
use ob_base::Failed;
use ob_claims::{Claims, Round};
use ob_lanes::{Hand, Lanes, SealedJobs};
use ob_store::Store;
use std::thread::Threads;

/// Two stores that are lent and serve as one.
#[derive(Drop)]
pub struct Mirror<'a, A: Store, B: Store> {
    halves: Halves<'a, A, B>,
    places: Places<A::Lane, B::Lane>,
}

impl<'a, A: Store, B: Store> Mirror<'a, A, B> {
    /// Two stores as they are. It tells its cells where they read alike.
    pub fn over(
        first: &'a mut A,
        second: &'a mut B,
        places: Places<A::Lane, B::Lane>,
    ) -> Mirror<'a, A, B>
        ensures name { result.halves.first.ghost_name ≡ first.entry.ghost_name }
        ensures first { result.halves.first.now ≡ first.entry.now }
        ensures second_name { result.halves.second.ghost_name ≡ second.entry.ghost_name }
        ensures second { result.halves.second.now ≡ second.entry.now }
        ensures apart { result.halves.apart ≡ false }
        ensures first_then { result.halves.first_then.value ≡ first.entry.now }
        ensures second_then { result.halves.second_then.value ≡ second.entry.now }
        ensures failed { result.halves.failed ≡ 0 }
        ensures made { result.halves.made.events ≡ [] }
    {
        Mirror {
            halves: Halves::over(first, second),
            places,
        }
    }

    /// Gives both back.
    pub fn into_lent(self) -> (&'a mut A, &'a mut B)
        ensures name { result.0.ghost_name ≡ self.entry.halves.first.ghost_name }
        ensures first { result.0.now ≡ self.entry.halves.first.now }
        ensures second_name { result.1.ghost_name ≡ self.entry.halves.second.ghost_name }
        ensures second { result.1.now ≡ self.entry.halves.second.now }
    {
        let Mirror { halves, .. } = self;
        halves.into_lent()
    }
}

impl<'a, A: Store, B: Store> Store for Mirror<'a, A, B> {
    type Lane = MirrorLane<A, B>;

    ghost disk = { λ m. ⟦<Halves<'a, A, B> as Store>⟧.disk m.halves };

    ghost lane_faults = { λ lane. lane.second.failed };

    ghost lane_seen = { λ lane. Some lane.second.reads.events };

    ghost counts_now = { λ m t c le left. counts_now_of_either (A.disk m.halves.first.now) (B.disk m.halves.second.now) (A.counts_now m.halves.first.now) (B.counts_now m.halves.second.now) t c le left };

    ghost only_now = { λ m c left. only_now_of_either (A.disk m.halves.first.now) (B.disk m.halves.second.now) (A.only_now m.halves.first.now) (B.only_now m.halves.second.now) c left };

    ghost includes_reads = { λ m tells leaves. includes_reads_of_first (A.disk m.halves.first.now) (B.disk m.halves.second.now) _ (A.includes_reads m.halves.first.now) tells leaves };

    fn lane(&mut self) -> Result<MirrorLane<A, B>, Failed>
        ensures asked { IsLaneMade (λ lane. Some lane.second.reads.events) (λ lane. lane.second.failed)
            (⟦<Halves<'a, A, B> as Store>⟧.disk self.old.halves)
            (⟦<Halves<'a, A, B> as Store>⟧.disk self.new.halves) result }
        ensures halves { AreLanesMade A.lane_seen A.lane_faults B.lane_seen B.lane_faults A.disk
            B.disk self.old.halves.first.now self.new.halves.first.now
            self.old.halves.second.now self.new.halves.second.now result }
        ensures failed { self.new.halves.failed ≡ with_refusal result self.old.halves.failed }
    {
        self.halves.lane()
    }

    fn read(
        &self,
        lane: &mut MirrorLane<A, B>,
        cell: u64,
        out: &mut [u8; 128],
    ) -> Result<(), Failed>
        ensures asked { IsLaneRead (λ lane. Some lane.second.reads.events) (λ lane. lane.second.failed)
            (⟦<Halves<'a, A, B> as Store>⟧.disk self.now.halves) cell lane.old lane.new out.new
            result }
        ensures halves { IsReadOfEither A.lane_seen A.lane_faults B.lane_seen B.lane_faults
            (A.disk self.now.halves.first.now) (B.disk self.now.halves.second.now) cell lane.old
            lane.new out.new result }
        ensures failed { lane.new.second.failed ≡ with_refusal result lane.old.second.failed }
    {
        self.halves.read(lane, cell, out)
    }

    fn absorb(&mut self, lane: MirrorLane<A, B>)
        ensures asked { IsAbsorbed (λ lane. Some lane.second.reads.events) (λ lane. lane.second.failed) lane
            (⟦<Halves<'a, A, B> as Store>⟧.disk self.old.halves)
            (⟦<Halves<'a, A, B> as Store>⟧.disk self.new.halves) }
        ensures first { IsAbsorbed A.lane_seen A.lane_faults lane.first
            (A.disk self.old.halves.first.now) (A.disk self.new.halves.first.now) }
        ensures second { IsAbsorbed B.lane_seen B.lane_faults lane.second.lane
            (B.disk self.old.halves.second.now) (B.disk self.new.halves.second.now) }
        ensures failed { self.new.halves.failed ≡ saturating_sum self.old.halves.failed lane.second.failed }
    {
        self.halves.absorb(lane);
    }

    fn write(&mut self, cell: u64, bytes: &[u8; 128]) -> Result<(), Failed>
        requires { (A.disk self.old.halves.first.now).out
            + ((B.disk self.old.halves.second.now).out
            - (A.disk self.old.halves.first.now).out) ≡ 0 }
        ensures asked { IsCellWritten cell bytes.now
            (⟦<Halves<'a, A, B> as Store>⟧.disk self.old.halves)
            (⟦<Halves<'a, A, B> as Store>⟧.disk self.new.halves) result }
        ensures halves { AreAsked (IsCellWritten cell bytes.now) (A.disk self.old.halves.first.now)
            (A.disk self.new.halves.first.now) (B.disk self.old.halves.second.now)
            (B.disk self.new.halves.second.now) result }
        ensures failed { self.new.halves.failed ≡ with_refusal result self.old.halves.failed }
    {
        self.halves.write(cell, bytes)
    }

    fn sync(&mut self) -> Result<(), Failed>
        requires { (A.disk self.old.halves.first.now).out
            + ((B.disk self.old.halves.second.now).out
            - (A.disk self.old.halves.first.now).out) ≡ 0 }
        ensures asked { IsMadeSure
            (⟦<Halves<'a, A, B> as Store>⟧.disk self.old.halves)
            (⟦<Halves<'a, A, B> as Store>⟧.disk self.new.halves) result }
        ensures halves { AreAsked IsMadeSure (A.disk self.old.halves.first.now)
            (A.disk self.new.halves.first.now) (B.disk self.old.halves.second.now)
            (B.disk self.new.halves.second.now) result }
        ensures failed { self.new.halves.failed ≡ with_refusal result self.old.halves.failed }
    {
        self.halves.sync()
    }
}

impl<'a, A: Lanes, B: Store> Lanes for Mirror<'a, A, B> {
    fn read_parts<R: Threads + Sync>(
        &self,
        rt: &R,
        hands: &mut [Option<Hand<MirrorLane<A, B>>>],
        claims: &Claims,
        round: &Round,
        asked: &SealedJobs,
    )
        requires sync { IsSync R.row }
        requires few { length hands.old ≤ 16 }
        requires ready { (i : ℕ) → i < length hands.old
            → IsPlaceReady claims.now round.now (hand_at hands.old i) }
        requires jobs { round.now.count ≡ length asked.now.jobs.now }
        ensures many { length hands.new ≡ length hands.old }
        ensures each { (i : ℕ) → i < length hands.old
            → IsPlaceRead (⟦<Halves<'a, A, B> as Store>⟧.disk self.now.halves)
            (λ lane. Some lane.second.reads.events) (λ lane. lane.second.failed) claims.now
            round.now asked.now (hand_at hands.old i) (hand_at hands.new i) }
        ensures halves { (i : ℕ) → i < length hands.old
            → IsPlaceReadOfEither A.lane_seen A.lane_faults B.lane_seen B.lane_faults
            (A.disk self.now.halves.first.now) (B.disk self.now.halves.second.now) claims.now
            round.now asked.now (hand_at hands.old i) (hand_at hands.new i) }
    {
        let phase = Phase {
            claims,
            round,
            asked,
        };
        read_both(
            rt,
            &self.places,
            &*self.halves.first,
            &*self.halves.second,
            hands,
            &phase,
        );
    }
}
