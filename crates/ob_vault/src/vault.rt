//! The ring vault: a map by epochs over a store that is read and written by a public schedule.

ghost use Rattle.std.specs.Prelude.{◌≡◌, ◌≤◌, ◌<◌, ◌^◌, false, replicate};
ghost use Rattle.ob_base.specs.Planned.{most_jobs};
ghost use Rattle.ob_base.specs.Tree.{buckets};
ghost use Rattle.ob_end.specs.EndRuns.{IsEndReady};
ghost use Rattle.ob_vault.specs.Knowns.{kept_of_run};

use crate::known::knows;
use crate::lent::Lent;
use crate::measuring::measure_all;
use ob_base::{Fault, Key, Params, Value, Write};
use ob_cells::{Bench, Crew};
use ob_fetch::{Run, fetch};
use ob_lanes::Lanes;
use ob_opening::Opening;
use ob_ring::Index;
use ob_seal::Tape;
use ob_serial::{EndErr, Vault};
use ob_store::Watch;
use std::thread::Threads;

/// A map by epochs over a ring store and a tape that are lent. Which cells a fetch and the end of
/// an epoch read and write is fixed by the parameters and by random words: it tells nothing of the
/// keys. The lanes of its crew share what a fetch reads, and the lifts of an end, whose cells as many
/// threads seal. Neither takes memory.
#[derive(Drop)]
pub struct RingVault<'a, S: Lanes, T: Tape> {
    lent: Lent<'a, S, T>,
    crew: Crew<S::Lane>,
    bench: Bench,
    run: Run,
    index: Index,
    ghost known: { lent.known ≡ kept_of_run run },
    ghost small: { run.epoch < 2 ^ 62 },
    ghost generation: { run.sealer.generation < 2 ^ 62 },
    ghost manned: { most_jobs run.params ≤ crew.jobs },
    ghost ready: { run.spent ≡ false → ∥ IsEndReady run ∥₁ },
    ghost counted: { index ≡ replicate (buckets run.params) 0 },
}

impl<'a, S: Lanes, T: Tape> RingVault<'a, S, T> {
    ghost use Rattle.std.specs.FinMap as finite;
    ghost use Rattle.std.specs.Ordering.{nat_cmp};
    ghost use Rattle.std.specs.Prelude.{◌≡◌, ◌≤◌, ℕ, length};
    ghost use Rattle.ob_base.specs.declared.params.Params.{Params as Parameters};
    ghost use Rattle.ob_recover.specs.Fits.{IsPlannerFit};
    ghost use Rattle.ob_vault.specs.RingVaults.{RingSound, opened_ring, run_over};
    ghost use Rattle.ob_seal.specs.declared.keys.Keys.{Keys};
    ghost use Rattle.ob_serial.specs.Serial.{Map};
    ghost use Rattle.ob_stand.specs.Stands.{RingStanding};
    ghost use Rattle.ob_twin.specs.Opening.{GatesAre};
    ghost use Rattle.ob_opening.specs.Openings.{IsOpenedAt};

    /// A vault over a store that `prepare` opened, with the tape that it started, at the place of
    /// the running epoch that the opening found.
    pub fn over(store: &'a mut S, tape: &'a mut T, opening: Opening<S::Lane>) -> RingVault<'a, S, T>
        requires none_out { (S.disk store.old).out ≡ 0 }
        requires told { (S.disk store.old).tells
            → GatesAre opening.gates.epoch 5 (S.disk store.old).cells }
        requires params { opening.ring.p ≡ opening.params }
        requires left { opening.left ≤ opening.params.batches }
        requires fit { IsPlannerFit opening.ring }
        requires present { T.present tape.old ≡ opening.sealer.generation }
        requires drawn { length (T.drawn tape.old) ≡ 0 }
        ensures name { result.lent.store.ghost_name ≡ store.entry.ghost_name }
        ensures store { result.lent.store.now ≡ store.entry.now }
        ensures tape_name { result.lent.tape.ghost_name ≡ tape.entry.ghost_name }
        ensures tape { result.lent.tape.now ≡ tape.entry.now }
        ensures run { result.run ≡ run_over opening }
        ensures crew { result.crew ≡ opening.crew }
        // Where the store stood, it is sound with the map that stood, whatever crashes.
        ensures sound { (keys : Keys) (p : Parameters) (s : RingStanding) (content : Map nat_cmp)
            → (S.disk store.entry.now).tells
            → IsOpenedAt keys p s (S.disk store.entry.now) opening
            → ((k : ℕ) → s.map k ≡ finite.get content k)
            → RingSound result.run (S.disk result.lent.store.now) (opened_ring opening s content) }
    {
        let Opening {
            params,
            gates,
            sealer,
            epoch,
            left,
            ring,
            jobs,
            crew,
            bench,
            sheet,
            words,
            index,
        } = opening;
        let run = Run {
            params,
            gates,
            sealer,
            drawn: 0,
            epoch,
            left,
            spent: false,
            ring,
            jobs,
            sheet,
            words,
        };
        RingVault {
            lent: Lent {
                store,
                tape,
                known: knows(&run),
            },
            crew,
            bench,
            run,
            index,
        }
    }

    /// Gives back the store, with no lane out, and the tape that it was lent.
    pub fn into_lent(self) -> (&'a mut S, &'a mut T)
        ensures name { result.0.ghost_name ≡ self.entry.lent.store.ghost_name }
        ensures store { result.0.now ≡ self.entry.lent.store.now }
        ensures tape_name { result.1.ghost_name ≡ self.entry.lent.tape.ghost_name }
        ensures tape { result.1.now ≡ self.entry.lent.tape.now }
        ensures none_out { (S.disk result.0.now).out ≡ 0 }
    {
        let RingVault { lent, .. } = self;
        let Lent { store, tape, .. } = lent;
        (store, tape)
    }

    /// The generation that its epochs are sealed with.
    pub fn generation(&self) -> u64
        ensures { result ≡ self.now.run.sealer.generation }
    {
        let (generation, _) = self.run.sealer.next();
        generation
    }

    /// The parameters of its store.
    pub fn params(&self) -> Params
        ensures { result ≡ self.now.run.params }
    {
        self.run.params
    }
}

impl<'a, S: Lanes, T: Tape> Vault for RingVault<'a, S, T> {
    ghost use Rattle.std.specs.Prelude.{◌≡◌, refl};
    ghost use Rattle.ob_vault.specs.RingVaults.{RingCalled, RingHolds, RingSound, counts_of_run, lent_both, running};
    ghost use Rattle.ob_stand.specs.Stands.{StandsRing};

    ghost params = { λ v. v.run.params };

    ghost counts = { λ v. counts_of_run v.run };

    ghost holds = { λ v s. RingHolds v.run (S.disk v.lent.store.now) s };

    ghost sound = { λ v s. RingSound v.run (S.disk v.lent.store.now) s };

    ghost stands = { λ v image at. StandsRing v.run.sealer.keys v.run.params v.run.sealer.generation image at };

    ghost disk = { λ v. lent_both v.lent.store.ghost_name v.lent.tape.ghost_name (S.disk v.lent.store.now) };

    ghost called = { λ v call answer notes new. RingCalled S.disk (running v.lent.store.now (T.present v.lent.tape.now) (T.drawn v.lent.tape.now) v.crew.lanes v.run) (running new.lent.store.now (T.present new.lent.tape.now) (T.drawn new.lent.tape.now) new.crew.lanes new.run) notes call answer };

    fn epoch(&self) -> u64 {
        self.run.epoch
    }

    fn left(&self) -> u32 {
        self.run.left
    }

    fn spent(&self) -> bool {
        self.run.spent
    }

    fn fetch<R: Threads + Sync, W: Watch>(
        &mut self,
        rt: &R,
        asks: &[Option<Key>],
        out: &mut [Option<Value>],
        watch: &mut W,
    ) -> Result<(), Fault> {
        let lent = &mut self.lent;
        lent.known.spent = true;
        let result = fetch(
            rt,
            lent.store,
            lent.tape,
            &mut self.crew,
            &mut self.run,
            asks,
            out,
            watch,
        );
        lent.known = knows(&self.run);
        result
    }

    fn end<R: Threads + Sync, W: Watch>(
        &mut self,
        rt: &R,
        writes: &[Write],
        watch: &mut W,
    ) -> Result<(), EndErr> {
        measure_all(writes);
        let lent = &mut self.lent;
        lent.known.spent = true;
        let result = ob_end::end(
            rt,
            lent.store,
            lent.tape,
            &mut self.crew,
            &mut self.run,
            &mut self.index,
            &mut self.bench,
            writes,
            watch,
        );
        lent.known = knows(&self.run);
        result
    }

    ghost agrees = { λ v s holds. (holds.counts_are, holds.batches) };

    ghost sound_holds = { λ v s sound. sound.holds };

    ghost rests = { λ v s image sound left. sound.images image left };
}
