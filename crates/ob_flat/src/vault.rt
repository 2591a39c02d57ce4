//! The plain vault: a map by epochs, kept in memory, a row a key written at each end.

ghost use Rattle.std.specs.Prelude.{◌≡◌, length};

use crate::held::Held;
use crate::held_end::end_held;
use crate::opening::Opening;
use crate::values::{look_up, prepare_next};
use ob_base::{Fault, Key, Params, Value, Write};
use ob_serial::{EndErr, Vault};
use ob_store::{Store, Watch};
use std::mem;
use std::thread::Threads;

/// A map by epochs over a store that is lent. It keeps the value of each key in memory, so a fetch
/// reads nothing; the end of an epoch writes a row for every key, and takes no memory.
#[derive(Drop)]
pub struct FlatVault<'a, S: Store> {
    held: Held<'a, S>,
    params: Params,
    left: u32,
    values: Vec<Option<Value>>,
    next: Vec<Option<Value>>,
    ghost whole: { length values.items ≡ params.keys },
    ghost room: { length next.items ≡ params.keys },
}

impl<'a, S: Store> FlatVault<'a, S> {
    ghost use Rattle.std.specs.Prelude.{◌≡◌, false};
    ghost use Rattle.ob_store.specs.Images.{IsSynced};
    ghost use Rattle.ob_twin.specs.Opening.{GatesAre};
    ghost use Rattle.std.specs.Ordering.{nat_cmp};
    ghost use Rattle.ob_serial.specs.Serial.{Map};
    ghost use Rattle.ob_serial.specs.Vaults.{Standing};
    ghost use Rattle.ob_flat.specs.Calls.{FlatHolds, FlatSound, opened_at};
    ghost use Rattle.ob_flat.specs.Openings.{IsOpenedAt};
    ghost use Rattle.ob_flat.specs.Standing.{IsMapOf};

    /// A vault over a store that `prepare` opened, at the start of the epoch behind the last one
    /// that ended.
    pub fn over(store: &'a mut S, opening: Opening) -> FlatVault<'a, S>
        requires none_out { (S.disk store.old).out ≡ 0 }
        requires told { (S.disk store.old).tells
            → GatesAre opening.gates.epoch 5 (S.disk store.old).cells }
        ensures name { result.held.store.ghost_name ≡ store.entry.ghost_name }
        ensures store { result.held.store.now ≡ store.entry.now }
        ensures params { result.params ≡ opening.params }
        ensures sealer { result.held.sealer ≡ opening.sealer }
        ensures epoch { result.held.epoch ≡ opening.epoch }
        ensures gates { result.held.gates ≡ opening.gates }
        ensures values { result.values.items ≡ opening.values.items }
        ensures left { result.left ≡ opening.params.batches }
        ensures spent { result.held.spent ≡ false }
        // There is a map of what the opening found. The vault holds it,
        ensures some { (m : Map nat_cmp) × IsMapOf opening.values.items m }
        ensures holds { (at : Standing) → opening.epoch ≡ at.epoch
            → IsMapOf opening.values.items at.content
            → FlatHolds result.params
            (record { epoch = result.held.epoch; left = result.left; spent = result.held.spent })
            result.values.items (opened_at opening.params at) }
        // and where the store stands for that, it is sound.
        ensures sound { (at : Standing) → (S.disk store.entry.now).tells
            → IsSynced (S.disk store.entry.now)
            → IsOpenedAt opening.sealer.keys opening.params at opening (S.disk store.entry.now)
            → FlatSound result.held.sealer.keys result.params result.held.sealer.generation
            (record { epoch = result.held.epoch; left = result.left; spent = result.held.spent })
            result.values.items (S.disk result.held.store.now) (opened_at opening.params at) }
    {
        let Opening {
            params,
            gates,
            sealer,
            epoch,
            values,
            next,
        } = opening;
        FlatVault {
            held: Held {
                store,
                gates,
                sealer,
                epoch,
                spent: false,
            },
            params,
            left: params.batches,
            values,
            next,
        }
    }

    /// Gives back the store that it was lent, with no lane out.
    pub fn into_store(self) -> &'a mut S
        ensures name { result.ghost_name ≡ self.entry.held.store.ghost_name }
        ensures store { result.now ≡ self.entry.held.store.now }
        ensures none_out { (S.disk result.now).out ≡ 0 }
    {
        let FlatVault { held, .. } = self;
        let Held { store, .. } = held;
        store
    }

    /// The generation that its epochs are sealed with.
    pub fn generation(&self) -> u64
        ensures { result ≡ self.now.held.sealer.generation }
    {
        let (generation, _) = self.held.sealer.next();
        generation
    }

    /// The parameters of its store.
    pub fn params(&self) -> Params
        ensures { result ≡ self.now.params }
    {
        self.params
    }
}

impl<'a, S: Store> Vault for FlatVault<'a, S> {
    ghost use Rattle.std.specs.Prelude.{◌≡◌, refl};
    ghost use Rattle.ob_flat.specs.Calls.{FlatHolds, FlatSound, FlatCalled, lent};
    ghost use Rattle.ob_flat.specs.Standing.{StandsFlat};

    ghost params = { λ v. v.params };

    ghost counts = { λ v. record { epoch = v.held.epoch; left = v.left; spent = v.held.spent } };

    ghost holds = { λ v s. FlatHolds v.params (record { epoch = v.held.epoch; left = v.left; spent = v.held.spent }) v.values.items s };

    ghost sound = { λ v s. FlatSound v.held.sealer.keys v.params v.held.sealer.generation (record { epoch = v.held.epoch; left = v.left; spent = v.held.spent }) v.values.items (S.disk v.held.store.now) s };

    ghost stands = { λ v image at. StandsFlat v.held.sealer.keys v.params v.held.sealer.generation image at };

    ghost disk = { λ v. lent v.held.store.ghost_name (S.disk v.held.store.now) };

    ghost called = { λ v call answer notes new. FlatCalled v.params v.held.gates.epoch v.held.epoch new.values.items (record { store = v.held.store.now; sealing = v.held.sealer }) (record { store = new.held.store.now; sealing = new.held.sealer }) (S.disk v.held.store.now) (S.disk new.held.store.now) notes call answer new.params new.held.gates.epoch new.held.epoch };

    fn epoch(&self) -> u64 {
        self.held.epoch
    }

    fn left(&self) -> u32 {
        self.left
    }

    fn spent(&self) -> bool {
        self.held.spent
    }

    fn fetch<R: Threads + Sync, W: Watch>(
        &mut self,
        _rt: &R,
        asks: &[Option<Key>],
        out: &mut [Option<Value>],
        _watch: &mut W,
    ) -> Result<(), Fault> {
        look_up(&self.values, asks, out);
        self.left -= 1;
        Ok(())
    }

    fn end<R: Threads + Sync, W: Watch>(
        &mut self,
        _rt: &R,
        writes: &[Write],
        watch: &mut W,
    ) -> Result<(), EndErr> {
        prepare_next(&self.values, &mut self.next, writes);
        match end_held(&mut self.held, &self.next, watch) {
            Ok(()) => {}
            Err(refused) => return Err(refused),
        }
        mem::swap(&mut self.values, &mut self.next);
        self.left = self.params.batches;
        Ok(())
    }

    ghost agrees = { λ v s holds. (holds.counts_are, holds.batches) };

    ghost sound_holds = { λ v s sound. sound.holds };

    ghost rests = { λ v s image sound left. sound.images image left };
}
