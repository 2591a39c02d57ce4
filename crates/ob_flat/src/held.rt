//! What a plain vault holds.

ghost use Rattle.std.specs.Prelude.{◌≡◌, ◌<◌, ◌^◌, false};
ghost use Rattle.ob_twin.specs.Opening.{GatesAre};

use ob_seal::Sealer;
use ob_store::Store;
use ob_twin::Gates;

// A store that is lent, as an opened vault knows it.
#[derive(Drop)]
pub struct Held<'a, S: Store> {
    pub store: &'a mut S,
    pub gates: Gates,
    pub sealer: Sealer,
    // the last epoch that ended
    pub epoch: u64,
    // it serves no more
    pub spent: bool,
    ghost small: { epoch < 2 ^ 62 },
    ghost generation: { sealer.generation < 2 ^ 62 },
    ghost none_out: { (S.disk store.now).out ≡ 0 },
    ghost told: { spent ≡ false → (S.disk store.now).tells → GatesAre gates.epoch 5 (S.disk store.now).cells },
}
