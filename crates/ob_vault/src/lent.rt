//! What a ring vault was lent.

ghost use Rattle.std.specs.Prelude.{◌≡◌, ◌≤◌, ◌^◌, false, length};
ghost use Rattle.ob_twin.specs.Opening.{GatesAre};

use crate::known::Known;
use ob_seal::Tape;
use ob_store::Store;

// A store and a tape that are lent, with what the vault's run knows of them: a fact about them may
// not stand beside memory, so this part of the run is kept here too.
#[derive(Drop)]
pub struct Lent<'a, S: Store, T: Tape> {
    pub store: &'a mut S,
    pub tape: &'a mut T,
    pub known: Known,
    ghost none_out: { (S.disk store.now).out ≡ 0 },
    ghost told: { known.spent ≡ false → (S.disk store.now).tells → GatesAre known.gates.epoch 5 (S.disk store.now).cells },
    ghost present: { known.spent ≡ false → T.present tape.now ≡ known.generation },
    ghost drawn: { known.spent ≡ false → known.drawn ≡ length (T.drawn tape.now) },
    ghost small: { known.spent ≡ false → known.drawn ≤ 2 ^ 62 },
}
