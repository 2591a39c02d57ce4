//! The nine parameters of a store, in range.

ghost use Rattle.std.specs.Prelude.{◌≡◌, MatchResult, IfOk, Some, None};
ghost use Rattle.ob_base.specs.Parameters.{AreInRange};
ghost use Rattle.ob_base.specs.Fields.{is_within, first_out_of_range};

use crate::fault::Field;

/// The parameters of a store. Each value of this type is in range.
#[derive(Clone, Copy, PartialEq)]
pub struct Params {
    /// N: keys are the numbers below it, 1 to 65,536 of them, and at most `real * 2^levels`.
    pub keys: u32,
    /// L: the tree's levels are 0 to this one, which is 1 to 16.
    pub levels: u32,
    /// Z: real slots of a bucket, 1 to 16.
    pub real: u32,
    /// S: dummy slots of a bucket, 1 to 32.
    pub dummies: u32,
    /// R: read batches of an epoch, 1 to 16.
    pub batches: u32,
    /// BR: places of a read batch, 1 to 64.
    pub places: u32,
    /// BW: places of an epoch's write batch, 1 to 256.
    pub writes: u32,
    /// E: paths evicted in an epoch, 1 to 64.
    pub evictions: u32,
    /// T: rows that the stash may keep after an epoch, 1 to 1,024.
    pub room: u32,
    pub ghost in_range: { AreInRange keys levels real dummies batches places writes evictions room },
}

// Whether a number is from 1 to `most`.
fn is_within(most: u32, x: u32) -> bool
    ensures { result ≡ is_within 1 most x }
{
    1 <= x && x <= most
}

impl Params {
    /// Parameters from their numbers, in the order N L Z S R BR BW E T.
    ///
    /// # Errors
    /// The first field in that order whose number is out of its range. That there are at most
    /// `z * 2^l` keys is tested last, and names N.
    pub fn new(
        n: u32,
        l: u32,
        z: u32,
        s: u32,
        r: u32,
        br: u32,
        bw: u32,
        e: u32,
        t: u32,
    ) -> Result<Params, Field>
        ensures made { IfOk result (λ p. (p.keys ≡ n) × (p.levels ≡ l) × (p.real ≡ z)
            × (p.dummies ≡ s) × (p.batches ≡ r) × (p.places ≡ br) × (p.writes ≡ bw)
            × (p.evictions ≡ e) × (p.room ≡ t)) }
        ensures first { MatchResult result (λ p. first_out_of_range n l z s r br bw e t
            ≡ None) (λ field. first_out_of_range n l z s r br bw e t ≡ Some field) }
    {
        if !is_within(65536, n) {
            return Err(Field::N);
        }
        if !is_within(16, l) {
            return Err(Field::L);
        }
        if !is_within(16, z) {
            return Err(Field::Z);
        }
        if !is_within(32, s) {
            return Err(Field::S);
        }
        if !is_within(16, r) {
            return Err(Field::R);
        }
        if !is_within(64, br) {
            return Err(Field::BR);
        }
        if !is_within(256, bw) {
            return Err(Field::BW);
        }
        if !is_within(64, e) {
            return Err(Field::E);
        }
        if !is_within(1024, t) {
            return Err(Field::T);
        }
        if n > z << l {
            return Err(Field::N);
        }
        Ok(Params {
            keys: n,
            levels: l,
            real: z,
            dummies: s,
            batches: r,
            places: br,
            writes: bw,
            evictions: e,
            room: t,
        })
    }
}
