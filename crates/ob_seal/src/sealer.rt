//! Sealing and opening cells.

ghost use Rattle.std.specs.Prelude.{◌≡◌, ◌↔◌, ◌+◌, ◌≤◌, ◌<◌, ◌^◌, ℕ, List, length, IsErr, IfOk, OnOk, IfErr, OnErr, IfSome, IsSomeAnd, Ok};
ghost use Rattle.ob_seal.specs.Pads.{pad_of};
ghost use Rattle.ob_seal.specs.Seals.{sealed, sealed_front, stamped, identity_bytes};
ghost use Rattle.ob_seal.specs.Damage.{IsExpected, IsDamage, IsOtherIdentity, IsWrongTag};

use crate::{Keys, SealRun, cells};
use ob_base::{Check, Damaged, NUMBER_LIMIT, Worn, u64_at};
use std::marker::Model;

/// What a sealed cell holds. Its generation and number may be any, as far as none is expected.
#[derive(Clone, Copy, PartialEq, Eq)]
pub struct Opened {
    /// The generation of its seal.
    pub generation: u64,
    /// The number of its seal in that generation.
    pub number: u64,
    /// Its plain bytes.
    pub plain: [u8; 96],
}

/// Seals and stamps cells, and opens them.
///
/// A stamped cell is 112 plain bytes, then their tag. A sealed cell is its seal's generation and
/// number, 8 bytes each, low byte first, then 96 plain bytes changed by the seal's pad, then the
/// tag of these. A tag is the first 16 bytes of the SHA-256 digest (FIPS 180-4) of the tag key,
/// the cell's number in 8 bytes, low byte first, and the bytes before the tag. The pad of number n
/// of a generation is the words 24n to 24n + 23 of that stream of ChaCha20 (RFC 8439, with a
/// 64-bit counter and a 64-bit stream number) under the seal key, each low byte first.
///
/// Contracts see the keys, the generation, and the number of the next seal.
#[derive(Drop)]
pub struct Sealer {
    keys: Keys,
    generation: u64,
    next: u64,
}

impl Model for Sealer {
    ghost use Rattle.std.specs.Prelude.{◌≤◌, ◌^◌};
    ghost use Rattle.ob_seal.specs.Sealing.{Sealing};

    ghost Value = { Sealing };

    ghost view = { λ s. record { keys = s.keys; generation = s.generation; next = s.next } };

    ghost invariant = { λ s. s.next ≤ 2 ^ 62 };
}

// Where an identity is expected, the cell must keep that one.
fn check_identity(cell: u64, expected: Option<(u64, u64)>, opened: &Opened) -> Result<(), Damaged>
    ensures same { OnOk result (IsExpected expected opened.now.generation opened.now.number) }
    ensures other { IfErr result
        (λ d. IsSomeAnd expected
        (λ e. IsOtherIdentity cell (identity_bytes opened.now.generation opened.now.number)
        (identity_bytes e.0 e.1) d)) }
{
    let Some((generation, number)) = expected else {
        return Ok(());
    };
    if opened.generation == generation && opened.number == number {
        return Ok(());
    }
    Err(Damaged {
        cell,
        check: Check::Seal,
        kept: cells::identity_bytes(opened.generation, opened.number),
        computed: cells::identity_bytes(generation, number),
    })
}

impl Sealer {
    /// A sealer of a generation, whose first seal has the number 0.
    pub fn new(keys: &Keys, generation: u64) -> Sealer
        ensures { result ≡ record { keys = keys.now; generation = generation; next = 0 } }
    {
        Sealer {
            keys: *keys,
            generation,
            next: 0,
        }
    }

    /// The keys.
    pub fn keys(&self) -> Keys
        ensures { result ≡ self.now.keys }
    {
        self.keys
    }

    /// The generation, and the number of the next seal, at most `2^62`.
    pub fn next(&self) -> (u64, u64)
        ensures identity { result ≡ (self.now.generation, self.now.next) }
        ensures few { self.now.next ≤ 2 ^ 62 }
    {
        (self.generation, self.next)
    }

    /// Seals plain bytes for a cell, with the next number.
    ///
    /// # Errors
    /// Worn exactly where the next number is `2^62`. The sealer is as before.
    pub fn seal(&mut self, cell: u64, plain: &[u8; 96]) -> Result<[u8; 128], Worn>
        ensures sealed { IfOk result (λ bytes. bytes
            ≡ sealed self.old.keys cell self.old.generation self.old.next plain.now) }
        ensures next { OnOk result (self.new ≡ record self.old { next = self.old.next + 1 }) }
        ensures worn { IsErr result ↔ (self.old.next ≡ 2 ^ 62) }
        ensures number { IfErr result (λ worn. worn.number ≡ 2 ^ 62) }
        ensures after_worn { OnErr result (self.new ≡ self.old) }
    {
        let number = self.next;
        if number >= NUMBER_LIMIT {
            return Err(Worn { number });
        }
        let bytes = self.seal_at(cell, number, plain);
        self.next = number + 1;
        Ok(bytes)
    }

    /// Seals plain bytes for a cell, with a given number. It takes none: see `take`.
    pub fn seal_at(&self, cell: u64, number: u64, plain: &[u8; 96]) -> [u8; 128]
        requires { number < 2 ^ 62 }
        ensures { result ≡ sealed self.now.keys cell self.now.generation number plain.now }
    {
        let pad = cells::pad_of(&self.keys.seal, self.generation, number);
        self.seal_under(&pad, cell, number, plain)
    }

    // Seals plain bytes for a cell, with a given number, whose pad is at hand.
    pub(crate) fn seal_under(
        &self,
        pad: &[u8; 96],
        cell: u64,
        number: u64,
        plain: &[u8; 96],
    ) -> [u8; 128]
        requires { pad.now ≡ pad_of self.now.keys.seal self.now.generation number }
        ensures { result ≡ sealed self.now.keys cell self.now.generation number plain.now }
    {
        let identity = cells::identity_bytes(self.generation, number);
        let front = cells::front_of(&identity, &cells::xored(plain, pad));
        self.stamp(cell, &front)
    }

    /// What seals cells with the numbers from a given one on. It takes none: see `take`.
    pub fn run_from(&self, number: u64) -> SealRun
        requires { number ≤ 2 ^ 62 }
        ensures { result ≡ record self.now { next = number } }
    {
        let sealer = Sealer {
            keys: self.keys,
            generation: self.generation,
            next: number,
        };
        SealRun::new(sealer)
    }

    /// Takes the next number, which is then gone.
    pub fn take(&mut self) -> u64
        requires { self.old.next < 2 ^ 62 }
        ensures number { result ≡ self.old.next }
        ensures next { self.new ≡ record self.old { next = self.old.next + 1 } }
    {
        let number = self.next;
        self.next = number + 1;
        number
    }

    /// Opens the sealed bytes of a cell, whose generation and number may be expected ones.
    ///
    /// # Errors
    /// Damaged exactly where the tag isn't that of the bytes before it (check Tag, with both tags),
    /// or else where an identity is expected and the cell keeps another (check Seal, with both
    /// identities as the cell keeps them).
    pub fn unseal(
        &self,
        cell: u64,
        expected: Option<(u64, u64)>,
        bytes: &[u8; 128],
    ) -> Result<Opened, Damaged>
        ensures spelled { IfOk result (λ o. bytes.now
            ≡ sealed self.now.keys cell o.generation o.number o.plain) }
        ensures expected { IfOk result (λ o. IsExpected expected o.generation o.number) }
        ensures damaged { IfErr result (IsDamage self.now.keys cell expected bytes.now) }
        ensures round_trip { (g n : ℕ) (plain : List ℕ) → g < 2 ^ 64 → n < 2 ^ 64
            → length plain ≡ 96
            → bytes.now ≡ sealed self.now.keys cell g n plain → IsExpected expected g n
            → result ≡ Ok (record { generation = g; number = n; plain = plain }) }
    {
        let front = self.unstamp(cell, bytes)?;
        let opened = self.opened(&front);
        check_identity(cell, expected, &opened)?;
        Ok(opened)
    }

    // What a sealed cell holds that has these bytes before its tag.
    fn opened(&self, front: &[u8; 112]) -> Opened
        ensures { front.now
            ≡ sealed_front self.now.keys result.generation result.number result.plain }
    {
        let generation = u64_at(front, 0);
        let number = u64_at(front, 8);
        let pad = cells::pad_of(&self.keys.seal, generation, number);
        Opened {
            generation,
            number,
            plain: cells::xored(&cells::part_at(front, 16), &pad),
        }
    }

    /// Stamps plain bytes for a cell.
    pub fn stamp(&self, cell: u64, plain: &[u8; 112]) -> [u8; 128]
        ensures { result ≡ stamped self.now.keys cell plain.now }
    {
        cells::with_tag(plain, &cells::tag_of(&self.keys.tag, cell, plain))
    }

    /// The plain bytes of a stamped cell.
    ///
    /// # Errors
    /// Damaged exactly where the tag isn't that of the plain bytes (check Tag, with both tags).
    pub fn unstamp(&self, cell: u64, bytes: &[u8; 128]) -> Result<[u8; 112], Damaged>
        ensures spelled { IfOk result (λ plain. bytes.now ≡ stamped self.now.keys cell plain) }
        ensures damaged { IfErr result (IsWrongTag self.now.keys cell bytes.now) }
        ensures round_trip { (plain : List ℕ) → length plain ≡ 112
            → bytes.now ≡ stamped self.now.keys cell plain → result ≡ Ok plain }
    {
        let plain = cells::part_at(bytes, 0);
        let kept = cells::part_at(bytes, 112);
        let computed = cells::tag_of(&self.keys.tag, cell, &plain);
        if cells::is_same(&kept, &computed) {
            return Ok(plain);
        }
        Err(Damaged {
            cell,
            check: Check::Tag,
            kept,
            computed,
        })
    }
}
