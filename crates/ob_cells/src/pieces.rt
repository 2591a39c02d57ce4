//! Where the plain bytes of a run of cells come from.

ghost use Rattle.std.specs.Prelude.{◌≡◌, ◌++◌, ◌*◌, ℕ, List, take, drop, replicate};
ghost use Rattle.ob_seal.specs.Pieces.{piece};

use crate::put;

/// Where the plain bytes of a run's cells come from.
pub trait Pieces {
    /// The plain bytes of each cell, by its number in the run.
    ghost plain: { Self → ℕ → List ℕ };

    /// The plain bytes of the run's cell with this number, from 0.
    fn piece(&self, i: u64) -> [u8; 96]
        ensures { result ≡ plain self.now i };
}

/// Bytes in pieces of 96, with zeros behind the last.
#[derive(Clone, Copy)]
pub struct Cut<'a> {
    /// The bytes.
    pub bytes: &'a [u8],
}

// The bytes behind so many pieces.
fn rest_from(bytes: &[u8], i: u64) -> &[u8]
    ensures { result.now ≡ drop (96 * i) bytes.now }
{
    let from = 96usize.saturating_mul(i as usize).min(bytes.len());
    &bytes[from..]
}

// The first 96 bytes, with zeros behind the last.
fn filled(bytes: &[u8]) -> [u8; 96]
    ensures { result ≡ take 96 (bytes.now ++ replicate 96 0) }
{
    let mut piece = [0; 96];
    let few = bytes.len().min(96);
    put(&mut piece, 0, &bytes[..few]);
    piece
}

impl<'a> Pieces for Cut<'a> {
    ghost plain = { λ cut i. piece i cut.bytes.now };

    fn piece(&self, i: u64) -> [u8; 96] {
        filled(rest_from(self.bytes, i))
    }
}
