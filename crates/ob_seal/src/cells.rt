//! The bytes of a sealed cell.

// The parts of cells.

ghost use Rattle.std.specs.Prelude.{◌≡◌, ◌+◌, ◌≤◌, ◌↔◌, ◌++◌, ℕ, List, length, take, drop, IsTrue};
ghost use Rattle.ob_seal.specs.Pads.{pad_of, before_pad, xored};
ghost use Rattle.ob_seal.specs.Seals.{tag_of, identity_bytes};

use rand_chacha::ChaCha20Rng;
use rand_core::{SeedableRng, utils};
use sha2::{Digest, Sha256};

// The generator whose next words are the pad of a seal.
pub(crate) fn generator_at(seal_key: &[u8; 32], generation: u64, number: u64) -> ChaCha20Rng
    ensures { result ≡ before_pad seal_key.now generation number }
{
    let mut generator = ChaCha20Rng::from_seed(*seal_key);
    generator.set_stream(generation);
    generator.set_word_pos(24 * u128::from(number));
    generator
}

// A generator's next 24 words: where it stands before a seal's pad they are that, and behind them it
// stands before the next seal's.
pub(crate) fn next_pad(generator: &mut ChaCha20Rng) -> [u8; 96]
    ensures { (key : List ℕ) (generation number : ℕ)
        → generator.old ≡ before_pad key generation number
        → (result ≡ pad_of key generation number)
        × (generator.new ≡ before_pad key generation (number + 1)) }
{
    let mut pad = [0; 96];
    utils::fill_bytes_via_u32(generator, &mut pad);
    pad
}

// The pad of a seal: 24 words of its generation's stream.
pub(crate) fn pad_of(seal_key: &[u8; 32], generation: u64, number: u64) -> [u8; 96]
    ensures { result ≡ pad_of seal_key.now generation number }
{
    next_pad(&mut generator_at(seal_key, generation, number))
}

// Each byte changed by the pad's.
pub(crate) fn xored(bytes: &[u8; 96], pad: &[u8; 96]) -> [u8; 96]
    ensures { result ≡ xored bytes.now pad.now }
{
    let mut out = [0; 96];
    for i in 0..96 {
        out[i] = bytes[i] ^ pad[i];
    }
    out
}

// The tag of a cell that begins with these bytes.
pub(crate) fn tag_of(tag_key: &[u8; 32], cell: u64, front: &[u8; 112]) -> [u8; 16]
    ensures { result ≡ tag_of tag_key.now cell front.now }
{
    let mut hasher = Sha256::new();
    hasher.update(tag_key);
    hasher.update(cell.to_le_bytes());
    hasher.update(front);
    part_at(&hasher.finalize(), 0)
}

// The bytes of the first, then those of the second.
pub(crate) fn join(all: &mut [u8], first: &[u8], second: &[u8])
    requires { length all.old ≡ length first.now + length second.now }
    ensures { all.new ≡ first.now ++ second.now }
{
    all[..first.len()].copy_from_slice(first);
    all[first.len()..].copy_from_slice(second);
}

// The bytes from a place on.
pub(crate) fn part_at<const N: usize>(bytes: &[u8], at: usize) -> [u8; N]
    requires { at + N ≤ length bytes.now }
    ensures { result ≡ take N (drop at bytes.now) }
{
    let mut part = [0; N];
    part.copy_from_slice(&bytes[at..at + N]);
    part
}

// A seal's identity, as a cell keeps it.
pub(crate) fn identity_bytes(generation: u64, number: u64) -> [u8; 16]
    ensures { result ≡ identity_bytes generation number }
{
    let mut identity = [0; 16];
    join(
        &mut identity,
        &generation.to_le_bytes(),
        &number.to_le_bytes(),
    );
    identity
}

// What a sealed cell has before its tag.
pub(crate) fn front_of(identity: &[u8; 16], cipher: &[u8; 96]) -> [u8; 112]
    ensures { result ≡ identity.now ++ cipher.now }
{
    let mut front = [0; 112];
    join(&mut front, identity, cipher);
    front
}

// The bytes before the tag, and the tag.
pub(crate) fn with_tag(front: &[u8; 112], tag: &[u8; 16]) -> [u8; 128]
    ensures { result ≡ front.now ++ tag.now }
{
    let mut cell = [0; 128];
    join(&mut cell, front, tag);
    cell
}

// Whether both are the same.
pub(crate) fn is_same(kept: &[u8; 16], computed: &[u8; 16]) -> bool
    ensures { IsTrue result ↔ (kept.now ≡ computed.now) }
{
    kept == computed
}
