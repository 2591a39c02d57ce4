//! Stamps of zeros, for a store without keys.

ghost use Rattle.std.specs.Prelude.{◌≡◌, ◌↔◌, IsTrue, take, drop, replicate};

use crate::Stamper;
use ob_base::{Check, Damaged};

/// A tag of zeros in every cell, for a store without keys.
#[derive(Clone, Copy)]
pub struct ZeroTag;

impl Stamper for ZeroTag {
    ghost tag = { λ _ cell plain. replicate 16 0 };

    fn stamp(&self, _cell: u64, plain: &[u8; 112]) -> [u8; 128] {
        let mut bytes = [0; 128];
        bytes[..112].copy_from_slice(plain);
        bytes
    }

    fn unstamp(&self, cell: u64, bytes: &[u8; 128]) -> Result<[u8; 112], Damaged> {
        let kept = tag_in(bytes);
        if !is_zeros(&kept) {
            return Err(Damaged {
                cell,
                check: Check::Tag,
                kept,
                computed: [0; 16],
            });
        }
        Ok(plain_in(bytes))
    }
}

// The last 16 bytes of a cell.
fn tag_in(bytes: &[u8; 128]) -> [u8; 16]
    ensures { result ≡ drop 112 bytes.now }
{
    let mut tag = [0; 16];
    tag.copy_from_slice(&bytes[112..]);
    tag
}

// The first 112 bytes of a cell.
fn plain_in(bytes: &[u8; 128]) -> [u8; 112]
    ensures { result ≡ take 112 bytes.now }
{
    let mut plain = [0; 112];
    plain.copy_from_slice(&bytes[..112]);
    plain
}

fn is_zeros(tag: &[u8; 16]) -> bool
    ensures { IsTrue result ↔ tag.now ≡ replicate 16 0 }
{
    *tag == [0; 16]
}
