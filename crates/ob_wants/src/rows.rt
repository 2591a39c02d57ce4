//! Lists in rows of 48 places, and rows of bits, which are as long as they have to be.

ghost use Rattle.std.specs.Prelude.{◌≡◌, ◌+◌, ◌*◌, ◌^◌, ◌<◌, ◌≤◌, ◌==◌, ◌&&◌, ℕ, true, cond, length, OnOk, slice_index, slice_index_or};
ghost use Rattle.ob_wants.specs.Rows.{has_bit};

use std::alloc::AllocError;

// The places of a row.
const ROW: u64 = 48;

/// Where a place of a row lies.
pub(crate) fn index_of(row: u32, place: u64) -> usize
    requires { place < 48 }
    ensures { result ≡ row * 48 + place }
{
    (row as u64 * ROW + place) as usize
}

/// What lies at an index, or what nothing stands for.
pub(crate) fn at_or<T: Copy>(list: &[T], index: usize, none: T) -> T
    ensures { result ≡ slice_index_or list.now index none }
{
    if index < list.len() {
        list[index]
    } else {
        none
    }
}

// Lets a list be so long, with what nothing stands for.
fn lengthen<T: Copy>(list: &mut Vec<T>, len: usize, none: T) -> Result<(), AllocError>
    ensures long { OnOk result (len ≤ length list.new.items) }
    ensures same { OnOk result ((j : ℕ) → slice_index_or list.new.items j none
        ≡ slice_index_or list.old.items j none) }
{
    if list.len() < len {
        list.resize(len, none)?;
    }
    Ok(())
}

/// Puts a value at an index below `2^62`.
pub(crate) fn put_at<T: Copy>(
    list: &mut Vec<T>,
    none: T,
    index: usize,
    value: T,
) -> Result<(), AllocError>
    requires { index < 2 ^ 62 }
    ensures { OnOk result ((j : ℕ) → slice_index_or list.new.items j none
        ≡ cond (j == index) value (slice_index_or list.old.items j none)) }
{
    lengthen(list, index + 1, none)?;
    list[index] = value;
    Ok(())
}

/// Whether a bit of a word is set.
pub(crate) fn has_bit(word: u64, bit: u8) -> bool
    ensures { result ≡ has_bit word bit }
{
    if bit < 64 {
        word >> bit & 1 == 1
    } else {
        false
    }
}

// The word with one more bit set.
fn with_bit(word: u64, bit: u8) -> u64
    requires { bit < 64 }
    ensures { (x : ℕ) → has_bit result x ≡ cond (bit == x) true (has_bit word x) }
{
    word | 1 << bit
}

/// Sets a bit of a row.
pub(crate) fn set_bit(rows: &mut Vec<u64>, row: u32, bit: u8) -> Result<(), AllocError>
    requires { bit < 64 }
    ensures { OnOk result ((u x : ℕ) → has_bit (slice_index rows.new.items u) x
        ≡ cond ((row == u) && (bit == x)) true (has_bit (slice_index rows.old.items u) x)) }
{
    let index = row as usize;
    let word = at_or(rows, index, 0);
    put_at(rows, 0, index, with_bit(word, bit))
}
