//! Bytes put over others.

ghost use Rattle.std.specs.Prelude.{◌≡◌, ◌≤◌, ◌+◌, length};
ghost use Rattle.ob_base.specs.LittleEndian.{with_part};

/// Writes bytes over those from a place on. The other bytes stay.
pub fn put(all: &mut [u8], at: usize, bytes: &[u8])
    requires { at + length bytes.now ≤ length all.old }
    ensures { all.new ≡ with_part all.old at bytes.now }
{
    all[at..at + bytes.len()].copy_from_slice(bytes);
}
