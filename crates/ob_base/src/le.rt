//! Little-endian numbers in a row of bytes.

ghost use Rattle.std.specs.Prelude.{◌≡◌, ◌+◌, ◌≤◌, length};
ghost use Rattle.std.specs.Int.{w32, w64, to_le_bytes};
ghost use Rattle.ob_base.specs.LittleEndian.{field_at, with_part};

/// The u32 whose 4 bytes stand from `at` on, low byte first.
pub fn u32_at(bytes: &[u8], at: usize) -> u32
    requires { at + 4 ≤ length bytes.now }
    ensures { result ≡ field_at w32 bytes.now at }
{
    let mut field = [0; 4];
    field.copy_from_slice(&bytes[at..at + 4]);
    u32::from_le_bytes(field)
}

/// The u64 whose 8 bytes stand from `at` on, low byte first.
pub fn u64_at(bytes: &[u8], at: usize) -> u64
    requires { at + 8 ≤ length bytes.now }
    ensures { result ≡ field_at w64 bytes.now at }
{
    let mut field = [0; 8];
    field.copy_from_slice(&bytes[at..at + 8]);
    u64::from_le_bytes(field)
}

/// Writes a u32 as 4 bytes from `at` on, low byte first. The other bytes stay.
pub fn set_u32(bytes: &mut [u8], at: usize, number: u32)
    requires { at + 4 ≤ length bytes.old }
    ensures { bytes.new ≡ with_part bytes.old at (to_le_bytes w32 number) }
{
    bytes[at..at + 4].copy_from_slice(&number.to_le_bytes());
}

/// Writes a u64 as 8 bytes from `at` on, low byte first. The other bytes stay.
pub fn set_u64(bytes: &mut [u8], at: usize, number: u64)
    requires { at + 8 ≤ length bytes.old }
    ensures { bytes.new ≡ with_part bytes.old at (to_le_bytes w64 number) }
{
    bytes[at..at + 8].copy_from_slice(&number.to_le_bytes());
}
