//! The lengths of an epoch's writes.

ghost use Rattle.std.specs.Prelude.{◌<◌, ℕ, length};
ghost use Rattle.ob_vault.specs.Knowns.{HasShortValue};
ghost use Rattle.ob_ring.specs.Writing.{write_at};

use ob_base::Write;

// Its value has at most 64 bytes, if it has one, as each has.
fn measure(write: &Write)
    ensures { HasShortValue write.now }
{
    if let Some(value) = &write.value {
        let _bytes = value.as_slice();
    }
}

/// Each of them.
pub fn measure_all(writes: &[Write])
    ensures { (i : ℕ) → i < length writes.now → HasShortValue (write_at writes.now i) }
{
    for write in writes {
        measure(write);
    }
}
