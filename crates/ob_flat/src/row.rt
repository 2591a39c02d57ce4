//! The bytes of a row.

ghost use Rattle.std.specs.Prelude.{◌≡◌, ◌+◌, ◌<◌, ◌^◌};
ghost use Rattle.ob_flat.specs.Rows.{row_bytes, IsShort};
ghost use Rattle.ob_flat.specs.Reads.{IsPlainRead};

use ob_base::{Damaged, Value};
use ob_cells::{bad_number, put};

// A row as it was read: its seal, and its value.
#[derive(Clone, Copy, Drop)]
pub struct Row {
    pub generation: u64,
    pub number: u64,
    pub value: Option<Value>,
}

/// The plain bytes of a row.
pub fn row_bytes(value: &Option<Value>) -> [u8; 96]
    ensures bytes { result ≡ row_bytes value.now }
    ensures short { IsShort value.now }
{
    let mut row = [0; 96];
    if let Some(value) = value {
        let bytes = value.as_slice();
        put(&mut row, 0, &[1, bytes.len() as u8]);
        put(&mut row, 2, bytes);
    }
    row
}

/// The value of a row's plain bytes.
pub fn value_in(cell: u64, plain: &[u8; 96]) -> Result<Option<Value>, Damaged>
    ensures { IsPlainRead cell plain.now result }
{
    let present = plain[0];
    if present > 1 {
        return Err(bad_number(cell, present as u64, 0));
    }
    let len = plain[1];
    if len > 64 {
        return Err(bad_number(cell, len as u64, 0));
    }
    if present == 0 {
        return Ok(None);
    }
    Ok(Value::new(&plain[2..2 + len as usize]))
}
