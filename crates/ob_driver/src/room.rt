//! Room for what the driver takes of the desk and of the vault.

ghost use Rattle.std.specs.Prelude.{IfOk};
ghost use Rattle.ob_driver.specs.Rooms.{HasRoom};

use ob_base::{Key, Memory, Params, Value, Write};
use std::alloc::Global;

/// Room for a batch's keys and values, and for an epoch's writes. It is made before the first
/// round, and the driver takes no memory behind that.
#[derive(Drop)]
pub struct Room {
    pub asks: Vec<Option<Key>>,
    pub found: Vec<Option<Value>>,
    pub writes: Vec<Write>,
}

impl Room {
    /// Room for batches and writes of these parameters.
    ///
    /// # Errors
    /// Memory was wanting.
    pub fn new(alloc: Global, params: &Params) -> Result<Room, Memory>
        ensures { IfOk result (HasRoom params.now) }
    {
        let places = params.places as usize;
        let mut asks = Vec::new(alloc);
        asks.resize(places, None)?;
        let mut found = Vec::new(alloc);
        found.resize(places, None)?;
        let writes = Vec::with_capacity(alloc, params.writes as usize)?;
        Ok(Room {
            asks,
            found,
            writes,
        })
    }
}
