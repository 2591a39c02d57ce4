//! What an opening of a plain store found.

ghost use Rattle.std.specs.Prelude.{◌≡◌, ◌<◌, ◌^◌, length};

use ob_base::{Params, Value};
use ob_seal::Sealer;
use ob_twin::Gates;

/// What opening a store found: all that a vault over it begins with.
#[derive(Drop)]
pub struct Opening {
    /// The parameters of the store.
    pub params: Params,
    /// Which gates of its registers are open.
    pub gates: Gates,
    /// The sealer of the generation that began with this opening, below `2^62`. It has sealed
    /// nothing.
    pub sealer: Sealer,
    /// The last epoch that ended, below `2^62`.
    pub epoch: u64,
    /// The value of each key.
    pub values: Vec<Option<Value>>,
    /// Room for the next values of as many keys.
    pub next: Vec<Option<Value>>,
    pub ghost small: { epoch < 2 ^ 62 },
    pub ghost generation: { sealer.generation < 2 ^ 62 },
    pub ghost whole: { length values.items ≡ params.keys },
    pub ghost room: { length next.items ≡ params.keys },
}
