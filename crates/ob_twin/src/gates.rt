//! Which gates of the registers are known to be open.

ghost use Rattle.std.specs.Prelude.{◌≡◌, false};

/// Which gates of a register are known to be open.
#[derive(Clone, Copy)]
pub struct Open {
    pub zero: bool,
    pub one: bool,
}

/// Which gates of a store's registers are known to be open: those that a get read as open, or that
/// a set opened since.
#[derive(Clone, Copy)]
pub struct Gates {
    pub generation: Open,
    pub epoch: Open,
}

impl Gates {
    /// None is known to be open.
    pub fn new() -> Gates
        ensures generation { result.generation ≡ record { zero = false; one = false } }
        ensures epoch { result.epoch ≡ record { zero = false; one = false } }
    {
        let none = Open {
            zero: false,
            one: false,
        };
        Gates {
            generation: none,
            epoch: none,
        }
    }
}
