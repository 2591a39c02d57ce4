//! The identity of a run's first seal.

ghost use Rattle.std.specs.Prelude.{◌≡◌};
ghost use Rattle.ob_seal.specs.Pieces.{onward};
ghost use Rattle.ob_cells.specs.Reads.{ReadsBack};

/// The identity of a run's first seal.
#[derive(Clone, Copy, PartialEq, Eq)]
pub struct Identity {
    /// Its generation.
    pub generation: u64,
    /// Its number in that generation. The run's next cells have the numbers behind it.
    pub number: u64,
}

impl Identity {
    /// The generation and number of the run's seal with this number, from 0. Seal numbers that were
    /// read go on modulo 2^64.
    pub fn seal_at(&self, i: u64) -> (u64, u64)
        ensures { result ≡ (self.now.generation, onward self.now.number i) }
    {
        (self.generation, self.number.wrapping_add(i))
    }
}

/// What was written is read again, and is no damage.
pub fn reads_back()
    ensures { ReadsBack }
{}
