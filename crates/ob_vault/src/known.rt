//! What a run knows of what it was lent.

ghost use Rattle.std.specs.Prelude.{◌≡◌};
ghost use Rattle.ob_vault.specs.Knowns.{kept_of_run};

use ob_fetch::Run;
use ob_twin::Gates;

// What a run knows of the store and of the tape that it was lent, and whether it serves no more.
#[derive(Clone, Copy)]
pub struct Known {
    pub gates: Gates,
    pub generation: u64,
    pub drawn: u64,
    pub spent: bool,
}

/// That of a run.
pub fn knows(run: &Run) -> Known
    ensures { result ≡ kept_of_run run.now }
{
    let (generation, _) = run.sealer.next();
    Known {
        gates: run.gates,
        generation,
        drawn: run.drawn,
        spent: run.spent,
    }
}
