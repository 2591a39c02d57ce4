//! The laws of a run over a mirror: it begins where the first half stood, and its headline is one
//! of each half alone.

ghost use Rattle.ob_mirrored.specs.Behind.{JoinsStand};
ghost use Rattle.ob_mirrored.specs.Halves.{HalfKeeps};

use ob_mirror::Mirror;
use ob_store::Store;

/// What the headline says of a mirror that a crash leaves, a crash leaves of either half alone: so
/// each has every epoch that was reported.
pub fn headlines_are_of_halves<'a, A: Store + 'a, B: Store + 'a>()
    ensures first { HalfKeeps ⟦<Mirror<'a, A, B> as Store>⟧.disk
        (λ m. A.disk m.halves.first.now) }
    ensures second { HalfKeeps ⟦<Mirror<'a, A, B> as Store>⟧.disk
        (λ m. B.disk m.halves.second.now) }
{}

/// Behind a join the mirror stands where the first half stood, if the second told its cells and
/// images, and both tell their cells as one.
pub fn mirrors_stand<'a, A: Store + 'a, B: Store + 'a>()
    ensures { JoinsStand ⟦<Mirror<'a, A, B> as Store>⟧.disk (λ m. m.halves.first.now)
        (λ m. m.halves.second.now) A.disk B.disk }
{}
