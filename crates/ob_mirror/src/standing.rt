//! The laws of a mirror: each half stands alone.

ghost use Rattle.std.specs.Prelude.{◌≡◌};
ghost use Rattle.ob_mirror.specs.Standing.{EachStands, HalvesFollow};
ghost use Rattle.ob_mirror.specs.Telling.{Follows};

use crate::mirror::Mirror;
use ob_store::Store;

/// Of any two states of a mirror: what a crash between them leaves of either half alone is what it
/// leaves of the mirror, and what the mirror tells of its cells both halves read.
pub fn halves_stand<'a, A: Store, B: Store>(old: &Mirror<'a, A, B>, new: &Mirror<'a, A, B>)
    ensures { EachStands (A.disk old.now.halves.first.now) (A.disk new.now.halves.first.now)
        (B.disk old.now.halves.second.now) (B.disk new.now.halves.second.now)
        (⟦<Mirror<'a, A, B> as Store>⟧.disk old.now) (⟦<Mirror<'a, A, B> as Store>⟧.disk new.now) }
{
    let _ = old;
    let _ = new;
}

/// Of any two states of one mirror: since its halves were put together the first was asked for just
/// what the mirror's log has, and the second for the same in the same order, with some of the reads
/// left out: all of them, unless the first's count of faults rose. Neither's count has fallen. That
/// it is one mirror is told by its references, which stay from call to call, whatever code it was
/// lent to.
pub fn halves_are_asked<'a, A: Store, B: Store>(old: &Mirror<'a, A, B>, new: &Mirror<'a, A, B>)
    ensures { (⟦<Mirror<'a, A, B> as Store>⟧.disk new.now).anchors
        ≡ (⟦<Mirror<'a, A, B> as Store>⟧.disk old.now).anchors
        → Follows new.now.halves.made.events (A.disk old.now.halves.first_then.value)
        (A.disk new.now.halves.first.now) (B.disk old.now.halves.second_then.value)
        (B.disk new.now.halves.second.now) }
{
    let _ = old;
    let _ = new;
}

/// From call to call of a mirror the second half was asked for what the first was, in its order, with
/// some of the reads left out, and so for any calls one behind another.
pub fn halves_follow<A: Store, B: Store>()
    ensures { HalvesFollow ⟦<A as Store>⟧ ⟦<B as Store>⟧ }
{}
