//! What to do at a look.

ghost use Rattle.std.specs.Prelude.{◌≡◌};
ghost use Rattle.ob_desk.specs.Beats.{beat_kind};
ghost use Rattle.ob_driver.specs.Looks.{IsPlan};

use ob_desk::{Beat, Look};

/// What to do at a look.
#[derive(Clone, Copy)]
pub enum Plan {
    /// Keys are queued, and a batch is left.
    Fetch,
    /// The epoch has transactions, and no batch is to be fetched for it.
    End,
    /// It isn't due, or there is nothing to do.
    Rest,
    /// Each client has signed off, and no transaction waits for its epoch's end.
    Over,
}

/// What to do at this look.
pub fn decide<B: Beat>(beat: &mut B, look: &Look) -> Plan
    ensures may { IsPlan (beat_kind B.passes B.exact) look.now result }
    ensures anchors { B.anchors beat.new ≡ B.anchors beat.old }
{
    if look.clients == 0 && look.txns == 0 {
        return Plan::Over;
    }
    if look.clients > 0 && !beat.due(look.waiting, look.live, look.queued, look.left) {
        return Plan::Rest;
    }
    if look.queued > 0 && look.left > 0 {
        return Plan::Fetch;
    }
    if look.txns > 0 {
        return Plan::End;
    }
    Plan::Rest
}
