//! Who makes a client's calls.

ghost use Rattle.std.specs.Prelude.{◌≡◌, ◌≤◌, ℕ, All, List, ◌++◌};
ghost use Rattle.ob_desk.specs.Desk.{Call, Reply};
ghost use Rattle.ob_session.specs.Steps.{steps_of, Leads, IsOwn};
ghost use Rattle.ob_session.specs.Clients.{said_by, stands_after, IsOneCall};
ghost use Rattle.ob_session.specs.Agreeing.{Agrees};

use crate::made::Made;
use ob_desk::Desk;

/// How a client stands behind a step.
#[derive(Clone, Copy)]
pub enum Step {
    /// It can make its next call.
    Ran,
    /// Its last call can't be answered yet: a get is queued, or a transaction that asked to commit
    /// hasn't ended.
    Waits,
    /// It has signed off.
    Done,
}

/// What makes one client's calls, step by step.
///
/// Its meaning is a relation, `fits`: whether a list of calls with their answers may be all that it
/// has made. So nothing has to keep that list.
pub trait Runner: Drop {
    /// Its client's number.
    ghost client: { Self → ℕ };

    /// A number above every key that it names.
    ghost bound: { Self → ℕ };

    /// What a plan is.
    ghost Plan: { Type 0 };

    /// What it is to do. It stays the same.
    ghost plan: { Self → Plan };

    /// Whether these may be all the calls that it has made for its client.
    ghost fits: { Self → List (Call × Reply) → Type 0 };

    /// Which calls its client may make in a step, by what it is to do, the client's number and all
    /// that the client said before, with the answers.
    ghost turn: { Plan → ℕ → List (Call × Reply) → List (Call × Reply) → Type 0 };

    /// Makes the next call of its client, or the last one again where that is to be repeated; and
    /// none behind its sign-off. Where a call finds no memory it stops the desk. A desk that agrees
    /// with what the client was told takes each of these calls.
    fn step(&mut self, desk: &mut Desk) -> (Step, Made)
        requires bound { bound self.old ≤ desk.old.setup.params.keys }
        requires agrees { (said : List (Call × Reply)) × fits self.old said
            × Agrees desk.old (client self.old) said }
        ensures client { client self.new ≡ client self.old }
        ensures bound { bound self.new ≡ bound self.old }
        ensures plan { plan self.new ≡ plan self.old }
        ensures made { Leads desk.old (steps_of result.1) desk.new }
        // It makes one call, and none only behind its sign-off.
        ensures one { (said : List (Call × Reply)) → fits self.old said
            → IsOneCall said (steps_of result.1) }
        // That is what it is to do next.
        ensures turn { (said : List (Call × Reply)) → fits self.old said
            → turn (plan self.old) (client self.old) said (steps_of result.1) }
        // Its steps make its client's calls alone, besides `stop` for want of memory.
        ensures own { All (IsOwn (client self.old)) (steps_of result.1) }
        ensures fits { (said : List (Call × Reply)) → fits self.old said
            → fits self.new (said ++ said_by (client self.old) (steps_of result.1)) }
        ensures step { (said : List (Call × Reply)) → fits self.old said
            → result.0 ≡ stands_after (said ++ said_by (client self.old) (steps_of result.1)) };
}
